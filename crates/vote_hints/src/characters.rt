//! A character of a file, by its name.
ghost use Rattle.vote_hints.specs.Hints.{IsHint, Tells};

use crate::push_hint;
use std::alloc::AllocError;
use vote_poll_text::hex_digit;

/// The name of a character that is not seen, that looks like another one, or that keyboards lack; nothing for any other one.
fn character_name(character: char) -> &'static str {
    match character {
        '\0' => "NUL",
        '\t' => "tab",
        '\n' => "line feed",
        '\r' => "carriage return",
        ' ' => "space",
        '\u{A0}' | '\u{202F}' => "no-break space",
        '\u{2000}'..='\u{200A}' | '\u{205F}' | '\u{3000}' => "typographic space",
        '\u{85}' | '\u{2028}' | '\u{2029}' => "line separator",
        '\u{AD}' => "soft hyphen",
        '\u{200B}' => "zero-width space",
        '\u{200C}' => "zero-width non-joiner",
        '\u{200D}' => "zero-width joiner",
        '\u{2060}' => "word joiner",
        '\u{200E}' | '\u{200F}' | '\u{202A}'..='\u{202E}' | '\u{2066}'..='\u{2069}' =>
            "invisible direction mark",
        '\u{FEFF}' => "byte-order mark",
        '\u{2010}' | '\u{2011}' => "typographic hyphen",
        '\u{2012}' => "figure dash",
        '\u{2013}' => "en dash",
        '\u{2014}' => "em dash",
        '\u{2015}' => "horizontal bar",
        '\u{2212}' => "minus sign",
        '\u{2018}' => "left single curly quote",
        '\u{2019}' => "right single curly quote",
        '\u{201C}' => "left curly quote",
        '\u{201D}' => "right curly quote",
        '\u{201A}' | '\u{201E}' => "low curly quote",
        '\u{201B}' | '\u{201F}' => "reversed curly quote",
        '\u{AB}' | '\u{BB}' | '\u{2039}' | '\u{203A}' => "angle quote",
        '\u{B4}' | '\u{2032}' | '\u{2033}' => "acute accent or prime",
        '\u{2026}' => "ellipsis",
        '\u{60C}' | '\u{3001}' | '\u{FF0C}' => "comma beyond ASCII",
        '\u{37E}' | '\u{61B}' | '\u{FF1B}' => "semicolon beyond ASCII",
        '\u{660}'..='\u{669}' | '\u{6F0}'..='\u{6F9}' => "Arabic digit",
        '\u{FF10}'..='\u{FF19}' => "full-width digit",
        '\u{FF01}'..='\u{FF5E}' => "full-width character",
        '\u{C0}'..='\u{D6}' | '\u{D8}'..='\u{24F}' => "Latin letter beyond a to z",
        '\u{300}'..='\u{36F}' => "combining accent",
        '\u{370}'..='\u{3FF}' => "Greek letter",
        '\u{400}'..='\u{52F}' => "Cyrillic letter",
        '\u{2713}' | '\u{2714}' => "check mark",
        '\u{1F300}'..='\u{1FAFF}' => "emoji",
        _ => "",
    }
}

/// The character in UTF-8 with which a text begins, if it begins with one.
fn first_character(text: &[u8]) -> Option<char> {
    let length = match text {
        [0..=0x7F, ..] => 1,
        [0xC2..=0xDF, ..] => 2,
        [0xE0..=0xEF, ..] => 3,
        _ => 4,
    };
    let bytes = text.get(..length)?;
    std::str::from_utf8(bytes).unwrap_or("").chars().next()
}

/// Appends the number of a character, as `U+00E9`.
fn push_number(text: &mut String, number: u32) -> Result<(), AllocError>
    ensures { Tells result text.old IsHint text.new }
{
    let bytes = number.to_be_bytes();
    let (a, b) = (hex_digit(bytes[1] / 16), hex_digit(bytes[1] % 16));
    let (c, d) = (hex_digit(bytes[2] / 16), hex_digit(bytes[2] % 16));
    let (e, f) = (hex_digit(bytes[3] / 16), hex_digit(bytes[3] % 16));
    match number {
        0..=0xFFFF => push_hint(text, &[b'U', b'+', c, d, e, f]),
        0x1_0000..=0xF_FFFF => push_hint(text, &[b'U', b'+', b, c, d, e, f]),
        _ => push_hint(text, &[b'U', b'+', a, b, c, d, e, f]),
    }
}

/// Appends the character with which a text begins: by its name, as `space` or `left curly quote`, in quotes, as `";"`, or by its
/// number, as `U+4E2D`. A byte that is no UTF-8 is told as `byte 0xE9`, and an empty text as `end of line`.
///
/// # Errors
///
/// Memory ran out; a part may have been appended.
pub fn push_character(text: &mut String, bytes: &[u8]) -> Result<(), AllocError>
    ensures { Tells result text.old IsHint text.new }
{
    match (first_character(bytes), bytes) {
        (Some(character @ '!'..='~'), _) => push_hint(text, &[b'"', character as u8, b'"']),
        (Some(character), _) => match character_name(character) {
            "" => push_number(text, character as u32),
            name => push_hint(text, name.as_bytes()),
        },
        (None, [byte, ..]) => {
            let (high, low) = (hex_digit(*byte / 16), hex_digit(*byte % 16));
            push_hint(text, &[b'b', b'y', b't', b'e', b' ', b'0', b'x', high, low])
        }
        (None, []) => push_hint(text, b"end of line"),
    }
}
