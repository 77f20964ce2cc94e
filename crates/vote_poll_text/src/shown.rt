//! How a line of text shows the bytes of a file.

ghost use Rattle.std.specs.Prelude.{◌≡◌, ◌<◌};
ghost use Rattle.std.specs.List.{flat_map};
ghost use Rattle.vote_poll_text.specs.Adding.{Adds};
ghost use Rattle.vote_poll_text.specs.Shown.{hex_digit, shown, shown_byte};

use crate::names::is_printable;
use std::alloc::AllocError;

/// The hexadecimal digit with this value: `0` to `9`, or `A` to `F`.
pub fn hex_digit(value: u8) -> u8
    requires { value < 16 }
    ensures digit { result ≡ hex_digit value }
    ensures ascii { result < 128 }
{
    if value < 10 {
        b'0' + value
    } else {
        b'A' + (value - 10)
    }
}

/// Appends a byte: a printable one as it is, any other as its number, such as `\x0D`.
#[tactic(auto, unfolding(crate::specs::Shown::shown_byte))]
fn push_byte(text: &mut String, byte: u8) -> Result<(), AllocError>
    ensures { Adds result text.old (shown_byte byte) text.new }
{
    if is_printable(byte) {
        return text.push(byte as char);
    }
    text.push_str("\\x")?;
    text.push(hex_digit(byte / 16) as char)?;
    text.push(hex_digit(byte % 16) as char)
}

/// Appends the bytes, one after another.
fn push_bytes(text: &mut String, bytes: &[u8]) -> Result<(), AllocError>
    ensures { Adds result text.old (flat_map shown_byte bytes.now) text.new }
{
    for byte in bytes {
        push_byte(text, *byte)?;
    }
    Ok(())
}

/// Appends at most the first `most` bytes of a text: printable ASCII characters and spaces as they are, other bytes as
/// their numbers, such as `\x0D`. Nothing that it appends is a line feed, whatever the text.
///
/// # Errors
///
/// Memory ran out; some of the bytes may have been appended.
pub fn push_shown(text: &mut String, bytes: &[u8], most: usize) -> Result<(), AllocError>
    ensures { Adds result text.old (shown most bytes.now) text.new }
{
    if bytes.len() <= most {
        return push_bytes(text, bytes);
    }
    push_bytes(text, &bytes[..most])
}
