//! What is said of a poll file that is no TOML.
//!
//! It is what kind of file it is, or where it leaves TOML, and what is there. At which place `toml`
//! finds the error no contract says.
ghost use Rattle.std.specs.Prelude.{◌≡◌, ◌==◌, [], IfOk, position, reverse, slice_index_or, string_bytes};
ghost use Rattle.vote_poll_text.specs.Adding.{Adds};
ghost use Rattle.vote_poll_text.specs.Lines.{parts_of};
ghost use Rattle.vote_hints.specs.Hints.{Tells};
ghost use Rattle.vote_explain_poll.specs.Findings.{IsLineShown};
ghost use Rattle.vote_explain_poll.specs.Syntax.{IsPlaceFinding, IsSyntaxFinding, begins_character, column_number, last_line, line_number, place_words};

use crate::full_lines::begins_as_ballots;
use crate::structure::{definition, structure_of};
use std::alloc::{AllocError, Global};
use vote_hints::{
    MAX_SHOWN, file_kind, push_character, push_excerpt, push_hint_line, push_mending,
};
use vote_poll_text::{count_feeds, push_shown, split_at_feed};

/// The first line of a text, without its line feed.
pub(crate) fn first_line(text: &[u8]) -> &[u8]
    ensures { result.now ≡ slice_index_or (parts_of text.now) 0 [] }
{
    split_at_feed(text).map_or(text, |(line, _)| line)
}

/// How many bytes of a text stand after its last line feed, if it has one.
fn length_after_feed(text: &[u8]) -> Option<usize>
    ensures { result ≡ position (λ byte. byte == 10) (reverse text.now) }
{
    text.iter().rev().position(|byte| *byte == b'\n')
}

/// What stands in a text after its last line feed.
fn last_line(text: &[u8]) -> &[u8]
    ensures { result.now ≡ last_line text.now }
{
    &text[text.len() - length_after_feed(text).unwrap_or(text.len())..]
}

/// Whether a byte of UTF-8 is the first one of a character.
fn begins_character(byte: u8) -> bool
    ensures { result ≡ begins_character byte }
{
    !matches!(byte, 0x80..=0xBF)
}

/// The column after the beginning of a line. Columns count characters.
fn column_number(before: &[u8]) -> usize
    ensures { result ≡ column_number before.now }
{
    let characters = before.iter().filter(|byte| begins_character(**byte));
    characters.count() + 1
}

/// The number of the line after the beginning of a text.
fn line_number(before: &[u8]) -> usize
    ensures { result ≡ line_number before.now }
{
    count_feeds(before) + 1
}

/// Adds that a finding is at the line and column of the poll before which this stands.
fn push_place(text: &mut String, before: &[u8]) -> Result<(), AllocError>
    ensures { Adds result text.old (place_words before.now) text.new }
{
    let (line, column) = (line_number(before), column_number(last_line(before)));
    write!(text, "poll:{line}:{column}: ")
}

/// Adds the name of what stands at a place, or at the end of a line of the last before it, if it is no printable ASCII. `left` and
/// `right` stand in its line before the place and after it.
fn push_sign(words: &mut String, left: &[u8], right: &[u8]) -> Result<(), AllocError> {
    let begin = left.iter().rposition(|byte| begins_character(*byte));
    let last = left.get(begin.unwrap_or(0)..).unwrap_or(b"");
    match (right, last) {
        ([] | [13], [0x80..=0xFF, ..]) => {
            words.push_str(": after ")?;
            push_character(words, last)
        }
        ([] | [13] | [b' '..=b'~', ..], _) => Ok(()),
        _ => {
            words.push_str(": ")?;
            push_character(words, right)
        }
    }
}

/// Adds what a text ends within.
fn push_unfinished(words: &mut String, text: &[u8]) -> Result<(), AllocError> {
    let Some((what, begin)) = structure_of(text, b"").open else {
        return Ok(());
    };
    let line = line_number(text.get(..begin).unwrap_or(b""));
    write!(
        words,
        "; the file ends within the {what} that begins in line {line}: its end may be missing"
    )
}

/// Adds both places of a key that is there twice, if the second begins the line `right` after this text.
fn push_both_places(words: &mut String, before: &[u8], right: &[u8]) -> Result<(), AllocError> {
    let key = definition(right);
    let first = structure_of(before, key).first;
    let Some(first) = first.filter(|_| last_line(before).trim_ascii().is_empty()) else {
        return Ok(());
    };
    let first = line_number(before.get(..first).unwrap_or(b""));
    let second = line_number(before);
    words.push_str(": ")?;
    push_shown(words, key, MAX_SHOWN)?;
    write!(words, " is in line {first} and in line {second}")
}

/// Adds what the format has in place of what `right` begins with, in a file in which this stands before: a comment of C, or JSON.
fn push_other_format(words: &mut String, before: &[u8], right: &[u8]) -> Result<(), AllocError> {
    match right {
        [b'/', b'/' | b'*', ..] => words.push_str("; a comment begins with #"),
        [b'{', ..] if before.trim_ascii().is_empty() => words.push_str(
            "; { begins JSON: a line of TOML is a key, = and its value",
        ),
        _ => Ok(()),
    }
}

/// What carriage returns in place of line feeds are.
const OLD_MAC: &str =
    ": carriage returns end the lines, as on old Macs, and not line feeds: this can be mended";

/// Adds what is said of a place in a text after the words of `toml`.
fn push_facts(
    words: &mut String,
    text: &[u8],
    at: usize,
    said: &str,
    file: Option<&str>,
) -> Result<(), AllocError> {
    if !text.contains(&b'\n') && text.contains(&b'\r') {
        return push_mending(words, OLD_MAC, "tr '\\r' '\\n'", "", file);
    }
    let (before, after) = text.split_at(at.min(text.len()));
    let right = first_line(after);
    if said == "duplicate key" {
        return push_both_places(words, before, right);
    }
    push_sign(words, last_line(before), right)?;
    push_other_format(words, before, right)?;
    match after.trim_ascii() {
        [] => push_unfinished(words, text),
        _ => Ok(()),
    }
}

/// Where the lines of a file begin, in their order.
pub(crate) fn line_begins(alloc: Global, file: &[u8]) -> Result<Vec<usize>, AllocError> {
    let mut begins = Vec::new(alloc);
    begins.push(0)?;
    for (place, byte) in file.iter().enumerate() {
        if *byte == b'\n' {
            begins.push(place.saturating_add(1))?;
        }
    }
    Ok(begins)
}

/// Adds the line of a place in a file whose lines begin at these places, where there is such a place, in which so many bytes are marked.
/// It reads that line alone: a file may have as many faults as bytes.
pub(crate) fn push_line_at(
    alloc: Global,
    text: &mut String,
    file: &[u8],
    begins: &[usize],
    place: Option<(usize, usize)>,
) -> Result<(), AllocError>
    ensures { Tells result text.old IsLineShown text.new }
{
    let Some((at, wide)) = place else {
        return Ok(());
    };
    let number = begins.partition_point(|begin| *begin <= at);
    let begin = begins.get(number.saturating_sub(1)).copied().unwrap_or(0);
    let line = first_line(file.get(begin..).unwrap_or(b""));
    push_excerpt(alloc, text, number, line, at.saturating_sub(begin), wide)?;
    Ok(())
}

/// The finding on a text that is no TOML, by its place, which is shown.
fn place_finding(
    alloc: Global,
    text: &[u8],
    error: &toml::de::Error,
    file: Option<&str>,
) -> Result<String, AllocError>
    ensures { IfOk result (λ finding. IsPlaceFinding text.now (string_bytes finding)) }
{
    let span = error.span().unwrap_or(0..0);
    let (at, wide) = (
        span.start.min(text.len()),
        span.end.saturating_sub(span.start),
    );
    let (before, _) = text.split_at(at);
    let left = last_line(before).len();
    let line = first_line(text.get(at.saturating_sub(left)..).unwrap_or(b""));
    let mut words = String::from_str(alloc, error.message())?;
    push_facts(&mut words, text, at, error.message(), file)?;
    let mut finding = String::new(alloc);
    push_place(&mut finding, before)?;
    push_hint_line(&mut finding, words.as_bytes())?;
    push_excerpt(alloc, &mut finding, line_number(before), line, left, wide)?;
    Ok(finding)
}

/// The finding on a text that is no TOML: what it is, that the files may be exchanged, or its place. `file` is the name of its file for a
/// command that mends it, where it has one.
pub(crate) fn syntax_finding(
    alloc: Global,
    text: &[u8],
    error: &toml::de::Error,
    file: Option<&str>,
) -> Result<String, AllocError>
    ensures { IfOk result (λ finding. IsSyntaxFinding text.now (string_bytes finding)) }
{
    if let Some(kind) = file_kind(text) {
        return format!(in alloc; "the poll file is {kind}; a poll is plain text in UTF-8\n");
    }
    if begins_as_ballots(text) {
        let exchanged = "the poll file looks like ballots: are the files exchanged?\n";
        return String::from_str(alloc, exchanged);
    }
    place_finding(alloc, text, error, file)
}
