//! A line of a file, with a mark below a place in it.
ghost use Rattle.vote_hints.specs.Hints.{IsExcerpt, Tells};

use crate::{MAX_SHOWN, push_hint_line};
use std::alloc::{AllocError, Global};
use vote_poll_text::is_printable;

/// Adds a sign for each byte, as wide as the byte is shown.
fn push_signs(mark: &mut String, sign: &str, bytes: &[u8]) -> Result<(), AllocError> {
    for byte in bytes {
        for _place in 0..if is_printable(*byte) { 1 } else { 4 } {
            mark.push_str(sign)?;
        }
    }
    Ok(())
}

/// What is shown of a line around the place before which so many of its bytes are: what is before the place, and what is after it.
fn part_around(line: &[u8], place: usize) -> (&[u8], &[u8]) {
    let begin = place
        .saturating_sub(MAX_SHOWN / 2)
        .min(line.len().saturating_sub(MAX_SHOWN));
    let part = line.get(begin..).unwrap_or(b"");
    let part = part.get(..MAX_SHOWN).unwrap_or(part);
    part.split_at(place.saturating_sub(begin).min(part.len()))
}

/// Adds a line with its number, and a mark below the place before which so many of its bytes are, as wide as so many bytes.
///
/// # Errors
///
/// Memory ran out; a part may have been appended.
pub fn push_excerpt(
    alloc: Global,
    text: &mut String,
    number: usize,
    line: &[u8],
    place: usize,
    wide: usize,
) -> Result<(), AllocError>
    ensures { Tells result text.old IsExcerpt text.new }
{
    let (before, after) = part_around(line, place);
    let gutter = format!(in alloc; "  {number} ")?;
    let mut words = Vec::from_slice(alloc, gutter.as_bytes())?;
    words.extend_from_slice(b"| ")?;
    words.extend_from_slice(before)?;
    words.extend_from_slice(after)?;
    push_hint_line(text, &words)?;
    let mut mark = String::new(alloc);
    push_signs(&mut mark, " ", gutter.as_bytes())?;
    mark.push_str("| ")?;
    push_signs(&mut mark, " ", before)?;
    match after.get(..wide).unwrap_or(after) {
        [] => mark.push_str("^")?,
        marked => push_signs(&mut mark, "^", marked)?,
    }
    push_hint_line(text, mark.as_bytes())?;
    Ok(())
}
