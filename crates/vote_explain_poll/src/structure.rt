//! What a file in TOML ends within, and where a key is in it. All before the end has to be in order.

use crate::syntax::first_line;
use std::alloc::{AllocError, Global};

/// What a line defines: the key before its `=`, without quotation marks, or the name of a table in its brackets.
pub(crate) fn definition(line: &[u8]) -> &[u8] {
    let end = if line.starts_with(b"[") { b'#' } else { b'=' };
    let definition = line.split(|byte| *byte == end).next();
    let definition = definition.unwrap_or(line).trim_ascii();
    match definition {
        [b'"', key @ .., b'"'] => key,
        _ => definition,
    }
}

/// The marks around the text that begins here.
fn marks_of(text: &[u8]) -> &'static [u8] {
    match text {
        [b'"', b'"', b'"', ..] => b"\"\"\"",
        [b'\'', b'\'', b'\'', ..] => b"'''",
        [b'"', ..] => b"\"",
        _ => b"'",
    }
}

/// How many bytes the text that begins here has, with its marks, if it ends.
fn length_of_text(text: &[u8]) -> Option<usize> {
    let marks = marks_of(text);
    let mut is_escaped = false;
    for (place, byte) in text.iter().enumerate().skip(marks.len()) {
        let rest = text.get(place..).unwrap_or(b"").strip_prefix(marks);
        match rest {
            _ if is_escaped => is_escaped = false,
            // of four marks or five the first ones belong to the text
            Some(rest) if rest.first().copied() != marks.first().copied() => {
                return Some(place.saturating_add(marks.len()));
            }
            _ => is_escaped = *byte == b'\\' && marks.starts_with(b"\""),
        }
    }
    None
}

/// How many bytes a comment, a text or any other byte has that begins here; nothing for a text that does not end.
fn length_of_token(rest: &[u8]) -> Option<usize> {
    match rest {
        [b'#', ..] => Some(first_line(rest).len()),
        [b'"' | b'\'', ..] => length_of_text(rest),
        _ => Some(1),
    }
}

/// The structure of a file, as far as it is asked for. A place is a number of bytes before it.
#[derive(Clone, Copy, Drop)]
pub(crate) struct Structure {
    /// What the file ends within, and its place: a text, or else the outermost list or table.
    pub(crate) open: Option<(&'static str, usize)>,
    /// The place of the first line that defines a key in the last table, or that defines a table.
    pub(crate) first: Option<usize>,
    /// The place of the first line that defines a key above all tables.
    pub(crate) top: Option<usize>,
}

/// The structure of a file, and in it the first line that defines this key or table.
pub(crate) fn structure_of(file: &[u8], wanted: &[u8]) -> Structure {
    let (mut next, mut depth, mut begins_line) = (0, 0usize, true);
    let (mut open, mut first, mut top, mut is_above) = (None, None, None, true);
    for place in 0..file.len() {
        if place < next {
            continue;
        }
        let rest = file.get(place..).unwrap_or(b"");
        let is_top = begins_line && depth == 0;
        is_above = is_above && !(is_top && rest.starts_with(b"["));
        if is_top && definition(first_line(rest)) == wanted {
            first = first.or(Some(place));
            top = top.or(first.filter(|_| is_above));
        } else if is_top && rest.starts_with(b"[") && !wanted.starts_with(b"[") {
            first = None;
        }
        let Some(length) = length_of_token(rest) else {
            let open = Some(("text", place));
            return Structure { open, first, top };
        };
        next = place.saturating_add(length);
        begins_line = rest.starts_with(b"\n");
        match rest {
            [b'[', ..] if depth == 0 && !is_top => open = Some(("list", place)),
            [b'[' | b'{', ..] if depth == 0 => open = Some(("table", place)),
            _ => {}
        }
        match rest {
            [b'[' | b'{', ..] => depth = depth.saturating_add(1),
            [b']' | b'}', ..] => depth = depth.saturating_sub(1),
            _ => {}
        }
        open = open.filter(|_| depth > 0);
    }
    Structure { open, first, top }
}

/// The places of the texts in the list at a key that is above all tables, each with the number of its bytes.
pub(crate) fn texts_at(
    alloc: Global,
    file: &[u8],
    key: &[u8],
) -> Result<Vec<(usize, usize)>, AllocError> {
    let mut texts = Vec::new(alloc);
    let begin = structure_of(file, key).top.unwrap_or(file.len());
    let (mut next, mut depth) = (begin, 0usize);
    for place in begin..file.len() {
        if place < next {
            continue;
        }
        let rest = file.get(place..).unwrap_or(b"");
        let Some(length) = length_of_token(rest) else {
            return Ok(texts);
        };
        next = place.saturating_add(length);
        match rest {
            [b'[', ..] => depth = depth.saturating_add(1),
            [b']', ..] => return Ok(texts),
            [b'"' | b'\'', ..] if depth > 0 => texts.push((place, length))?,
            _ => {}
        }
    }
    Ok(texts)
}
