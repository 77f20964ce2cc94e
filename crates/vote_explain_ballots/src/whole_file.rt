//! What is remarked on a whole ballot file, and what lets only remarks through.
//!
//! A remark is one line of printable text: what the file is if it is no ballots, and how the ends
//! of its lines are mended.
ghost use Rattle.std.specs.Prelude.{◌≡◌, IfOk, IsTrue};
ghost use Rattle.std.specs.List.{list_all, list_any};
ghost use Rattle.vote_poll_text.specs.Names.{is_printable};
ghost use Rattle.vote_hints.specs.Hints.{Tells};
ghost use Rattle.vote_explain_ballots.specs.Remarks.{IsFileText, IsRemark, can_be_ballots, is_title};

use crate::findings::is_of_bad_shape;
use crate::{MARK, MOST_REMARK};
use std::alloc::{AllocError, Global};
use vote_hints::{file_kind, push_mending, unmarked};
use vote_poll::Lines;
use vote_poll_text::is_printable;
use vote_steps::Step;

/// The most bytes of a file's name in a command.
const MOST_NAME: usize = 200;

/// What is said of the ends of lines, and the command that mends them, with a pipe before it.
const OLD_MAC: (&str, &str) = (
    "has carriage returns at the ends of its lines, as on old Macs, and no line feeds: this can be mended",
    " | tr '\\r' '\\n'",
);

const WINDOWS: (&str, &str) = (
    "has carriage returns at the ends of its lines of bad shape, as on Windows: this can be mended",
    " | tr -d '\\r'",
);

const MARKED: (&str, &str) = ("begins with a byte-order mark: this can be mended", "");

/// Whether all bytes of a text are printable.
fn are_printable(text: &[u8]) -> bool
    ensures { result ≡ list_all is_printable text.now }
{
    text.iter().all(|byte| is_printable(*byte))
}

/// Whether a text is one line of printable text, and not too long.
fn is_remark(text: &str) -> bool
    ensures { IsTrue result → IsRemark text.now }
{
    let is_short = text.len() <= MOST_REMARK;
    is_short && are_printable(text.as_bytes())
}

/// Adds a remark. What is none is left out.
pub(crate) fn push_remark(text: &mut String, remark: &str) -> Result<(), AllocError>
    ensures { Tells result text.old IsRemark text.new }
{
    if !is_remark(remark) {
        return Ok(());
    }
    text.push_str(remark)
}

/// Adds a line with a remark on the file, if it is one.
fn push_file_line(text: &mut String, remark: &str) -> Result<(), AllocError>
    ensures { Tells result text.old IsFileText text.new }
{
    if remark.is_empty() || !is_remark(remark) {
        return Ok(());
    }
    writeln!(text, "the ballot file {remark}")
}

/// Whether a line begins as that of the title of a poll, perhaps behind a byte-order mark.
fn is_title(line: &[u8]) -> bool
    ensures { result ≡ is_title line.now }
{
    unmarked(line).starts_with(b"title =")
}

/// Whether a line is as that of the title of a poll.
#[tactic(auto, using(crate::proofs::Words::places))]
fn has_title(lines: &Lines<'_>) -> bool
    ensures { result ≡ list_any is_title lines.now }
{
    for place in 0..lines.len() {
        if is_title(lines.line(place)) {
            return true;
        }
    }
    false
}

/// Adds what a file is that is no ballots: another kind of file, by its first bytes, or else a poll.
fn push_kind(words: &mut String, text: &[u8]) -> Result<(), AllocError> {
    match file_kind(text) {
        Some(kind) => write!(words, "is {kind}; ballots are plain text in UTF-8"),
        None => words.push_str("looks like a poll: are the files exchanged?"),
    }
}

/// Whether no line feed is in the file, and a space is after a carriage return: so old Macs end lines.
fn is_of_old_mac(lines: &Lines<'_>, ended: bool) -> bool {
    if lines.len() != 1 || ended {
        return false;
    }
    let mut parts = lines.line(0).split(|byte| *byte == b'\r').skip(1);
    parts.any(|part| part.contains(&b' '))
}

/// Whether carriage returns end all lines of bad shape, as in a file from Windows, and are nowhere else in them. The last line need not
/// end as the others do, nor the first one if it has a mark.
fn is_of_windows(lines: &Lines<'_>, steps: &[Step], ended: bool) -> bool {
    let mut has_return = false;
    for place in 0..lines.len() {
        if !steps.get(place).is_some_and(is_of_bad_shape) {
            continue;
        }
        let line = lines.line(place);
        let is_last = place.saturating_add(1) == lines.len();
        let is_other = place == 0 && line.starts_with(MARK) || is_last && !ended;
        let front = line.strip_suffix(b"\r");
        if front.is_none() && !is_other || front.unwrap_or(line).contains(&b'\r') {
            return false;
        }
        has_return |= front.is_some();
    }
    has_return
}

/// Adds how the ends of the lines are mended, and a byte-order mark with them; nothing if there is nothing to mend.
fn push_ends(
    words: &mut String,
    lines: &Lines<'_>,
    text: &[u8],
    steps: &[Step],
    file: Option<&str>,
) -> Result<(), AllocError> {
    let ended = text.ends_with(b"\n");
    let file = file.filter(|name| name.len() <= MOST_NAME);
    let (cure, command) = if is_of_old_mac(lines, ended) {
        OLD_MAC
    } else if is_of_windows(lines, steps, ended) {
        WINDOWS
    } else {
        MARKED
    };
    if text.starts_with(MARK) && steps.first().is_some_and(is_of_bad_shape) {
        return push_mending(words, cure, "tail -c +4", command, file);
    }
    match command.strip_prefix(" | ") {
        Some(alone) => push_mending(words, cure, alone, "", file),
        None => Ok(()),
    }
}

/// Adds a line with a remark on a file whose lines these steps cast, if there is one, and says whether the file can be ballots. `file`
/// is the name of the file for a command that mends it, where it has one.
pub(crate) fn push_file_text(
    alloc: Global,
    text: &mut String,
    lines: &Lines<'_>,
    file_text: &[u8],
    steps: &[Step],
    file: Option<&str>,
) -> Result<bool, AllocError>
    ensures text { Tells result text.old IsFileText text.new }
    ensures is_text { IfOk result (λ is_text. is_text ≡ can_be_ballots file_text.now lines.now) }
{
    let is_text = file_kind(file_text).is_none() && !has_title(lines);
    let mut words = String::new(alloc);
    if is_text {
        push_ends(&mut words, lines, file_text, steps, file)?;
    } else {
        push_kind(&mut words, file_text)?;
    }
    push_file_line(text, words.as_str())?;
    Ok(is_text)
}
