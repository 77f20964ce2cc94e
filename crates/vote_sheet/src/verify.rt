//! Compares a text with the sheets of a poll and its lines.

ghost use Rattle.std.specs.Prelude.{◌≡◌, ◌<◌, ◌≤◌, IfOk, OnOk, length, option_map, slice_get, string_bytes};
ghost use Rattle.vote_poll_text.specs.Adding.{Adds};
ghost use Rattle.vote_poll_text.specs.Lines.{lines_of};
ghost use Rattle.vote_steps.specs.HeldLines.{HoldsLines};
ghost use Rattle.vote_sheet.specs.Counted.{AddsLastLine, FinalSetIsKept, IsLastLine, IsWhole};
ghost use Rattle.vote_sheet.specs.Verify.{IsCasting, IsComparedWith, IsFound, IsVerification, SaysInWords, common_bytes, common_lines, difference_text, matching, shown_line, verified_text};

use crate::MAX_SHOWN_OF_LINE;
use crate::sheet::{Count, count_of_box, push_shared, sheet_is_unique};
use crate::sheet_text::{option_name, push_decision};
use std::alloc::{AllocError, Global};
use vote_count::{decide, decisions_are_determined, outcomes_are_determined};
use vote_poll::{Lines, Poll};
use vote_poll_text::{count_feeds, push_shown, split_at_feed, without_last_feed};
use vote_steps::BallotBox;

/// Whether a text is one of the sheets of a poll and its lines, and with which casting vote.
#[derive(Clone, Copy, Debug, PartialEq, Eq)]
pub enum Verification {
    /// The text is the sheet without a casting vote.
    Matches,
    /// The text is not that sheet, but the sheet with this option as the casting vote.
    MatchesCasting(u8),
    /// The text is none of the sheets.
    Differs,
}

/// The length in bytes of the common prefix of two texts.
fn common_bytes(text: &[u8], other: &[u8]) -> usize
    ensures agree { result ≡ common_bytes text.now other.now }
    ensures at_most { result ≤ length text.now }
{
    let mut count = 0;
    while count < text.len() && count < other.len() && text[count] == other[count] {
        count += 1;
    }
    count
}

/// The number of lines, each with its line feed, in the common prefix of two texts.
fn common_lines(text: &[u8], other: &[u8]) -> usize
    ensures { result ≡ common_lines text.now other.now }
{
    count_feeds(&text[..common_bytes(text, other)])
}

/// The line at this index, if there is one.
fn line_at(text: &[u8], place: usize) -> Option<&[u8]>
    ensures { option_map (λ line. line.now) result ≡ slice_get (lines_of text.now) place }
{
    if text.is_empty() {
        return None;
    }
    let mut rest = without_last_feed(text);
    for _ in 0..place {
        let (_, after) = split_at_feed(rest)?;
        rest = after;
    }
    match split_at_feed(rest) {
        Some((line, _)) => Some(line),
        None => Some(rest),
    }
}

/// The first bytes of the line at this index of the text, or a note that the text has ended.
fn push_shown_line(words: &mut String, text: &[u8], place: usize) -> Result<(), AllocError>
    ensures { Adds result words.old (shown_line (slice_get (lines_of text.now) place)) words.new }
{
    match line_at(text, place) {
        Some(line) => push_shown(words, line, MAX_SHOWN_OF_LINE),
        None => words.push_str("(end)"),
    }
}

/// The number, from 1, of the first line in which a text differs from a sheet, and this line of both.
#[tactic(auto, unfolding(crate::specs::Verify::difference_text))]
fn push_difference(words: &mut String, text: &[u8], sheet: &[u8]) -> Result<(), AllocError>
    ensures { Adds result words.old (difference_text text.now sheet.now) words.new }
{
    let before = common_lines(text, sheet);
    write!(words, "differs at line {}\nsheet: ", before + 1)?;
    push_shown_line(words, text, before)?;
    words.push_str("\ncount: ")?;
    push_shown_line(words, sheet, before)?;
    words.push_str("\n")
}

/// The words for a text that is the sheet with this casting vote.
#[tactic(auto, unfolding(crate::specs::Verify::verified_text))]
fn verified_text(alloc: Global, poll: &Poll, casting: Option<u8>) -> Result<String, AllocError>
    requires { IsCasting poll.now casting }
    ensures { IfOk result (λ words. string_bytes words ≡ verified_text poll.now.options casting) }
{
    match casting {
        Some(option) => {
            let name = option_name(poll, option);
            format!(in alloc; "verified, casting vote {option} {name}\n")
        }
        None => format!(in alloc; "verified\n"),
    }
}

/// The verification of a text that is the sheet with this casting vote.
fn matching(casting: Option<u8>) -> Verification
    ensures { result ≡ matching casting }
{
    match casting {
        Some(option) => Verification::MatchesCasting(option),
        None => Verification::Matches,
    }
}

/// Appends the last line of the sheet with this casting vote.
fn push_last_line(
    text: &mut String,
    poll: &Poll,
    count: &Count,
    casting: Option<u8>,
) -> Result<(), AllocError>
    requires { FinalSetIsKept poll.now count.now }
    ensures { OnOk result (AddsLastLine poll.now count.now casting text.old text.new) }
{
    let decision = decide(&count.verdict, casting);
    push_decision(text, poll, &count.verdict.final_set(), decision)
}

/// The number of lines that a text has in common with the last line of the sheet with this casting vote; `None` if it is that line.
fn compare(
    alloc: Global,
    poll: &Poll,
    count: &Count,
    casting: Option<u8>,
    text: &[u8],
) -> Result<Option<usize>, AllocError>
    requires { FinalSetIsKept poll.now count.now }
    ensures { IfOk result (IsComparedWith poll.now count.now casting text.now) }
{
    let mut last = String::new(alloc);
    push_last_line(&mut last, poll, count, casting)?;
    if last.as_bytes() == text {
        return Ok(None);
    }
    Ok(Some(common_lines(text, last.as_bytes())))
}

/// A casting vote, and the number of lines that its sheet has in common with a text.
#[derive(Clone, Copy)]
struct Candidate {
    casting: Option<u8>,
    lines: usize,
}

/// The sheet with this casting vote if it has more lines in common with the text, otherwise the closest so far.
fn closer(closest: Candidate, casting: Option<u8>, lines: usize) -> Candidate
    ensures longer { closest.lines < lines → result ≡ record { casting = casting; lines = lines } }
    ensures no_longer { lines ≤ closest.lines → result ≡ closest }
{
    if lines > closest.lines {
        Candidate { casting, lines }
    } else {
        closest
    }
}

/// Where a text was found among the sheets with all casting votes, in their order: none, and then each option by its number.
#[derive(Clone, Copy)]
enum Found {
    /// The text is the sheet with this casting vote, and with no earlier one.
    Same(Option<u8>),
    /// The text is none of the sheets. The sheet with this casting vote agrees longest, and no sheet with an earlier one agrees as
    /// long.
    Closest(Option<u8>),
}

/// Finds a text among the last lines of the sheets.
fn find_last(alloc: Global, poll: &Poll, count: &Count, text: &[u8]) -> Result<Found, AllocError>
    requires { FinalSetIsKept poll.now count.now }
    ensures { IfOk result (IsFound poll.now (IsLastLine poll.now count.now) text.now) }
{
    decisions_are_determined();
    let Some(lines) = compare(alloc, poll, count, None, text)? else {
        return Ok(Found::Same(None));
    };
    let mut closest = Candidate {
        casting: None,
        lines,
    };
    for before in 0..poll.options() {
        let casting = Some(before + 1);
        match compare(alloc, poll, count, casting, text)? {
            Some(lines) => closest = closer(closest, casting, lines),
            None => return Ok(Found::Same(casting)),
        }
    }
    Ok(Found::Closest(closest.casting))
}

/// Finds a text among the sheets with these shared lines. A text without these lines agrees equally long with all sheets.
fn find_sheet(
    alloc: Global,
    poll: &Poll,
    count: &Count,
    shared: &str,
    text: &[u8],
) -> Result<Found, AllocError>
    requires { FinalSetIsKept poll.now count.now }
    ensures { IfOk result (IsFound poll.now (IsWhole poll.now count.now shared.now) text.now) }
{
    match text.strip_prefix(shared.as_bytes()) {
        Some(rest) => find_last(alloc, poll, count, rest),
        None => Ok(Found::Closest(None)),
    }
}

/// The words for a text that differs from the sheet that agrees longest with it.
fn differing_words(alloc: Global, text: &[u8], sheet: &[u8]) -> Result<String, AllocError>
    ensures { IfOk result (λ words. string_bytes words ≡ difference_text text.now sheet.now) }
{
    let mut words = String::new(alloc);
    push_difference(&mut words, text, sheet)?;
    Ok(words)
}

/// Compares a text with the sheets of a closed box that holds the lines of the poll: the sheet without a casting vote, and the
/// sheets with each option as the casting vote. The words say which of them the text is, or in which line it first differs from the
/// sheet that agrees longest with it. Options are numbered from 1.
///
/// The votes are counted once. The lines that the sheets share are made and compared once, and then their last lines.
pub fn verify_sheet(
    alloc: Global,
    poll: &Poll,
    lines: &Lines<'_>,
    ballot_box: &BallotBox,
    text: &[u8],
) -> Result<(String, Verification), AllocError>
    requires { HoldsLines poll.now lines.now ballot_box.now }
    ensures verification { IfOk result (λ said. IsVerification poll.now lines.now text.now said.1) }
    ensures words { IfOk result (SaysInWords poll.now lines.now text.now) }
{
    outcomes_are_determined();
    sheet_is_unique();
    let count = count_of_box(alloc, poll, lines, ballot_box)?;
    let mut sheet = String::new(alloc);
    push_shared(&mut sheet, poll, &count)?;
    match find_sheet(alloc, poll, &count, sheet.as_str(), text)? {
        Found::Same(casting) => Ok((verified_text(alloc, poll, casting)?, matching(casting))),
        Found::Closest(casting) => {
            push_last_line(&mut sheet, poll, &count, casting)?;
            let words = differing_words(alloc, text, sheet.as_bytes())?;
            Ok((words, Verification::Differs))
        }
    }
}
