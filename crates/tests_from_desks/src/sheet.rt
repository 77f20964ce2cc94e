//! A whole sheet and the texts of `steps`, `standing` and `check`.
//!
//! tests/refused-memory refuses each allocation of the call in turn.

ghost use Rattle.vote_steps.specs.HeldLines.{HoldsLines};

use crate::inputs::{BALLOTS, CYCLE, SHEET, assert_same, lines_of, poll_of};
use std::alloc::{AllocError, Global};
use std::process::Abort;
use std::test::Fail;
use vote_count::Decision;
use vote_poll::{Lines, Poll};
use vote_sheet::{
    Verification, check_text, picture_of_box, sheet_of_box, standing_text, steps_text, verify_sheet,
};
use vote_steps::{BallotBox, cast_all};

const THREE_ELECTORS: &str =
    "title = \"A tie\"\noptions = [\"A\", \"B\", \"C\"]\nratios = [1, 1, 1]\ndefault = \"None\"\nquorum = 1\nroll = [\"v0\", \"v1\", \"v2\"]\n";

/// What is made from a poll and its lines.
#[derive(Clone, Copy)]
enum Made {
    Sheet,
    Picture,
    /// What is said about a text that is not a sheet of the lines.
    Difference(&'static str),
    Steps,
    Standing,
    Check,
}

/// Returns the text that was made, and asserts that option 1 wins.
fn won_by_first<R: Abort>(
    rt: &R,
    made: Result<(String, Decision), AllocError>,
) -> Result<String, AllocError> {
    let (text, decision) = made?;
    assert_same(rt, decision, Decision::Winner(1));
    Ok(text)
}

/// Returns what is said about a text, and asserts that the text differs from the sheet.
fn difference<R: Abort>(
    rt: &R,
    said: Result<(String, Verification), AllocError>,
) -> Result<String, AllocError> {
    let (text, found) = said?;
    assert_same(rt, found, Verification::Differs);
    Ok(text)
}

/// Returns the sheet of a box in which the lines were cast, or its picture, and asserts that option 1 wins; or returns in which
/// line a text differs from the sheet.
fn counted<R: Abort>(
    rt: &R,
    alloc: Global,
    poll: &Poll,
    lines: &Lines<'_>,
    ballot_box: &BallotBox,
    made: Made,
) -> Result<String, AllocError>
    requires { HoldsLines poll.now lines.now ballot_box.now }
{
    match made {
        Made::Difference(text) => {
            let said = verify_sheet(alloc, poll, lines, ballot_box, text.as_bytes());
            difference(rt, said)
        }
        Made::Picture => won_by_first(rt, picture_of_box(alloc, poll, lines, ballot_box, None)),
        _ => won_by_first(rt, sheet_of_box(alloc, poll, lines, ballot_box, None)),
    }
}

/// Casts and counts the lines, and returns what is made from them.
fn cast_and_counted<R: Abort>(
    rt: &R,
    alloc: Global,
    poll: &Poll,
    lines: &Lines<'_>,
    made: Made,
) -> Result<String, AllocError> {
    let ballot_box = cast_all(alloc, poll, lines)?;
    let text = counted(rt, alloc, poll, lines, &ballot_box, made);
    drop(ballot_box);
    text
}

/// Returns the text. If it needs a count, [`cast_and_counted`] makes it.
fn text_of<R: Abort>(
    rt: &R,
    alloc: Global,
    poll: &Poll,
    lines: &Lines<'_>,
    made: Made,
) -> Result<String, AllocError> {
    match made {
        Made::Steps => steps_text(alloc, poll, lines),
        Made::Standing => standing_text(alloc, poll, lines),
        Made::Check => check_text(alloc, poll),
        _ => cast_and_counted(rt, alloc, poll, lines, made),
    }
}

/// The text for a poll and the lines of a text.
fn made_for<R: Abort>(
    rt: &R,
    alloc: Global,
    poll: &Poll,
    ballots: &str,
    made: Made,
) -> Result<String, AllocError> {
    let lines = lines_of(rt, alloc, ballots)?;
    let text = text_of(rt, alloc, poll, &lines, made);
    drop(lines);
    text
}

/// The text for a poll and its lines.
fn made_of<R: Abort>(
    rt: &R,
    alloc: Global,
    poll: &str,
    ballots: &str,
    made: Made,
) -> Result<String, AllocError> {
    let poll = poll_of(rt, alloc, poll)?;
    let text = made_for(rt, alloc, &poll, ballots, made);
    drop(poll);
    text
}

/// Makes a text, and asserts that it is this one. Fails with `refused` if its memory was refused.
fn assert_made<R: Abort>(
    rt: &R,
    alloc: Global,
    poll: &str,
    ballots: &str,
    made: Made,
    whole: &str,
) -> Result<(), Fail> {
    match made_of(rt, alloc, poll, ballots, made) {
        Ok(text) => {
            assert!(rt; text.as_str() == whole, "{}", text);
            Ok(())
        }
        Err(AllocError) => Err(Fail::from("refused")),
    }
}

#[test]
fn memory_of_sheet_of_box(rt: HostRuntime) -> Result<(), Fail> {
    let alloc = rt.alloc();
    assert_made(&rt, alloc, CYCLE, BALLOTS, Made::Sheet, SHEET)
}

/// A picture with names that need backslashes.
const A_PICTURE: &str =
    "digraph \"\\\"\\\\\" {\n  rankdir=LR;\n  node [shape=box];\n  1 [label=\"1 A\\\"\", peripheries=2];\n  2 [label=\"2 \\\\N\"];\n  3 [label=\"3 C\\nquorum\", style=dotted];\n  4 [label=\"4 \\\\\"];\n  1 -> 2 [label=\"2 : 1\"];\n  1 -> 4 [label=\"3 : 0\"];\n  2 -> 4 [label=\"3 : 0\"];\n}\n";

const QUOTES_AND_BACKSLASHES: &str =
    "title = '\"\\'\noptions = ['A\"', '\\N', 'C']\nratios = [1, 1, 1]\ndefault = '\\'\nquorum = 1\nroll = ['v0', 'v1', 'v2']\n";

#[test]
fn memory_of_picture_of_box(rt: HostRuntime) -> Result<(), Fail> {
    let ballots = "v0 1,2,9,3\nv1 1,2,9,3\nv2 2,1,9,3\n";
    let alloc = rt.alloc();
    assert_made(
        &rt,
        alloc,
        QUOTES_AND_BACKSLASHES,
        ballots,
        Made::Picture,
        A_PICTURE,
    )
}

#[test]
fn memory_of_verify_sheet(rt: HostRuntime) -> Result<(), Fail> {
    let other = Made::Difference("Poll: A cycle\nElectors: 9\n\r");
    let said = "differs at line 3\nsheet: \\x0D\ncount: Quorum: 3Q, 5 votes\n";
    assert_made(&rt, rt.alloc(), CYCLE, BALLOTS, other, said)
}

#[test]
fn memory_of_steps_text(rt: HostRuntime) -> Result<(), Fail> {
    let ballots = "v0 1,2,3,4\nv1\nzz 1,2,3,4\nv0 2,1,3,4\n";
    let replies = "1 counted\n2 bad shape\n3 bad not on roll\n4 replaced\n";
    assert_made(
        &rt,
        rt.alloc(),
        THREE_ELECTORS,
        ballots,
        Made::Steps,
        replies,
    )
}

#[test]
fn memory_of_standing_text(rt: HostRuntime) -> Result<(), Fail> {
    let ballots = "v2 -,10,3,-\nv0 1,2,3,4\nv1\nv0 2,1,3,4\n";
    let standing = "v0 2,1,3,4\nv2 -,10,3,-\n";
    assert_made(
        &rt,
        rt.alloc(),
        THREE_ELECTORS,
        ballots,
        Made::Standing,
        standing,
    )
}

#[test]
fn memory_of_check_text(rt: HostRuntime) -> Result<(), Fail> {
    let sizes = "poll ok: 4 options, 9 electors\n";
    assert_made(&rt, rt.alloc(), CYCLE, "", Made::Check, sizes)
}
