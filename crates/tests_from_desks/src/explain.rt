//! What is said about a ballot file, with each allocation refused in turn (tests/refused-memory).

use crate::inputs::{assert_same, lines_of, poll_of};
use std::alloc::{AllocError, Global};
use std::process::Abort;
use std::test::Fail;
use vote_explain_ballots::{Explained, explain_ballots};
use vote_poll::Poll;

const POLL: &str =
    "title = \"A poll\"\noptions = [\"A\", \"B\"]\nratios = [1, 1]\ndefault = \"None\"\nquorum = 0\nroll = [\"ada\", \"ben\", \"bob\", \"cleo\"]\nlast_envelope = 9\n";

/// A file with a line for each word of a refused line, and what is said about it. The last line would
/// be the head of a table, if it had another name. It does not end with a line feed.
const LINES: &str =
    "ada 1,2,3\nada 1,2,\x0B\nada 1,2\nbo 1,2,3\ndaniela -,-,1\ncloe 1,2,3\nada 3,2,1\ndan 1,\"\n\u{feff}ben 1,2,3\nben,2,A";

/// A file from Windows with a byte-order mark, and a last line without a line feed.
const OF_WINDOWS: &str = "\u{feff}ada 1,2,3\r\nben 1,2,3\r\nben 1,2,3cleo 1,2,3";

const SAID_OF_WINDOWS: &str =
    "the ballot file has carriage returns at the ends of its lines of bad shape, as on Windows: this can be mended with tail -c +4 < 'my ballots' | tr -d '\\r' > 'my ballots'.new\nballots:1: bad shape: column 1: byte-order mark; a ballot has the name there: a to z, 0 to 9, . or -\n  1 | \\xEF\\xBB\\xBFada 1,2,3\\x0D\n    | ^^^^\nballots:2: bad shape: column 10: carriage return; a ballot has a comma or its end there, or a second digit of the rank\n  2 | ben 1,2,3\\x0D\n    |          ^^^^\nballots:3: bad shape: column 10: \"c\"; a ballot has a comma or its end there, or a second digit of the rank\n  3 | ben 1,2,3cleo 1,2,3\n    |          ^\na ballot line of this poll: `ada 2,3,1`: the ranks of 1 A, 2 B, 3 None; 1 is the best\n3 lines: 0 valid, 3 refused, 0 of them late; 0 of 4 electors have a ballot; refused lines count for nothing\n";

const FINDINGS: &str =
    "lines are counted: taking one out, or adding one above line 9, changes which ballots are late\nballots:2: bad shape: column 9: U+000B; a ballot has a rank there: a number from 1 to 99, or a hyphen for an option that is not ranked, and so last\n  2 | ada 1,2,\\x0B\n    |         ^^^^\nballots:3: bad rank count: 2 ranks, the poll has 3 options\n  3 | ada 1,2\n    |     ^^^\nballots:4: bad not on roll: bo is not on the roll\n  4 | bo 1,2,3\n    | ^^\nballots:5: bad not on roll: daniela is not on the roll\n  5 | daniela -,-,1\n    | ^^^^^^^\nballots:6: bad not on roll: cloe is not on the roll; did you mean cleo?\n  6 | cloe 1,2,3\n    | ^^^^\nballots:8: bad shape: column 7: \"\"\"; a ballot has a rank there: a number from 1 to 99, or a hyphen for an option that is not ranked, and so last\n  8 | dan 1,\"\n    |       ^\nballots:9: bad shape: column 1: byte-order mark; a ballot has the name there: a to z, 0 to 9, . or -\n  9 | \\xEF\\xBB\\xBFben 1,2,3\n    | ^^^^\nballots:10: late: the last envelope is 9\n  10 | ben,2,A\n     | ^^^^^^^\na ballot line of this poll: `ada 2,3,1`: the ranks of 1 A, 2 B, 3 None; 1 is the best\n10 lines: 2 valid, 8 refused, 1 of them late; 1 of 4 electors have a ballot; refused lines count for nothing\n";

/// What is said about a ballot file for a poll.
fn explained_for(
    rt: &impl Abort,
    alloc: Global,
    poll: &Poll,
    text: &str,
) -> Result<Explained, AllocError> {
    let lines = lines_of(rt, alloc, text)?;
    let found = explain_ballots(alloc, poll, &lines, text.as_bytes(), Some("my ballots"));
    drop(lines);
    found
}

/// What is said about a ballot file for `POLL`.
fn explained(rt: &impl Abort, alloc: Global, text: &str) -> Result<Explained, AllocError> {
    let poll = poll_of(rt, alloc, POLL)?;
    let found = explained_for(rt, alloc, &poll, text);
    drop(poll);
    found
}

/// Asserts that this many lines of a ballot file are refused, and that exactly this is said about
/// it.
fn assert_explained(
    rt: &impl Abort,
    alloc: Global,
    text: &str,
    refused: u64,
    findings: &str,
) -> Result<(), Fail> {
    match explained(rt, alloc, text) {
        Ok(found) => {
            assert_same(rt, found.refused, refused);
            assert!(rt; found.text.as_str() == findings, "{}", found.text);
            Ok(())
        }
        Err(AllocError) => Err(Fail::from("refused")),
    }
}

#[test]
fn memory_of_explain_ballots(rt: HostRuntime) -> Result<(), Fail> {
    assert_explained(&rt, rt.alloc(), LINES, 8, FINDINGS)
}

#[test]
fn memory_of_explain_ballots_from_windows(rt: HostRuntime) -> Result<(), Fail> {
    assert_explained(&rt, rt.alloc(), OF_WINDOWS, 3, SAID_OF_WINDOWS)
}
