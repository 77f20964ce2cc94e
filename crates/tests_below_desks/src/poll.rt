//! The tests of `vote_poll` and `vote_poll_text`: what a file means, and memory that is refused.

use crate::same::{assert_same, assert_that};
use std::alloc::{AllocError, Global};
use std::fmt::Display;
use std::process::Abort;
use std::test::Fail;
use vote_poll::{
    Lines, LinesFault, MAX_LINES, Poll, PollFault, Ranks, Reading, UNRANKED, push_shown, read_line,
};
use vote_poll_text::{count_feeds, split_at_feed, without_last_feed};

/// A poll of two options and the default, with the voters `v0` to `v10`.
const SMALL: &str =
    "title = \"Small\"\noptions = [\"A\", \"B\"]\nratios = [1, 3]\ndefault = \"None\"\nquorum = 2\nroll = [\"v0\", \"v1\", \"v2\", \"v3\", \"v4\", \"v5\", \"v6\", \"v7\", \"v8\", \"v9\", \"v10\"]\n";

/// A ballot of the last voter.
const BALLOT: &[u8] = b"v10 10,-,9";

/// The option with this name in the small poll, the voter with this name, and the reading of a line.
fn read_small(
    alloc: Global,
    name: &[u8],
    line: &[u8],
) -> Result<(Option<u8>, Option<usize>, Reading), PollFault> {
    let poll = Poll::from_text(alloc, SMALL.as_bytes())?;
    let (option, voter) = (poll.option_of(name), poll.voter_of(name));
    let reading = read_line(&poll, line);
    drop(poll);
    Ok((option, voter, reading))
}

/// The option with this name in the small poll, and the voter with this name.
fn named(alloc: Global, name: &[u8]) -> Result<(Option<u8>, Option<usize>), PollFault> {
    match read_small(alloc, name, BALLOT) {
        Ok((option, voter, _)) => Ok((option, voter)),
        Err(fault) => Err(fault),
    }
}

const NO_TEXT: &[&[u8]] = &[b"\xFF", b"A\xFF", b"v0\xFF"];

#[test]
fn names_that_are_no_text(rt: HostRuntime) {
    for name in NO_TEXT {
        assert_same(&rt, named(rt.alloc(), name), Ok((None, None)));
    }
}

/// Asserts the voter and the ranks of the ballot.
fn assert_ballot(rt: &impl Abort, voter: usize, ranks: &Ranks) {
    assert_that(rt, ranks.options() == 3);
    let read = [ranks.rank(1), ranks.rank(2), ranks.rank(3)];
    let keys = ranks.sort_keys();
    let keys = [keys[0], keys[1], keys[2], keys[3]];
    let right = (10, [Some(10), None, Some(9)], [10, UNRANKED, 9, 0]);
    assert_same(rt, (voter, read, keys), right);
}

#[test]
fn a_ballot_as_read(rt: HostRuntime) -> Result<(), Fail> {
    let (_, _, reading) = read_small(rt.alloc(), b"v10", BALLOT)?;
    match reading {
        Reading::Ballot { voter, ranks } => {
            assert_ballot(&rt, voter, &ranks);
            Ok(())
        }
        Reading::Bad(_) => Err(Fail::from("no ballot")),
    }
}

/// Whether a fault is displayed as `out of memory`.
fn is_told_as_memory<F: Display + Drop>(alloc: Global, fault: F) -> Result<bool, AllocError> {
    let text = fault.to_string(alloc)?;
    Ok(text.as_str() == "out of memory")
}

#[test]
fn words_of_refused_memory(rt: HostRuntime) {
    let of_poll = is_told_as_memory(rt.alloc(), PollFault::Memory);
    let of_lines = is_told_as_memory(rt.alloc(), LinesFault::Memory);
    assert_same(&rt, (of_poll, of_lines), (Ok(true), Ok(true)));
}

/// Asserts the title and the quorum of the small poll, and how it numbers its options and electors.
fn assert_numbers(rt: &impl Abort, poll: &Poll) {
    let options = (poll.options(), poll.option_of(b"None"));
    let electors = (poll.electors(), poll.voter_of(b"v10"));
    let named = (poll.title(), poll.quorum_multiple());
    let right = ((3, Some(3)), (11, Some(10)), ("Small", 2));
    assert_same(rt, (options, electors, named), right);
}

#[test]
fn memory_of_from_text(rt: HostRuntime) -> Result<(), Fail> {
    match Poll::from_text(rt.alloc(), SMALL.as_bytes()) {
        Ok(poll) => {
            assert_numbers(&rt, &poll);
            drop(poll);
            Ok(())
        }
        Err(fault) => {
            assert_same(&rt, fault, PollFault::Memory);
            Err(Fail::from("refused"))
        }
    }
}

#[test]
fn memory_of_from_text_at_a_fault(rt: HostRuntime) -> Result<(), Fail> {
    let alloc = rt.alloc();
    let refused =
        "title = \"T\"\noptions = [\"A\"]\nratios = [1, 1]\ndefault = \"None\"\nquorum = 11\nroll = [\"v0\"]\n";
    let fault = Poll::from_text(alloc, refused.as_bytes()).err();
    if fault == Some(PollFault::Memory) {
        return Err(Fail::from("refused"));
    }
    assert_same(&rt, fault, Some(PollFault::Ratio));
    Ok(())
}

/// More line feeds than are counted at once.
const FEEDS: &[u8] = &[b'\n'; 300];

#[test]
fn feeds_of_a_text(rt: HostRuntime) {
    assert_same(&rt, (count_feeds(FEEDS), count_feeds(b"a\nb")), (300, 1));
    assert_same(&rt, without_last_feed(b"a\n\n"), b"a\n");
    match split_at_feed(b"a\n\nb") {
        Some((line, rest)) => {
            assert_same(&rt, line, b"a");
            assert_same(&rt, rest, b"\nb");
        }
        None => assert_that(&rt, false),
    }
}

/// The fault of a text with one line more than a file may have. It is found without memory, so no other fault can come once
/// the text exists.
fn fault_of_too_many(alloc: Global) -> Result<Option<LinesFault>, AllocError> {
    let feeds = vec![in alloc; b'\n'; MAX_LINES + 1]?;
    Ok(Lines::split(alloc, &feeds).err())
}

/// Asserts that the lines are `a`, an empty line and `b`.
fn assert_three_lines(rt: &impl Abort, lines: &Lines<'_>) {
    assert_that(rt, lines.len() == 3);
    assert_same(rt, lines.line(0), b"a");
    assert_same(rt, lines.line(1), b"");
    assert_same(rt, lines.line(2), b"b");
}

#[test]
fn memory_of_split(rt: HostRuntime) -> Result<(), Fail> {
    let too_many = fault_of_too_many(rt.alloc())?;
    assert_same(&rt, too_many, Some(LinesFault::TooMany));
    match Lines::split(rt.alloc(), b"a\n\nb") {
        Ok(lines) => {
            assert_three_lines(&rt, &lines);
            drop(lines);
            Ok(())
        }
        Err(fault) => {
            assert_same(&rt, fault, LinesFault::Memory);
            Err(Fail::from("refused"))
        }
    }
}

/// How four of five bytes are shown.
fn shown(alloc: Global) -> Result<String, AllocError> {
    let mut text = String::new(alloc);
    push_shown(&mut text, b"A \r\xFFB", 4)?;
    Ok(text)
}

#[test]
fn memory_of_push_shown(rt: HostRuntime) -> Result<(), Fail> {
    match shown(rt.alloc()) {
        Ok(text) => {
            assert_same(&rt, text.as_str(), "A \\x0D\\xFF");
            Ok(())
        }
        Err(AllocError) => Err(Fail::from("refused")),
    }
}
