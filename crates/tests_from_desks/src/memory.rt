//! Counts of two files in memory. So the facts about files that report their bytes are about files that there are.

ghost use Rattle.vote_steps.specs.Desks.{AreDesks};
ghost use Rattle.vote_commands.specs.TakingVotes.{AreVotesTaken};

use crate::inputs::{BALLOTS, CYCLE, SHEET, assert_same};
use std::alloc::{AllocError, Global};
use std::sync::Wait;
use std::test::Fail;
use std::thread::Threads;
use vote_desks::{Audited, NoGate, VoteFault, take_votes};
use vote_memory::{MemoryCount, count_in_memory};
use vote_poll::{Lines, Poll};

/// Three ballots each that prefer A to B, B to C, and C to A.
const TIED: &str =
    "v0 1,2,3,4\nv1 1,2,3,4\nv2 1,2,3,4\nv3 3,1,2,4\nv4 3,1,2,4\nv5 3,1,2,4\nv6 2,3,1,4\nv7 2,3,1,4\nv8 2,3,1,4\n";

/// The sheet of these ballots with a casting vote for B.
const TIED_SHEET: &str =
    "Poll: A cycle\nElectors: 9\nQuorum: 3Q, 5 votes\nLines: 9\nValid: 9\nRefused: 0\nVoters: 9\nOptions:\n  1 ratio 1 A\n  2 ratio 1 B\n  3 ratio 1 C\n  4 default None\nVotes:\n        1     2     3     4\n  1     -     6     3     9\n  2     3     -     6     9\n  3     6     3     -     9\n  4     0     0     0     -\nDropped:\n  none\nDefeats:\n  1 over 2 by 6 to 3\n  1 over 4 by 9 to 0\n  2 over 3 by 6 to 3\n  2 over 4 by 9 to 0\n  3 over 1 by 6 to 3\n  3 over 4 by 9 to 0\nRound 1: 1 2 3\n  drop 1 over 2\n  drop 2 over 3\n  drop 3 over 1\nRound 2: 1 2 3\nWinner: 2 B by casting vote\n";

/// The exit status of a count of this poll and these ballots, what it writes after a first line, and whether nothing is written on
/// standard error. A casting vote is for B.
fn counted<R: Threads + Wait + Sync>(
    rt: &R,
    alloc: Global,
    poll: &str,
    ballots: &str,
    casting: bool,
) -> Result<(u8, Vec<u8>, bool), AllocError> {
    let mut output = Vec::new(alloc);
    output.extend_from_slice(b"first\n")?;
    let take = |poll: &Poll, lines: &Lines<'_>, desks: u8| -> Result<Audited, VoteFault>
        requires { AreDesks desks }
        ensures { AreVotesTaken poll.now lines.now desks result }
    { take_votes(rt, alloc, poll, lines, desks, &NoGate) };
    let MemoryCount {
        status,
        output,
        errors,
        files: _,
        input: _,
    } = count_in_memory(
        alloc,
        poll.as_bytes(),
        ballots.as_bytes(),
        casting,
        take,
        output,
    )?;
    Ok((
        status,
        output.into_writer(),
        errors.into_writer().is_empty(),
    ))
}

/// The exit status of this count, whether this text is all that it writes after a first line, and whether nothing is written on standard
/// error.
fn text_of<R: Threads + Wait + Sync>(
    rt: &R,
    alloc: Global,
    poll: &str,
    ballots: &str,
    casting: bool,
    text: &str,
) -> Result<(u8, bool, bool), AllocError> {
    let (status, written, is_silent) = counted(rt, alloc, poll, ballots, casting)?;
    let is_text = written.as_slice().strip_prefix(b"first\n") == Some(text.as_bytes());
    Ok((status, is_text, is_silent))
}

/// The exit status of this count, whether what it writes ends so, and whether nothing is written on standard error.
fn end_of<R: Threads + Wait + Sync>(
    rt: &R,
    alloc: Global,
    ballots: &str,
    last: &str,
) -> Result<(u8, bool, bool), AllocError> {
    let (status, written, is_silent) = counted(rt, alloc, CYCLE, ballots, false)?;
    let is_last = written.as_slice().ends_with(last.as_bytes());
    Ok((status, is_last, is_silent))
}

#[test]
fn a_count_in_memory_writes_the_sheet(rt: HostRuntime) -> Result<(), Fail> {
    let found = text_of(&rt, rt.alloc(), CYCLE, BALLOTS, false, SHEET)?;
    assert_same(&rt, found, (0, true, true));
    Ok(())
}

#[test]
fn a_casting_vote_in_memory_decides(rt: HostRuntime) -> Result<(), Fail> {
    let found = text_of(&rt, rt.alloc(), CYCLE, TIED, true, TIED_SHEET)?;
    assert_same(&rt, found, (0, true, true));
    Ok(())
}

#[test]
fn a_poll_in_memory_may_be_refused(rt: HostRuntime) -> Result<(), Fail> {
    let found = text_of(&rt, rt.alloc(), "title = 1\n", BALLOTS, false, "")?;
    assert_same(&rt, found, (3, true, false));
    Ok(())
}

/// Ballots by which each option wins in turn, and a tie: the exit status and the last line of the sheet.
const ENDS: &[(&str, u8, &str)] = &[
    (
        "v0 1,2,3,4\nv1 1,2,3,4\nv2 1,3,2,4\nv3 1,2,3,4\nv4 1,2,3,4\n",
        0,
        "\nWinner: 1 A\n",
    ),
    (
        "v0 2,1,3,4\nv1 2,1,3,4\nv2 3,1,2,4\nv3 2,1,3,4\nv4 2,1,3,4\n",
        0,
        "\nWinner: 2 B\n",
    ),
    (
        "v0 3,2,1,4\nv1 3,2,1,4\nv2 2,3,1,4\nv3 3,2,1,4\nv4 3,2,1,4\n",
        0,
        "\nWinner: 3 C\n",
    ),
    ("v0 2,2,2,1\n", 0, "\nWinner: 4 None\n"),
    (TIED, 1, "\nTie: 1 2 3\n"),
];

#[test]
fn no_count_is_given_up_where_there_is_memory(rt: HostRuntime) -> Result<(), Fail> {
    for line in ENDS {
        let (ballots, status, last) = *line;
        let found = end_of(&rt, rt.alloc(), ballots, last)?;
        assert_same(&rt, found, (status, true, true));
    }
    Ok(())
}
