//! What several of the tests share.
//!
//! It is an election, the reading of a poll and its lines when memory may be refused, and the
//! comparison of results.

use std::alloc::{AllocError, Global};
use std::fmt::Debug;
use std::process::Abort;
use vote_poll::{Lines, LinesFault, Poll, PollFault};

/// A poll of nine electors and three options.
pub(crate) const CYCLE: &str =
    "title = \"A cycle\"\noptions = [\"A\", \"B\", \"C\"]\nratios = [1, 1, 1]\ndefault = \"None\"\nquorum = 3\nroll = [\"v0\", \"v1\", \"v2\", \"v3\", \"v4\", \"v5\", \"v6\", \"v7\", \"v8\"]\n";

/// Nine ballots that prefer A to B, B to C, and C to A.
pub(crate) const BALLOTS: &str =
    "v0 1,2,3,4\nv1 1,2,3,4\nv2 1,2,3,4\nv3 1,2,3,4\nv4 3,1,2,4\nv5 3,1,2,4\nv6 3,1,2,4\nv7 2,3,1,4\nv8 2,3,1,4\n";

/// The sheet of these ballots.
pub(crate) const SHEET: &str =
    "Poll: A cycle\nElectors: 9\nQuorum: 3Q, 5 votes\nLines: 9\nValid: 9\nRefused: 0\nVoters: 9\nOptions:\n  1 ratio 1 A\n  2 ratio 1 B\n  3 ratio 1 C\n  4 default None\nVotes:\n        1     2     3     4\n  1     -     6     4     9\n  2     3     -     7     9\n  3     5     2     -     9\n  4     0     0     0     -\nDropped:\n  none\nDefeats:\n  1 over 2 by 6 to 3\n  1 over 4 by 9 to 0\n  2 over 3 by 7 to 2\n  2 over 4 by 9 to 0\n  3 over 1 by 5 to 4\n  3 over 4 by 9 to 0\nRound 1: 1 2 3\n  drop 3 over 1\nRound 2: 1\nWinner: 1 A\n";

/// Asserts that the result is right. An `assert_eq!` instead would be a dozen statements or more and two borrows for the caller,
/// whose proof would take seconds longer.
pub(crate) fn assert_same<T: Copy + PartialEq + Debug>(rt: &impl Abort, found: T, right: T) {
    assert_eq!(rt; found, right);
}

/// Reads the poll. The only possible fault is that memory runs out.
pub(crate) fn poll_of(rt: &impl Abort, alloc: Global, text: &str) -> Result<Poll, AllocError> {
    match Poll::from_text(alloc, text.as_bytes()) {
        Ok(poll) => Ok(poll),
        Err(fault) => {
            assert_same(rt, fault, PollFault::Memory);
            Err(AllocError)
        }
    }
}

/// Reads the lines of a ballot file. The only possible fault is that memory runs out.
pub(crate) fn lines_of<'a>(
    rt: &impl Abort,
    alloc: Global,
    text: &'a str,
) -> Result<Lines<'a>, AllocError> {
    match Lines::split(alloc, text.as_bytes()) {
        Ok(lines) => Ok(lines),
        Err(fault) => {
            assert_same(rt, fault, LinesFault::Memory);
            Err(AllocError)
        }
    }
}
