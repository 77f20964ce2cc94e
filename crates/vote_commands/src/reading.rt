//! Reads the files of a run: its poll and its lines.

ghost use Rattle.std.specs.Prelude.{◌≡◌, Ok, IfErr, IfOk, OnOk};
ghost use Rattle.vote_poll_text.specs.Lines.{HasTooManyLines, lines_of};
ghost use Rattle.vote_poll.specs.PollFile.{poll_in};
ghost use Rattle.vote_commands.specs.Reading.{GivesNoLines, GivesNoPoll};

use crate::fault::RunFault;
use std::alloc::Global;
use vote_poll::{Lines, Poll};

/// The poll of a poll file.
#[tactic(auto, using(crate::proofs::Stopping::no_poll))]
pub(crate) fn poll_of_file(alloc: Global, text: &[u8]) -> Result<Poll, RunFault>
    ensures poll { IfOk result (λ poll. poll_in text.now ≡ Ok poll) }
    ensures fault { IfErr result (GivesNoPoll (poll_in text.now)) }
{
    match Poll::from_text(alloc, text) {
        Ok(poll) => Ok(poll),
        Err(fault) => Err(RunFault::from(fault)),
    }
}

/// The lines of a ballot file.
#[tactic(auto, using(crate::proofs::Stopping::no_lines))]
pub(crate) fn lines_of_file(alloc: Global, ballots: &[u8]) -> Result<Lines<'_>, RunFault>
    ensures lines { IfOk result (λ lines. lines ≡ lines_of ballots.now) }
    ensures few { OnOk result (¬ HasTooManyLines ballots.now) }
    ensures fault { IfErr result (GivesNoLines ballots.now) }
{
    match Lines::split(alloc, ballots) {
        Ok(lines) => Ok(lines),
        Err(fault) => Err(RunFault::from(fault)),
    }
}
