//! What the program does with the bytes of its inputs.

ghost use Rattle.std.specs.Prelude.{◌≡◌, ◌<◌, ◌↔◌, true, IsErrOf, OnOk};
ghost use Rattle.std.specs.Result.{result_err};
ghost use Rattle.vote_request.specs.Requests.{DesksFit};
ghost use Rattle.vote_commands.specs.Performing.{EndsDone, Lists, Performs, TellsNoBox};
ghost use Rattle.vote_commands.specs.TakingVotes.{TakesVotes};

use crate::checking::check_poll;
use crate::counting::count_for;
use crate::explaining::explain;
use crate::fault::{Ended, RunFault};
use crate::finished_run::{FinishedRun, unaudited};
use crate::listing::print_listing;
use crate::votes::CountInputs;
use std::alloc::Global;
use vote_audit::{Audited, VoteFault};
use vote_files::Sink;
use vote_poll::{Lines, Poll};
use vote_request::{Listing, Request};

/// A request with the bytes of its files.
pub type LoadedRequest<'a> = Request<'a, &'a [u8]>;

/// The end of a run that decides nothing.
fn ended_as_done(outcome: Result<(), RunFault>) -> FinishedRun
    ensures stop { result_err result.end ≡ result_err outcome }
    ensures end { EndsDone result.end }
    ensures none { TellsNoBox result }
{
    match outcome {
        Ok(()) => unaudited(Ok(Ended::Done)),
        Err(fault) => unaudited(Err(fault)),
    }
}

/// Casts the ballots, and writes a listing of them. No votes are taken.
pub fn perform_listing<W: Sink>(
    alloc: Global,
    poll: &[u8],
    ballots: &[u8],
    listing: Listing,
    sink: &mut W,
) -> FinishedRun
    ensures lists { Lists listing poll.now ballots.now (W.contents sink.old) (W.contents sink.new)
        (result_err result.end) }
    ensures end { EndsDone result.end }
    ensures none { TellsNoBox result }
    ensures output { IsErrOf result.end RunFault.Output ↔ (W.faults sink.old < W.faults sink.new) }
    ensures flushed { OnOk result.end (W.flushed sink.new ≡ true) }
{
    ended_as_done(print_listing(alloc, poll, ballots, listing, sink))
}

/// Performs a request: writes the output that these bytes, this casting vote and this number of desks call for, and returns how
/// the run ended. Only a count takes votes, by this call.
pub fn perform<V: FnOnce(&Poll, &Lines<'_>, u8) -> Result<Audited, VoteFault> + Drop, W: Sink>(
    alloc: Global,
    request: &LoadedRequest<'_>,
    take: V,
    sink: &mut W,
) -> FinishedRun
    requires desks { DesksFit request.now }
    requires take { TakesVotes (V.pre take) (V.post take) }
    ensures performs { Performs (V.post take) request.now (W.contents sink.old)
        (W.contents sink.new) result }
    ensures output { IsErrOf result.end RunFault.Output ↔ (W.faults sink.old < W.faults sink.new) }
    ensures flushed { OnOk result.end (W.flushed sink.new ≡ true) }
{
    match request {
        Request::Count {
            poll,
            ballots,
            desks,
            casting,
            purpose,
        } => {
            let inputs = CountInputs {
                poll,
                ballots,
                desks: *desks,
                casting: *casting,
            };
            count_for(alloc, &inputs, *purpose, take, sink)
        }
        Request::List {
            poll,
            ballots,
            listing,
        } => perform_listing(alloc, poll, ballots, *listing, sink),
        Request::Check { poll } => ended_as_done(check_poll(alloc, poll, sink)),
        Request::Explain {
            poll,
            ballots,
            file,
            poll_name,
        } => unaudited(explain(alloc, poll, *ballots, *file, *poll_name, sink)),
    }
}
