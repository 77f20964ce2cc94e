//! The commands that list something about the ballots: `steps` and `standing`.

ghost use Rattle.std.specs.Prelude.{◌≡◌, ◌≢◌, ◌<◌, ◌↔◌, true, Err, IfOk, IsErrOf, OnOk};
ghost use Rattle.std.specs.Result.{result_err};
ghost use Rattle.vote_poll_text.specs.Lines.{lines_of};
ghost use Rattle.vote_poll.specs.PollFile.{poll_in};
ghost use Rattle.vote_commands.specs.Joined.{joined_parts};
ghost use Rattle.vote_commands.specs.Performing.{Lists};
ghost use Rattle.vote_commands.specs.Runs.{GoesThrough, IsListed, IsListing, IsText, Stops, StopsAtLines, StopsAtPoll};
ghost use Rattle.vote_request.specs.declared.Listing.TheVariants.{Steps};

use crate::fault::RunFault;
use crate::joined::split_joined;
use crate::output::write_run;
use crate::reading::{lines_of_file, poll_of_file};
use std::alloc::{AllocError, Global};
use vote_files::Sink;
use vote_poll::{Lines, Poll};
use vote_request::Listing;
use vote_sheet::{standing_text, steps_text};

/// The text of a listing of a poll and its lines.
fn list_lines(
    alloc: Global,
    poll: &Poll,
    lines: &Lines<'_>,
    listing: Listing,
) -> Result<String, AllocError>
    ensures { IfOk result (IsText (IsListed listing poll.now lines.now)) }
{
    match listing {
        Listing::Steps => steps_text(alloc, poll, lines),
        Listing::Standing => standing_text(alloc, poll, lines),
    }
}

/// The text of a listing of a poll and a ballot file.
#[tactic(auto, using(crate::proofs::Stopping::stops_at_lines))]
fn list_ballots(
    alloc: Global,
    poll: &Poll,
    ballots: &[u8],
    listing: Listing,
) -> Result<String, RunFault>
    ensures listed { IfOk result (IsText (IsListed listing poll.now (lines_of ballots.now))) }
    ensures stops { Stops (StopsAtLines ballots.now GoesThrough) (result_err result) }
    ensures unwritten { result ≢ Err RunFault.Output }
{
    match lines_of_file(alloc, ballots) {
        Ok(lines) => Ok(list_lines(alloc, poll, &lines, listing)?),
        Err(fault) => Err(fault),
    }
}

/// The text of a listing of a poll file and a ballot file.
#[tactic(auto, using(crate::proofs::Stopping::stops_at_poll))]
fn list_files(
    alloc: Global,
    poll_text: &[u8],
    ballots: &[u8],
    listing: Listing,
) -> Result<String, RunFault>
    ensures listed { IfOk result (IsText (IsListing listing poll_text.now ballots.now)) }
    ensures stops { Stops (StopsAtPoll (poll_in poll_text.now)
        (λ poll. StopsAtLines ballots.now GoesThrough)) (result_err result) }
    ensures unwritten { result ≢ Err RunFault.Output }
{
    let poll = match poll_of_file(alloc, poll_text) {
        Ok(poll) => poll,
        Err(fault) => return Err(fault),
    };
    list_ballots(alloc, &poll, ballots, listing)
}

/// Casts the lines in order at one desk, and writes the listing. Nothing is written before the text is complete.
pub fn print_listing<W: Sink>(
    alloc: Global,
    poll_text: &[u8],
    ballots: &[u8],
    listing: Listing,
    sink: &mut W,
) -> Result<(), RunFault>
    ensures lists { Lists listing poll_text.now ballots.now (W.contents sink.old)
        (W.contents sink.new) (result_err result) }
    ensures output { IsErrOf result RunFault.Output ↔ (W.faults sink.old < W.faults sink.new) }
    ensures flushed { OnOk result (W.flushed sink.new ≡ true) }
{
    let text = match list_files(alloc, poll_text, ballots, listing) {
        Ok(text) => text,
        Err(fault) => return Err(fault),
    };
    write_run(sink, text.as_bytes())
}

/// Writes the reply of the ballot box to each line.
///
/// For callers of the library; the program calls `perform`.
pub fn print_steps<W: Sink>(
    alloc: Global,
    poll_text: &[u8],
    ballots: &[u8],
    sink: &mut W,
) -> Result<(), RunFault>
    ensures lists { Lists Steps poll_text.now ballots.now (W.contents sink.old)
        (W.contents sink.new) (result_err result) }
    ensures output { IsErrOf result RunFault.Output ↔ (W.faults sink.old < W.faults sink.new) }
    ensures flushed { OnOk result (W.flushed sink.new ≡ true) }
{
    print_listing(alloc, poll_text, ballots, Listing::Steps, sink)
}

/// `print_steps` for a poll and its ballots in one input, as [`split_joined`] splits it.
///
/// For callers of the library; the program calls `perform`.
pub fn steps_joined<W: Sink>(alloc: Global, input: &[u8], sink: &mut W) -> Result<(), RunFault>
    ensures lists { let parts = joined_parts input.now in Lists Steps parts.0 parts.1
        (W.contents sink.old) (W.contents sink.new) (result_err result) }
    ensures output { IsErrOf result RunFault.Output ↔ (W.faults sink.old < W.faults sink.new) }
    ensures flushed { OnOk result (W.flushed sink.new ≡ true) }
{
    let (poll_text, ballots) = split_joined(input);
    print_steps(alloc, poll_text, ballots, sink)
}
