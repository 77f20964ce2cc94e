//! The command `check`.

ghost use Rattle.std.specs.Prelude.{◌≡◌, ◌≢◌, ◌<◌, ◌↔◌, true, Err, IfOk, IsErrOf, OnOk};
ghost use Rattle.std.specs.Result.{result_err};
ghost use Rattle.vote_poll.specs.PollFile.{poll_in};
ghost use Rattle.vote_commands.specs.Performing.{Checks};
ghost use Rattle.vote_commands.specs.Runs.{GoesThrough, IsCheck, IsText, Stops, StopsAtPoll};

use crate::fault::RunFault;
use crate::output::write_run;
use crate::reading::poll_of_file;
use std::alloc::Global;
use vote_files::Sink;
use vote_sheet::check_text;

/// The text of `check` for a poll file.
#[tactic(auto, using(crate::proofs::Stopping::stops_at_poll))]
fn check_file(alloc: Global, poll_text: &[u8]) -> Result<String, RunFault>
    ensures check { IfOk result (IsText (IsCheck poll_text.now)) }
    ensures stops { Stops (StopsAtPoll (poll_in poll_text.now) (λ poll. GoesThrough))
        (result_err result) }
    ensures unwritten { result ≢ Err RunFault.Output }
{
    let poll = match poll_of_file(alloc, poll_text) {
        Ok(poll) => poll,
        Err(fault) => return Err(fault),
    };
    Ok(check_text(alloc, &poll)?)
}

/// Reads a poll file, and writes how many options and electors it has.
pub fn check_poll<W: Sink>(alloc: Global, poll_text: &[u8], sink: &mut W) -> Result<(), RunFault>
    ensures checks { Checks poll_text.now (W.contents sink.old) (W.contents sink.new)
        (result_err result) }
    ensures output { IsErrOf result RunFault.Output ↔ (W.faults sink.old < W.faults sink.new) }
    ensures flushed { OnOk result (W.flushed sink.new ≡ true) }
{
    let text = match check_file(alloc, poll_text) {
        Ok(text) => text,
        Err(fault) => return Err(fault),
    };
    write_run(sink, text.as_bytes())
}
