//! The run of a request, or of a joined input, from its files to its end.

ghost use Rattle.std.specs.Prelude.{◌≡◌, ◌<◌, ◌↔◌, Err, IsErrOf};
ghost use Rattle.vote_request.specs.Requests.{DesksFit};
ghost use Rattle.vote_commands.specs.Performing.{TellsNoBox};
ghost use Rattle.vote_commands.specs.TakingVotes.{TakesVotes};
ghost use Rattle.vote_files.specs.Sources.{HasRead};
ghost use Rattle.vote_program.specs.Outputs.{written_by};
ghost use Rattle.vote_program.specs.RequestEnds.{EndsJoined, EndsRequest, IsRequestDone};

use crate::inputs::{FileBytes, read_inputs, read_joined};
use crate::loaded_request::with_bytes;
use std::alloc::Global;
use vote_audit::{Audited, VoteFault};
use vote_command_line::NamedRequest;
use vote_commands::{FinishedRun, RunFault, perform, perform_listing, split_joined};
use vote_files::{Sink, Sources, StandardInput};
use vote_poll::{Lines, Poll};
use vote_request::Listing;

/// How a run ends whose inputs were not all read.
fn ended_unread(fault: RunFault) -> FinishedRun
    ensures end { result.end ≡ Err fault }
    ensures none { TellsNoBox result }
{
    FinishedRun {
        end: Err(fault),
        audited: None,
    }
}

/// Performs a request whose files were read. It is a function of its own, since a loaded request borrows words and bytes for the
/// same lifetime: here both are lent.
fn perform_with<V: FnOnce(&Poll, &Lines<'_>, u8) -> Result<Audited, VoteFault> + Drop, W: Sink>(
    alloc: Global,
    request: &NamedRequest<'_>,
    inputs: &FileBytes,
    take: V,
    sink: &mut W,
) -> FinishedRun
    requires desks { DesksFit request.now }
    requires take { TakesVotes (V.pre take) (V.post take) }
    ensures done { IsRequestDone (V.post take) request.now inputs.now
        (written_by W.contents W.faults W.flushed sink.old sink.new) result }
    ensures output { IsErrOf result.end RunFault.Output ↔ (W.faults sink.old < W.faults sink.new) }
{
    let loaded = with_bytes(request, inputs);
    perform(alloc, &loaded, take, sink)
}

/// Reads the files of a request, before anything is checked, and performs it. A count takes its votes by this call.
#[tactic(auto, using(crate::proofs::OnFiles::done_on_its_files))]
pub fn carry_out<
    S: Sources,
    V: FnOnce(&Poll, &Lines<'_>, u8) -> Result<Audited, VoteFault> + Drop,
    W: Sink,
>(alloc: Global, files: &mut S, request: &NamedRequest<'_>, take: V, sink: &mut W) -> FinishedRun
    requires desks { DesksFit request.now }
    requires take { TakesVotes (V.pre take) (V.post take) }
    ensures ends { EndsRequest (S.file_bytes files.old)
        (HasRead S.file_readings files.old files.new) (V.post take) request.now
        (written_by W.contents W.faults W.flushed sink.old sink.new) result }
    ensures output { IsErrOf result.end RunFault.Output ↔ (W.faults sink.old < W.faults sink.new) }
{
    let inputs = match read_inputs(files, alloc, request) {
        Ok(inputs) => inputs,
        Err(fault) => return ended_unread(fault),
    };
    perform_with(alloc, request, &inputs, take, sink)
}

/// Writes the reply to each ballot of standard input, a poll and its ballots joined by a line `%%`.
pub fn print_joined<I: StandardInput, W: Sink>(
    alloc: Global,
    input: &mut I,
    sink: &mut W,
) -> FinishedRun
    ensures ends { EndsJoined (I.standard_bytes input.old)
        (HasRead I.standard_readings input.old input.new)
        (written_by W.contents W.faults W.flushed sink.old sink.new) result }
    ensures output { IsErrOf result.end RunFault.Output ↔ (W.faults sink.old < W.faults sink.new) }
{
    let text = match read_joined(input, alloc) {
        Ok(text) => text,
        Err(fault) => return ended_unread(fault),
    };
    let (poll, ballots) = split_joined(text.as_slice());
    perform_listing(alloc, poll, ballots, Listing::Steps, sink)
}
