//! The runs that count. They write the sheet of a poll file and a ballot file, or another text from the same count.

ghost use Rattle.std.specs.Prelude.{◌≡◌, ◌≢◌, ◌<◌, ◌↔◌, true, Err, IfOk, IsErrOf, OnOk};
ghost use Rattle.std.specs.Result.{result_err};
ghost use Rattle.vote_steps.specs.Desks.{AreDesks};
ghost use Rattle.vote_commands.specs.Counting.{IsCountFor, IsCountedIn, IsMade, StopsCount, ended_by_decision, ended_by_verification};
ghost use Rattle.vote_commands.specs.Inputs.{inputs_at};
ghost use Rattle.vote_commands.specs.Performing.{Counts};
ghost use Rattle.vote_commands.specs.Runs.{Stops};
ghost use Rattle.vote_commands.specs.TakenVotes.{CanBeCounted};
ghost use Rattle.vote_commands.specs.TakingVotes.{TakesVotes};

use crate::fault::{Ended, RunFault};
use crate::finished_run::{FinishedRun, unaudited};
use crate::output::{RunText, write_run};
use crate::votes::{CountInputs, TakenVotes, take_inputs};
use std::alloc::{AllocError, Global};
use vote_audit::{AuditWitness, Audited, VoteFault};
use vote_count::Decision;
use vote_files::Sink;
use vote_poll::{Lines, Poll};
use vote_request::Purpose;
use vote_sheet::{Verification, picture_of_box, sheet_of_box, verify_sheet};

/// How a count with this decision ends.
fn ended_by_decision(decision: Decision) -> Ended
    ensures { result ≡ ended_by_decision decision }
{
    match decision {
        Decision::Winner(option) => Ended::Decided(option),
        Decision::Tie => Ended::Tie,
        Decision::CastingOutside(option) => Ended::CastingOutside(option),
    }
}

/// How a run ends if this is found for a published sheet.
fn ended_by_verification(found: Verification) -> Ended
    ensures { result ≡ ended_by_verification found }
{
    match found {
        Verification::Matches | Verification::MatchesCasting(_) => Ended::Done,
        Verification::Differs => Ended::Differs,
    }
}

/// The text for this purpose, from the votes that were taken.
fn text_of_taken(
    alloc: Global,
    taken: &TakenVotes<'_>,
    purpose: Purpose<&[u8]>,
) -> Result<RunText, AllocError>
    requires { CanBeCounted taken.now }
    ensures { IfOk result (IsMade purpose.entry taken.now.poll taken.now.lines taken.now.casting) }
{
    let TakenVotes {
        poll,
        lines,
        casting,
        audited,
    } = taken;
    let ballot_box = audited.ballot_box();
    match purpose {
        Purpose::Sheet => {
            let (text, decision) = sheet_of_box(alloc, poll, lines, ballot_box, *casting)?;
            let ended = ended_by_decision(decision);
            Ok(RunText { text, ended })
        }
        Purpose::Picture => {
            let (text, decision) = picture_of_box(alloc, poll, lines, ballot_box, *casting)?;
            let ended = ended_by_decision(decision);
            Ok(RunText { text, ended })
        }
        Purpose::Verification(sheet) => {
            let (text, found) = verify_sheet(alloc, poll, lines, ballot_box, sheet)?;
            let ended = ended_by_verification(found);
            Ok(RunText { text, ended })
        }
    }
}

/// The text of a count of the inputs for this purpose, and the witness of its audit.
fn count_inputs<V: FnOnce(&Poll, &Lines<'_>, u8) -> Result<Audited, VoteFault> + Drop>(
    alloc: Global,
    inputs: &CountInputs<'_>,
    purpose: Purpose<&[u8]>,
    take: V,
) -> Result<(RunText, AuditWitness), RunFault>
    requires desks { AreDesks inputs.now.desks }
    requires take { TakesVotes (V.pre take) (V.post take) }
    ensures counted { IfOk result (λ counted. IsCountFor purpose.entry inputs.now counted.0) }
    ensures desks { IfOk result (λ counted. IsCountedIn inputs.now counted.1) }
    ensures stops { Stops (StopsCount (V.post take) inputs.now) (result_err result) }
    ensures unwritten { result ≢ Err RunFault.Output }
{
    let taken = match take_inputs(alloc, inputs, take) {
        Ok(taken) => taken,
        Err(fault) => return Err(fault),
    };
    let text = text_of_taken(alloc, &taken, purpose)?;
    Ok((text, taken.audited.witness()))
}

/// Takes the votes of a ballot file by this call, at most once, and writes the text for this purpose, with the option that the
/// casting vote names. A run that stops has written nothing, or a prefix if its output failed.
#[tactic(auto, using(crate::proofs::Stopping::stops_at_output))]
pub fn count_for<V: FnOnce(&Poll, &Lines<'_>, u8) -> Result<Audited, VoteFault> + Drop, W: Sink>(
    alloc: Global,
    inputs: &CountInputs<'_>,
    purpose: Purpose<&[u8]>,
    take: V,
    sink: &mut W,
) -> FinishedRun
    requires desks { AreDesks inputs.now.desks }
    requires take { TakesVotes (V.pre take) (V.post take) }
    ensures counts { Counts (V.post take) purpose.entry inputs.now (W.contents sink.old)
        (W.contents sink.new) result }
    ensures output { IsErrOf result.end RunFault.Output ↔ (W.faults sink.old < W.faults sink.new) }
    ensures flushed { OnOk result.end (W.flushed sink.new ≡ true) }
{
    let (counted, witness) = match count_inputs(alloc, inputs, purpose, take) {
        Ok(counted) => counted,
        Err(fault) => return unaudited(Err(fault)),
    };
    match write_run(sink, counted.text.as_bytes()) {
        Ok(()) => FinishedRun {
            end: Ok(counted.ended),
            audited: Some(witness),
        },
        Err(fault) => unaudited(Err(fault)),
    }
}

/// Takes the votes of a ballot file by this call, and writes the sheet of the audited box, with the option that the casting vote
/// names. Nothing is written before the sheet is complete.
///
/// For callers of the library; the program calls `perform`.
pub fn run<V: FnOnce(&Poll, &Lines<'_>, u8) -> Result<Audited, VoteFault> + Drop, W: Sink>(
    alloc: Global,
    poll_text: &[u8],
    ballots: &[u8],
    desks: u8,
    casting: Option<&[u8]>,
    take: V,
    sink: &mut W,
) -> FinishedRun
    requires desks { AreDesks desks }
    requires take { TakesVotes (V.pre take) (V.post take) }
    ensures counts { let inputs = inputs_at poll_text.entry ballots.entry desks casting.entry in
        Counts (V.post take) Purpose.Sheet inputs (W.contents sink.old) (W.contents sink.new)
        result }
    ensures output { IsErrOf result.end RunFault.Output ↔ (W.faults sink.old < W.faults sink.new) }
    ensures flushed { OnOk result.end (W.flushed sink.new ≡ true) }
{
    let inputs = CountInputs {
        poll: poll_text,
        ballots,
        desks,
        casting,
    };
    count_for(alloc, &inputs, Purpose::Sheet, take, sink)
}
