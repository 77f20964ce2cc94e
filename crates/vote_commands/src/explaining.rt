//! The command `explain`.

ghost use Rattle.std.specs.Prelude.{◌≡◌, ◌≢◌, ◌<◌, ◌↔◌, true, Ok, Err, IfOk, IsErrOf, None, OnOk, option_copied, string_bytes, ◌++◌};
ghost use Rattle.vote_poll.specs.PollFile.{poll_in};
ghost use Rattle.std.specs.Result.{result_err};
ghost use Rattle.vote_commands.specs.Explaining.{Explains, IsExplanation, IsSaid, IsSaidOfLines, StopsExplanation, ended_by_findings};
ghost use Rattle.vote_commands.specs.Runs.{Stops};

use crate::fault::{Ended, RunFault};
use crate::output::{RunText, write_run};
use crate::reading::lines_of_file;
use std::alloc::{AllocError, Global};
use vote_explain_ballots::{Explained, explain_ballots};
use vote_explain_poll::{ExplainedPoll, explain_poll};
use vote_files::Sink;
use vote_poll::{Lines, Poll};
use vote_sheet::check_text;

/// How a run ends with these findings and this number of refused lines.
fn ended_by_findings(findings: &String, refused: u64) -> Ended
    ensures { result ≡ ended_by_findings (string_bytes findings.now) refused }
{
    if findings.is_empty() && refused == 0 {
        Ended::Done
    } else {
        Ended::Found
    }
}

/// The second text after the first. If the first is empty, nothing is copied.
fn appended(first: String, rest: String) -> Result<String, AllocError>
    ensures { IfOk result (λ both. string_bytes both ≡ string_bytes first ++ string_bytes rest) }
{
    if first.is_empty() {
        return Ok(rest);
    }
    let mut both = first;
    both.push_str(rest.as_str())?;
    Ok(both)
}

/// The findings of a valid poll, and then the line of `check`.
fn with_sizes(alloc: Global, poll: &Poll, findings: String) -> Result<RunText, AllocError>
    ensures { IfOk result (IsSaid (Ok poll.now) None (string_bytes findings)) }
{
    let ended = ended_by_findings(&findings, 0);
    let sizes = check_text(alloc, poll)?;
    let text = appended(findings, sizes)?;
    Ok(RunText { text, ended })
}

/// The findings of a valid poll, and then all that is said about its lines and their file, which has these bytes.
fn with_lines(
    alloc: Global,
    poll: &Poll,
    lines: &Lines<'_>,
    ballots: &[u8],
    file: Option<&str>,
    findings: String,
) -> Result<RunText, AllocError>
    ensures { IfOk result (IsSaidOfLines poll.now ballots.now lines.now (string_bytes findings)) }
{
    let Explained {
        text: rest,
        refused,
    } = explain_ballots(alloc, poll, lines, ballots, file)?;
    let ended = ended_by_findings(&findings, refused);
    let text = appended(findings, rest)?;
    Ok(RunText { text, ended })
}

/// The findings of a valid poll, and then all that is said about its ballots, or the line of `check` if no ballots are given.
#[tactic(auto, using(crate::proofs::Stopping::stops_at_lines))]
fn with_rest(
    alloc: Global,
    poll: &Poll,
    ballots: Option<&[u8]>,
    file: Option<&str>,
    found: String,
) -> Result<RunText, RunFault>
    ensures ok { IfOk result (IsSaid (Ok poll.now) (option_copied ballots.entry) (string_bytes found)) }
    ensures stops { Stops (StopsExplanation (Ok poll.now) (option_copied ballots.entry)) (result_err result) }
    ensures unwritten { result ≢ Err RunFault.Output }
{
    let Some(ballots) = ballots else {
        return Ok(with_sizes(alloc, poll, found)?);
    };
    match lines_of_file(alloc, ballots) {
        Ok(lines) => Ok(with_lines(alloc, poll, &lines, ballots, file, found)?),
        Err(fault) => Err(fault),
    }
}

/// What is said about a poll and, if they are given, about its ballots.
fn explanation(
    alloc: Global,
    poll_text: &[u8],
    ballots: Option<&[u8]>,
    file: Option<&str>,
    poll_file: Option<&str>,
) -> Result<RunText, RunFault>
    ensures told { IfOk result (IsExplanation poll_text.now (option_copied ballots.entry)) }
    ensures stops { Stops (StopsExplanation (poll_in poll_text.now) (option_copied ballots.entry)) (result_err result) }
    ensures unwritten { result ≢ Err RunFault.Output }
{
    let ExplainedPoll { findings, outcome } = match explain_poll(alloc, poll_text, poll_file) {
        Ok(explained) => explained,
        Err(AllocError) => return Err(RunFault::Memory),
    };
    match outcome {
        Ok(poll) => with_rest(alloc, &poll, ballots, file, findings),
        Err(_) => Ok(RunText {
            text: findings,
            ended: Ended::PollRefused,
        }),
    }
}

/// Writes all that is wrong with a poll file and, if the poll is valid and ballots are given, with its ballots. `file` and
/// `poll_file` are the names of the ballot file and of the poll file, if they have names, for a command that repairs them. Nothing
/// is written before the text is complete.
pub fn explain<W: Sink>(
    alloc: Global,
    poll_text: &[u8],
    ballots: Option<&[u8]>,
    file: Option<&str>,
    poll_file: Option<&str>,
    sink: &mut W,
) -> Result<Ended, RunFault>
    ensures explains { Explains poll_text.now (option_copied ballots.entry) (W.contents sink.old) (W.contents sink.new) result }
    ensures output { IsErrOf result RunFault.Output ↔ (W.faults sink.old < W.faults sink.new) }
    ensures flushed { OnOk result (W.flushed sink.new ≡ true) }
{
    let RunText { text, ended } = match explanation(alloc, poll_text, ballots, file, poll_file) {
        Ok(explained) => explained,
        Err(fault) => return Err(fault),
    };
    match write_run(sink, text.as_bytes()) {
        Ok(()) => Ok(ended),
        Err(fault) => Err(fault),
    }
}
