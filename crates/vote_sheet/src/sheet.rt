//! The result sheet.

ghost use Rattle.std.specs.Prelude.{◌≡◌, IfOk, IfSome};
ghost use Rattle.vote_poll_text.specs.Adding.{Adds};
ghost use Rattle.vote_poll.specs.Options.{IsOption};
ghost use Rattle.vote_poll.specs.PollContent.{option_count};
ghost use Rattle.vote_steps.specs.HeldLines.{HoldsLines};
ghost use Rattle.vote_sheet.specs.Counted.{FinalSetIsKept, IsCountOf, WinnerIsOption, shared_text, whole_text};
ghost use Rattle.vote_sheet.specs.SheetOf.{PrintsSheet, SheetExists, SheetIsUnique};

use crate::sheet_text::{push_counted, push_decision, push_head, push_options, push_totals};
use std::alloc::{AllocError, Global};
use vote_count::{
    Decision, Matrix, Verdict, decide, decisions_are_determined, decisions_exist, outcome,
    outcomes_are_determined, outcomes_exist, quorum_votes, quorums_exist,
};
use vote_poll::{Lines, Poll, polls_keep_the_limits};
use vote_steps::laws::lines_are_counted;
use vote_steps::{BallotBox, Totals};

/// The count of the lines of a poll: all that its sheets say, without the poll's own words and the decision.
#[derive(Drop)]
pub(crate) struct Count {
    /// The number of lines.
    pub(crate) lines: usize,
    /// The least number of votes that meets the quorum.
    pub(crate) quorum_votes: u64,
    pub(crate) totals: Totals,
    pub(crate) matrix: Matrix,
    pub(crate) verdict: Verdict,
}

/// Counts a closed box that holds the lines of the poll. With each decision of its final set the count gives a sheet.
pub(crate) fn count_of_box(
    alloc: Global,
    poll: &Poll,
    lines: &Lines<'_>,
    ballot_box: &BallotBox,
) -> Result<Count, AllocError>
    requires { HoldsLines poll.now lines.now ballot_box.now }
    ensures sheets { IfOk result (IsCountOf poll.now lines.now) }
    ensures options { IfOk result (λ count. count.matrix.options ≡ option_count poll.now) }
    ensures kept { IfOk result (FinalSetIsKept poll.now) }
{
    lines_are_counted();
    let matrix = ballot_box.matrix();
    let verdict = outcome(alloc, poll, &matrix)?;
    Ok(Count {
        lines: lines.len(),
        quorum_votes: quorum_votes(poll),
        totals: ballot_box.totals(),
        matrix,
        verdict,
    })
}

/// All lines but the last. Only the last line depends on the casting vote.
pub(crate) fn push_shared(text: &mut String, poll: &Poll, count: &Count) -> Result<(), AllocError>
    ensures { Adds result text.old (shared_text poll.now count.now) text.new }
{
    push_head(text, poll, count.quorum_votes)?;
    push_totals(text, poll, count.lines, &count.totals)?;
    push_options(text, poll)?;
    push_counted(text, poll.options(), &count.matrix, &count.verdict)
}

/// The sheet of a count and a decision.
fn push_sheet(
    text: &mut String,
    poll: &Poll,
    count: &Count,
    decision: Decision,
) -> Result<(), AllocError>
    requires { WinnerIsOption poll.now decision }
    ensures { Adds result text.old (whole_text poll.now count.now decision) text.new }
{
    push_shared(text, poll, count)?;
    push_decision(text, poll, &count.verdict.final_set(), decision)
}

/// Returns a sheet of the poll, its lines and the casting vote, made from a box that holds the lines, and the decision of the
/// sheet. Options are numbered from 1. What is promised about the sheet names no desk, reply or order of the box.
pub fn sheet_of_box(
    alloc: Global,
    poll: &Poll,
    lines: &Lines<'_>,
    ballot_box: &BallotBox,
    casting: Option<u8>,
) -> Result<(String, Decision), AllocError>
    requires held { HoldsLines poll.now lines.now ballot_box.now }
    requires casting { IfSome casting (IsOption (option_count poll.now)) }
    ensures { IfOk result (PrintsSheet poll.now lines.now casting) }
{
    let count = count_of_box(alloc, poll, lines, ballot_box)?;
    let decision = decide(&count.verdict, casting);
    let mut text = String::new(alloc);
    push_sheet(&mut text, poll, &count, decision)?;
    Ok((text, decision))
}

/// A poll, its lines and the casting vote have at most one sheet.
pub fn sheet_is_unique()
    ensures { SheetIsUnique }
{
    outcomes_are_determined();
    decisions_are_determined();
}

/// Each poll that is read from a poll file has a sheet, for any lines and any casting vote. By [`sheet_is_unique`] it has only one.
pub fn sheet_exists()
    ensures { SheetExists }
{
    polls_keep_the_limits();
    outcomes_exist();
    decisions_exist();
    quorums_exist();
}
