//! The texts of `steps` and `check`: a line for each envelope, and the line for a valid poll.

ghost use Rattle.std.specs.Prelude.{◌≡◌, IfOk, string_bytes};
ghost use Rattle.vote_poll_text.specs.Adding.{Adds};
ghost use Rattle.vote_sheet.specs.Steps.{IsStepsText, StepsAreDetermined, StepsExist, check_text, step_line, step_lines};

use std::alloc::{AllocError, Global};
use vote_poll::{Lines, Poll};
use vote_steps::laws::{lines_can_be_cast, order_leaves_no_choice};
use vote_steps::{Step, cast_all, reply_words};

/// Appends the line of a step.
#[tactic(auto, unfolding(crate::specs::Steps::step_line))]
fn push_step(text: &mut String, step: &Step) -> Result<(), AllocError>
    ensures { Adds result text.old (step_line step.now) text.new }
{
    match step {
        Step::Cast { stamp, reply, .. } => writeln!(text, "{stamp} {}", reply_words(*reply)),
        Step::Close => Ok(()),
    }
}

/// The lines of all steps.
fn step_lines(alloc: Global, steps: &[Step]) -> Result<String, AllocError>
    ensures { IfOk result (λ text. string_bytes text ≡ step_lines steps.now) }
{
    let mut text = String::new(alloc);
    for step in steps {
        push_step(&mut text, step)?;
    }
    Ok(text)
}

/// Returns the text of `steps`: the reply of the box to each line. One desk casts the lines in
/// their order.
pub fn steps_text(alloc: Global, poll: &Poll, lines: &Lines<'_>) -> Result<String, AllocError>
    ensures { IfOk result (λ text. IsStepsText poll.now lines.now (string_bytes text)) }
{
    let ballot_box = cast_all(alloc, poll, lines)?;
    step_lines(alloc, ballot_box.steps())
}

/// The line for a valid poll.
#[tactic(auto, unfolding(crate::specs::Steps::check_text))]
pub fn check_text(alloc: Global, poll: &Poll) -> Result<String, AllocError>
    ensures { IfOk result (λ text. string_bytes text ≡ check_text poll.now) }
{
    let options = poll.options();
    let electors = poll.electors();
    format!(in alloc; "poll ok: {options} options, {electors} electors\n")
}

/// A poll and its lines have at most one text of `steps`.
pub fn steps_are_determined()
    ensures { StepsAreDetermined }
{
    order_leaves_no_choice();
}

/// A poll and its lines have a text of `steps`. By [`steps_are_determined`] they have only one.
pub fn steps_exist()
    ensures { StepsExist }
{
    lines_can_be_cast();
}
