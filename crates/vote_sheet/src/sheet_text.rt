//! The text of a result sheet, part by part. Each function appends its part to the text.

ghost use Rattle.std.specs.Prelude.{◌≡◌, ◌≤◌, ◌<◌};
ghost use Rattle.vote_poll_text.specs.Adding.{Adds};
ghost use Rattle.vote_poll.specs.Options.{IsOption};
ghost use Rattle.vote_poll.specs.declared.TheConstants.{MAX_OPTIONS};
ghost use Rattle.vote_poll.specs.PollContent.{option_count};
ghost use Rattle.vote_count.specs.Sets.{has, has_pair};
ghost use Rattle.vote_sheet.specs.Counted.{WinnerIsOption, head_of, totals_of};
ghost use Rattle.vote_sheet.specs.Sheet.{casting_note, cause_name, causes_text, counted_text, decision_text, default_text, defeat_lines, defeat_text, defeats_text, defeats_by, drop_line, drops_of, each, ending, tie_text, winner_text, dropped_line, dropped_text, last_text, name_of, numbers, option_text, options_text, round_text, rounds_from, row_text, table_head_text, table_text, votes_text, when, wording_text};

use std::alloc::AllocError;
use vote_count::{Cause, Decision, Defeats, Matrix, OptionSet, Round, Verdict};
use vote_poll::{Poll, Wording};
use vote_steps::Totals;

/// The words if the test holds, otherwise no words.
pub(crate) fn when(holds: bool, words: &'static str) -> &'static str
    ensures { result.now ≡ when holds words.now }
{
    if holds { words } else { "" }
}

/// The wording of the majority, if it is not the Constitution's.
#[tactic(auto, unfolding(crate::specs::Sheet::wording_text))]
fn wording_text(wording: Wording) -> &'static str
    ensures { result.now ≡ wording_text wording }
{
    match wording {
        Wording::AtLeast => "",
        Wording::MoreThan => "Majority: more than\n",
    }
}

/// The title, the electors, the quorum and the majority.
#[tactic(auto, unfolding(crate::specs::Sheet::head_text))]
pub(crate) fn push_head(text: &mut String, poll: &Poll, votes: u64) -> Result<(), AllocError>
    ensures { Adds result text.old (head_of poll.now votes) text.new }
{
    let title = poll.title();
    let electors = poll.electors();
    let multiple = poll.quorum_multiple();
    let wording = wording_text(poll.wording());
    write!(
        text,
        "Poll: {title}\nElectors: {electors}\nQuorum: {multiple}Q, {votes} votes\n{wording}"
    )
}

/// The last envelope, if the poll has one.
#[tactic(auto, unfolding(crate::specs::Sheet::last_text))]
fn push_last(text: &mut String, last: Option<u32>) -> Result<(), AllocError>
    ensures { Adds result text.old (last_text last) text.new }
{
    match last {
        Some(last) => writeln!(text, "Last envelope: {last}"),
        None => Ok(()),
    }
}

/// The numbers of lines and of voters.
#[tactic(auto, unfolding(crate::specs::Sheet::totals_text))]
pub(crate) fn push_totals(
    text: &mut String,
    poll: &Poll,
    lines: usize,
    totals: &Totals,
) -> Result<(), AllocError>
    ensures { Adds result text.old (totals_of poll.now lines totals.now) text.new }
{
    writeln!(text, "Lines: {lines}")?;
    push_last(text, poll.last_envelope())?;
    let (valid, refused, voters) = (totals.valid, totals.refused, totals.voters);
    writeln!(text, "Valid: {valid}\nRefused: {refused}\nVoters: {voters}")
}

/// The name of an option, also of the default option.
#[tactic(auto, using(crate::proofs::Texts::name_found))]
pub(crate) fn option_name(poll: &Poll, option: u8) -> &str
    requires { IsOption (option_count poll.now) option }
    ensures { result.now ≡ name_of poll.now.options option }
{
    poll.option_name(option)
}

/// The line of the default option.
#[tactic(auto, using(crate::proofs::Padding::number_in_3), unfolding(crate::specs::Sheet::default_text))]
fn push_default(text: &mut String, poll: &Poll) -> Result<(), AllocError>
    ensures { Adds result text.old (default_text poll.now.options) text.new }
{
    let option = poll.options();
    writeln!(text, "{option:>3} default {}", option_name(poll, option))
}

/// The line of another option, with its ratio.
#[tactic(auto, using(crate::proofs::Padding::number_in_3), unfolding(crate::specs::Sheet::option_text))]
fn push_option(text: &mut String, poll: &Poll, option: u8) -> Result<(), AllocError>
    requires least { 1 ≤ option }
    requires below_default { option < option_count poll.now }
    ensures { Adds result text.old (option_text poll.now.options poll.now.ratios option) text.new }
{
    let ratio = poll.ratio(option);
    let name = option_name(poll, option);
    writeln!(text, "{option:>3} ratio {ratio} {name}")
}

/// The options and their ratios.
#[tactic(auto, using(crate::proofs::Texts::each_one_more), unfolding(crate::specs::Sheet::options_text))]
pub(crate) fn push_options(text: &mut String, poll: &Poll) -> Result<(), AllocError>
    ensures { Adds result text.old (options_text poll.now.options poll.now.ratios) text.new }
{
    text.push_str("Options:\n")?;
    for before in 0..poll.options() - 1 {
        push_option(text, poll, before + 1)?;
    }
    push_default(text, poll)
}

/// The votes for `a` over `b`, in a cell of the table.
#[tactic(auto, using(crate::proofs::Padding::number_in_6), unfolding(crate::specs::Sheet::votes_text))]
fn push_votes(text: &mut String, matrix: &Matrix, a: u8, b: u8) -> Result<(), AllocError>
    requires a { IsOption matrix.now.options a }
    requires b { IsOption matrix.now.options b }
    ensures { Adds result text.old (votes_text matrix.now a b) text.new }
{
    if a == b {
        text.push_str("     -")
    } else {
        write!(text, "{:>6}", matrix.votes(a, b))
    }
}

/// The row of an option: the votes for it over each option.
#[tactic(auto, using(crate::proofs::Texts::each_one_more, crate::proofs::Padding::number_in_3), unfolding(crate::specs::Sheet::row_text))]
fn push_row(text: &mut String, matrix: &Matrix, a: u8) -> Result<(), AllocError>
    requires { IsOption matrix.now.options a }
    ensures { Adds result text.old (row_text matrix.now a) text.new }
{
    write!(text, "{a:>3}")?;
    for before in 0..matrix.options() {
        push_votes(text, matrix, a, before + 1)?;
    }
    text.push_str("\n")
}

/// The head of the table of votes.
#[tactic(auto, using(crate::proofs::Texts::each_one_more, crate::proofs::Padding::number_in_6), unfolding(crate::specs::Sheet::table_head_text, crate::specs::Sheet::column_text))]
fn push_table_head(text: &mut String, options: u8) -> Result<(), AllocError>
    ensures { Adds result text.old (table_head_text options) text.new }
{
    text.push_str("Votes:\n   ")?;
    for before in 0..options {
        write!(text, "{:>6}", before + 1)?;
    }
    text.push_str("\n")
}

/// The table of votes.
#[tactic(auto, using(crate::proofs::Texts::each_one_more), unfolding(crate::specs::Sheet::table_text))]
fn push_table(text: &mut String, matrix: &Matrix) -> Result<(), AllocError>
    ensures { Adds result text.old (table_text matrix.now) text.new }
{
    push_table_head(text, matrix.options())?;
    for before in 0..matrix.options() {
        push_row(text, matrix, before + 1)?;
    }
    Ok(())
}

/// The word for a cause.
fn cause_name(cause: Cause) -> &'static str
    ensures { result.now ≡ cause_name cause }
{
    match cause {
        Cause::Quorum => "quorum",
        Cause::Majority => "majority",
    }
}

/// The line of an option that was dropped.
#[tactic(auto, using(crate::proofs::Padding::number_in_3), unfolding(crate::specs::Sheet::dropped_line))]
fn push_cause(text: &mut String, option: u8, cause: Option<Cause>) -> Result<(), AllocError>
    ensures { Adds result text.old (dropped_line option cause) text.new }
{
    match cause {
        Some(cause) => writeln!(text, "{option:>3} {}", cause_name(cause)),
        None => Ok(()),
    }
}

/// The lines of the options that were dropped.
#[tactic(auto, using(crate::proofs::Texts::each_one_more), unfolding(crate::specs::Sheet::causes_text))]
fn push_causes(text: &mut String, options: u8, verdict: &Verdict) -> Result<(), AllocError>
    requires { options ≤ MAX_OPTIONS }
    ensures { Adds result text.old (causes_text options verdict.now) text.new }
{
    for before in 0..options {
        push_cause(text, before + 1, verdict.dropped(before + 1))?;
    }
    Ok(())
}

/// The options that were dropped, each with its cause.
#[tactic(auto, unfolding(crate::specs::Sheet::dropped_text))]
fn push_dropped(text: &mut String, options: u8, verdict: &Verdict) -> Result<(), AllocError>
    requires { options ≤ MAX_OPTIONS }
    ensures { Adds result text.old (dropped_text options verdict.now) text.new }
{
    text.push_str("Dropped:\n")?;
    let start = text.len();
    push_causes(text, options, verdict)?;
    if text.len() == start {
        return text.push_str("  none\n");
    }
    Ok(())
}

/// The line of the defeat of `b` by `a`, if there is one.
#[tactic(auto, using(crate::proofs::Padding::number_in_3), unfolding(crate::specs::Sheet::defeat_line))]
fn push_defeat(
    text: &mut String,
    matrix: &Matrix,
    defeats: &Defeats,
    a: u8,
    b: u8,
) -> Result<(), AllocError>
    requires a { IsOption matrix.now.options a }
    requires b { IsOption matrix.now.options b }
    ensures { Adds result text.old (defeat_text matrix.now defeats.now a b) text.new }
{
    if defeats.has(a, b) {
        let won = matrix.votes(a, b);
        let lost = matrix.votes(b, a);
        return writeln!(text, "{a:>3} over {b} by {won} to {lost}");
    }
    Ok(())
}

/// The lines of the defeats by `a`.
#[tactic(auto, using(crate::proofs::Texts::each_one_more), unfolding(crate::specs::Sheet::defeats_by))]
fn push_defeats_by(
    text: &mut String,
    matrix: &Matrix,
    defeats: &Defeats,
    a: u8,
) -> Result<(), AllocError>
    requires { IsOption matrix.now.options a }
    ensures { Adds result text.old (defeats_by matrix.now defeats.now a) text.new }
{
    for before in 0..matrix.options() {
        push_defeat(text, matrix, defeats, a, before + 1)?;
    }
    Ok(())
}

/// The lines of all defeats.
#[tactic(auto, using(crate::proofs::Texts::each_one_more), unfolding(crate::specs::Sheet::defeat_lines))]
fn push_defeat_lines(
    text: &mut String,
    matrix: &Matrix,
    defeats: &Defeats,
) -> Result<(), AllocError>
    ensures { Adds result text.old (defeat_lines matrix.now defeats.now) text.new }
{
    for before in 0..matrix.options() {
        push_defeats_by(text, matrix, defeats, before + 1)?;
    }
    Ok(())
}

/// The defeats before any removal.
#[tactic(auto, unfolding(crate::specs::Sheet::defeats_text))]
fn push_defeats(text: &mut String, matrix: &Matrix, defeats: &Defeats) -> Result<(), AllocError>
    ensures { Adds result text.old (defeats_text matrix.now defeats.now) text.new }
{
    text.push_str("Defeats:\n")?;
    let start = text.len();
    push_defeat_lines(text, matrix, defeats)?;
    if text.len() == start {
        return text.push_str("  none\n");
    }
    Ok(())
}

/// The numbers of the options of a set.
#[tactic(auto, using(crate::proofs::Texts::each_one_more))]
fn push_numbers(text: &mut String, options: u8, set: &OptionSet) -> Result<(), AllocError>
    ensures { Adds result text.old (numbers options set.now) text.new }
{
    for before in 0..options {
        if set.has(before + 1) {
            write!(text, " {}", before + 1)?;
        }
    }
    Ok(())
}

/// The line of the defeat of `b` by `a`, if it is removed.
#[tactic(auto, unfolding(crate::specs::Sheet::drop_line))]
fn push_drop(text: &mut String, removed: &Defeats, a: u8, b: u8) -> Result<(), AllocError>
    ensures { Adds result text.old (when (has_pair removed.now a b) (drop_line a b)) text.new }
{
    if removed.has(a, b) {
        return writeln!(text, "  drop {a} over {b}");
    }
    Ok(())
}

/// The lines of the removed defeats by `a`.
#[tactic(auto, using(crate::proofs::Texts::each_one_more), unfolding(crate::specs::Sheet::drops_of))]
fn push_drops_of(text: &mut String, options: u8, removed: &Defeats, a: u8) -> Result<(), AllocError>
    ensures { Adds result text.old (drops_of options removed.now a) text.new }
{
    for before in 0..options {
        push_drop(text, removed, a, before + 1)?;
    }
    Ok(())
}

/// The lines of all removed defeats.
#[tactic(auto, using(crate::proofs::Texts::each_one_more))]
fn push_drops(text: &mut String, options: u8, removed: &Defeats) -> Result<(), AllocError>
    ensures { Adds result text.old (each options (drops_of options removed.now)) text.new }
{
    for before in 0..options {
        push_drops_of(text, options, removed, before + 1)?;
    }
    Ok(())
}

/// A round: its set, and then the defeats that it removes.
#[tactic(auto, unfolding(crate::specs::Sheet::round_text))]
fn push_round(
    text: &mut String,
    options: u8,
    number: usize,
    round: &Round,
) -> Result<(), AllocError>
    ensures { Adds result text.old (round_text options number round.now) text.new }
{
    write!(text, "Round {number}:")?;
    push_numbers(text, options, &round.set)?;
    text.push_str("\n")?;
    push_drops(text, options, &round.removed)
}

/// The rounds, numbered from 1.
fn push_rounds(text: &mut String, options: u8, rounds: &[Round]) -> Result<(), AllocError>
    ensures { Adds result text.old (rounds_from options 1 rounds.now) text.new }
{
    for (index, round) in rounds.iter().enumerate() {
        push_round(text, options, index + 1, round)?;
    }
    Ok(())
}

/// The note that the casting vote decided, which it does only among several options.
#[tactic(auto, unfolding(crate::specs::Sheet::casting_note))]
fn casting_note(set: &OptionSet) -> &'static str
    ensures { result.now ≡ casting_note set.now }
{
    when(set.len() > 1, " by casting vote")
}

/// The winner, and whether the casting vote chose it.
#[tactic(auto, unfolding(crate::specs::Sheet::winner_text))]
fn push_winner(
    text: &mut String,
    poll: &Poll,
    set: &OptionSet,
    option: u8,
) -> Result<(), AllocError>
    requires { IsOption (option_count poll.now) option }
    ensures { Adds result text.old (winner_text poll.now.options set.now option) text.new }
{
    let name = option_name(poll, option);
    let note = casting_note(set);
    write!(text, "Winner: {option} {name}{note}")
}

/// The options of a tie.
#[tactic(auto, unfolding(crate::specs::Sheet::tie_text))]
fn push_tie(text: &mut String, options: u8, set: &OptionSet) -> Result<(), AllocError>
    ensures { Adds result text.old (tie_text options set.now) text.new }
{
    text.push_str("Tie:")?;
    push_numbers(text, options, set)
}

/// What the last line says.
fn push_ending(
    text: &mut String,
    poll: &Poll,
    set: &OptionSet,
    decision: Decision,
) -> Result<(), AllocError>
    requires { WinnerIsOption poll.now decision }
    ensures { Adds result text.old (ending poll.now.options set.now decision) text.new }
{
    match decision {
        Decision::Winner(option) => push_winner(text, poll, set, option),
        Decision::Tie => push_tie(text, poll.options(), set),
        Decision::CastingOutside(casting) => {
            push_tie(text, poll.options(), set)?;
            write!(text, ", casting option {casting} is not among them")
        }
    }
}

/// The last line: how the final set is decided.
#[tactic(auto, unfolding(crate::specs::Sheet::decision_text))]
pub(crate) fn push_decision(
    text: &mut String,
    poll: &Poll,
    set: &OptionSet,
    decision: Decision,
) -> Result<(), AllocError>
    requires { WinnerIsOption poll.now decision }
    ensures { Adds result text.old (decision_text poll.now.options set.now decision) text.new }
{
    push_ending(text, poll, set, decision)?;
    text.push_str("\n")
}

/// The result of the votes, before the decision: the votes themselves, the dropped options, the defeats and the rounds.
#[tactic(auto, unfolding(crate::specs::Sheet::counted_text))]
pub(crate) fn push_counted(
    text: &mut String,
    options: u8,
    matrix: &Matrix,
    verdict: &Verdict,
) -> Result<(), AllocError>
    requires { options ≤ MAX_OPTIONS }
    ensures { Adds result text.old (counted_text options matrix.now verdict.now) text.new }
{
    push_table(text, matrix)?;
    push_dropped(text, options, verdict)?;
    push_defeats(text, matrix, &verdict.defeats())?;
    push_rounds(text, options, verdict.rounds())
}
