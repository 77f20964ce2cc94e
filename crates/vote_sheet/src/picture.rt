//! The outcome of a sheet as a graph, in the language of Graphviz. Each function appends its part to the text.

ghost use Rattle.std.specs.Prelude.{◌≡◌, [], ◌∷◌, ◌≤◌, IfOk, IfSome};
ghost use Rattle.std.specs.Char.{encode_utf8};
ghost use Rattle.vote_poll_text.specs.Adding.{Adds};
ghost use Rattle.vote_poll.specs.Options.{IsOption};
ghost use Rattle.vote_poll.specs.declared.TheConstants.{MAX_OPTIONS};
ghost use Rattle.vote_poll.specs.PollContent.{option_count};
ghost use Rattle.vote_count.specs.Rounds.{final_set};
ghost use Rattle.vote_steps.specs.HeldLines.{HoldsLines};
ghost use Rattle.vote_sheet.specs.Counted.{as_sheet};
ghost use Rattle.vote_sheet.specs.Sheet.{line, when};
ghost use Rattle.vote_sheet.specs.Picture.{PictureExists, PictureIsUnique, PrintsPicture, cause_label, decided_style, dropped_style, edge_line, edge_lines, edges_by, graph_head, node_of, node_lines, picture_text, quoted, removal_text, removing_round};

use crate::sheet::{Count, count_of_box, sheet_exists};
use crate::sheet_text::{option_name, when};
use std::alloc::{AllocError, Global};
use vote_count::{
    Cause, Decision, Matrix, OptionSet, Round, Verdict, decide, decisions_are_determined,
    outcomes_are_determined,
};
use vote_poll::{Lines, Poll};
use vote_steps::BallotBox;

/// A character of a name within quotes.
#[tactic(auto, using(crate::proofs::Quoting::quoting))]
fn push_quoted_char(text: &mut String, character: char) -> Result<(), AllocError>
    ensures { Adds result text.old (quoted (encode_utf8 character)) text.new }
{
    if character == '"' {
        return text.push_str("\\\"");
    }
    if character == '\\' {
        return text.push_str("\\\\");
    }
    text.push(character)
}

/// A name within quotes. The title of a poll and the names of its options have only printable ASCII bytes, so only quotes and
/// backslashes need a backslash.
fn push_quoted(text: &mut String, name: &str) -> Result<(), AllocError>
    ensures { Adds result text.old (quoted name.now) text.new }
{
    for character in name.chars() {
        push_quoted_char(text, character)?;
    }
    Ok(())
}

/// The first lines: the title of the poll as the name of the graph, and then the style.
#[tactic(auto, unfolding(crate::specs::Picture::graph_head, crate::specs::Picture::graph_style))]
fn push_graph_head(text: &mut String, poll: &Poll) -> Result<(), AllocError>
    ensures { Adds result text.old (graph_head poll.now.title) text.new }
{
    text.push_str("digraph \"")?;
    push_quoted(text, poll.title())?;
    write!(text, "\" {{\n  rankdir=LR;\n  node [shape=box];\n")
}

/// Why an option is dropped, for its label.
fn cause_label(cause: Option<Cause>) -> &'static str
    ensures { result.now ≡ cause_label cause }
{
    match cause {
        Some(Cause::Quorum) => "\\nquorum",
        Some(Cause::Majority) => "\\nmajority",
        None => "",
    }
}

/// The border of an option that is dropped.
fn dropped_style(cause: Option<Cause>) -> &'static str
    ensures { result.now ≡ dropped_style cause }
{
    match cause {
        Some(_) => ", style=dotted",
        None => "",
    }
}

/// The border of an option that wins, or that is in the final set of a tie.
fn decided_style(set: &OptionSet, decision: Decision, option: u8) -> &'static str
    ensures { result.now ≡ decided_style set.now decision option }
{
    match decision {
        Decision::Winner(winner) => when(option == winner, ", peripheries=2"),
        Decision::Tie | Decision::CastingOutside(_) => when(set.has(option), ", style=bold"),
    }
}

/// The node of an option: its label, and its border.
#[tactic(auto, unfolding(crate::specs::Picture::node_of, crate::specs::Picture::label_text, crate::specs::Picture::style_text))]
fn push_node(
    text: &mut String,
    poll: &Poll,
    verdict: &Verdict,
    decision: Decision,
    option: u8,
) -> Result<(), AllocError>
    requires option { IsOption (option_count poll.now) option }
    requires most { option ≤ MAX_OPTIONS }
    ensures { Adds result text.old (node_of poll.now.options verdict.now decision option) text.new }
{
    let cause = verdict.dropped(option);
    let label = cause_label(cause);
    let dropped = dropped_style(cause);
    let decided = decided_style(&verdict.final_set(), decision, option);
    write!(text, "  {option} [label=\"{option} ")?;
    push_quoted(text, option_name(poll, option))?;
    writeln!(text, "{label}\"{dropped}{decided}];")
}

/// The nodes of all options.
#[tactic(auto, using(crate::proofs::Texts::each_one_more), unfolding(crate::specs::Picture::node_lines))]
fn push_nodes(
    text: &mut String,
    poll: &Poll,
    verdict: &Verdict,
    decision: Decision,
) -> Result<(), AllocError>
    ensures { Adds result text.old (node_lines poll.now.options verdict.now decision) text.new }
{
    for before in 0..poll.options() {
        push_node(text, poll, verdict, decision, before + 1)?;
    }
    Ok(())
}

/// The number of the round that removes the defeat of `b` by `a`, if there is one. Rounds are numbered from 1.
fn removing_round(rounds: &[Round], a: u8, b: u8) -> Option<usize>
    ensures { result ≡ removing_round 1 rounds.now a b }
{
    for (index, round) in rounds.iter().enumerate() {
        if round.removed.has(a, b) {
            return Some(index + 1);
        }
    }
    None
}

/// The end of the line of a defeat, after the votes.
fn push_removal(text: &mut String, round: Option<usize>) -> Result<(), AllocError>
    ensures { Adds result text.old (line (removal_text round ∷ [])) text.new }
{
    match round {
        Some(round) => writeln!(text, ", round {round}\", style=dashed];"),
        None => text.push_str("\"];\n"),
    }
}

/// The line of the defeat of `b` by `a`, with the round that removes it, if there is one.
#[tactic(auto, unfolding(crate::specs::Picture::edge_line))]
fn push_edge_line(
    text: &mut String,
    matrix: &Matrix,
    rounds: &[Round],
    a: u8,
    b: u8,
) -> Result<(), AllocError>
    requires a { IsOption matrix.now.options a }
    requires b { IsOption matrix.now.options b }
    ensures { Adds result text.old (edge_line matrix.now rounds.now a b) text.new }
{
    let won = matrix.votes(a, b);
    let lost = matrix.votes(b, a);
    write!(text, "  {a} -> {b} [label=\"{won} : {lost}")?;
    push_removal(text, removing_round(rounds, a, b))
}

/// The lines of the defeats by `a`.
#[tactic(auto, using(crate::proofs::Texts::each_one_more), unfolding(crate::specs::Picture::edges_by))]
fn push_edges_by(
    text: &mut String,
    matrix: &Matrix,
    verdict: &Verdict,
    a: u8,
) -> Result<(), AllocError>
    requires { IsOption matrix.now.options a }
    ensures { Adds result text.old (edges_by matrix.now verdict.now a) text.new }
{
    let defeats = verdict.defeats();
    for before in 0..matrix.options() {
        if defeats.has(a, before + 1) {
            push_edge_line(text, matrix, verdict.rounds(), a, before + 1)?;
        }
    }
    Ok(())
}

/// The lines of the defeats before any removal.
#[tactic(auto, using(crate::proofs::Texts::each_one_more), unfolding(crate::specs::Picture::edge_lines))]
fn push_edges(text: &mut String, matrix: &Matrix, verdict: &Verdict) -> Result<(), AllocError>
    ensures { Adds result text.old (edge_lines matrix.now verdict.now) text.new }
{
    for before in 0..matrix.options() {
        push_edges_by(text, matrix, verdict, before + 1)?;
    }
    Ok(())
}

/// The picture of a count and a decision.
fn push_picture(
    text: &mut String,
    poll: &Poll,
    count: &Count,
    decision: Decision,
) -> Result<(), AllocError>
    ensures { Adds result text.old (picture_text poll.now (as_sheet count.now decision)) text.new }
{
    push_graph_head(text, poll)?;
    push_nodes(text, poll, &count.verdict, decision)?;
    push_edges(text, &count.matrix, &count.verdict)?;
    text.push_str("}\n")
}

/// Returns the picture of the outcome of a closed box that holds the lines of the poll, and the decision, with this option as the
/// casting vote. The picture is a text in the language of Graphviz, made from what the sheet of the same box says. Options are
/// numbered from 1.
pub fn picture_of_box(
    alloc: Global,
    poll: &Poll,
    lines: &Lines<'_>,
    ballot_box: &BallotBox,
    casting: Option<u8>,
) -> Result<(String, Decision), AllocError>
    requires held { HoldsLines poll.now lines.now ballot_box.now }
    requires casting { IfSome casting (IsOption (option_count poll.now)) }
    ensures { IfOk result (PrintsPicture poll.now lines.now casting) }
{
    let count = count_of_box(alloc, poll, lines, ballot_box)?;
    let decision = decide(&count.verdict, casting);
    let mut text = String::new(alloc);
    push_picture(&mut text, poll, &count, decision)?;
    Ok((text, decision))
}

/// A poll, its lines and the casting vote have at most one picture.
pub fn picture_is_unique()
    ensures { PictureIsUnique }
{
    outcomes_are_determined();
    decisions_are_determined();
}

/// Each poll that is read from a poll file has a picture, for any lines and any casting vote. By [`picture_is_unique`] it has only one.
pub fn picture_exists()
    ensures { PictureExists }
{
    sheet_exists();
}
