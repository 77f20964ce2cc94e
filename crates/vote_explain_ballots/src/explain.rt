//! What is wrong with the lines of a ballot file, as a text.
ghost use Rattle.std.specs.Prelude.{◌≡◌, [], IfOk, drop, length, map, slice_index_or, string_bytes};
ghost use Rattle.vote_poll.specs.Options.{IsOption};
ghost use Rattle.vote_poll.specs.PollContent.{last_in_time, option_count};
ghost use Rattle.vote_poll.specs.Readings.{readings};
ghost use Rattle.vote_poll_text.specs.Adding.{Adds};
ghost use Rattle.vote_steps.specs.HeldLines.{AreCastInOrder, HoldsLines};
ghost use Rattle.vote_steps.specs.LastBallots.{refused_count};
ghost use Rattle.vote_explain_ballots.specs.Explained.{AreTotals, IsExplained, example_text, has_bad_line, numbered, numbers_text, order_words, own_ballot, own_options, reads_ballot, warnings_text};
ghost use Rattle.vote_explain_ballots.specs.Refusals.{EachRefusalIsListed, RefusedAsBySteps};

use crate::MOST_REMARK;
use crate::findings::Findings;
use crate::near_names::roll_of;
use crate::tables::push_table;
use crate::whole_file::push_file_text;
use std::alloc::{AllocError, Global};
use vote_hints::MAX_SHOWN;
use vote_poll::{Lines, Poll, Reading, push_shown, read_line};
use vote_steps::laws::lines_are_counted;
use vote_steps::{BallotBox, Totals, cast_all};

/// What is wrong with the lines of a ballot file.
#[derive(Drop)]
pub struct Explained {
    /// What is remarked on the whole file, a line for each refused line, an example, and the numbers.
    pub text: String,
    /// How many lines are refused.
    pub refused: u64,
}

/// What a box that holds the lines counts, in the words of the result sheet.
#[tactic(auto, using(vote_steps::proofs::Holding::refused_are))]
fn totals_of(poll: &Poll, lines: &Lines<'_>, ballot_box: &BallotBox) -> Totals
    requires { HoldsLines poll.now lines.now ballot_box.now }
    ensures { AreTotals poll.now lines.now result }
{
    lines_are_counted();
    ballot_box.totals()
}

/// The name of the first elector.
fn first_elector(poll: &Poll) -> &[u8]
    ensures { result.now ≡ slice_index_or poll.now.roll 0 [] }
{
    match poll.voter_name(0) {
        Some(name) => name,
        None => b"",
    }
}

/// A ballot line of the poll, in which the first elector ranks the last option first, and each other option one below its number.
#[tactic(auto, using(crate::proofs::Listing::each_one_more), unfolding(crate::specs::Explained::own_ballot))]
fn own_ballot(alloc: Global, poll: &Poll) -> Result<String, AllocError>
    ensures { IfOk result (λ ballot. string_bytes ballot ≡ own_ballot poll.now) }
{
    let mut ballot = String::new(alloc);
    push_shown(&mut ballot, first_elector(poll), MAX_SHOWN)?;
    ballot.push_str(" ")?;
    for before in 0..poll.options() - 1 {
        let option = before + 1;
        write!(ballot, "{},", option + 1)?;
    }
    ballot.push_str("1")?;
    Ok(ballot)
}

/// Adds an option with its number, parted from the one before it.
#[tactic(auto, unfolding(crate::specs::Explained::numbered))]
fn push_option(text: &mut String, poll: &Poll, option: u8) -> Result<(), AllocError>
    requires { IsOption (option_count poll.now) option }
    ensures { Adds result text.old (numbered poll.now.options option) text.new }
{
    let sign = if option == 1 { " " } else { ", " };
    write!(text, "{sign}{option} {}", poll.option_name(option))
}

/// The options in their order, each with its number, as far as they have room in a remark.
#[tactic(auto, using(crate::proofs::Listing::each_one_more))]
fn own_options(alloc: Global, poll: &Poll) -> Result<String, AllocError>
    ensures { IfOk result (λ options. string_bytes options ≡ own_options poll.now) }
{
    let (mut row, mut options) = (String::new(alloc), String::new(alloc));
    for before in 0..poll.options() {
        push_option(&mut row, poll, before + 1)?;
    }
    push_shown(&mut options, row.as_bytes(), MOST_REMARK)?;
    Ok(options)
}

/// Whether the poll reads a ballot in a line.
#[tactic(auto, unfolding(crate::specs::Explained::reads_ballot))]
fn reads_ballot(poll: &Poll, line: &[u8]) -> bool
    ensures { result ≡ reads_ballot poll.now line.now }
{
    matches!(read_line(poll, line), Reading::Ballot { .. })
}

/// Adds a ballot line of the poll, and what each of its ranks is of.
fn push_order(text: &mut String, ballot: &str, options: &str) -> Result<(), AllocError>
    ensures { Adds result text.old (order_words ballot.now options.now) text.new }
{
    writeln!(
        text,
        "a ballot line of this poll: `{ballot}`: the ranks of{options}; 1 is the best"
    )
}

/// A ballot file, whose lines one desk cast in their order.
#[derive(Drop)]
pub(crate) struct CastFile<'f> {
    pub(crate) poll: &'f Poll,
    /// The names on its roll.
    pub(crate) roll: Vec<&'f [u8]>,
    pub(crate) lines: &'f Lines<'f>,
    pub(crate) ballot_box: &'f BallotBox,
    /// Whether it can be ballots.
    pub(crate) is_text: bool,
    totals: Totals,
    pub(crate) ghost named: { map (λ name. name.now) roll.items ≡ poll.now.roll },
    ghost counted: { AreTotals poll.now lines.now totals },
}

impl<'f> CastFile<'f> {
    /// How many lines are late.
    fn late_count(&self) -> usize
        ensures { result ≡ length (drop (last_in_time self.now.poll.now) self.now.lines.now) }
    {
        let last = self.poll.last_in_time() as usize;
        self.lines.len().saturating_sub(last)
    }

    /// Whether a line is refused that is not late.
    fn has_bad_line(&self) -> bool
        ensures { result ≡ has_bad_line self.now.poll.now self.now.lines.now }
    {
        (self.late_count() as u64) < self.totals.refused
    }

    /// Adds what is said before the lines, if it can be ballots: that they look like a table, if they do; and that lines are counted, if
    /// the poll has a last envelope, the file has a line with its number, and a line is refused that is not late.
    fn push_warnings(&self, alloc: Global, text: &mut String) -> Result<(), AllocError>
        requires held { HoldsLines self.now.poll.now self.now.lines.now self.now.ballot_box.now }
        requires in_order { AreCastInOrder (readings self.now.poll.now self.now.lines.now) self.now.ballot_box.now.steps }
        ensures { Adds result text.old (warnings_text self.now.is_text self.now.poll.now self.now.lines.now) text.new }
    {
        if !self.is_text {
            return Ok(());
        }
        push_table(alloc, text, self)?;
        let Some(last) = self.poll.last_envelope() else {
            return Ok(());
        };
        if self.lines.len() < last as usize || !self.has_bad_line() {
            return Ok(());
        }
        writeln!(
            text,
            "lines are counted: taking one out, or adding one above line {last}, changes which ballots are late"
        )
    }

    /// Adds a ballot line of the poll, and what each of its ranks is of, if it can be ballots, and a line is refused that is not late.
    fn push_example(&self, alloc: Global, text: &mut String) -> Result<(), AllocError>
        ensures { Adds result text.old (example_text self.now.is_text self.now.poll.now self.now.lines.now) text.new }
    {
        let ballot = own_ballot(alloc, self.poll)?;
        if !self.is_text || !self.has_bad_line() || !reads_ballot(self.poll, ballot.as_bytes()) {
            return Ok(());
        }
        let options = own_options(alloc, self.poll)?;
        push_order(text, ballot.as_str(), options.as_str())
    }

    /// Adds how many lines are valid, refused and late, and how many electors have a ballot.
    fn push_totals(&self, text: &mut String) -> Result<(), AllocError>
        ensures { Adds result text.old (numbers_text self.now.poll.now self.now.lines.now) text.new }
    {
        let (count, late, electors) = (self.lines.len(), self.late_count(), self.poll.electors());
        let (valid, refused, voters) = (self.totals.valid, self.totals.refused, self.totals.voters);
        writeln!(
            text,
            "{count} lines: {valid} valid, {refused} refused, {late} of them late; {voters} of {electors} electors have a ballot; refused lines count for nothing"
        )
    }
}

/// What is wrong with the lines of a ballot file: what is remarked on the whole file; a line for each line that is refused, in their
/// order, with the words that `steps` has for it, a hint and the line; a ballot line of the poll, with what each rank is of; and how
/// many lines are valid and refused. `text` is the file of the lines, and `file` its name for a command that mends it, where it has one.
pub fn explain_ballots(
    alloc: Global,
    poll: &Poll,
    lines: &Lines<'_>,
    text: &[u8],
    file: Option<&str>,
) -> Result<Explained, AllocError>
    ensures text { IfOk result (λ said. IsExplained poll.now text.now lines.now (string_bytes said.text)) }
    ensures refused { IfOk result (λ said. said.refused ≡ refused_count poll.now lines.now) }
{
    let ballot_box = cast_all(alloc, poll, lines)?;
    let (totals, steps) = (totals_of(poll, lines, &ballot_box), ballot_box.steps());
    let mut findings = Findings::new(alloc);
    let is_text = push_file_text(alloc, &mut findings.text, lines, text, steps, file)?;
    let ballots = CastFile {
        poll,
        roll: roll_of(alloc, poll)?,
        lines,
        ballot_box: &ballot_box,
        is_text,
        totals,
    };
    ballots.push_warnings(alloc, &mut findings.text)?;
    findings.add_all(&ballots)?;
    ballots.push_example(alloc, &mut findings.text)?;
    ballots.push_totals(&mut findings.text)?;
    Ok(Explained {
        text: findings.text,
        refused: totals.refused,
    })
}

/// A law: as many lines are listed as the result sheet has refused lines.
#[tactic(auto, using(crate::proofs::Counting::each_is_listed))]
pub fn each_refusal_is_listed()
    ensures { EachRefusalIsListed }
{}

/// A law: the box of `steps` refuses the lines that are listed, and no others, each with the reply that is told.
#[tactic(auto, using(crate::proofs::BoxReplies::replies_of_box))]
pub fn refused_as_by_steps()
    ensures { RefusedAsBySteps }
{}
