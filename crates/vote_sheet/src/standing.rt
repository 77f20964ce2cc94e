//! The ballots that stand, as a ballot file.

ghost use Rattle.std.specs.Prelude.{◌≡◌, ◌<◌, ◌≤◌, IfOk, length, map, string_bytes};
ghost use Rattle.std.specs.List.{join_with_byte};
ghost use Rattle.vote_poll_text.specs.Adding.{Adds};
ghost use Rattle.vote_poll.specs.BallotLine.{rank_text};
ghost use Rattle.vote_poll.specs.PollContent.{elector_count, option_count};
ghost use Rattle.vote_count.specs.Ballots.{IsBallotOf};
ghost use Rattle.vote_sheet.specs.Standing.{ballot_text, standing_text, voter_at};

use std::alloc::{AllocError, Global};
use vote_poll::{Lines, Poll, Ranks};
use vote_steps::cast_all;
use vote_steps::laws::last_lines_stand;

/// A rank, or a hyphen for an unranked option.
fn push_rank(text: &mut String, rank: Option<u8>) -> Result<(), AllocError>
    ensures { Adds result text.old (rank_text rank) text.new }
{
    match rank {
        Some(rank) => write!(text, "{rank}"),
        None => text.push_str("-"),
    }
}

/// The ranks of a ballot with this many options, separated by commas.
fn push_ranks(text: &mut String, options: u8, ranks: &Ranks) -> Result<(), AllocError>
    requires some { 1 ≤ options }
    requires options { length ranks.now ≡ options }
    ensures { Adds result text.old (join_with_byte 44 (map rank_text ranks.now)) text.new }
{
    push_rank(text, ranks.rank(1))?;
    for before in 1..options {
        text.push_str(",")?;
        push_rank(text, ranks.rank(before + 1))?;
    }
    Ok(())
}

/// The name of the voter at this index of the roll.
fn voter_name(poll: &Poll, voter: usize) -> &str
    requires { voter < elector_count poll.now }
    ensures { result.now ≡ voter_at poll.now voter }
{
    let Some(name) = poll.voter_name(voter) else {
        unreachable!()
    };
    let Ok(name) = std::str::from_utf8(name) else {
        unreachable!()
    };
    name
}

/// Appends the line of a voter's ballot, if there is one. Voters are numbered from 0, by their index on the roll.
fn push_ballot(
    text: &mut String,
    poll: &Poll,
    voter: usize,
    ballot: Option<Ranks>,
) -> Result<(), AllocError>
    requires voter { voter < elector_count poll.now }
    requires ballot { IsBallotOf (option_count poll.now) ballot }
    ensures { Adds result text.old (ballot_text (voter_at poll.now voter) ballot) text.new }
{
    match ballot {
        Some(ranks) => {
            write!(text, "{} ", voter_name(poll, voter))?;
            push_ranks(text, poll.options(), &ranks)?;
            text.push_str("\n")
        }
        None => Ok(()),
    }
}

/// Returns the text of `standing`: for each elector with a ballot that stands, in the order of the roll, the line that spells this
/// ballot. To find them, one desk casts the lines in their order.
///
/// The text is a ballot file of the same poll, and says the same about the voters as the lines (`laws`).
pub fn standing_text(alloc: Global, poll: &Poll, lines: &Lines<'_>) -> Result<String, AllocError>
    ensures { IfOk result (λ text. string_bytes text ≡ standing_text poll.now lines.now) }
{
    last_lines_stand();
    let ballot_box = cast_all(alloc, poll, lines)?;
    let mut text = String::new(alloc);
    for voter in 0..poll.electors() {
        push_ballot(&mut text, poll, voter, ballot_box.standing(voter))?;
    }
    Ok(text)
}
