//! Reading a line of the ballot file.
ghost use Rattle.std.specs.Prelude.{◌≡◌, ◌==◌, ◌<◌, ◌≤◌, ◌↔◌, ℕ, List, length, option_map, IfSome, IsTrue, IfNone, Some, None, [], ◌∷◌, ◌++◌};
ghost use Rattle.std.specs.List.{before_first, after_first};
ghost use Rattle.std.specs.Str.{byte};
ghost use Rattle.vote_poll.specs.BallotLine.{IsBallotText};
ghost use Rattle.vote_poll.specs.Comparisons.{is_same_reading};
ghost use Rattle.vote_poll_text.specs.Names.{is_voter_name};
ghost use Rattle.vote_poll.specs.Parsing.{kept_and_count, voter_kept_and_count, parts_in, reading_from};
ghost use Rattle.vote_poll.specs.SortKeys.{rank_of_key};
ghost use Rattle.vote_poll.specs.Spelling.{KeepsKey, ListsFirst, ReadingsAreUnique};
ghost use Rattle.vote_poll.specs.PollContent.{PollContent, elector_count, option_count};
ghost use Rattle.vote_poll.specs.Readings.{IsReading, ReadingFits, reading, rank_in, ranks_in, is_space};
ghost use Rattle.vote_poll.specs.declared.reading.Reading.TheVariants.{Ballot};
ghost use Rattle.std.proofs.Common.{rules};
ghost use Rattle.std.specs.Cmp.Rules.{comparing};

use crate::poll::Poll;
use crate::rank_key::{spelled_key, spelled_length};
use crate::ranks::Ranks;
use crate::{MAX_LINE, MAX_OPTIONS};
use vote_poll_text::is_voter_name;

/// How a poll reads a line. Two readings are the same for `==` exactly when they are equal for
/// contracts.
#[derive(Clone, Copy)]
pub enum Reading {
    /// A ballot of the voter at this position of the roll (from 0), with a rank or no rank for each
    /// option of the poll.
    Ballot { voter: usize, ranks: Ranks },
    /// The line is no ballot of this poll, for the first reason that holds.
    Bad(LineFault),
}

/// Why a line is no ballot. If several reasons hold, the first in this order is returned.
#[derive(Clone, Copy, Debug, PartialEq, Eq)]
pub enum LineFault {
    /// The line has more than [`MAX_LINE`] bytes, or it is not a voter's name, one space, and ranks
    /// with a comma between each two. A rank is a hyphen, or a number from 1 to
    /// [`MAX_RANK`](crate::MAX_RANK).
    Shape,
    /// The line has more or fewer ranks than there are options.
    RankCount,
    /// The voter's name is not on the roll.
    Roll,
}

/// The sort key of the rank that a text spells: one byte, as if a comma came after it, or two bytes
/// if the second is not a comma.
fn parse_rank(text: &[u8]) -> Option<u8>
    ensures { option_map rank_of_key result ≡ rank_in text.now }
{
    if text.len() == 1 {
        return spelled_key(text[0], b',');
    }
    if text.len() != 2 || text[1] == b',' {
        return None;
    }
    spelled_key(text[0], text[1])
}

/// The sort key of the first rank in a text, and the text after the comma that ends this rank.
fn first_key(text: &[u8]) -> Option<(u8, &[u8])>
    requires { 3 ≤ length text.now }
    ensures first { IfSome result (λ first. ListsFirst text.now first.0 first.1.now) }
    ensures shorter { IfSome result (λ first. length first.1.now < length text.now) }
    ensures none { IfNone result (ranks_in text.now ≡ None) }
{
    let second = text[1];
    let end = 1 + (second != b',') as usize;
    if text[end] != b',' {
        return None;
    }
    let key = spelled_key(text[0], second)?;
    Some((key, &text[end + 1..]))
}

/// Writes the sort key of the next option into a row, if there is room for it.
fn keep(row: &mut [u8; MAX_OPTIONS], count: usize, key: u8)
    ensures { KeepsKey row.old count key row.new }
{
    if count < MAX_OPTIONS {
        row[count] = key;
    }
}

/// The ranks that a text lists, and how many there are. At most [`MAX_OPTIONS`] ranks are kept.
fn ranks_of(text: &[u8]) -> Option<(Ranks, usize)>
    requires { length text.now ≤ MAX_LINE }
    ensures { result ≡ option_map kept_and_count (ranks_in text.now) }
{
    let mut row = [0; MAX_OPTIONS];
    let mut count = 0;
    let mut left = text;
    while left.len() >= 3 {
        let (key, rest) = first_key(left)?;
        keep(&mut row, count, key);
        count += 1;
        left = rest;
    }
    let last = parse_rank(left)?;
    keep(&mut row, count, last);
    count += 1;
    Some((Ranks::of_row(count, &row), count))
}

/// The texts before and after the first space, if there is one.
fn split_at_space(line: &[u8]) -> Option<(&[u8], &[u8])>
    ensures before { IfSome result (λ parts. parts.0.now ≡ before_first is_space line.now) }
    ensures after { IfSome result (λ parts. parts.1.now ≡ after_first is_space line.now) }
    ensures none { IfNone result (after_first is_space line.now ≡ []) }
{
    for end in 0..line.len() {
        if line[end] == b' ' {
            return Some((&line[..end], &line[end + 1..]));
        }
    }
    None
}

/// The parts of a ballot line. The voter may be any text.
#[derive(Clone, Copy)]
struct BallotLine<'t> {
    voter: &'t [u8],
    /// The first ranks, at most as many as a poll can have options.
    ranks: Ranks,
    /// The number of ranks in the line.
    count: usize,
}

/// The parts of a line, if it would be a ballot line with a voter's name before its first space.
fn parse(line: &[u8]) -> Option<BallotLine<'_>>
    ensures { option_map (λ parts. (parts.voter.now, parts.ranks, parts.count)) result ≡ option_map voter_kept_and_count (parts_in line.now) }
{
    if line.len() > MAX_LINE {
        return None;
    }
    let (voter, ranks) = split_at_space(line)?;
    let (ranks, count) = ranks_of(ranks)?;
    Some(BallotLine {
        voter,
        ranks,
        count,
    })
}

/// The ballot that a line gives: the voter's position on the roll, and the ranks. Each text on the
/// roll is a voter's name, so only a text that is not on the roll is tested.
fn ballot(poll: &Poll, line: &[u8]) -> Result<(usize, Ranks), LineFault>
    ensures { reading_from result ≡ reading poll.now line.now }
{
    let Some(parts) = parse(line) else {
        return Err(LineFault::Shape);
    };
    let found = poll.voter_of(parts.voter);
    if found.is_none() && !is_voter_name(parts.voter) {
        return Err(LineFault::Shape);
    }
    if parts.count != poll.options() as usize {
        return Err(LineFault::RankCount);
    }
    let Some(voter) = found else {
        return Err(LineFault::Roll);
    };
    Ok((voter, parts.ranks))
}

/// How the poll reads a line. The line is given without its line feed. Each line has a reading,
/// whatever its bytes. A ballot gives the `k`-th rank to option `k`. By A.5 of the Constitution's
/// Appendix A an unranked option is below all ranked options.
#[tactic(auto, using(crate::proofs::GrammarLaws::reading_laws))]
pub fn read_line(poll: &Poll, line: &[u8]) -> Reading
    ensures same { result ≡ reading poll.now line.now }
    ensures grammar { IsReading poll.now line.now result }
    ensures fits { ReadingFits (option_count poll.now) (elector_count poll.now) result }
{
    match ballot(poll, line) {
        Ok((voter, ranks)) => Reading::Ballot { voter, ranks },
        Err(fault) => Reading::Bad(fault),
    }
}

/// Whether a line is a ballot line of some poll: a voter's name and ranks, however many.
pub fn is_ballot_line(line: &[u8]) -> bool
    ensures { IsTrue result ↔ IsBallotText line.now }
{
    match parse(line) {
        Some(parts) => is_voter_name(parts.voter),
        None => false,
    }
}

/// The text after a rank and its comma, if a text begins with the rank that has this sort key.
///
/// The sort key says how long the rank is. So no look at the text has to wait for the one before.
fn behind_rank(text: &[u8], key: u8) -> Option<&[u8]>
    ensures { IfSome result (λ rest. ListsFirst text.now key rest.now) }
{
    if text.len() < 3 {
        return None;
    }
    let end = spelled_length(text[0], text[1], key)?;
    if text[end] != b',' {
        return None;
    }
    Some(&text[end + 1..])
}

/// Whether a text lists the ranks of this ballot.
fn lists_ranks(text: &[u8], ranks: &Ranks) -> bool
    ensures { IsTrue result → ranks_in text.now ≡ Some ranks.now }
{
    let Some((last, others)) = ranks.keys().split_last() else {
        return false;
    };
    let mut left = text;
    for key in others {
        let Some(rest) = behind_rank(left, *key) else {
            return false;
        };
        left = rest;
    }
    parse_rank(left) == Some(*last)
}

/// The text after a name and a space, if the line begins with them.
fn behind_name<'t>(line: &'t [u8], name: &[u8]) -> Option<&'t [u8]>
    ensures { IfSome result (λ text. line.now ≡ name.now ++ byte " " ∷ text.now) }
{
    line.strip_prefix(name)?.strip_prefix(b" ")
}

/// Whether a line spells a ballot of the voter at this position of the roll, with these ranks.
fn spells(poll: &Poll, line: &[u8], voter: usize, ranks: &Ranks) -> bool
    ensures { IsTrue result → reading poll.now line.now ≡ Ballot voter ranks.now }
{
    if MAX_LINE < line.len() || ranks.options() != poll.options() {
        return false;
    }
    let Some(name) = poll.voter_name(voter) else {
        return false;
    };
    match behind_name(line, name) {
        Some(text) => lists_ranks(text, ranks),
        None => false,
    }
}

/// Whether this is the poll's reading of a line, as [`read_line`] returns it. A ballot is compared
/// with the line by the name at the voter's position on the roll, which takes no look-up, and by
/// the spelling of its ranks.
pub fn is_reading(poll: &Poll, line: &[u8], answer: &Reading) -> bool
    ensures { IsTrue result ↔ (answer.now ≡ reading poll.now line.now) }
{
    if let Reading::Ballot { voter, ranks } = answer
        && spells(poll, line, *voter, ranks)
    {
        return true;
    }
    read_line(poll, line) == *answer
}

/// A law: [`read_line`] returns a reading of each line by the grammar.
#[tactic(auto, using(crate::proofs::GrammarLaws::reading_is))]
pub fn each_line_is_read()
    ensures { (poll : PollContent) (line : List ℕ) → IsReading poll line (reading poll line) }
{}

/// A law: a poll reads a line in only one way, so [`read_line`] returns its only reading.
#[tactic(auto, using(crate::proofs::OneReading::readings_are_one))]
pub fn readings_are_unique()
    ensures { ReadingsAreUnique }
{}

impl PartialEq for Reading {
    ghost eq = { is_same_reading };

    ghost laws = { Prim.search (comparing, rules) depth 9 };

    /// Whether two readings are ballots of the same voter with the same ranks, or have the same
    /// fault.
    #[tactic(auto, using(crate::proofs::Equality::same_reading))]
    fn eq(&self, other: &Reading) -> bool
        ensures test { result ≡ is_same_reading self.now other.now }
        ensures same { IsTrue result ↔ (self.now ≡ other.now) }
    {
        match (self, other) {
            (
                Reading::Ballot { voter, ranks },
                Reading::Ballot {
                    voter: other_voter,
                    ranks: other_ranks,
                },
            ) => voter == other_voter && ranks == other_ranks,
            (Reading::Bad(fault), Reading::Bad(other_fault)) => fault == other_fault,
            _ => false,
        }
    }
}

impl Eq for Reading {
    ghost laws = { Prim.search (comparing, rules) depth 9 };
}
