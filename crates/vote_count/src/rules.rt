//! The rules of the count.
ghost use Rattle.std.specs.Prelude.{◌≡◌, ℕ, ◌≤◌, ◌<◌, ◌↔◌, ◌⊎◌, IsTrue, IfSome};
ghost use Rattle.vote_poll.specs.Options.{IsOption};
ghost use Rattle.vote_poll.specs.PollContent.{option_count};
ghost use Rattle.vote_count.specs.Rules.{MeetsQuorum, IsQuorum, MeetsMajority, IsKept, IsAhead, AreAhead, InSchwartzSet, IsWeaker, AreWeakest, votes_for};
ghost use Rattle.vote_count.specs.Weakest.{IsWeakerOf, IsOneWeakest, IsNoStronger, AreOptions, AreBetween};
ghost use Rattle.vote_count.specs.Sets.{In, Pairs};

use crate::{Defeats, Matrix, OptionSet};
use vote_poll::{MAX_OPTIONS, Poll, Wording, times_q};

/// The fewest votes that meet the quorum of a poll (section 4.2): its multiple of Q.
pub fn quorum_votes(poll: &Poll) -> u64
    ensures { IsQuorum poll.now result }
{
    times_q(poll.quorum_multiple(), poll.electors())
}

/// Whether the votes of an option over the default option meet the quorum (section 4.2; Appendix A,
/// Vote Counting). The option is not the default option. For callers of the library; the program does
/// not call it.
pub fn meets_quorum(poll: &Poll, matrix: &Matrix, option: u8) -> bool
    requires options { matrix.now.options ≡ option_count poll.now }
    requires first { 1 ≤ option }
    requires below_default { option < option_count poll.now }
    ensures { IsTrue result ↔ MeetsQuorum poll.now (votes_for poll.now matrix.now option) }
{
    has_quorum(poll, matrix, option, quorum_votes(poll))
}

// The same. `quorum` is the fewest votes that meet the quorum.
pub(crate) fn has_quorum(poll: &Poll, matrix: &Matrix, option: u8, quorum: u64) -> bool
    requires options { matrix.now.options ≡ option_count poll.now }
    requires first { 1 ≤ option }
    requires below_default { option < option_count poll.now }
    requires quorum { IsQuorum poll.now quorum }
    ensures { IsTrue result ↔ MeetsQuorum poll.now (votes_for poll.now matrix.now option) }
{
    u64::from(matrix.votes(option, poll.options())) >= quorum
}

/// Whether an option defeats the default option by its majority ratio, in the wording of the poll
/// (Appendix A, Vote Counting, for [`Wording::AtLeast`]). A ratio is at least 1, so the option has more
/// votes than the default option in either wording. The option is not the default option.
pub fn meets_majority(poll: &Poll, matrix: &Matrix, option: u8) -> bool
    requires options { matrix.now.options ≡ option_count poll.now }
    requires first { 1 ≤ option }
    requires below_default { option < option_count poll.now }
    ensures majority { IsTrue result ↔ MeetsMajority poll.now matrix.now option }
    ensures more { IsTrue result → IsAhead poll.now matrix.now option }
{
    let default = poll.options();
    let won = u64::from(matrix.votes(option, default));
    let lost = u64::from(matrix.votes(default, option));
    let needed = u64::from(poll.ratio(option)) * lost;
    match poll.wording() {
        Wording::AtLeast => won >= needed && won > lost,
        Wording::MoreThan => won > needed,
    }
}

/// The options that are not dropped (Appendix A, Vote Counting): each option that meets the quorum and
/// defeats the default option by its majority ratio, and the default option, which is never dropped.
/// For callers of the library; the program does not call it.
pub fn standing_options(poll: &Poll, matrix: &Matrix) -> OptionSet
    requires { matrix.now.options ≡ option_count poll.now }
    ensures { (o : ℕ) → In result o ↔ IsKept poll.now matrix.now o }
{
    kept_with(poll, matrix, quorum_votes(poll))
}

// The same. `quorum` is the fewest votes that meet the quorum.
pub(crate) fn kept_with(poll: &Poll, matrix: &Matrix, quorum: u64) -> OptionSet
    requires options { matrix.now.options ≡ option_count poll.now }
    requires quorum { IsQuorum poll.now quorum }
    ensures kept { (o : ℕ) → In result o ↔ IsKept poll.now matrix.now o }
    ensures more { AreAhead poll.now matrix.now (In result) }
{
    let default = poll.options();
    let mut standing = OptionSet::empty();
    standing.insert(default);
    for option in 1..default {
        if has_quorum(poll, matrix, option, quorum) && meets_majority(poll, matrix, option) {
            standing.insert(option);
        }
    }
    standing
}

// Whether `b` transitively defeats `a`, and `a` does not transitively defeat `b`.
fn is_beaten_by(chains: &Defeats, a: u8, b: u8) -> bool
    ensures { IsTrue result ↔ (Pairs chains.now b a × ¬ Pairs chains.now a b) }
{
    chains.has(b, a) && !chains.has(a, b)
}

// Whether `a` transitively defeats each option of the set that transitively defeats it.
fn is_unbeaten(set: &OptionSet, chains: &Defeats, a: u8) -> bool
    requires { (o : ℕ) → In set.now o → IsOption MAX_OPTIONS o }
    ensures { IsTrue result ↔ ((b : ℕ) → In set.now b → Pairs chains.now a b ⊎ ¬ Pairs chains.now b a) }
{
    for b in 1..set.last() + 1 {
        if set.has(b) && is_beaten_by(chains, a, b) {
            return false;
        }
    }
    true
}

/// The Schwartz set of a set of options (Appendix A, Vote Counting). An option A of the set is in it
/// if, for each option B of the set, A transitively defeats B or B does not transitively defeat A.
pub fn schwartz(set: &OptionSet, chains: &Defeats) -> OptionSet
    requires { (o : ℕ) → In set.now o → IsOption MAX_OPTIONS o }
    ensures { (a : ℕ) → In result a ↔ InSchwartzSet (In set.now) (Pairs chains.now) a }
{
    let mut schwartz = OptionSet::empty();
    for a in 1..set.last() + 1 {
        if set.has(a) && is_unbeaten(set, chains, a) {
            schwartz.insert(a);
        }
    }
    schwartz
}

// Whether a defeat is weaker than another. A defeat is a pair: an option, and an option that it
// defeats.
fn is_weaker(matrix: &Matrix, defeat: (u8, u8), other: (u8, u8)) -> bool
    requires defeat { AreOptions matrix.now.options defeat }
    requires other { AreOptions matrix.now.options other }
    ensures { IsTrue result ↔ IsWeaker matrix.now defeat.0 defeat.1 other.0 other.1 }
{
    let won = matrix.votes(defeat.0, defeat.1);
    let lost = matrix.votes(defeat.1, defeat.0);
    let other_won = matrix.votes(other.0, other.1);
    let other_lost = matrix.votes(other.1, other.0);
    won < other_won || (won == other_won && lost > other_lost)
}

// The weaker of two defeats: this one, and the weakest so far.
fn weaker_of(matrix: &Matrix, defeat: (u8, u8), so_far: Option<(u8, u8)>) -> (u8, u8)
    requires defeat { AreOptions matrix.now.options defeat }
    requires so_far { IfSome so_far (AreOptions matrix.now.options) }
    ensures { IsWeakerOf matrix.now defeat so_far result }
{
    match so_far {
        Some(other) if !is_weaker(matrix, defeat, other) => other,
        _ => defeat,
    }
}

// One of the weakest defeats, if there is a defeat.
fn one_weakest(defeats: &Defeats, matrix: &Matrix) -> Option<(u8, u8)>
    requires { AreBetween matrix.now.options (Pairs defeats.now) }
    ensures { IsOneWeakest matrix.now (Pairs defeats.now) result }
{
    let mut weakest = None;
    for a in 1..matrix.options() + 1 {
        for b in 1..matrix.options() + 1 {
            if defeats.has(a, b) {
                weakest = Some(weaker_of(matrix, (a, b), weakest));
            }
        }
    }
    weakest
}

// Whether a pair is one of the defeats, and no stronger than `weakest`.
fn is_no_stronger(matrix: &Matrix, defeats: &Defeats, pair: (u8, u8), weakest: (u8, u8)) -> bool
    requires pair { IsOption matrix.now.options pair.0 × IsOption matrix.now.options pair.1 }
    requires weakest { AreOptions matrix.now.options weakest }
    ensures { IsTrue result ↔ IsNoStronger matrix.now (Pairs defeats.now) weakest pair.0 pair.1 }
{
    defeats.has(pair.0, pair.1) && !is_weaker(matrix, weakest, pair)
}

// The defeats that are no stronger than `weakest`.
fn no_stronger_than(weakest: (u8, u8), defeats: &Defeats, matrix: &Matrix) -> Defeats
    requires weakest { AreOptions matrix.now.options weakest }
    requires defeats { AreBetween matrix.now.options (Pairs defeats.now) }
    ensures { (a b : ℕ) → Pairs result a b ↔ IsNoStronger matrix.now (Pairs defeats.now) weakest a b }
{
    let mut found = Defeats::empty();
    for a in 1..matrix.options() + 1 {
        for b in 1..matrix.options() + 1 {
            if is_no_stronger(matrix, defeats, (a, b), weakest) {
                found.insert(a, b);
            }
        }
    }
    found
}

/// The weakest of the defeats between options of a set (Appendix A, Vote Counting): no other defeat
/// between them is weaker. There may be several. There are none if no defeat is within the set. Of two
/// defeats the one with fewer votes for it is weaker; if these are equal, the one with more votes
/// against it.
pub fn weakest(set: &OptionSet, defeats: &Defeats, matrix: &Matrix) -> Defeats
    requires { (o : ℕ) → In set.now o → IsOption matrix.now.options o }
    ensures { AreWeakest matrix.now (In set.now) (Pairs defeats.now) (Pairs result) }
{
    let inside = defeats.within(set);
    match one_weakest(&inside, matrix) {
        Some(weakest) => no_stronger_than(weakest, &inside, matrix),
        None => inside,
    }
}
