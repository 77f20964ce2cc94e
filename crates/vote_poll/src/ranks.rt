//! The ranks that a ballot gives.
ghost use Rattle.std.specs.Prelude.{◌≡◌, ◌<◌, ◌≤◌, ◌↔◌, ℕ, List, IsTrue, None, length, map, slice_index_or, take};
ghost use Rattle.vote_poll.specs.Comparisons.{are_same_ranks};
ghost use Rattle.vote_poll.specs.Options.{IsOption};
ghost use Rattle.vote_poll.specs.SortKeys.{IsSortKey, rank_of_key, row_of};
ghost use Rattle.vote_poll.specs.Ranks.{rank_of, prefers};
ghost use Rattle.std.proofs.Common.{rules};
ghost use Rattle.std.specs.Cmp.Rules.{comparing};

use crate::{MAX_OPTIONS, UNRANKED};
use std::marker::Model;

/// The rank that a ballot gives each option, or no rank. Contracts see the list of them. Options are numbered from 1. Ranks
/// are from 1 to [`MAX_RANK`](crate::MAX_RANK) if a line was read, and the smaller rank is preferred. Two ballots are the
/// same for `==` exactly when they are equal for contracts.
#[derive(Clone, Copy)]
pub struct Ranks {
    /// The sort key of each option, as [`Ranks::sort_keys`] says. This field comes first, so a read after a copy begins
    /// where a part of the copy began. Otherwise a processor waits until the copy is done.
    sort_keys: [u8; MAX_OPTIONS],
    options: u8,
}

impl Model for Ranks {
    ghost use Rattle.std.specs.Prelude.{◌≡◌, ◌-◌, ◌≤◌, ℕ, List, ◌++◌, Option, length, map, slice_index_or, take, replicate};
    ghost use Rattle.vote_poll.specs.SortKeys.{key_of, rank_of_key, kept_options, kept_keys};
    ghost use Rattle.vote_poll.specs.declared.TheConstants.{MAX_OPTIONS, UNRANKED};

    ghost Value = { List (Option ℕ) };

    ghost view = { λ r. map rank_of_key (take r.options r.sort_keys) };

    ghost invariant = { λ r. (r.options ≤ MAX_OPTIONS) × (length r.sort_keys ≡ MAX_OPTIONS) × (take r.options r.sort_keys ++ replicate (MAX_OPTIONS - r.options) 0 ≡ r.sort_keys) × ((k : ℕ) → slice_index_or r.sort_keys k 0 ≤ UNRANKED) };

    ghost inverse = { λ ranks. record { options = length ranks; sort_keys = map key_of ranks ++ replicate (MAX_OPTIONS - length ranks) 0 } };

    ghost inverse_ok = { λ a h i. record { options = kept_options a.options a.sort_keys h.0 h.1 i; sort_keys = kept_keys a.options a.sort_keys h.0 h.1 h.2 i } };
}

impl Ranks {
    /// The ranks of `count` options, whose sort keys are in a row. At most [`MAX_OPTIONS`] of them are kept.
    pub(crate) fn of_row(count: usize, row: &[u8; MAX_OPTIONS]) -> Ranks
        requires { (keys : List ℕ) × (length keys ≡ count) × (row.now ≡ row_of keys) }
        ensures { (keys : List ℕ) → length keys ≡ count → row.now ≡ row_of keys → result ≡ take MAX_OPTIONS (map rank_of_key keys) }
    {
        Ranks {
            options: count.min(MAX_OPTIONS) as u8,
            sort_keys: *row,
        }
    }

    /// The number of options, ranked or not.
    pub fn options(&self) -> u8
        ensures number { result ≡ length self.now }
        ensures at_most { result ≤ MAX_OPTIONS }
    {
        self.options
    }

    /// The sort key of each option, at index `k - 1` for option `k`: its rank, or [`UNRANKED`] if it has no rank. So of two
    /// options the ballot prefers the option with the smaller key, and neither if the keys are equal. After the options'
    /// keys there are zeros.
    pub fn sort_keys(&self) -> &[u8]
        ensures long { length result.now ≡ MAX_OPTIONS }
        ensures options { (k : ℕ) → k < length self.now → IsSortKey (slice_index_or self.now k None) (slice_index_or result.now k 0) }
        ensures others { (k : ℕ) → length self.now ≤ k → slice_index_or result.now k 0 ≡ 0 }
    {
        &self.sort_keys
    }

    /// The sort keys of the options, without the zeros after them.
    pub(crate) fn keys(&self) -> &[u8]
        ensures { map rank_of_key result.now ≡ self.now }
    {
        self.sort_keys.split_at(self.options as usize).0
    }

    /// The rank of an option, or `None` if the ballot leaves it unranked.
    pub fn rank(&self, option: u8) -> Option<u8>
        requires { IsOption (length self.now) option }
        ensures { result ≡ rank_of self.now option }
    {
        let key = self.sort_keys[option as usize - 1];
        if key < UNRANKED { Some(key) } else { None }
    }

    /// Whether the ballot prefers option `a` to option `b`: it ranks `a`, and leaves `b` unranked or gives it a greater
    /// rank. Of two unranked options, or two of equal rank, it prefers neither (A.5 of the Constitution's Appendix A; that
    /// ranks are numbers and the smaller is preferred is this project's own). For callers of the library; the program does
    /// not call it.
    pub fn prefers(&self, a: u8, b: u8) -> bool
        requires a { IsOption (length self.now) a }
        requires b { IsOption (length self.now) b }
        ensures { result ≡ prefers self.now a b }
    {
        match (self.rank(a), self.rank(b)) {
            (None, _) => false,
            (Some(_), None) => true,
            (Some(rank), Some(other)) => rank < other,
        }
    }
}

impl PartialEq for Ranks {
    ghost eq = { are_same_ranks };

    ghost laws = { Prim.search (comparing, rules) };

    /// Whether two ballots have the same number of options, and give each the same rank.
    #[tactic(auto, using(crate::proofs::Equality::same_ranks))]
    fn eq(&self, other: &Ranks) -> bool
        ensures test { result ≡ are_same_ranks self.now other.now }
        ensures same { IsTrue result ↔ (self.now ≡ other.now) }
    {
        self.keys() == other.keys()
    }
}

impl Eq for Ranks {
    ghost laws = { Prim.search (comparing, rules) };
}
