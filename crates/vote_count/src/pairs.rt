//! Sets of pairs of options: defeats, and transitive defeats.
ghost use Rattle.std.specs.Prelude.{◌≡◌, ℕ, ◌-◌, ◌≤◌, ◌⊎◌, ◌↔◌, false, IsTrue};
ghost use Rattle.std.specs.Int.{bit_at};
ghost use Rattle.vote_poll.specs.Options.{IsOption};
ghost use Rattle.vote_count.specs.Rules.{PairwiseDefeats, TransitivelyDefeats, Within};
ghost use Rattle.vote_count.specs.Sets.{has_pair, has_other_pair, pair_count, In, Pairs};

use crate::{Matrix, OptionSet, Word};
use std::marker::Model;
use vote_poll::MAX_OPTIONS;

/// A list of defeats of one option by another: pairwise defeats, or the transitive defeats that
/// [`reach`] finds (Appendix A, Vote Counting). Their order has no meaning, so the list is a set. It
/// has a row for each option, with the options that it defeats.
#[derive(Clone, Copy)]
pub struct Defeats {
    rows: [OptionSet; MAX_OPTIONS],
}

impl Model for Defeats {
    ghost use Rattle.std.specs.Prelude.{◌≡◌, List, Bool, length};
    ghost use Rattle.vote_poll.specs.declared.TheConstants.{MAX_OPTIONS};

    ghost Value = { List (List Bool) };

    ghost view = { λ d. d.rows };

    ghost invariant = { λ d. length d.rows ≡ MAX_OPTIONS };

    ghost inverse = { λ rows. record { rows = rows } };
}

#[tactic(auto, using(vote_poll::proofs::OptionLaws::options))]
impl Defeats {
    // The list with no defeats.
    pub(crate) fn empty() -> Self
        ensures { (a b : ℕ) → has_pair result a b ≡ false }
    {
        Self {
            rows: [OptionSet::empty(); MAX_OPTIONS],
        }
    }

    // Adds the defeat of `b` by `a` to the list.
    pub(crate) fn insert(&mut self, a: u8, b: u8)
        requires a { IsOption MAX_OPTIONS a }
        requires b { IsOption MAX_OPTIONS b }
        ensures { (x y : ℕ) → Pairs self.new x y ↔ (((x ≡ a) × (y ≡ b)) ⊎ Pairs self.old x y) }
    {
        self.rows[a as usize - 1].insert(b);
    }

    /// The defeats among the options of a set: A defeats B if more voters prefer A to B than B to A
    /// (Appendix A, Vote Counting).
    pub fn of(set: &OptionSet, matrix: &Matrix) -> Self
        requires { (o : ℕ) → In set.now o → IsOption matrix.now.options o }
        ensures { (a b : ℕ) → Pairs result a b ↔ PairwiseDefeats (In set.now) matrix.now a b }
    {
        let mut defeats = Self::empty();
        for a in 1..matrix.options() + 1 {
            for b in 1..matrix.options() + 1 {
                if is_defeat(set, matrix, a, b) {
                    defeats.insert(a, b);
                }
            }
        }
        defeats
    }

    /// Whether the list has the defeat of `b` by `a`. It has no defeat of or by a number that is no
    /// option.
    pub fn has(&self, a: u8, b: u8) -> bool
        ensures { result ≡ has_pair self.now a b }
    {
        let a = a as usize;
        a >= 1 && a <= MAX_OPTIONS && self.rows[a - 1].has(b)
    }

    /// The options that `a` defeats, as a word in which option `c` has bit `c - 1`. `a` is from 1 to
    /// `MAX_OPTIONS`.
    /// For callers of the library; the program does not call it.
    pub fn row(&self, a: u8) -> Word
        requires { IsOption MAX_OPTIONS a }
        ensures { (c : ℕ) → 1 ≤ c → (bit_at result (c - 1) ≡ 1) ↔ Pairs self.now a c }
    {
        self.rows[a as usize - 1].word()
    }

    // The options that are defeated.
    fn defeated(&self) -> OptionSet
        ensures { (a b : ℕ) → Pairs self.now a b → In result b }
    {
        let mut defeated = OptionSet::empty();
        for row in &self.rows {
            defeated.union_with(row);
        }
        defeated
    }

    /// The number of defeats.
    pub fn len(&self) -> usize
        ensures { result ≡ pair_count self.now }
    {
        let mut count = 0;
        for row in &self.rows {
            count += row.len();
        }
        count
    }

    /// Whether there are no defeats.
    pub fn is_empty(&self) -> bool
        ensures { IsTrue result ↔ (pair_count self.now ≡ 0) }
    {
        self.len() == 0
    }

    // The defeats between options of a set.
    pub(crate) fn within(&self, set: &OptionSet) -> Self
        ensures { (a b : ℕ) → Pairs result a b ↔ Within (In set.now) (Pairs self.now) a b }
    {
        let mut inside = Self::empty();
        for i in 0..set.last() as usize {
            if set.has(i as u8 + 1) {
                inside.rows[i] = self.rows[i].intersection(set);
            }
        }
        inside
    }

    /// The defeats without the removed ones.
    pub fn minus(&self, removed: &Self) -> Self
        ensures { (a b : ℕ) → has_pair result a b ≡ has_other_pair self.now removed.now a b }
    {
        let mut rest = *self;
        for (i, row) in removed.rows.iter().enumerate() {
            rest.rows[i] = rest.rows[i].minus(row);
        }
        rest
    }
}

// Whether `a` defeats `b` and both are in the set.
fn is_defeat(set: &OptionSet, matrix: &Matrix, a: u8, b: u8) -> bool
    requires a { IsOption matrix.now.options a }
    requires b { IsOption matrix.now.options b }
    ensures { IsTrue result ↔ PairwiseDefeats (In set.now) matrix.now a b }
{
    set.has(a) && set.has(b) && matrix.votes(a, b) > matrix.votes(b, a)
}

/// The transitive defeats: A transitively defeats C if A defeats C, or if A defeats some B that
/// transitively defeats C (Appendix A, Vote Counting).
///
/// For each option in turn, each row that has the option takes in the option's own row. Each other
/// row takes in nothing. So LLVM makes vector code of a turn.
pub fn reach(defeats: &Defeats) -> Defeats
    ensures { (a c : ℕ) → Pairs result a c ↔ TransitivelyDefeats (Pairs defeats.now) a c }
{
    let mut rows = defeats.rows;
    let last = defeats.defeated().last();
    for before in 0..last {
        let b = before + 1;
        let through = rows[before as usize];
        for row in rows.iter_mut() {
            let more = if row.has(b) {
                through
            } else {
                OptionSet::empty()
            };
            row.union_with(&more);
        }
    }
    Defeats { rows }
}
