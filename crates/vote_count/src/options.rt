//! Sets of options.
ghost use Rattle.std.specs.Prelude.{◌≡◌, ℕ, ◌-◌, ◌≤◌, ◌⊎◌, ◌↔◌, ◌&&◌, ◌||◌, not, false, MatchOption};
ghost use Rattle.std.specs.Int.{bit_at};
ghost use Rattle.vote_poll.specs.Options.{IsOption};
ghost use Rattle.vote_count.specs.Sets.{has, size, In, IsAlone};

use std::marker::Model;
use vote_poll::MAX_OPTIONS;

/// A word with one bit for each option that a poll can have: option `o` has bit `o - 1`.
///
/// It has `MAX_OPTIONS` bits, and each other size here is written with `MAX_OPTIONS`. More options
/// need a wider word here, and the same `width` in `proofs/BitLemmas.antt`.
pub type Word = u32;

/// A set of options, which are numbered from 1 to `MAX_OPTIONS`.
#[derive(Clone, Copy, PartialEq, Eq)]
pub struct OptionSet {
    bits: Word,
}

impl Model for OptionSet {
    ghost use Rattle.std.specs.Prelude.{◌^◌, ◌<◌, List, Bool};
    ghost use Rattle.vote_count.specs.Bits.{mask_l, marks_of, mask_l-marks_of};
    ghost use Rattle.vote_poll.specs.declared.TheConstants.{MAX_OPTIONS};

    ghost Value = { List Bool };

    ghost view = { λ s. marks_of MAX_OPTIONS s.bits };

    ghost invariant = { λ s. s.bits < 2 ^ MAX_OPTIONS };

    ghost inverse = { λ marks. record { bits = mask_l marks } };

    ghost inverse_ok = { λ a h. Prim.rw (mask_l-marks_of MAX_OPTIONS a.bits h) };
}

#[tactic(auto, using(crate::proofs::BitLemmas::bit_marks))]
impl OptionSet {
    // The set with no options.
    pub(crate) fn empty() -> Self
        ensures { (o : ℕ) → has result o ≡ false }
    {
        Self { bits: 0 }
    }

    // Adds an option to the set.
    pub(crate) fn insert(&mut self, option: u8)
        requires { IsOption MAX_OPTIONS option }
        ensures options { (o : ℕ) → In self.new o ↔ ((o ≡ option) ⊎ In self.old o) }
        ensures at_most { size self.new ≤ MAX_OPTIONS }
    {
        self.bits |= 1 << (option - 1);
    }

    /// Whether the option is in the set. A number that is no option is in no set.
    pub fn has(&self, option: u8) -> bool
        ensures { result ≡ has self.now option }
    {
        option >= 1 && option as usize <= MAX_OPTIONS && (self.bits >> (option - 1)) & 1 == 1
    }

    // The set as a word: option `o` has bit `o - 1`.
    pub(crate) fn word(&self) -> Word
        ensures { (o : ℕ) → 1 ≤ o → (bit_at result (o - 1) ≡ 1) ↔ In self.now o }
    {
        self.bits
    }

    /// The number of options in the set.
    pub fn len(&self) -> usize
        ensures count { result ≡ size self.now }
        ensures at_most { result ≤ MAX_OPTIONS }
    {
        self.bits.count_ones() as usize
    }

    // The greatest option of the set, or 0 if it is empty. So a loop over the set needs no more turns
    // than its poll has options.
    pub(crate) fn last(&self) -> u8
        ensures none_behind { (o : ℕ) → In self.now o → o ≤ result }
        ensures at_most { result ≤ MAX_OPTIONS }
    {
        MAX_OPTIONS as u8 - self.bits.leading_zeros() as u8
    }

    // The only option of the set, if it has exactly one.
    pub(crate) fn only(&self) -> Option<u8>
        ensures { MatchOption result ((o : ℕ) → ¬ IsAlone self.now o) (IsAlone self.now) }
    {
        if self.bits.count_ones() == 1 {
            Some(self.bits.trailing_zeros() as u8 + 1)
        } else {
            None
        }
    }

    // Adds the options of another set to this set.
    pub(crate) fn union_with(&mut self, other: &Self)
        ensures { (o : ℕ) → has self.new o ≡ (has self.old o || has other.now o) }
    {
        self.bits |= other.bits;
    }

    // The options that are in this set and in another.
    pub(crate) fn intersection(&self, other: &Self) -> Self
        ensures { (o : ℕ) → has result o ≡ (has self.now o && has other.now o) }
    {
        Self {
            bits: self.bits & other.bits,
        }
    }

    // The options of this set that are not in another.
    pub(crate) fn minus(&self, other: &Self) -> Self
        ensures { (o : ℕ) → has result o ≡ (has self.now o && not (has other.now o)) }
    {
        Self {
            bits: self.bits & !other.bits,
        }
    }
}
