//! The rule that a tray keeps between any two steps, and what each step shows.
//!
//! There are seven kinds of step. Each is made with the seat of one pass:
//!
//! - The table is made, and its first pass has all parts (`Dealing`).
//! - A load: the pass has seen the word (`Look`).
//! - A compare-exchange that wins: the word rises by one, and the pass has that place (`Claim`).
//! - A compare-exchange that loses: the pass has seen the word, which was greater (`Claim`).
//! - A pass is cut in two, only while a tray is made: the new pass gets one part (`Cut`).
//! - Two passes are joined: the first has the places and parts of both, and the second has none
//!   (`Glue`).
//! - The table is closed, with one pass.
//!
//! Dropping a pass is not a step: what the pass knew stays under the rule.
ghost use Rattle.vote_tray.specs.Rule.{IsDealt, first_view, looked, claimed, first_part, other_parts, both_views, spent_view};

use atomic_table::{Join, Play, Split, TableRule};
use std::collections::LinkedList;

/// What a pass knows. No value of it is made.
pub struct View {
    /// The number of places of its tray.
    pub size: u64,
    /// The number of passes of its tray.
    pub passes: u8,
    /// The word as the pass last saw it.
    pub seen: u64,
    /// The places that the pass took, in that order. Each is from 0 to `size - 1`.
    pub places: LinkedList<u64>,
    /// The parts of the pass. Each is from 0 to `passes - 1`.
    pub parts: LinkedList<u8>,
}

/// The numbers of places and of passes.
#[derive(Drop)]
pub struct Counts {
    pub size: u64,
    pub passes: u8,
}

/// The rule itself.
pub struct Dealing;

impl TableRule<(), View, Counts> for Dealing {
    ghost holds = { IsDealt };

    ghost first = { first_view };
}

/// A load.
pub struct Look;

impl Play<(), View> for Look {
    ghost then = { looked };
}

/// The compare-exchange that takes a place.
pub struct Claim;

impl Play<(), View> for Claim {
    ghost then = { claimed };
}

/// The first part goes to a new pass.
pub struct Cut;

impl Split<View> for Cut {
    ghost left = { other_parts };

    ghost right = { first_part };
}

/// Two passes become one.
pub struct Glue;

impl Join<View> for Glue {
    ghost both = { both_views };

    ghost spent = { spent_view };
}
