//! The ballot box of one thread, and the history of its steps.
//!
//! Envelopes come to the box at desks, each with a stamp and with the poll's reading of its line. A call of [`BallotBox::cast`]
//! or [`BallotBox::close`] makes one [`Step`], or refuses and changes nothing. The steps are the history of the box. Everything
//! else that the box reports is a replay of them: each voter's ballot that stands, the matrix of votes, the totals, and whether
//! the box is open. The contracts say so: they see a box as its sizes and its steps (`BoxState`), and each result as a
//! definition on the steps (`History`).
//!
//! What is promised:
//!
//! - The history is legal (`IsLegal`). Each cast has a desk, a stamp of the box that no earlier step has, a reading that fits
//!   the box, and the reply that the steps before it call for. A close comes only to an open box.
//! - Of each voter's ballots that were cast before the close and are not late, the one with the greatest stamp stands. So a
//!   line further down in the ballot file replaces a line further up, in whatever order the two come to the box.
//! - A box may refuse late envelopes, which have a stamp above its last envelope. An envelope is late because of its own
//!   number, and never because of when it came. So lateness does not depend on the order of the desks, either. This is a rule
//!   of this project.
//! - At any time the matrix is that of a recount of the ballots that stand.
//! - [`cast_all`] casts the lines of a ballot file at one desk, in their order, and closes the box. `HoldsLines` says what it
//!   means that a box holds the lines of a poll, for every box, whatever the number of desks and the order.
//! - The functions of [`laws`] say what follows for every history, whoever made it.
//!
//! Numbering: desks from 1 to [`MAX_DESKS`], stamps from 1 to the limit of the box, options from 1 with the default last,
//! voters from 0 by their position on the roll, steps from 1. `BallotBox::new` takes all memory that a box needs. No other call
//! takes memory, and a cast takes the same time whatever the number of voters, lines and steps.
#![tactic(auto)]

mod ballot_box;
mod casting;
pub mod laws;
mod packed_reading;
mod roll;
mod step;

pub use ballot_box::{AlreadyClosed, BallotBox, StepFault, Totals};
pub use casting::cast_all;
pub use packed_reading::PackedReading;
pub use step::{Received, Reply, Step, reply_words};

/// The most desks at which envelopes are cast. Desks are numbered from 1.
pub const MAX_DESKS: u8 = 8;
