//! A desk, and the box with its books behind the lock.
ghost use Rattle.std.specs.Prelude.{◌≡◌, ℕ, []};
ghost use Rattle.vote_steps.specs.Boxes.{BoxState};
ghost use Rattle.vote_steps.specs.History.{valid, refused};
ghost use Rattle.vote_desks_box.specs.Slips.{valid_slips, refused_slips};

use crate::slip::Slip;
use std::marker::{Brand, Model};
use std::sync::ledger::{Book, Ledger, Share};
use vote_steps::{BallotBox, MAX_DESKS};

/// A ledger of what the desks of one box have done. The ledger is part of a desk's type, so a desk
/// of another box has another type. Contracts take `opened` from the ledger of valid lines.
pub trait Tally: Ledger {
    /// The number of desks.
    ghost desks: { ℕ };

    /// The box as it was opened, with no steps.
    ghost opened: { BoxState };
}

/// `Brand`, of the kit, is the type that a caller passes for a ledger: it has no bytes and does
/// nothing. A function over `VL: Tally` is proved for any members of `VL`. So the proof of a call
/// that passes `Brand` picks the members, the number of desks and the opened box, in its file
/// `Invariants.antt`. A call that picks none has the members below.
impl Tally for Brand {
    ghost desks = { 0 };

    ghost opened = { record {
      options = 0;
      electors = 0;
      limit = 0;
      last_in_time = 0;
      steps = [];
    } };
}

/// A box, with its books of valid and refused lines. It is behind the lock of a shared box, and no
/// call returns it. It is public for the contract of `enter`.
#[derive(Drop)]
pub struct Held<VL: Tally, RL: Tally> {
    pub(crate) ballot_box: BallotBox,
    pub(crate) valid_book: Book<VL>,
    pub(crate) refused_book: Book<RL>,
}

impl<VL: Tally, RL: Tally> Model for Held<VL, RL> {
    ghost use Rattle.std.specs.Prelude.{◌≡◌};
    ghost use Rattle.vote_steps.specs.History.{valid, refused};
    ghost use Rattle.vote_desks_box.specs.Desks.{HeldState, IsLater};

    ghost Value = { HeldState };

    ghost view = { λ h. record {
      ballot_box = h.ballot_box;
      valid_book = h.valid_book.total;
      refused_book = h.refused_book.total;
    } };

    ghost invariant = { λ h. IsLater VL.opened h.ballot_box
        × (h.valid_book.total ≡ valid h.ballot_box.last_in_time h.ballot_box.steps)
        × (h.refused_book.total ≡ refused h.ballot_box.last_in_time h.ballot_box.steps) };
}

impl<VL: Tally, RL: Tally> Held<VL, RL> {
    /// The box.
    ///
    /// Its contract tells readers what the books are. Nobody can call it, since no call returns a
    /// `Held`.
    pub fn ballot_box(&self) -> &BallotBox
        ensures box_is { result.now ≡ self.now.ballot_box }
        ensures valid { self.now.valid_book ≡ valid result.now.last_in_time result.now.steps }
        ensures refused { self.now.refused_book ≡ refused result.now.last_in_time result.now.steps }
    {
        &self.ballot_box
    }
}

/// A desk, with its slips and its shares of the books.
#[derive(Drop)]
pub struct Desk<VL: Tally, RL: Tally> {
    pub(crate) number: u8,
    pub(crate) limit: u32,
    pub(crate) slips: Vec<Slip>,
    pub(crate) valid_share: Share<VL>,
    pub(crate) refused_share: Share<RL>,
}

impl<VL: Tally, RL: Tally> Model for Desk<VL, RL> {
    ghost use Rattle.std.specs.Prelude.{◌≡◌, ◌≤◌, vec_len, vec_capacity};
    ghost use Rattle.vote_steps.specs.declared.TheConstants.{MAX_DESKS};
    ghost use Rattle.vote_desks_box.specs.Slips.{valid_slips, refused_slips};
    ghost use Rattle.vote_desks_box.specs.Desks.{DeskState};

    ghost Value = { DeskState };

    ghost view = { λ d. record {
      number = d.number;
      limit = d.limit;
      slips = d.slips.items;
      valid_share = d.valid_share.amount;
      refused_share = d.refused_share.amount;
    } };

    ghost invariant = { λ d. (d.valid_share.parts ≡ 1) × (d.refused_share.parts ≡ 1)
        × (d.valid_share.amount ≡ valid_slips d.slips.items)
        × (d.refused_share.amount ≡ refused_slips d.slips.items)
        × (1 ≤ d.number) × (d.number ≤ MAX_DESKS)
        × (vec_len d.slips ≤ d.limit) × (d.limit ≤ vec_capacity d.slips) };
}

impl<VL: Tally, RL: Tally> Desk<VL, RL> {
    /// The desk's number, from 1.
    pub fn number(&self) -> u8
        ensures { result ≡ self.now.number }
    {
        self.number
    }

    /// The desk's slips, in the order of its casts.
    ///
    /// For callers of the library; the program does not call it.
    pub fn slips(&self) -> &[Slip]
        ensures slips { result.now ≡ self.now.slips }
        ensures valid { self.now.valid_share ≡ valid_slips result.now }
        ensures refused { self.now.refused_share ≡ refused_slips result.now }
    {
        self.slips.as_slice()
    }
}
