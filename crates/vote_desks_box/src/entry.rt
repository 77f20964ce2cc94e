//! Enters an envelope at a desk.
ghost use Rattle.std.specs.Prelude.{◌≡◌, ◌≢◌, ◌+◌, ◌<◌, ◌↔◌, Err, IsTrue, IfOk, OnErr, OnOk};
ghost use Rattle.vote_steps.specs.Boxes.{HasUsed, IsLegal, IsOutOfRange};
ghost use Rattle.vote_desks_box.specs.declared.fault.EnterFault.TheVariants.{Sizes, SheetFull, StampRange, StampUsed};
ghost use Rattle.vote_desks_box.specs.Desks.{FitsBox, HasRoom, IsLater, next_slip, refused_by, valid_by, with_cast, with_slip};
ghost use Rattle.vote_desks_box.specs.Entering.{LacksRoom, NoStamp, WasUsed};

use crate::desk::{Desk, Held, Tally};
use crate::fault::EnterFault;
use crate::slip::Slip;
use std::sync::ledger::{Book, Share};
use vote_poll::Reading;
use vote_steps::{BallotBox, Reply, StepFault};

/// Casts an envelope at a desk. The desk notes the slip. Nothing is allocated.
pub fn enter<VL: Tally, RL: Tally>(
    held: &mut Held<VL, RL>,
    desk: &mut Desk<VL, RL>,
    stamp: u32,
    reading: Reading,
) -> Result<Slip, EnterFault>
    ensures opened { IsLater VL.opened held.old.ballot_box }
    ensures step { IfOk result (λ slip. held.new ≡ with_cast held.old desk.old reading slip) }
    ensures slip { IfOk result (λ slip. slip ≡ next_slip held.old.ballot_box stamp reading) }
    ensures noted { IfOk result (λ slip. desk.new ≡ with_slip desk.old slip) }
    ensures legal { OnOk result (IsLegal held.old.ballot_box) }

    ensures sizes { (result ≡ Err Sizes) ↔ ¬ FitsBox held.old.ballot_box reading }
    ensures full { (result ≡ Err SheetFull) ↔ LacksRoom held.old.ballot_box desk.old reading }
    ensures range { (result ≡ Err StampRange) ↔ NoStamp held.old.ballot_box desk.old stamp reading }
    ensures used { (result ≡ Err StampUsed) ↔ WasUsed held.old.ballot_box desk.old stamp reading }
    ensures err { OnErr result ((held.new ≡ held.old) × (desk.new ≡ desk.old)) }
{
    if !fits(&held.ballot_box, &reading) {
        return Err(EnterFault::Sizes);
    }
    if desk.slips.len() >= desk.limit as usize {
        return Err(EnterFault::SheetFull);
    }
    cast_and_note(held, desk, stamp, reading)
}

/// Casts an envelope at a desk, which notes the slip. The envelope fits the box, and the desk has
/// room for the slip.
fn cast_and_note<VL: Tally, RL: Tally>(
    held: &mut Held<VL, RL>,
    desk: &mut Desk<VL, RL>,
    stamp: u32,
    reading: Reading,
) -> Result<Slip, EnterFault>
    requires fits { FitsBox held.old.ballot_box reading }
    requires room { HasRoom desk.old }
    ensures step { IfOk result (λ slip. held.new ≡ with_cast held.old desk.old reading slip) }
    ensures slip { IfOk result (λ slip. slip ≡ next_slip held.old.ballot_box stamp reading) }
    ensures noted { IfOk result (λ slip. desk.new ≡ with_slip desk.old slip) }
    ensures legal { OnOk result (IsLegal held.old.ballot_box) }
    ensures tested { (result ≢ Err Sizes) × (result ≢ Err SheetFull) }
    ensures range { (result ≡ Err StampRange) ↔ IsOutOfRange held.old.ballot_box stamp }
    ensures used { (result ≡ Err StampUsed) ↔ HasUsed held.old.ballot_box stamp }
    ensures err { OnErr result ((held.new ≡ held.old) × (desk.new ≡ desk.old)) }
{
    let number = held.ballot_box.steps().len() as u32 + 1;
    let reply = match held.ballot_box.cast(desk.number, stamp, reading) {
        Ok(reply) => reply,
        Err(StepFault::StampRange) => return Err(EnterFault::StampRange),
        Err(StepFault::StampUsed) => return Err(EnterFault::StampUsed),
    };
    count_reply(
        reply,
        &mut held.valid_book,
        &mut desk.valid_share,
        &mut held.refused_book,
        &mut desk.refused_share,
    );
    let slip = Slip {
        number,
        stamp,
        reply,
    };
    desk.slips.push_reserved(slip);
    Ok(slip)
}

/// Counts a reply in the book of valid or of refused lines, and in the desk's share of that book.
fn count_reply<VL: Tally, RL: Tally>(
    reply: Reply,
    valid_book: &mut Book<VL>,
    valid_share: &mut Share<VL>,
    refused_book: &mut Book<RL>,
    refused_share: &mut Share<RL>,
)
    requires { (0 < valid_share.old.parts) × (0 < refused_share.old.parts) }
    ensures valid_book { valid_book.new.total ≡ valid_book.old.total + valid_by reply }
    ensures valid_share { valid_share.new.amount ≡ valid_share.old.amount + valid_by reply }
    ensures valid_parts { valid_share.new.parts ≡ valid_share.old.parts }
    ensures refused_book { refused_book.new.total ≡ refused_book.old.total + refused_by reply }
    ensures refused_share { refused_share.new.amount ≡ refused_share.old.amount + refused_by reply }
    ensures refused_parts { refused_share.new.parts ≡ refused_share.old.parts }
{
    match reply {
        Reply::Counted | Reply::Replaced | Reply::Superseded => {
            valid_book.add(valid_share, 1);
        }
        Reply::BadLine(_) | Reply::Late | Reply::BoxClosed => {
            refused_book.add(refused_share, 1);
        }
    }
}

/// Whether a reading fits the box. A ballot fits if the box has its voter and as many options as it
/// has ranks; a bad line always fits.
fn fits(ballot_box: &BallotBox, reading: &Reading) -> bool
    ensures { IsTrue result ↔ FitsBox ballot_box.now reading.now }
{
    match reading {
        Reading::Ballot { voter, ranks } => {
            *voter < ballot_box.electors() && ranks.options() == ballot_box.options()
        }
        Reading::Bad(_) => true,
    }
}
