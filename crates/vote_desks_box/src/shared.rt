//! The box behind its lock, and the opening of its desks.
ghost use Rattle.std.specs.Prelude.{◌≡◌, ◌+◌, ◌≤◌, ◌↔◌, [], Err, IsTrue, IfOk, OnOk, IfErr, OnErr, vec_len};
ghost use Rattle.vote_steps.specs.History.{is_closed};
ghost use Rattle.vote_steps.specs.Boxes.{IsLegal, box_of};
ghost use Rattle.vote_steps.specs.Desks.{AreDesks};
ghost use Rattle.vote_desks_box.specs.declared.fault.EnterFault.TheVariants.{Sizes, SheetFull, StampRange};
ghost use Rattle.vote_desks_box.specs.Answering.{CanClose, CanNote, CanStand};
ghost use Rattle.vote_desks_box.specs.Desks.{FitsBox, IsLater, fresh_desk, fresh_desks, shared_for, standing_in, with_close, with_slip};
ghost use Rattle.vote_desks_box.specs.Entering.{LacksRoom, NoStamp};

use crate::desk::{Desk, Held, Tally};
use crate::entry::enter;
use crate::fault::{DeskFault, EnterFault, NoVoter};
use crate::slip::Slip;
use std::alloc::{AllocError, Global};
use std::marker::Model;
use std::sync::ledger::{Blank, Share};
use std::sync::{Mutex, Wait};
use vote_poll::{MAX_LINES, Poll, Ranks, Reading};
use vote_steps::{AlreadyClosed, BallotBox, MAX_DESKS};

/// A box that desks share, behind one lock. Contracts see the number of opened desks, and the box
/// as it was opened.
#[derive(Drop)]
pub struct SharedBox<VL: Tally, RL: Tally> {
    pub(crate) desks: u8,
    pub(crate) held: Mutex<Held<VL, RL>>,
}

impl<VL: Tally, RL: Tally> Model for SharedBox<VL, RL> {
    ghost use Rattle.std.specs.Prelude.{◌≡◌, ◌≤◌};
    ghost use Rattle.vote_steps.specs.declared.TheConstants.{MAX_DESKS};
    ghost use Rattle.vote_desks_box.specs.Desks.{SharedState};

    ghost Value = { SharedState };

    ghost view = { λ s. record { desks = s.desks; opened = VL.opened } };

    ghost invariant = { λ s. (1 ≤ s.desks) × (s.desks ≤ MAX_DESKS)
        × (s.desks ≡ VL.desks) × (s.desks ≡ RL.desks) };
}

/// Opens a desk, with one part of each ledger and room for `limit` slips.
fn open_desk<VL: Tally, RL: Tally>(
    alloc: Global,
    limit: u32,
    number: u8,
    valid_rest: &mut Share<VL>,
    refused_rest: &mut Share<RL>,
) -> Result<Desk<VL, RL>, AllocError>
    requires number { AreDesks number }
    requires valid { (1 ≤ valid_rest.old.parts) × (valid_rest.old.amount ≡ 0) }
    requires refused { (1 ≤ refused_rest.old.parts) × (refused_rest.old.amount ≡ 0) }
    ensures fresh { IfOk result (λ desk. desk ≡ fresh_desk limit number) }
    ensures valid_parts { OnOk result (valid_rest.new.parts + 1 ≡ valid_rest.old.parts) }
    ensures valid_none { OnOk result (valid_rest.new.amount ≡ 0) }
    ensures refused_parts { OnOk result (refused_rest.new.parts + 1 ≡ refused_rest.old.parts) }
    ensures refused_none { OnOk result (refused_rest.new.amount ≡ 0) }
{
    let slips = Vec::with_capacity(alloc, limit as usize)?;
    Ok(Desk {
        number,
        limit,
        slips,
        valid_share: valid_rest.split_off(1, 0),
        refused_share: refused_rest.split_off(1, 0),
    })
}

/// Opens desks 1 to `desks`, which take all parts of the ledgers.
fn open_each<VL: Tally, RL: Tally>(
    alloc: Global,
    limit: u32,
    desks: u8,
    valid_rest: &mut Share<VL>,
    refused_rest: &mut Share<RL>,
) -> Result<Vec<Desk<VL, RL>>, AllocError>
    requires desks { desks ≤ MAX_DESKS }
    requires valid { (valid_rest.old.parts ≡ desks) × (valid_rest.old.amount ≡ 0) }
    requires refused { (refused_rest.old.parts ≡ desks) × (refused_rest.old.amount ≡ 0) }
    ensures len { IfOk result (λ opened. vec_len opened ≡ desks) }
    ensures desks { IfOk result (λ opened. opened.items ≡ fresh_desks limit desks) }
{
    let mut opened = Vec::new(alloc);
    for index in 0..desks {
        let desk = open_desk(alloc, limit, index + 1, valid_rest, refused_rest)?;
        opened.push(desk)?;
    }
    Ok(opened)
}

/// Opens an empty box for a poll, with desks 1 to `desks` that share it.
///
/// `limit` is the number of slips that each desk has room for, and the greatest stamp that the box
/// takes. The memory for the box and all desks is allocated here. Each blank is for one ledger, and
/// is cut into one part for each desk. The only fault is `Memory`.
pub fn open_desks<VL: Tally, RL: Tally>(
    alloc: Global,
    poll: &Poll,
    limit: u32,
    desks: u8,
    valid: Blank,
    refused: Blank,
) -> Result<(SharedBox<VL, RL>, Vec<Desk<VL, RL>>), DeskFault>
    requires limit { limit ≤ MAX_LINES }
    requires desks { AreDesks desks }
    requires valid { (valid.name ≡ VL.name) × (valid.parts ≡ VL.parts) }
    requires valid_desks { (VL.parts ≡ desks) × (VL.desks ≡ desks) }
    requires refused { (refused.name ≡ RL.name) × (refused.parts ≡ RL.parts) }
    requires refused_desks { (RL.parts ≡ desks) × (RL.desks ≡ desks) }
    requires opened { VL.opened ≡ box_of poll.now limit [] }
    ensures opened { IfOk result (λ r. r.0 ≡ shared_for poll.now limit desks) }
    ensures len { IfOk result (λ r. vec_len r.1 ≡ desks) }
    ensures desks { IfOk result (λ r. r.1.items ≡ fresh_desks limit desks) }
    ensures err { IfErr result (λ fault. fault ≡ DeskFault.Memory) }
{
    let ballot_box = BallotBox::for_poll(alloc, poll, limit)?;
    let (valid_book, mut valid_rest) = valid.open::<VL>();
    let (refused_book, mut refused_rest) = refused.open::<RL>();
    let opened = open_each(alloc, limit, desks, &mut valid_rest, &mut refused_rest)?;
    let held = Held {
        ballot_box,
        valid_book,
        refused_book,
    };
    let shared = SharedBox {
        desks,
        held: Mutex::new(held),
    };
    Ok((shared, opened))
}

impl<VL: Tally, RL: Tally> SharedBox<VL, RL> {
    /// Casts an envelope at a desk, as `enter` does. The lock is held only for the cast.
    ///
    /// A caller cannot know in advance which stamps are used, or whether the box is open: another
    /// desk may cast or close first.
    pub fn cast(
        &self,
        rt: &impl Wait,
        desk: &mut Desk<VL, RL>,
        stamp: u32,
        reading: Reading,
    ) -> Result<Slip, EnterFault>
        ensures noted { IfOk result (λ slip. desk.new ≡ with_slip desk.old slip) }
        ensures stamp { IfOk result (λ slip. slip.stamp ≡ stamp) }
        ensures slip { IfOk result (CanNote self.now.opened stamp reading) }
        ensures sizes { (result ≡ Err Sizes) ↔ ¬ FitsBox self.now.opened reading }
        ensures full { (result ≡ Err SheetFull) ↔ LacksRoom self.now.opened desk.old reading }
        ensures range { (result ≡ Err StampRange) ↔ NoStamp self.now.opened desk.old stamp reading }
        ensures err { OnErr result (desk.new ≡ desk.old) }
    {
        enter(&mut *self.held.lock(rt), desk, stamp, reading)
    }

    /// Closes the box. Later casts get the reply `BoxClosed`.
    ///
    /// For callers of the library; the program does not call it.
    pub fn close(&self, rt: &impl Wait) -> Result<(), AlreadyClosed>
        ensures { CanClose self.now.opened result }
    {
        close(&mut *self.held.lock(rt))
    }

    /// The ranks of a voter's ballot that stands. Voters are numbered from 0.
    ///
    /// For callers of the library; the program does not call it.
    pub fn standing(&self, rt: &impl Wait, voter: usize) -> Result<Option<Ranks>, NoVoter>
        ensures stands { IfOk result (λ ranks. CanStand self.now.opened voter ranks) }
        ensures none { (result ≡ Err record {}) ↔ (self.now.opened.electors ≤ voter) }
    {
        standing(&*self.held.lock(rt), voter)
    }
}

/// Closes a box.
#[tactic(auto, using(crate::proofs::ClosingLemmas::valid_kept, crate::proofs::ClosingLemmas::refused_kept))]
pub(crate) fn close<VL: Tally, RL: Tally>(held: &mut Held<VL, RL>) -> Result<(), AlreadyClosed>
    ensures before { IsLater VL.opened held.old.ballot_box × IsLegal held.old.ballot_box }
    ensures opened { IsLater VL.opened held.new.ballot_box }
    ensures closed { IsTrue (is_closed held.new.ballot_box.steps) }
    ensures legal { IsLegal held.new.ballot_box }
    ensures ok { OnOk result (held.new ≡ with_close held.old) }
    ensures already { (result ≡ Err record {}) ↔ IsTrue (is_closed held.old.ballot_box.steps) }
    ensures err { OnErr result (held.new ≡ held.old) }
{
    // The contract of this call says that the steps are legal.
    let _ = held.ballot_box.steps();
    held.ballot_box.close()
}

/// The ranks of a voter's ballot that stands.
fn standing<VL: Tally, RL: Tally>(
    held: &Held<VL, RL>,
    voter: usize,
) -> Result<Option<Ranks>, NoVoter>
    ensures opened { IsLater VL.opened held.now.ballot_box }
    ensures legal { IsLegal held.now.ballot_box }
    ensures ok { IfOk result (λ ranks. ranks ≡ standing_in held.now.ballot_box voter) }
    ensures none { (result ≡ Err record {}) ↔ (held.now.ballot_box.electors ≤ voter) }
{
    // The contract of this call says that the steps are legal.
    let _ = held.ballot_box.steps();
    if voter >= held.ballot_box.electors() {
        return Err(NoVoter);
    }
    Ok(held.ballot_box.standing(voter))
}
