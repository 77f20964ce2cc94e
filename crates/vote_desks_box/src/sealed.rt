//! Gathers the desks and their slips, and closes the box.
ghost use Rattle.std.specs.Prelude.{◌≡◌, ◌≤◌, ◌<◌, ◌↔◌, Err, length, map, IsTrue, IfOk, vec_len};
ghost use Rattle.std.specs.Bool.{OnTrue};
ghost use Rattle.std.specs.List.{range_with_len};
ghost use Rattle.vote_steps.specs.Boxes.{IsLegal};
ghost use Rattle.vote_steps.specs.History.{is_closed};
ghost use Rattle.vote_desks_box.specs.Desks.{AreAllDesks, AreSlipsInOrder, HasSlipsForCasts, IsLater, slips_at, slips_of, slips_on};
ghost use Rattle.vote_desks_box.specs.Books.{MeetsBooks};

use crate::desk::{Desk, Held, Tally};
use crate::fault::DeskFault;
use crate::shared::{SharedBox, close};
use crate::slip::Slip;
use std::alloc::{AllocError, Global};
use std::marker::Model;
use vote_steps::laws::each_cast_is_counted;
use vote_steps::{BallotBox, MAX_DESKS};

/// A closed box, with the slips of its desks.
#[derive(Drop)]
pub struct Sealed {
    pub(crate) ballot_box: BallotBox,
    pub(crate) slips_by_desk: Vec<Vec<Slip>>,
}

impl Model for Sealed {
    ghost use Rattle.std.specs.Prelude.{◌≤◌, IsTrue, map, vec_items, vec_len};
    ghost use Rattle.vote_steps.specs.History.{is_closed};
    ghost use Rattle.vote_steps.specs.declared.TheConstants.{MAX_DESKS};
    ghost use Rattle.vote_desks_box.specs.Desks.{SealedState};

    ghost Value = { SealedState };

    ghost view = { λ s. record {
      ballot_box = s.ballot_box;
      slips_by_desk = map vec_items s.slips_by_desk.items;
    } };

    ghost invariant = { λ s. IsTrue (is_closed s.ballot_box.steps)
        × (vec_len s.slips_by_desk ≤ MAX_DESKS) };
}

impl Sealed {
    /// The box.
    pub fn ballot_box(&self) -> &BallotBox
        ensures box_is { result.now ≡ self.now.ballot_box }
        ensures closed { IsTrue (is_closed result.now.steps) }
    {
        &self.ballot_box
    }

    /// The slips of all desks. Desk `d` has index `d - 1`.
    pub fn slips_by_desk(&self) -> &[Vec<Slip>]
        ensures slips_by_desk { slips_on result.now ≡ self.now.slips_by_desk }
        ensures few { length result.now ≤ MAX_DESKS }
    {
        self.slips_by_desk.as_slice()
    }

    /// The number of desks.
    ///
    /// For callers of the library; the program does not call it.
    pub fn desks(&self) -> u8
        ensures { result ≡ length self.now.slips_by_desk }
    {
        self.slips_by_desk.len() as u8
    }

    /// The slips of the desk with this number, from 1.
    ///
    /// For callers of the library; the program does not call it.
    pub fn sheet_of(&self, desk: u8) -> &[Slip]
        requires { (1 ≤ desk) × (desk ≤ length self.now.slips_by_desk) }
        ensures { result.now ≡ slips_at self.now.slips_by_desk desk }
    {
        self.slips_by_desk[usize::from(desk) - 1].as_slice()
    }
}

/// Merges the shares of all desks, shows that they equal the books, and returns the slips.
fn meet<VL: Tally, RL: Tally>(
    alloc: Global,
    held: &mut Held<VL, RL>,
    desks: Vec<Desk<VL, RL>>,
) -> Result<Vec<Vec<Slip>>, AllocError>
    requires some { 0 < vec_len desks }
    requires valid { vec_len desks ≡ VL.parts }
    requires refused { vec_len desks ≡ RL.parts }
    ensures slips_by_desk { IfOk result (λ slips_by_desk. slips_on slips_by_desk.items ≡ slips_of desks) }
    ensures books { IfOk result (λ all. MeetsBooks desks held.old.ballot_box (slips_on all.items)) }
    ensures held { held.new ≡ held.old }
{
    let mut desks = desks.into_iter();
    let Some(first) = desks.next() else {
        unreachable!()
    };
    let mut valid = first.valid_share;
    let mut refused = first.refused_share;
    let mut slips_by_desk = Vec::new(alloc);
    slips_by_desk.push(first.slips)?;
    while let Some(desk) = desks.next() {
        valid.merge(desk.valid_share);
        refused.merge(desk.refused_share);
        slips_by_desk.push(desk.slips)?;
    }
    held.valid_book.audit(&mut valid);
    held.refused_book.audit(&mut refused);
    Ok(slips_by_desk)
}

/// Closes the box if it is open, and shows that the shares of all desks together equal the books.
fn seal<VL: Tally, RL: Tally>(
    alloc: Global,
    held: Held<VL, RL>,
    desks: Vec<Desk<VL, RL>>,
) -> Result<Sealed, AllocError>
    requires some { (0 < vec_len desks) × (vec_len desks ≤ MAX_DESKS) }
    requires valid { vec_len desks ≡ VL.parts }
    requires refused { vec_len desks ≡ RL.parts }
    ensures legal { IfOk result (λ s. IsLegal s.ballot_box) }
    ensures opened { IfOk result (λ s. IsLater VL.opened s.ballot_box) }
    ensures closed { IfOk result (λ s. IsTrue (is_closed s.ballot_box.steps)) }
    ensures slips_by_desk { IfOk result (λ s. s.slips_by_desk ≡ slips_of desks) }
    ensures books { IfOk result (λ s. MeetsBooks desks s.ballot_box s.slips_by_desk) }
{
    let mut held = held;
    let _ = close(&mut held);
    let slips_by_desk = meet(alloc, &mut held, desks)?;
    let Held {
        ballot_box,
        valid_book: _,
        refused_book: _,
    } = held;
    Ok(Sealed {
        ballot_box,
        slips_by_desk,
    })
}

/// Whether the desks have the numbers 1 to `opened`, in order.
fn are_complete<VL: Tally, RL: Tally>(desks: &[Desk<VL, RL>], opened: u8) -> bool
    ensures complete { IsTrue result ↔ (map (λ desk. desk.number) desks.now ≡ range_with_len 1 opened) }
    ensures len { OnTrue result (length desks.now ≡ opened) }
{
    if desks.len() != usize::from(opened) {
        return false;
    }
    for (place, desk) in desks.iter().enumerate() {
        if usize::from(desk.number()) != place + 1 {
            return false;
        }
    }
    true
}

/// Closes the box if it is open, and gathers the slips of all desks. The desks may come in any
/// order.
///
/// `MissingDesk` is tested before anything is allocated. On a fault the box and the desks are
/// dropped.
pub fn gather<VL: Tally, RL: Tally>(
    alloc: Global,
    shared: SharedBox<VL, RL>,
    desks: Vec<Desk<VL, RL>>,
) -> Result<Sealed, DeskFault>
    requires valid { VL.desks ≡ VL.parts }
    requires refused { RL.desks ≡ RL.parts }
    ensures legal { IfOk result (λ s. IsLegal s.ballot_box) }
    ensures opened { IfOk result (λ s. IsLater shared.opened s.ballot_box) }
    ensures closed { IfOk result (λ s. IsTrue (is_closed s.ballot_box.steps)) }
    ensures slips_by_desk { IfOk result (λ s. AreSlipsInOrder desks s.slips_by_desk) }
    ensures desks { IfOk result (λ s. length s.slips_by_desk ≡ shared.desks) }
    ensures books { IfOk result (λ s. MeetsBooks desks s.ballot_box s.slips_by_desk) }
    ensures casts { IfOk result HasSlipsForCasts }
    ensures missing { (result ≡ Err DeskFault.MissingDesk) ↔ ¬ AreAllDesks desks shared.desks }
{
    let SharedBox {
        desks: opened,
        held,
    } = shared;
    let mut desks = desks;
    desks.sort_unstable_by_key(|desk| desk.number());
    if !are_complete(&desks, opened) {
        return Err(DeskFault::MissingDesk);
    }
    match seal(alloc, held.into_inner(), desks) {
        Ok(sealed) => {
            each_cast_is_counted();
            Ok(sealed)
        }
        Err(_) => Err(DeskFault::Memory),
    }
}
