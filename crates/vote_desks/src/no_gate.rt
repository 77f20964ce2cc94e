//! The gate that bars nothing.
ghost use Rattle.std.specs.Prelude.{IsTrue, false};

use crate::work::Gate;
use vote_desks_box::Slip;

/// Lets every envelope pass.
pub struct NoGate;

impl Gate for NoGate {
    ghost bars = { λ _. false };

    ghost waits = { false };

    fn before(&self, _desk: u8, _stamp: u32) -> bool
        ensures { IsTrue result }
    {
        true
    }

    fn after(&self, _desk: u8, _slip: &Slip) {}

    fn may_wait(&self) -> bool
        ensures { ¬ IsTrue result }
    {
        false
    }
}
