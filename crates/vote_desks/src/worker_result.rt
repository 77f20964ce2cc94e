//! What a worker returns.
ghost use Rattle.std.specs.Prelude.{◌≡◌, None};
ghost use Rattle.vote_desks.specs.Stops.{IsRefusedAsUsed};
ghost use Rattle.vote_desks.specs.Work.{HasCastAll};

use vote_desks_box::{Desk, EnterFault, Tally};
use vote_tray::Pass;

/// Why a worker stopped before the tray was empty.
#[derive(Clone, Copy)]
pub(crate) enum Stop {
    /// The gate did not let an envelope pass.
    Barred,
    /// A cast was refused.
    Refused(EnterFault),
}

/// A desk, its pass, and why its worker stopped early, if it did. If it did not, the tray is empty,
/// and the desk has cast the envelopes of its pass. A cast is refused only because its stamp was
/// used.
#[derive(Drop)]
pub(crate) struct WorkerResult<VL: Tally, RL: Tally> {
    pub desk: Desk<VL, RL>,
    pub pass: Pass,
    pub stopped: Option<Stop>,
    ghost emptied: { stopped ≡ None → HasCastAll desk pass },
    ghost refused: { IsRefusedAsUsed stopped },
}
