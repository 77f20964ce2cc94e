//! Why an audit or the taking of votes fails.
ghost use Rattle.std.specs.Prelude.{◌≡◌};
ghost use Rattle.vote_audit.specs.declared.fault.VoteFault.TheVariants.{Memory};

use std::alloc::{AllocError, AllocFailed};
use std::fmt;
use thiserror::Error;
use vote_desks_box::{DeskFault, EnterFault};

/// Where a box or its slips disagree with the lines. Steps, and the slips of a desk, are counted
/// from 1.
#[derive(Clone, Copy, Debug, PartialEq, Eq, Error)]
pub enum AuditFault {
    /// The box does not have the poll's numbers of options and electors or its last envelope, or
    /// its limit is not the number of lines.
    #[error("the box does not have the sizes of the poll and its lines")]
    SizeDiffers,
    /// The box does not have as many casts as there are lines.
    #[error("the box does not have as many casts as there are lines")]
    CountDiffers,
    /// This step is the first cast whose reading is not that of the line with its stamp.
    #[error("step {0} does not have the reading of its line")]
    StepDiffers(u64),
    /// This desk is the lowest whose slips are not those of its casts, and this is the first slip
    /// where the two differ.
    #[error("the slips of desk {0} differ from its casts at slip {1}")]
    SlipDiffers(u8, u64),
    /// This step is the close, and it is not the last.
    #[error("step {0} is the close, and it is not the last")]
    ClosedEarly(u64),
}

/// Why the votes were not taken.
#[derive(Clone, Copy, Debug, PartialEq, Eq, Error)]
pub enum VoteFault {
    /// No memory was left.
    Memory,
    /// A worker could not be started. The workers that were started have ended.
    Thread,
    /// The gate stopped a worker, and this desk is the lowest that stopped early.
    Gate(u8),
    /// A cast was refused, and this desk is the lowest that stopped early. `take_votes` returns it
    /// only with `StampUsed`.
    Enter(u8, EnterFault),
    /// The desks could not be gathered. `take_votes` never returns this.
    Desk(DeskFault),
    /// The box or its slips disagree with the lines. `take_votes` returns neither `SizeDiffers` nor
    /// `CountDiffers`.
    Audit(AuditFault),
}

impl fmt::Display for VoteFault {
    ghost use Rattle.std.specs.Prelude.{Some};
    ghost use Rattle.vote_audit.specs.Words.{fault_words};

    ghost output = { λ fault. Some (fault_words fault) };

    fn fmt<W: fmt::Write>(&self, f: &mut fmt::Formatter<W>) -> fmt::Result {
        match self {
            VoteFault::Memory | VoteFault::Desk(DeskFault::Memory) => f.write_str("out of memory"),
            VoteFault::Thread => f.write_str("a desk could not be started"),
            VoteFault::Gate(desk) => write!(f, "desk {desk} stopped at its gate"),
            VoteFault::Enter(desk, _) => write!(f, "desk {desk} was refused by the box"),
            VoteFault::Desk(DeskFault::MissingDesk) => {
                f.write_str("the desks could not be gathered")
            }
            VoteFault::Audit(_) => f.write_str("audit failed"),
        }
    }
}

impl From<AllocError> for VoteFault {
    ghost from_gives = { λ _ fault. fault ≡ Memory };

    fn from(_error: AllocError) -> VoteFault {
        VoteFault::Memory
    }
}

impl<T: Drop> From<AllocFailed<T>> for VoteFault {
    ghost from_gives = { λ _ fault. fault ≡ Memory };

    fn from(_error: AllocFailed<T>) -> VoteFault {
        VoteFault::Memory
    }
}
