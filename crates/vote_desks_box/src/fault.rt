//! Why a cast, the opening of desks or a gathering fails.
ghost use Rattle.std.specs.Prelude.{◌≡◌};
ghost use Rattle.vote_desks_box.specs.declared.fault.DeskFault.TheVariants.{Memory};

use std::alloc::{AllocError, AllocFailed};
use thiserror::Error;

/// Why a cast at a desk is refused. The first case that holds is returned, and nothing changes.
#[derive(Clone, Copy, Debug, PartialEq, Eq, Error)]
pub enum EnterFault {
    /// The box does not have the ballot's voter, or the ballot does not have as many ranks as the
    /// box has options.
    #[error("the ballot does not have the sizes of the box")]
    Sizes,
    /// The desk has as many slips as its limit.
    #[error("the desk has as many slips as its limit")]
    SheetFull,
    /// The stamp is 0, or above the limit of the box.
    #[error("the stamp is not from 1 to the limit of the box")]
    StampRange,
    /// An envelope with this stamp was cast before.
    #[error("an envelope with this stamp was cast before")]
    StampUsed,
}

/// The box has no voter with this number.
#[derive(Clone, Copy, Debug, PartialEq, Eq, Error)]
#[error("the box has no voter of this number")]
pub struct NoVoter;

/// Why desks are not opened or not gathered.
#[derive(Clone, Copy, Debug, PartialEq, Eq, Error)]
pub enum DeskFault {
    /// The numbers of the desks are not 1 to the number of opened desks, each once.
    #[error("the desks are not those that were opened, each once")]
    MissingDesk,
    /// No memory was left.
    #[error("out of memory")]
    Memory,
}

impl From<AllocError> for DeskFault {
    ghost from_gives = { λ _ fault. fault ≡ Memory };

    fn from(_error: AllocError) -> DeskFault {
        DeskFault::Memory
    }
}

impl<T: Drop> From<AllocFailed<T>> for DeskFault {
    ghost from_gives = { λ _ fault. fault ≡ Memory };

    fn from(_error: AllocFailed<T>) -> DeskFault {
        DeskFault::Memory
    }
}
