//! The reading of a line, as a step keeps it.
ghost use Rattle.std.specs.Prelude.{◌≡◌};
ghost use Rattle.vote_steps.specs.PackedReadings.{IsOfRoll};

use std::marker::Model;
use vote_poll::{LineFault, Ranks, Reading};

/// A reading packed into 38 bytes instead of 56. Contracts see the reading. A box has a step for each line, so the steps take
/// most of its memory.
#[derive(Clone, Copy)]
pub struct PackedReading {
    packed: Packed,
}

/// The form that takes fewer bytes.
#[derive(Clone, Copy)]
enum Packed {
    /// A ballot of the voter at this position of the roll, from 0. A roll is short, so a position fits in two bytes.
    Ballot { voter: u16, ranks: Ranks },
    /// No ballot.
    Bad(LineFault),
}

impl Model for PackedReading {
    ghost use Rattle.vote_poll.specs.declared.Reading.{Reading};

    ghost Value = { Reading };

    ghost use Rattle.vote_steps.specs.PackedReadings.{reading_of, inside_of, inside_is};

    ghost view = { reading_of };

    ghost inverse = { inside_of };

    ghost inverse_ok = { inside_is };
}

impl PackedReading {
    /// Packs a reading. If it is a ballot, it is of a voter on a roll.
    pub fn of(reading: &Reading) -> PackedReading
        requires { IsOfRoll reading.now }
        ensures { result ≡ reading.now }
    {
        match reading {
            Reading::Ballot { voter, ranks } => PackedReading {
                packed: Packed::Ballot {
                    voter: *voter as u16,
                    ranks: *ranks,
                },
            },
            Reading::Bad(fault) => PackedReading {
                packed: Packed::Bad(*fault),
            },
        }
    }

    /// The reading that was packed.
    pub fn reading(&self) -> Reading
        ensures { result ≡ self.now }
    {
        match &self.packed {
            Packed::Ballot { voter, ranks } => Reading::Ballot {
                voter: usize::from(*voter),
                ranks: *ranks,
            },
            Packed::Bad(fault) => Reading::Bad(*fault),
        }
    }
}
