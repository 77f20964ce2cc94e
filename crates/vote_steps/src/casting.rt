//! One desk that casts the lines of a ballot file.

ghost use Rattle.std.specs.Prelude.{◌≡◌, ◌≤◌, false, IfOk};
ghost use Rattle.vote_poll.specs.Readings.{ReadingFits, readings};
ghost use Rattle.vote_steps.specs.History.{is_used};
ghost use Rattle.vote_steps.specs.Boxes.{after_cast};
ghost use Rattle.vote_steps.specs.HeldLines.{AreCastInOrder, HoldsLines};

use crate::ballot_box::BallotBox;
use std::alloc::{AllocError, Global};
use vote_poll::{Lines, Poll, Reading, read_line};

// Casts at desk 1 the reading of the line with this stamp. The stamp is new.
fn cast_at_desk_1(ballot_box: &mut BallotBox, stamp: u32, reading: Reading)
    requires stamp { (1 ≤ stamp) × (stamp ≤ ballot_box.old.limit) }
    requires unused { is_used ballot_box.old.steps stamp ≡ false }
    requires reading { ReadingFits ballot_box.old.options ballot_box.old.electors reading }
    ensures { ballot_box.new ≡ after_cast ballot_box.old 1 stamp reading }
{
    let Ok(_) = ballot_box.cast(1, stamp, reading) else {
        unreachable!()
    };
}

/// The closed box of the poll, after desk 1 cast the lines in their order. The stamp of a line is
/// its number, from 1.
pub fn cast_all(alloc: Global, poll: &Poll, lines: &Lines<'_>) -> Result<BallotBox, AllocError>
    ensures held { IfOk result (HoldsLines poll.now lines.now) }
    ensures in_order { IfOk result (λ b. AreCastInOrder (readings poll.now lines.now) b.steps) }
{
    let mut ballot_box = BallotBox::for_poll(alloc, poll, lines.len() as u32)?;
    for place in 0..lines.len() {
        let reading = read_line(poll, lines.line(place));
        cast_at_desk_1(&mut ballot_box, place as u32 + 1, reading);
    }
    let Ok(()) = ballot_box.close() else {
        unreachable!()
    };
    Ok(ballot_box)
}
