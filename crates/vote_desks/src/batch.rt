//! Batches of envelopes that a worker takes at once.
ghost use Rattle.std.specs.Prelude.{◌≡◌, ◌+◌, ◌-◌, ◌<◌, ◌≤◌, ◌++◌, All, IsTrue, length, take, slice_index};
ghost use Rattle.vote_poll.specs.PollContent.{elector_count, option_count};
ghost use Rattle.vote_poll.specs.Readings.{ReadingFits};
ghost use Rattle.vote_desks.specs.Work.{AreReadAt, IsRising, IsShareOf, IsStampOf, batch_length, last_stamp, left_behind, stamps_taken};

use crate::work::{Gate, Workplace};
use vote_desks_box::Tally;
use vote_poll::{Lines, Poll, Reading, read_line};
use vote_tray::Pass;

/// The maximum number of envelopes in a batch. A desk that waits for its turn sleeps, and waking it
/// takes about as long as several hundred casts. So a batch takes longer than that.
pub(crate) const BATCH: usize = 512;

/// The number of envelopes that must be left for each envelope of a batch after the first. With it
/// 8 desks together take at most about half of what is left.
const LEFT_FOR_EACH: usize = 16;

/// The number of envelopes that a worker takes at once if this many are left. It is one if its gate
/// may wait for another desk. Towards the end batches get shorter, so that no desk has many
/// envelopes to cast while others have none.
fn batch_length(may_wait: bool, left: usize) -> usize
    ensures length { result ≡ batch_length may_wait left }
    ensures range { (1 ≤ result) × (result ≤ BATCH) }
    ensures one { IsTrue may_wait → result ≡ 1 }
    ensures share { IsShareOf left result }
{
    if may_wait {
        1
    } else if left / LEFT_FOR_EACH < BATCH {
        left / LEFT_FOR_EACH + 1
    } else {
        BATCH
    }
}

/// Takes the places of the next envelopes, and notes their stamps. `left` is the number of lines
/// after the last one that the pass took. It takes less than a batch only if no place is left.
pub(crate) fn take_batch<VL: Tally, RL: Tally, G: Gate>(
    workplace: &Workplace<'_, '_, VL, RL, G>,
    pass: &mut Pass,
    left: usize,
    stamps: &mut [u32],
) -> usize
    requires tray { pass.old.tray ≡ workplace.now.tray.now }
    requires left { left ≡ left_behind pass.old }
    requires rising { IsRising pass.old }
    requires room { BATCH ≤ length stamps.old }
    ensures kept { (pass.new.tray ≡ pass.old.tray) × (pass.new.parts ≡ pass.old.parts) }
    ensures rising { IsRising pass.new }
    ensures room { (result ≤ BATCH) × (length stamps.new ≡ length stamps.old) }
    ensures most { result ≤ batch_length workplace.now.may_wait left }
    ensures fewer { result < batch_length workplace.now.may_wait left → pass.new.seen ≡ pass.new.tray.size }
    ensures taken { stamps_taken pass.new ≡ stamps_taken pass.old ++ take result stamps.new }
    ensures stamps { All (IsStampOf (length workplace.now.lines.now)) (take result stamps.new) }
    ensures last { 0 < result → slice_index stamps.new (result - 1) ≡ last_stamp pass.new }
    ensures further { pass.old.seen + result ≤ pass.new.seen }
{
    let most = batch_length(workplace.may_wait, left);
    for count in 0..most {
        let Some(place) = workplace.tray.take(pass) else {
            return count;
        };
        stamps[count] = place as u32 + 1;
    }
    most
}

/// Reads the lines of the envelopes with these stamps. A reading has the same index as its stamp.
pub(crate) fn read_batch(poll: &Poll, lines: &Lines<'_>, stamps: &[u32], readings: &mut [Reading])
    requires stamps { All (IsStampOf (length lines.now)) stamps.now }
    requires room { length stamps.now ≤ length readings.old }
    requires fit { All (ReadingFits (option_count poll.now) (elector_count poll.now)) readings.old }
    ensures room { length readings.new ≡ length readings.old }
    ensures fit { All (ReadingFits (option_count poll.now) (elector_count poll.now)) readings.new }
    ensures read { AreReadAt poll.now lines.now stamps.now readings.new }
{
    for place in 0..stamps.len() {
        readings[place] = read_line(poll, lines.line(stamps[place] as usize - 1));
    }
}
