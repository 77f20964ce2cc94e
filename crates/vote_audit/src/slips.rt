//! Compares the slips of all desks with those of their casts, in one pass over the steps.
ghost use Rattle.std.specs.Prelude.{◌≡◌, ◌^◌, ◌<◌, ◌≤◌, ◌↔◌, length, slice_get, Some, IsTrue, All};
ghost use Rattle.vote_desks_box.specs.Desks.{slips_at, slips_on};
ghost use Rattle.vote_audit.specs.Audit.{FindsSlip};
ghost use Rattle.vote_audit.specs.Comparing.{AgreeWith, AgreeWithOneMore, AgreesWithOneMore, AreWithin, FindsPlace, HasDesk};

use vote_desks_box::Slip;
use vote_steps::{MAX_DESKS, Step};

/// The greatest number of desks of a box, as the length of an array.
const ALL_DESKS: usize = MAX_DESKS as usize;

/// How far the slips of a desk were compared with those of its casts.
#[derive(Clone, Copy)]
pub(crate) struct Compared {
    /// The number of slips that are alike, from the first on.
    pub alike: usize,
    /// Whether the next slip of the casts is missing at the desk, or differs there.
    pub differs: bool,
}

impl Compared {
    /// How far the slips were compared after the casts have given one more.
    fn with(self, slips: &[Slip], slip: &Slip) -> Compared
        requires { self.alike ≤ length slips.now }
        ensures { AgreesWithOneMore slips.now self slip.now result }
    {
        if self.differs {
            return self;
        }
        if has_slip(slips, self.alike, slip) {
            Compared {
                alike: self.alike + 1,
                differs: false,
            }
        } else {
            Compared {
                alike: self.alike,
                differs: true,
            }
        }
    }

    /// The first position, from 1, where the slips differ from what the casts gave.
    fn first_other(self, slips: &[Slip]) -> Option<u64>
        requires { self.alike ≤ length slips.now }
        ensures { FindsPlace result slips.now self }
    {
        if self.differs || self.alike < slips.len() {
            Some(self.alike as u64 + 1)
        } else {
            None
        }
    }
}

/// Whether a desk has this slip at this index.
fn has_slip(slips: &[Slip], place: usize, slip: &Slip) -> bool
    ensures { IsTrue result ↔ (slice_get slips.now place ≡ Some slip.now) }
{
    slips.get(place) == Some(slip)
}

/// The slips of a desk; empty if the desk has none.
fn slips_at(slips_by_desk: &[Vec<Slip>], desk: u8) -> &[Slip]
    requires { 1 ≤ desk }
    ensures { result.now ≡ slips_at (slips_on slips_by_desk.now) desk }
{
    match slips_by_desk.get(usize::from(desk) - 1) {
        Some(slips) => slips.as_slice(),
        None => &[],
    }
}

/// Compares the slip of a step with those of its desk.
fn compare_step(compared: &mut [Compared], slips_by_desk: &[Vec<Slip>], number: u32, step: &Step)
    requires all { length compared.old ≡ MAX_DESKS }
    requires within { AreWithin (slips_on slips_by_desk.now) compared.old }
    requires desk { HasDesk step.now }
    ensures { AgreeWithOneMore (slips_on slips_by_desk.now) compared.old number step.now compared.new }
{
    let Step::Cast {
        desk,
        stamp,
        reply,
        ..
    } = *step
    else {
        return;
    };
    let slip = Slip {
        number,
        stamp,
        reply,
    };
    let index = usize::from(desk) - 1;
    compared[index] = compared[index].with(slips_at(slips_by_desk, desk), &slip);
}

/// Compares the slips of the steps with those of all desks.
fn compare_steps(steps: &[Step], slips_by_desk: &[Vec<Slip>]) -> [Compared; ALL_DESKS]
    requires few { length steps.now < 2 ^ 32 }
    requires desks { All HasDesk steps.now }
    ensures { AgreeWith (slips_on slips_by_desk.now) steps.now result }
{
    let mut compared = [Compared {
        alike: 0,
        differs: false,
    }; ALL_DESKS];
    for (place, step) in steps.iter().enumerate() {
        compare_step(&mut compared, slips_by_desk, place as u32 + 1, step);
    }
    compared
}

/// The lowest desk whose slips are not those of its casts, and the first position, from 1, where
/// they differ.
pub(crate) fn first_other_slip(steps: &[Step], slips_by_desk: &[Vec<Slip>]) -> Option<(u8, u64)>
    requires few { length steps.now < 2 ^ 32 }
    requires desks { All HasDesk steps.now }
    ensures { FindsSlip result steps.now (slips_on slips_by_desk.now) }
{
    let compared = compare_steps(steps, slips_by_desk);
    for desk in 1..=MAX_DESKS {
        let slips = slips_at(slips_by_desk, desk);
        if let Some(place) = compared[usize::from(desk) - 1].first_other(slips) {
            return Some((desk, place));
        }
    }
    None
}
