//! Reads the lines once more, and compares them with what the desks did.
ghost use Rattle.std.specs.Prelude.{◌≡◌, ◌≤◌, ◌↔◌, length, count_by, position, IsTrue, IsOk, IfOk, All};
ghost use Rattle.std.specs.Thread.{IsSync};
ghost use Rattle.vote_poll.specs.Readings.{readings};
ghost use Rattle.vote_steps.specs.History.{is_cast, is_close, is_closed};
ghost use Rattle.vote_steps.specs.Recasts.{HasOwnReading};
ghost use Rattle.vote_steps.specs.HeldLines.{HasSizes};
ghost use Rattle.vote_desks_box.specs.Desks.{slips_at, slips_on};
ghost use Rattle.vote_audit.specs.Comparing.{HasEnvelope};
ghost use Rattle.vote_audit.specs.Audit.{FindsFault, FindsReading, IsAudited};

use crate::fault::AuditFault;
use crate::slips::first_other_slip;
use std::marker::Model;
use std::snapshot::Snapshot;
use std::thread;
use std::thread::Threads;
use vote_desks_box::{Sealed, Slip};
use vote_poll::{Lines, Poll, is_reading};
use vote_steps::laws::closes_once;
use vote_steps::{BallotBox, MAX_DESKS, Step};

/// Whether the box has the poll's numbers of options and electors and its last envelope, and its
/// limit is the number of lines.
fn has_sizes(poll: &Poll, lines: &Lines<'_>, ballot_box: &BallotBox) -> bool
    ensures { IsTrue result ↔ HasSizes poll.now lines.now ballot_box.now }
{
    ballot_box.options() == poll.options()
        && ballot_box.electors() == poll.electors()
        && ballot_box.limit() as usize == lines.len()
        && ballot_box.last_in_time() == poll.last_in_time()
}

/// The number of casts of a closed box: it was closed once, and each other step is a cast.
fn count_casts(ballot_box: &BallotBox) -> usize
    requires { IsTrue (is_closed ballot_box.now.steps) }
    ensures { result ≡ count_by is_cast ballot_box.now.steps }
{
    closes_once();
    ballot_box.steps().len() - 1
}

/// Whether a step is the close, or a cast with the reading of the line with its stamp.
fn has_own_reading(poll: &Poll, lines: &Lines<'_>, step: &Step) -> bool
    requires { HasEnvelope (length lines.now) step.now }
    ensures { IsTrue result ↔ HasOwnReading (readings poll.now lines.now) step.now }
{
    match step {
        Step::Close => true,
        Step::Cast { stamp, reading, .. } => {
            is_reading(poll, lines.line(*stamp as usize - 1), &reading.reading())
        }
    }
}

/// The number, from 1, of the first step that does not have the reading of its line.
fn first_other_reading(poll: &Poll, lines: &Lines<'_>, steps: &[Step]) -> Option<u64>
    requires { All (HasEnvelope (length lines.now)) steps.now }
    ensures { FindsReading result poll.now lines.now steps.now }
{
    for (place, step) in steps.iter().enumerate() {
        if !has_own_reading(poll, lines, step) {
            return Some(place as u64 + 1);
        }
    }
    None
}

/// The minimum number of steps for each thread. Starting a thread takes about as long as comparing
/// several hundred steps.
const STRETCH: usize = 2_000;

/// The number, from 1, of the first step that does not have the reading of its line, found by this
/// many threads.
///
/// Each thread, the calling one too, takes a stretch of the steps. If a thread cannot be started,
/// the caller takes its stretch.
#[cycle(stretches)]
fn first_other_reading_by<R: Threads + Sync>(
    rt: &R,
    poll: &Poll,
    lines: &Lines<'_>,
    steps: &[Step],
    threads: usize,
) -> Option<u64>
    requires { All (HasEnvelope (length lines.now)) steps.now }
    ensures { FindsReading result poll.now lines.now steps.now }
{
    if threads < 2 || steps.len() < 2 * STRETCH {
        return first_other_reading(poll, lines, steps);
    }
    let low = threads / 2;
    let high = threads - low;
    let (front, back) = steps.split_at(steps.len() / threads * low);
    let left = move || -> Option<u64>
        requires { IsSync R.row × All (HasEnvelope (length lines.now)) front.now }
        ensures { FindsReading result poll.entry.now lines.entry.now front.entry.now }
    { first_other_reading_by(rt, poll, lines, front, low) };
    let right = move || -> Option<u64>
        requires { IsSync R.row × All (HasEnvelope (length lines.now)) back.now }
        ensures { FindsReading result poll.entry.now lines.entry.now back.entry.now }
    { first_other_reading_by(rt, poll, lines, back, high) };
    let (first, second) = thread::join(rt, left, right);
    match (first, second) {
        (Some(number), _) => Some(number),
        (None, Some(number)) => Some(number + front.len() as u64),
        (None, None) => None,
    }
}

/// The index of the close. A box is closed once, usually by the last step, so that step is tried
/// first.
fn close_place(ballot_box: &BallotBox) -> Option<usize>
    ensures { result ≡ position is_close ballot_box.now.steps }
{
    closes_once();
    let steps = ballot_box.steps();
    if let Some(Step::Close) = steps.last() {
        return Some(steps.len() - 1);
    }
    steps.iter().position(|step| matches!(step, Step::Close))
}

/// Compares a closed box, and the slips of its desks, with the lines. The slips of desk `d` have
/// index `d - 1`.
///
/// Each line is read once, and there is one pass over the steps for each kind of fault. Nothing is
/// allocated.
pub fn compare<R: Threads + Sync>(
    rt: &R,
    poll: &Poll,
    lines: &Lines<'_>,
    ballot_box: &BallotBox,
    slips_by_desk: &[Vec<Slip>],
) -> Result<(), AuditFault>
    requires closed { IsTrue (is_closed ballot_box.now.steps) }
    requires slips_by_desk { length slips_by_desk.now ≤ MAX_DESKS }
    ensures ok { IsOk result ↔ IsAudited poll.now lines.now ballot_box.now (slips_on slips_by_desk.now) }
    ensures fault { FindsFault result poll.now lines.now ballot_box.now (slips_on slips_by_desk.now) }
{
    if !has_sizes(poll, lines, ballot_box) {
        return Err(AuditFault::SizeDiffers);
    }
    let steps = ballot_box.steps();
    if count_casts(ballot_box) != lines.len() {
        return Err(AuditFault::CountDiffers);
    }
    if let Some(number) = first_other_reading_by(rt, poll, lines, steps, slips_by_desk.len()) {
        return Err(AuditFault::StepDiffers(number));
    }
    if let Some((desk, place)) = first_other_slip(steps, slips_by_desk) {
        return Err(AuditFault::SlipDiffers(desk, place));
    }
    match close_place(ballot_box) {
        Some(place) if place + 1 < steps.len() => Err(AuditFault::ClosedEarly(place as u64 + 1)),
        _ => Ok(()),
    }
}

/// A sealed box that passed an audit: it agrees with the lines.
#[derive(Drop)]
pub struct Audited {
    sealed: Sealed,
}

impl Model for Audited {
    ghost use Rattle.vote_desks_box.specs.Desks.{SealedState};

    ghost Value = { SealedState };

    ghost view = { λ a. a.sealed };
}

impl Audited {
    /// The box.
    pub fn ballot_box(&self) -> &BallotBox
        ensures { result.now ≡ self.now.ballot_box }
    {
        self.sealed.ballot_box()
    }

    /// The number of desks.
    ///
    /// For callers of the library; the program does not call it.
    pub fn desks(&self) -> u8
        ensures { result ≡ length self.now.slips_by_desk }
    {
        self.sealed.desks()
    }

    /// The slips of the desk with this number, from 1.
    ///
    /// For callers of the library; the program does not call it.
    pub fn sheet_of(&self, desk: u8) -> &[Slip]
        requires { (1 ≤ desk) × (desk ≤ length self.now.slips_by_desk) }
        ensures { result.now ≡ slips_at self.now.slips_by_desk desk }
    {
        self.sealed.sheet_of(desk)
    }

    /// A witness that shows which box was audited, after the box is gone.
    pub fn witness(&self) -> AuditWitness
        ensures { result ≡ self.now }
    {
        AuditWitness {
            seen: Snapshot::of(self),
        }
    }
}

/// The witness of an audit. Contracts see the box and the slips that were audited. A witness has
/// no bytes, and only `Audited::witness` makes one, so a function that returns a witness has had an
/// audit made.
#[derive(Drop)]
pub struct AuditWitness {
    seen: Snapshot<Audited>,
}

impl Model for AuditWitness {
    ghost use Rattle.vote_desks_box.specs.Desks.{SealedState};

    ghost Value = { SealedState };

    ghost view = { λ w. w.seen.value };
}

/// Compares a sealed box and its slips with the lines, as `compare` does. On a fault the sealed
/// box is dropped.
pub fn audit<R: Threads + Sync>(
    rt: &R,
    poll: &Poll,
    lines: &Lines<'_>,
    sealed: Sealed,
) -> Result<Audited, AuditFault>
    ensures same { IfOk result (λ audited. audited ≡ sealed) }
    ensures ok { IsOk result ↔ IsAudited poll.now lines.now sealed.ballot_box sealed.slips_by_desk }
    ensures fault { FindsFault result poll.now lines.now sealed.ballot_box sealed.slips_by_desk }
{
    match compare(rt, poll, lines, sealed.ballot_box(), sealed.slips_by_desk()) {
        Ok(()) => Ok(Audited { sealed }),
        Err(fault) => Err(fault),
    }
}
