//! Workers. Each serves a desk in a thread of its own.
ghost use Rattle.std.specs.Prelude.{◌≡◌, ℕ, Bool, true, false, ◌+◌, ◌<◌, ◌≤◌, ◌^◌, [], None, Ok, Some, All, IsNone, IsSome, IsTrue, IfOk, IfErr, length, vec_len};
ghost use Rattle.vote_steps.specs.Boxes.{box_of};
ghost use Rattle.vote_tray.specs.Passes.{TrayId};
ghost use Rattle.vote_desks_box.specs.Desks.{FitsBox, fresh_desks};
ghost use Rattle.vote_desks.specs.Work.{AreReadAt, HasCast, HasCastAll, IsFresh, IsStampOf, IsUnused, new_passes};
ghost use Rattle.vote_desks.specs.Workers.{AreBack, AreBarredBy, ArePromised};
ghost use Rattle.vote_desks.specs.Stops.{IsBarredBy, IsRefusedAsUsed};
ghost use Rattle.vote_audit.specs.Faults.{IsStartFault};

use crate::batch::{BATCH, read_batch, take_batch};
use crate::worker_result::{Stop, WorkerResult};
use std::alloc::Global;
use std::marker::PhantomData;
use std::snapshot::Snapshot;
use std::sync::{Mutex, MutexGuard, Wait};
use std::thread;
use std::thread::{Promise, PromisedHandle, Scope, SpawnError, Threads};
use vote_audit::VoteFault;
use vote_desks_box::{Desk, EnterFault, SharedBox, Slip, Tally};
use vote_poll::{LineFault, Lines, Poll, Reading};
use vote_tray::{Pass, Tray};

/// Lets envelopes pass to the box, or stops their desks. All workers share the gate, and the box is
/// not locked while the gate is asked.
pub trait Gate {
    /// Whether the gate may stop the desk with this number.
    ghost bars: { ℕ → Bool } = { λ _. true };

    /// Whether a call may wait until another desk does something.
    ghost waits: { Bool } = { false };

    /// Whether this desk may cast the envelope with this stamp. If not, its worker stops, and the
    /// others go on.
    fn before(&self, desk: u8, stamp: u32) -> bool
        ensures { ¬ IsTrue result → IsTrue (bars desk) };

    /// Tells the gate that this desk has cast an envelope, with the slip of that cast.
    fn after(&self, desk: u8, slip: &Slip);

    /// Whether a call may wait until another desk does something. It is asked once, before the
    /// workers start. If so, a worker takes an envelope from the tray only after it has cast the
    /// previous one. If not, it may take a batch at once, and asks about each envelope right before
    /// its cast.
    fn may_wait(&self) -> bool
        ensures { IsTrue waits → IsTrue result }
    {
        true
    }
}

/// What all workers share: the poll and its lines, the box, the gate and whether it may wait, the
/// tray and the turn. The places of the tray are the lines, from 0. The turn is a `Mutex<()>` that
/// a desk holds for a batch, so that the others wait once.
#[derive(Drop)]
pub(crate) struct Workplace<'h, 't, VL: Tally, RL: Tally, G: Gate> {
    pub poll: &'h Poll,
    pub lines: &'h Lines<'t>,
    pub shared: &'h SharedBox<VL, RL>,
    pub gate: &'h G,
    pub may_wait: bool,
    pub tray: &'h Tray,
    pub turn: &'h Mutex<()>,
    ghost waits: { IsTrue G.waits → IsTrue may_wait },
    ghost stamps: { length lines.now < 2 ^ 32 },
    ghost opened: { shared.now.opened ≡ box_of poll.now (length lines.now) [] },
    ghost places: { tray.now.size ≡ length lines.now },
}

/// A worker's promise: it returns this desk, and a pass of the same tray with the same parts, and a
/// gate of type `G` stopped the desk only if it bars the desk.
#[derive(Drop)]
pub(crate) struct WorkerPromise<G> {
    number: u8,
    pass: Snapshot<Pass>,
    gate: PhantomData<G>,
}

impl<VL: Tally, RL: Tally, G: Gate> Promise<WorkerResult<VL, RL>> for WorkerPromise<G> {
    ghost kept_by = { λ promise worked. (worked.desk.number ≡ promise.number)
        × (worked.pass.tray ≡ promise.pass.value.tray)
        × (worked.pass.parts ≡ promise.pass.value.parts)
        × IsBarredBy G.bars worked.desk.number worked.stopped };
}

/// Casts the envelopes with these stamps, each as one step, until the gate or the box stops the
/// desk. If there are several envelopes, the desk holds the turn.
fn enter_envelopes<VL: Tally, RL: Tally, G: Gate, R: Wait>(
    rt: &R,
    workplace: &Workplace<'_, '_, VL, RL, G>,
    desk: &mut Desk<VL, RL>,
    stamps: &[u32],
    readings: &[Reading],
    turn: &Option<MutexGuard<'_, ()>>,
) -> Option<Stop>
    requires stamps { All (IsStampOf (length workplace.now.lines.now)) stamps.now }
    requires turn { 1 < length stamps.now → IsSome turn.now }
    requires each { length stamps.now ≤ length readings.now }
    requires read { AreReadAt workplace.now.poll.now workplace.now.lines.now stamps.now readings.now }
    requires readings { All (FitsBox workplace.now.shared.now.opened) readings.now }
    requires room { length desk.old.slips + length stamps.now ≤ desk.old.limit }
    ensures same { (desk.new.number ≡ desk.old.number) × (desk.new.limit ≡ desk.old.limit) }
    ensures cast { IsNone result → HasCast desk.old stamps.now desk.new }
    ensures empty { length stamps.now ≡ 0 → IsNone result }
    ensures barred { IsBarredBy G.bars desk.old.number result }
    ensures refused { IsRefusedAsUsed result }
{
    // Only the contract reads the turn. The caller holds it until the last cast.
    let _ = turn;
    for place in 0..stamps.len() {
        let stamp = stamps[place];
        if !workplace.gate.before(desk.number(), stamp) {
            return Some(Stop::Barred);
        }
        match workplace.shared.cast(rt, desk, stamp, readings[place]) {
            Ok(slip) => workplace.gate.after(desk.number(), &slip),
            Err(fault) => return Some(Stop::Refused(fault)),
        }
    }
    None
}

/// Casts the envelopes of a batch, each as one step, until the gate or the box stops the desk. If
/// the gate may wait for another desk, a batch has one envelope: the gate would wait forever for
/// another envelope of the same batch.
///
/// Each cast takes the lock of the box anew. For a longer batch the desk takes the turn, so that
/// the others wait once for the batch and not for each cast. Waiting is the expensive part, and
/// during a batch the matrix stays with one processor.
fn enter_batch<VL: Tally, RL: Tally, G: Gate, R: Wait>(
    rt: &R,
    workplace: &Workplace<'_, '_, VL, RL, G>,
    desk: &mut Desk<VL, RL>,
    stamps: &[u32],
    readings: &[Reading],
) -> Option<Stop>
    requires stamps { All (IsStampOf (length workplace.now.lines.now)) stamps.now }
    requires alone { IsTrue workplace.now.may_wait → length stamps.now ≤ 1 }
    requires each { length stamps.now ≤ length readings.now }
    requires read { AreReadAt workplace.now.poll.now workplace.now.lines.now stamps.now readings.now }
    requires readings { All (FitsBox workplace.now.shared.now.opened) readings.now }
    requires room { length desk.old.slips + length stamps.now ≤ desk.old.limit }
    ensures same { (desk.new.number ≡ desk.old.number) × (desk.new.limit ≡ desk.old.limit) }
    ensures cast { IsNone result → HasCast desk.old stamps.now desk.new }
    ensures empty { length stamps.now ≡ 0 → IsNone result }
    ensures barred { IsBarredBy G.bars desk.old.number result }
    ensures refused { IsRefusedAsUsed result }
{
    let turn = if stamps.len() > 1 {
        Some(workplace.turn.lock(rt))
    } else {
        None
    };
    enter_envelopes(rt, workplace, desk, stamps, readings, &turn)
}

/// Casts envelopes at one desk until the tray is empty, or the gate or the box stops the desk.
/// Nothing is allocated.
///
/// It takes a batch of envelopes at once, and reads all their lines before it casts the first.
fn desk_loop<VL: Tally, RL: Tally, G: Gate, R: Wait>(
    rt: &R,
    workplace: &Workplace<'_, '_, VL, RL, G>,
    desk: &mut Desk<VL, RL>,
    pass: &mut Pass,
) -> Option<Stop>
    requires desk { IsFresh (length workplace.now.lines.now) desk.old }
    requires pass { IsUnused workplace.now.tray.now pass.old }
    requires within { pass.old.seen ≤ pass.old.tray.size }
    ensures desk { desk.new.number ≡ desk.old.number }
    ensures pass { (pass.new.tray ≡ pass.old.tray) × (pass.new.parts ≡ pass.old.parts) }
    ensures emptied { result ≡ None → HasCastAll desk.new pass.new }
    ensures barred { IsBarredBy G.bars desk.old.number result }
    ensures refused { IsRefusedAsUsed result }
{
    let lines = workplace.lines.len();
    let mut stamps = [0; BATCH];
    let mut readings = [Reading::Bad(LineFault::Shape); BATCH];
    let mut left = lines;
    loop {
        let count = take_batch(workplace, pass, left, &mut stamps);
        if count == 0 {
            return None;
        }
        let batch = &stamps[..count];
        read_batch(workplace.poll, workplace.lines, batch, &mut readings);
        let stopped = enter_batch(rt, workplace, desk, batch, &readings);
        if stopped.is_some() {
            return stopped;
        }
        left = lines - stamps[count - 1] as usize;
    }
}

/// Serves one desk until the tray is empty, or the gate or the box stops it.
fn work<VL: Tally, RL: Tally, G: Gate, R: Wait>(
    rt: &R,
    workplace: &Workplace<'_, '_, VL, RL, G>,
    mut desk: Desk<VL, RL>,
    mut pass: Pass,
) -> WorkerResult<VL, RL>
    requires desk { IsFresh (length workplace.now.lines.now) desk }
    requires pass { IsUnused workplace.now.tray.now pass }
    ensures desk { result.desk.number ≡ desk.number }
    ensures pass { (result.pass.tray ≡ pass.tray) × (result.pass.parts ≡ pass.parts) }
    ensures barred { IsBarredBy G.bars desk.number result.stopped }
{
    let stopped = desk_loop(rt, workplace, &mut desk, &mut pass);
    WorkerResult {
        desk,
        pass,
        stopped,
    }
}

/// The handle of a worker, or the fault that it could not be started.
fn handle_of<T: Send + Drop, P: Promise<T> + Drop, F: Drop>(
    spawned: Result<PromisedHandle<T, P>, SpawnError<F>>,
) -> Result<PromisedHandle<T, P>, VoteFault>
    ensures ok { IfOk result (λ handle. spawned ≡ Ok handle) }
    ensures err { IfErr result (λ fault. fault ≡ VoteFault.Thread) }
{
    match spawned {
        Ok(handle) => Ok(handle),
        Err(_) => Err(VoteFault::Thread),
    }
}

/// Starts a worker in a thread of its own.
fn start<'s, E, VL: Tally + Send + Sync, RL: Tally + Send + Sync, G: Gate + Sync, R: Wait + Sync>(
    scope: &Scope<'s, E>,
    rt: &'s R,
    workplace: &'s Workplace<'_, '_, VL, RL, G>,
    desk: Desk<VL, RL>,
    pass: Pass,
) -> Result<PromisedHandle<WorkerResult<VL, RL>, WorkerPromise<G>>, VoteFault>
    requires desk { IsFresh (length workplace.now.lines.now) desk }
    requires pass { IsUnused workplace.now.tray.now pass }
    ensures desk { IfOk result (λ handle. handle.promise.number ≡ desk.number) }
    ensures pass { IfOk result (λ handle. handle.promise.pass.value ≡ pass) }
    ensures err { IfErr result (λ fault. fault ≡ VoteFault.Thread) }
{
    let promise = WorkerPromise {
        number: desk.number(),
        pass: Snapshot::of(&pass),
        gate: PhantomData,
    };
    let job = move || -> WorkerResult<VL, RL>
        requires desk { IsFresh (length workplace.now.lines.now) desk }
        requires pass { IsUnused workplace.now.tray.now pass }
        ensures desk { result.desk.number ≡ desk.number }
        ensures pass { (result.pass.tray ≡ pass.tray) × (result.pass.parts ≡ pass.parts) }
        ensures barred { IsBarredBy G.bars desk.number result.stopped }
    { work(rt, workplace, desk, pass) };
    handle_of(scope.spawn_with(promise, job))
}

/// Starts a worker for each desk, in the order of the desks, each with the pass at the same index.
fn start_all<
    's,
    E,
    VL: Tally + Send + Sync,
    RL: Tally + Send + Sync,
    G: Gate + Sync,
    R: Wait + Sync,
>(
    scope: &Scope<'s, E>,
    rt: &'s R,
    alloc: Global,
    workplace: &'s Workplace<'_, '_, VL, RL, G>,
    mut desks: Vec<Desk<VL, RL>>,
    mut passes: Vec<Pass>,
) -> Result<Vec<PromisedHandle<WorkerResult<VL, RL>, WorkerPromise<G>>>, VoteFault>
    requires desks { desks.items ≡ fresh_desks (length workplace.now.lines.now) (vec_len desks) }
    requires passes { passes.items ≡ new_passes workplace.now.tray.now }
    requires same { vec_len passes ≡ vec_len desks }
    ensures len { IfOk result (λ all. vec_len all ≡ vec_len desks) }
    ensures promised { IfOk result (λ all. ArePromised workplace.now.tray.now all.items) }
    ensures err { IfErr result IsStartFault }
{
    let mut handles = Vec::new(alloc);
    while !desks.is_empty() {
        let desk = desks.remove(0);
        let pass = passes.remove(0);
        handles.push(start(scope, rt, workplace, desk, pass)?)?;
    }
    Ok(handles)
}

/// Serves each desk in a thread of its own, and returns all desks when all workers have ended.
pub(crate) fn work_all<
    VL: Tally + Send + Sync,
    RL: Tally + Send + Sync,
    G: Gate + Sync,
    R: Threads + Wait + Sync,
>(
    rt: &R,
    alloc: Global,
    workplace: &Workplace<'_, '_, VL, RL, G>,
    desks: Vec<Desk<VL, RL>>,
    passes: Vec<Pass>,
) -> Result<Vec<WorkerResult<VL, RL>>, VoteFault>
    requires desks { desks.items ≡ fresh_desks (length workplace.now.lines.now) (vec_len desks) }
    requires passes { passes.items ≡ new_passes workplace.now.tray.now }
    requires same { vec_len passes ≡ vec_len desks }
    ensures len { IfOk result (λ all. vec_len all ≡ vec_len desks) }
    ensures back { IfOk result (λ all. AreBack workplace.now.tray.now all.items) }
    ensures barred { IfOk result (λ all. AreBarredBy G.bars all.items) }
    ensures err { IfErr result IsStartFault }
{
    let handles = thread::scope(
        thread::scope_env(),
        rt,
        |scope| -> Result<Vec<PromisedHandle<WorkerResult<VL, RL>, WorkerPromise<G>>>, VoteFault>
            requires desks { desks.items ≡ fresh_desks (length workplace.now.lines.now) (vec_len desks) }
            requires passes { passes.items ≡ new_passes workplace.now.tray.now }
            requires same { vec_len passes ≡ vec_len desks }
            ensures len { IfOk result (λ all. vec_len all ≡ vec_len desks) }
            ensures promised { IfOk result (λ all. ArePromised workplace.entry.now.tray.now all.items) }
            ensures err { IfErr result IsStartFault }
        { start_all(scope, rt, alloc, workplace, desks, passes) },
    )?;
    join_all(rt, handles)
}

/// Joins all workers.
fn join_all<VL: Tally, RL: Tally, G: Gate, R: Threads>(
    rt: &R,
    handles: Vec<PromisedHandle<WorkerResult<VL, RL>, WorkerPromise<G>>>,
) -> Result<Vec<WorkerResult<VL, RL>>, VoteFault>
    ensures len { IfOk result (λ all. vec_len all ≡ vec_len handles) }
    ensures back { (tray : TrayId) → ArePromised tray handles.items → IfOk result (λ all. AreBack tray all.items) }
    ensures barred { IfOk result (λ all. AreBarredBy G.bars all.items) }
    ensures err { IfErr result (λ fault. fault ≡ VoteFault.Memory) }
{
    match thread::join_promised(rt, handles) {
        Ok(all) => Ok(all),
        Err(_) => Err(VoteFault::Memory),
    }
}
