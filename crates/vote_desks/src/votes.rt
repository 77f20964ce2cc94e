//! Takes the votes of all lines, with one box that desks share.
//!
//! Each desk is served in a thread of its own. The box takes stamps 1 to the number of lines, and the workers take the lines from
//! one tray, so each line is cast once. A worker stops if its gate bars an envelope or its cast is refused; the others go on. When
//! all have ended, the desks are gathered and each line is read once more. The first fault in the order of `VoteFault` is returned,
//! but `Memory` may come at any growth. The contract of `take_votes` promises only the result: an audited box, or a fault that may
//! come.
ghost use Rattle.std.specs.Prelude.{◌≡◌, ◌<◌, [], IfOk, IfErr, IfSome, IsNone, All, None, length, vec_len};
ghost use Rattle.std.specs.List.{range_with_len};
ghost use Rattle.vote_steps.specs.Boxes.{box_of};
ghost use Rattle.vote_steps.specs.Desks.{AreDesks};
ghost use Rattle.vote_desks_box.specs.Slips.{Rises};
ghost use Rattle.vote_desks_box.specs.Desks.{AreSlipsInOrder, fresh_desks};
ghost use Rattle.vote_audit.specs.Audit.{IsAuditedFor};
ghost use Rattle.vote_desks.specs.Back.{AreAllHandedIn, casts_at};
ghost use Rattle.vote_desks.specs.Stops.{stop_fault, IsLeastStop, StopsWorkers};
ghost use Rattle.vote_audit.specs.Faults.{AreSlipsOf, CanStopAudit, CanStopCasts, CanStopVotes, IsOfDesk, IsAuditFaultOf, IsFoundIn};
ghost use Rattle.vote_desks.specs.Work.{new_passes};
ghost use Rattle.vote_desks.specs.Workers.{AreBack, AreBarredBy, AreNumbered, numbers_of, stops_back};

use crate::work::{Gate, Workplace, work_all};
use crate::worker_result::{Stop, WorkerResult};
use std::alloc::Global;
use std::marker::Brand;
use std::sync::ledger::Blank;
use std::sync::{Mutex, Wait};
use std::thread::Threads;
use vote_audit::{Audited, VoteFault, audit};
use vote_desks_box::{Desk, DeskFault, Sealed, SharedBox, Tally, gather, open_desks};
use vote_poll::{Lines, Poll};
use vote_steps::MAX_DESKS;
use vote_tray::{Pass, Tray, TrayFault};

/// The fault for a desk's early stop.
fn stop_fault(desk: u8, stop: Stop) -> VoteFault
    ensures { result ≡ stop_fault desk stop }
{
    match stop {
        Stop::Barred => VoteFault::Gate(desk),
        Stop::Refused(fault) => VoteFault::Enter(desk, fault),
    }
}

/// The fault of the lowest desk that stopped early.
fn first_stop<VL: Tally, RL: Tally, G: Gate>(all: &[WorkerResult<VL, RL>]) -> Option<VoteFault>
    requires numbers { AreNumbered all.now }
    requires barred { AreBarredBy G.bars all.now }
    ensures some { IfSome result (IsLeastStop (stops_back all.now)) }
    ensures can { IfSome result (CanStopCasts G.bars) }
    ensures desk { IfSome result (IsOfDesk (length all.now)) }
    ensures none { IsNone result → All (λ worked. worked.stopped ≡ None) all.now }
{
    for worked in all {
        if let Some(stop) = worked.stopped {
            return Some(stop_fault(worked.desk.number(), stop));
        }
    }
    None
}

/// Takes the desks back, and joins their passes in order.
fn hand_in<VL: Tally, RL: Tally>(
    alloc: Global,
    tray: &Tray,
    all: Vec<WorkerResult<VL, RL>>,
) -> Result<(Vec<Desk<VL, RL>>, Pass), VoteFault>
    requires all { (0 < vec_len all) × (vec_len all ≡ tray.now.passes) }
    requires back { AreBack tray.now all.items }
    requires done { All (λ worked. worked.stopped ≡ None) all.items }
    ensures handed { IfOk result (λ handed. AreAllHandedIn tray.now handed.0.items handed.1) }
    ensures err { IfErr result (λ fault. fault ≡ VoteFault.Memory) }
{
    let mut all = all.into_iter();
    let Some(WorkerResult { desk, pass, .. }) = all.next() else {
        unreachable!()
    };
    let mut desks = Vec::new(alloc);
    desks.push(desk)?;
    let mut joined = pass;
    while let Some(WorkerResult { desk, pass, .. }) = all.next() {
        desks.push(desk)?;
        joined = tray.join(joined, pass);
    }
    Ok((desks, joined))
}

/// Takes the desks back from their workers, unless a desk stopped early. All passes are joined into the pass that is returned.
fn take_back<VL: Tally, RL: Tally, G: Gate>(
    alloc: Global,
    tray: &Tray,
    all: Vec<WorkerResult<VL, RL>>,
) -> Result<(Vec<Desk<VL, RL>>, Pass), VoteFault>
    requires some { 0 < tray.now.passes }
    requires len { vec_len all ≡ tray.now.passes }
    requires back { AreBack tray.now all.items }
    requires barred { AreBarredBy G.bars all.items }
    ensures handed { IfOk result (λ handed. AreAllHandedIn tray.now handed.0.items handed.1) }
    ensures stops { IfErr result (StopsWorkers (stops_back all.items)) }
    ensures fault { IfErr result (CanStopCasts G.bars) }
    ensures desk { IfErr result (IsOfDesk tray.now.passes) }
{
    if let Some(fault) = first_stop::<VL, RL, G>(&all) {
        return Err(fault);
    }
    hand_in(alloc, tray, all)
}

/// Runs a worker for each desk until the tray is empty, and takes the desks back. All passes are joined into the pass that is
/// returned.
fn run_workers<
    VL: Tally + Send + Sync,
    RL: Tally + Send + Sync,
    G: Gate + Sync,
    R: Threads + Wait + Sync,
>(
    rt: &R,
    alloc: Global,
    workplace: &Workplace<'_, '_, VL, RL, G>,
    desks: Vec<Desk<VL, RL>>,
    passes: Vec<Pass>,
) -> Result<(Vec<Desk<VL, RL>>, Pass), VoteFault>
    requires some { 0 < vec_len desks }
    requires each { vec_len desks ≡ workplace.now.tray.now.passes }
    requires same { vec_len passes ≡ vec_len desks }
    requires desks { desks.items ≡ fresh_desks (length workplace.now.lines.now) (vec_len desks) }
    requires passes { passes.items ≡ new_passes workplace.now.tray.now }
    ensures handed { IfOk result (λ all. AreAllHandedIn workplace.now.tray.now all.0.items all.1) }
    ensures fault { IfErr result (CanStopCasts G.bars) }
    ensures desk { IfErr result (IsOfDesk workplace.now.tray.now.passes) }
{
    let all = work_all(rt, alloc, workplace, desks, passes)?;
    take_back::<VL, RL, G>(alloc, workplace.tray, all)
}

/// Runs desks that have cast nothing until all lines are cast, and takes them back.
fn run_desks<
    VL: Tally + Send + Sync,
    RL: Tally + Send + Sync,
    G: Gate + Sync,
    R: Threads + Wait + Sync,
>(
    rt: &R,
    alloc: Global,
    poll: &Poll,
    lines: &Lines<'_>,
    gate: &G,
    shared: &SharedBox<VL, RL>,
    opened: Vec<Desk<VL, RL>>,
) -> Result<Vec<Desk<VL, RL>>, VoteFault>
    requires opened { AreDesks (vec_len opened) }
    requires box_is { shared.now.opened ≡ box_of poll.now (length lines.now) [] }
    requires fresh { opened.items ≡ fresh_desks (length lines.now) (vec_len opened) }
    ensures numbers { IfOk result (λ back. numbers_of back.items ≡ range_with_len 1 (vec_len opened)) }
    ensures rising { IfOk result (λ back. All (λ desk. Rises desk.slips) back.items) }
    ensures cast { IfOk result (λ back. casts_at back.items ≡ length lines.now) }
    ensures fault { IfErr result (CanStopCasts G.bars) }
    ensures desk { IfErr result (IsOfDesk (vec_len opened)) }
{
    let desks = opened.len() as u8;
    let (tray, passes) = match Tray::new(alloc, lines.len() as u64, desks) {
        Ok(made) => made,
        Err(TrayFault::TooMany) => unreachable!(),
        Err(TrayFault::Memory) => return Err(VoteFault::Memory),
    };
    let (back, joined) = {
        let turn = Mutex::new(());
        let workplace = Workplace {
            poll,
            lines,
            shared,
            gate,
            may_wait: gate.may_wait(),
            tray: &tray,
            turn: &turn,
        };
        run_workers(rt, alloc, &workplace, opened, passes)?
    };
    tray.finish(joined);
    Ok(back)
}

/// Audits a sealed box. A fault of the audit is returned as the reason why the votes are not taken.
fn audit_votes<R: Threads + Sync>(
    rt: &R,
    poll: &Poll,
    lines: &Lines<'_>,
    sealed: Sealed,
) -> Result<Audited, VoteFault>
    ensures same { IfOk result (λ audited. audited ≡ sealed) }
    ensures audited { IfOk result (IsAuditedFor poll.now lines.now) }
    ensures fault { IfErr result (IsAuditFaultOf poll.now lines.now sealed) }
{
    match audit(rt, poll, lines, sealed) {
        Ok(audited) => Ok(audited),
        Err(fault) => Err(VoteFault::Audit(fault)),
    }
}

/// Gathers the desks after they have cast all envelopes, and compares what they did with the lines.
fn gather_and_audit<VL: Tally, RL: Tally, R: Threads + Sync>(
    rt: &R,
    alloc: Global,
    poll: &Poll,
    lines: &Lines<'_>,
    shared: SharedBox<VL, RL>,
    desks: Vec<Desk<VL, RL>>,
) -> Result<Audited, VoteFault>
    requires valid { VL.desks ≡ VL.parts }
    requires refused { RL.desks ≡ RL.parts }
    requires opened { shared.opened ≡ box_of poll.now (length lines.now) [] }
    requires numbers { numbers_of desks.items ≡ range_with_len 1 shared.desks }
    requires rising { All (λ desk. Rises desk.slips) desks.items }
    requires cast { casts_at desks.items ≡ length lines.now }
    ensures audited { IfOk result (IsAuditedFor poll.now lines.now) }
    ensures desks { IfOk result (λ audited. length audited.slips_by_desk ≡ shared.desks) }
    ensures rising { IfOk result (λ audited. All Rises audited.slips_by_desk) }
    ensures fault { IfErr result CanStopAudit }
    ensures found { IfErr result (IsFoundIn (AreSlipsInOrder desks) poll.now lines.now) }
    ensures desk { IfErr result (IsOfDesk shared.desks) }
{
    let sealed = match gather(alloc, shared, desks) {
        Ok(sealed) => sealed,
        Err(DeskFault::MissingDesk) => unreachable!(),
        Err(DeskFault::Memory) => return Err(VoteFault::Memory),
    };
    audit_votes(rt, poll, lines, sealed)
}

/// The blanks of the two ledgers of a box.
struct Blanks {
    valid: Blank,
    refused: Blank,
}

/// Takes the votes at the desks of one box. The caller names its ledgers.
fn serve<
    VL: Tally + Send + Sync,
    RL: Tally + Send + Sync,
    G: Gate + Sync,
    R: Threads + Wait + Sync,
>(
    rt: &R,
    alloc: Global,
    poll: &Poll,
    lines: &Lines<'_>,
    desks: u8,
    gate: &G,
    blanks: Blanks,
) -> Result<Audited, VoteFault>
    requires desks { AreDesks desks }
    requires valid { (blanks.valid.name ≡ VL.name) × (blanks.valid.parts ≡ VL.parts) }
    requires valid_desks { (VL.parts ≡ desks) × (VL.desks ≡ desks) }
    requires refused { (blanks.refused.name ≡ RL.name) × (blanks.refused.parts ≡ RL.parts) }
    requires refused_desks { (RL.parts ≡ desks) × (RL.desks ≡ desks) }
    requires opened { VL.opened ≡ box_of poll.now (length lines.now) [] }
    ensures audited { IfOk result (IsAuditedFor poll.now lines.now) }
    ensures desks { IfOk result (λ audited. length audited.slips_by_desk ≡ desks) }
    ensures rising { IfOk result (λ audited. All Rises audited.slips_by_desk) }
    ensures fault { IfErr result (CanStopVotes G.bars) }
    ensures found { IfErr result (IsFoundIn (AreSlipsOf desks) poll.now lines.now) }
    ensures desk { IfErr result (IsOfDesk desks) }
{
    let limit = lines.len() as u32;
    let Blanks { valid, refused } = blanks;
    let (shared, opened) = match open_desks::<VL, RL>(alloc, poll, limit, desks, valid, refused) {
        Ok(made) => made,
        Err(_) => return Err(VoteFault::Memory),
    };
    let back = run_desks(rt, alloc, poll, lines, gate, &shared, opened)?;
    gather_and_audit(rt, alloc, poll, lines, shared, back)
}

/// Takes the votes of all lines at desks 1 to `desks`.
///
/// If it returns Ok, the box is audited for the poll and its lines, each desk has handed in its slips, and the stamps of each desk
/// rise. An error is one that may stop votes with this gate. An error of a gate or of a cast names one of these desks. For an error
/// of the audit there is a legal box, with rising slips of each desk, in which the audit finds it.
pub fn take_votes<G: Gate + Sync, R: Threads + Wait + Sync>(
    rt: &R,
    alloc: Global,
    poll: &Poll,
    lines: &Lines<'_>,
    desks: u8,
    gate: &G,
) -> Result<Audited, VoteFault>
    requires { AreDesks desks }
    ensures audited { IfOk result (IsAuditedFor poll.now lines.now) }
    ensures desks { IfOk result (λ audited. length audited.slips_by_desk ≡ desks) }
    ensures rising { IfOk result (λ audited. All Rises audited.slips_by_desk) }
    ensures fault { IfErr result (CanStopVotes G.bars) }
    ensures found { IfErr result (IsFoundIn (AreSlipsOf desks) poll.now lines.now) }
    ensures desk { IfErr result (IsOfDesk desks) }
{
    serve::<Brand, Brand, G, R>(
        rt,
        alloc,
        poll,
        lines,
        desks,
        gate,
        Blanks {
            valid: Blank::new(u64::from(desks)),
            refused: Blank::new(u64::from(desks)),
        },
    )
}
