//! Votes taken by workers: gates that wait or that stop envelopes, and what is left when memory or a thread is refused.
ghost use Rattle.vote_steps.specs.Desks.{AreDesks};

use crate::inputs::{BALLOTS, CYCLE, assert_same, lines_of, poll_of};
use std::alloc::{AllocError, Global};
use std::process::Abort;
use std::sync::atomic::AtomicU64;
use std::sync::atomic::Ordering::SeqCst;
use std::sync::{OnceLock, Wait};
use std::test::Fail;
use std::thread;
use std::thread::Threads;
use vote_desks::{Audited, Gate, NoGate, Slip, VoteFault, take_votes};
use vote_poll::Poll;
use vote_steps::{BallotBox, MAX_DESKS, Step, Totals};

/// Asserts what the nine lines come to: the totals, and the votes of A over B, of B over C, and of C over A.
fn assert_nine(rt: &impl Abort, ballot_box: &BallotBox) {
    let totals = Totals {
        valid: 9,
        refused: 0,
        voters: 9,
    };
    assert_same(rt, ballot_box.totals(), totals);
    let matrix = ballot_box.matrix();
    assert!(rt; matrix.options() == 4);
    let cycle = [matrix.votes(1, 2), matrix.votes(2, 3), matrix.votes(3, 1)];
    assert_same(rt, cycle, [6, 7, 5]);
}

/// Takes the votes of the lines in a text by a poll.
fn taken_by<G: Gate + Sync, R: Threads + Wait + Abort + Sync>(
    rt: &R,
    alloc: Global,
    poll: &Poll,
    lines: &str,
    desks: u8,
    gate: &G,
) -> Result<Audited, VoteFault>
    requires { AreDesks desks }
{
    let lines = lines_of(rt, alloc, lines)?;
    let audited = take_votes(rt, alloc, poll, &lines, desks, gate);
    drop(lines);
    audited
}

/// Takes the votes of the lines in a text by the nine electors' poll.
fn taken<G: Gate + Sync, R: Threads + Wait + Abort + Sync>(
    rt: &R,
    alloc: Global,
    lines: &str,
    desks: u8,
    gate: &G,
) -> Result<Audited, VoteFault>
    requires { AreDesks desks }
{
    let poll = poll_of(rt, alloc, CYCLE)?;
    let audited = taken_by(rt, alloc, &poll, lines, desks, gate);
    drop(poll);
    audited
}

/// The number of lines with which a worker begins with a batch of 19 if its gate does not wait.
const MANY: u32 = 300;

/// `MANY` ballots of one voter.
fn many_ballots(alloc: Global) -> Result<String, AllocError> {
    let mut text = String::new(alloc);
    for _ in 0..MANY {
        text.push_str("v0 1,2,3,4\n")?;
    }
    Ok(text)
}

/// The calls that a gate got about one envelope.
#[derive(Drop)]
struct Told {
    asked: AtomicU64,
    before: OnceLock<u8>,
    after: OnceLock<(u8, Slip)>,
}

impl Told {
    /// The desk that asked, and the desk and the slip of the cast that was reported.
    fn both(&self) -> (Option<u8>, Option<(u8, Slip)>) {
        (self.before.get().copied(), self.after.get().copied())
    }
}

/// When a gate lets envelopes pass.
#[derive(Drop)]
enum Passes {
    /// Pass each envelope once the gate has been asked about the next.
    WithTheNext,
    /// Pass this envelope once this many others were cast, and any other envelope at once.
    Behind(u32, u64),
    /// Pass each envelope but this one. This gate does not wait; the others may.
    AllBut(u32),
    /// Once this many envelopes were asked about, pass those of all desks except the desks from the first number to the second.
    AllButOf(u8, u8, u64),
    /// Pass none.
    Never,
}

/// A gate whose envelopes wait for one another or are stopped. It notes the calls that it gets.
#[derive(Drop)]
struct Turnstile {
    passes: Passes,
    asked: AtomicU64,
    cast: AtomicU64,
    /// The index is the stamp.
    told: Vec<Told>,
}

/// Whether a count reached this number while it was read at most 1,000,000,000 times.
fn reaches(count: &AtomicU64, least: u64) -> bool {
    reaches_by(count, least, 1_000_000_000)
}

/// Whether a count reached this number while it was read at most this many times.
fn reaches_by(count: &AtomicU64, least: u64, times: u32) -> bool {
    for turn in 0..times {
        if count.load(SeqCst) >= least {
            return true;
        }
        if turn % 1024 == 0 {
            thread::yield_now();
        }
    }
    false
}

impl Turnstile {
    /// A gate for this many envelopes.
    fn new(alloc: Global, envelopes: u32, passes: Passes) -> Result<Turnstile, AllocError> {
        let mut told = Vec::new(alloc);
        for _ in 0..=envelopes {
            told.push(Told {
                asked: AtomicU64::new(0),
                before: OnceLock::new(),
                after: OnceLock::new(),
            })?;
        }
        Ok(Turnstile {
            passes,
            asked: AtomicU64::new(0),
            cast: AtomicU64::new(0),
            told,
        })
    }

    /// The number of envelopes that the gate was asked about, and the number of casts that were reported to it.
    fn counts(&self) -> (u64, u64) {
        (self.asked.load(SeqCst), self.cast.load(SeqCst))
    }

    /// Whether the gate was asked about an envelope by now or soon; true if there is no such envelope.
    fn is_asked_for(&self, stamp: u32) -> bool {
        match self.told.get(stamp as usize) {
            Some(told) => reaches(&told.asked, 1),
            None => true,
        }
    }

    /// Asserts that desk 1 asked about each envelope up to this one, and reported the cast of each but this one.
    fn assert_asked_up_to(&self, rt: &impl Abort, last: u32) {
        for stamp in 1..=last {
            let told = self.told.get(stamp as usize).expect(rt, "the stamp");
            let (before, after) = told.both();
            let cast = after.map(|(desk, slip)| (desk, slip.number, slip.stamp));
            let is_cast = stamp < last;
            assert_same(
                rt,
                (before, cast),
                (Some(1), is_cast.then_some((1, stamp, stamp))),
            );
        }
    }

    /// Asserts that this desk asked about each envelope of its slips, and reported each cast with its slip.
    fn assert_told(&self, rt: &impl Abort, desk: u8, slips: &[Slip]) {
        for slip in slips {
            let told = self.told.get(slip.stamp as usize).expect(rt, "the stamp");
            assert_same(rt, told.both(), (Some(desk), Some((desk, *slip))));
        }
    }
}

impl Gate for Turnstile {
    fn before(&self, desk: u8, stamp: u32) -> bool {
        if let Some(told) = self.told.get(stamp as usize) {
            let _ = told.before.try_set(desk);
            told.asked.fetch_add(1, SeqCst);
        }
        self.asked.fetch_add(1, SeqCst);
        match self.passes {
            Passes::WithTheNext => self.is_asked_for(stamp.saturating_add(1)),
            Passes::Behind(last, others) => stamp != last || reaches(&self.cast, others),
            Passes::AllBut(barred) => stamp != barred,
            Passes::AllButOf(first, last, desks) => {
                reaches(&self.asked, desks) && (desk < first || last < desk)
            }
            Passes::Never => false,
        }
    }

    fn after(&self, desk: u8, slip: &Slip) {
        if let Some(told) = self.told.get(slip.stamp as usize) {
            let _ = told.after.try_set((desk, *slip));
        }
        self.cast.fetch_add(1, SeqCst);
    }

    fn may_wait(&self) -> bool {
        !matches!(self.passes, Passes::AllBut(_))
    }
}

/// The stamp of the last cast, before the close.
fn last_cast(ballot_box: &BallotBox) -> Option<u32> {
    match ballot_box.steps() {
        [.., Step::Cast { stamp, .. }, _] => Some(*stamp),
        _ => None,
    }
}

/// Asserts that a gate was asked once about each of this many envelopes of two desks, and got one report of each cast.
fn assert_all_told(rt: &impl Abort, gate: &Turnstile, envelopes: u32, audited: &Audited) {
    let all = u64::from(envelopes);
    assert!(rt; audited.desks() == 2);
    assert_same(rt, gate.counts(), (all, all));
    gate.assert_told(rt, 1, audited.sheet_of(1));
    gate.assert_told(rt, 2, audited.sheet_of(2));
}

/// Takes this many lines at two desks through a gate, asserts the reports that the gate got, and returns the envelope that was cast
/// last.
fn last_through<R: Threads + Wait + Abort + Sync>(
    rt: &R,
    alloc: Global,
    lines: &str,
    envelopes: u32,
    gate: &Turnstile,
) -> Result<Option<u32>, VoteFault> {
    let audited = taken(rt, alloc, lines, 2, gate)?;
    assert_all_told(rt, gate, envelopes, &audited);
    let last = last_cast(audited.ballot_box());
    drop(audited);
    Ok(last)
}

/// The same through a gate that lets envelopes pass in this way.
fn last_taken<R: Threads + Wait + Abort + Sync>(
    rt: &R,
    alloc: Global,
    lines: &str,
    envelopes: u32,
    passes: Passes,
) -> Result<Option<u32>, VoteFault> {
    let gate = Turnstile::new(alloc, envelopes, passes)?;
    let last = last_through(rt, alloc, lines, envelopes, &gate);
    drop(gate);
    last
}

/// The same for `MANY` lines.
fn last_of_many<R: Threads + Wait + Abort + Sync>(
    rt: &R,
    alloc: Global,
    passes: Passes,
) -> Result<Option<u32>, VoteFault> {
    let lines = many_ballots(alloc)?;
    let last = last_taken(rt, alloc, lines.as_str(), MANY, passes);
    drop(lines);
    last
}

#[test]
fn envelopes_wait_for_one_another(rt: HostRuntime) -> Result<(), Fail> {
    let alloc = rt.alloc();
    let first = last_taken(&rt, alloc, BALLOTS, 9, Passes::Behind(1, 8))?;
    let fifth = last_taken(&rt, alloc, BALLOTS, 9, Passes::Behind(5, 8))?;
    assert_same(&rt, (first, fifth), (Some(1), Some(5)));
    Ok(())
}

/// Two desks hold an envelope each at any time, and an envelope passes as soon as the other desk asks about the next one. A worker
/// that took two envelopes at once would wait for its own second one.
#[test]
fn envelopes_are_taken_one_by_one_where_a_gate_waits(rt: HostRuntime) -> Result<(), Fail> {
    let _ = last_of_many(&rt, rt.alloc(), Passes::WithTheNext)?;
    Ok(())
}

#[test]
fn a_gate_is_told_of_each_envelope_of_a_batch(rt: HostRuntime) -> Result<(), Fail> {
    let _ = last_of_many(&rt, rt.alloc(), Passes::AllBut(0))?;
    Ok(())
}

/// A gate that does not wait for another desk. At the first envelope it watches for some tenths of a second whether it is asked
/// about another one.
#[derive(Drop)]
struct Lookout {
    asked: AtomicU64,
    meanwhile: AtomicU64,
}

impl Gate for Lookout {
    fn before(&self, _desk: u8, _stamp: u32) -> bool {
        if self.asked.fetch_add(1, SeqCst) == 0 && reaches_by(&self.asked, 2, 50_000_000) {
            self.meanwhile.store(1, SeqCst);
        }
        true
    }

    fn after(&self, _desk: u8, _slip: &Slip) {}

    fn may_wait(&self) -> bool {
        false
    }
}

/// A desk that has its turn holds it until its batch is cast. If desks took envelopes one by one, or each batch had a turn of its
/// own, the other desk would ask in that time.
#[test]
fn no_desk_casts_amid_the_batch_of_another(rt: HostRuntime) -> Result<(), Fail> {
    let lines = many_ballots(rt.alloc())?;
    let gate = Lookout {
        asked: AtomicU64::new(0),
        meanwhile: AtomicU64::new(0),
    };
    let fault = taken(&rt, rt.alloc(), lines.as_str(), 2, &gate).err();
    drop(lines);
    assert_same(&rt, (fault, gate.meanwhile.load(SeqCst)), (None, 0));
    drop(gate);
    Ok(())
}

/// A fault, the number of envelopes that a gate was asked about, and the number of casts that were reported to it.
type Stopped = (Option<VoteFault>, (u64, u64));

/// Takes this many lines through a gate, and returns how the gate stopped them.
fn stopped<R: Threads + Wait + Abort + Sync>(
    rt: &R,
    alloc: Global,
    lines: &str,
    envelopes: u32,
    desks: u8,
    passes: Passes,
) -> Result<Stopped, AllocError>
    requires { AreDesks desks }
{
    let gate = Turnstile::new(alloc, envelopes, passes)?;
    let fault = taken(rt, alloc, lines, desks, &gate).err();
    let counts = gate.counts();
    drop(gate);
    Ok((fault, counts))
}

/// The fault of desk 1, or of desk 2, that its gate stopped.
const FIRST: Option<VoteFault> = Some(VoteFault::Gate(1));

const SECOND: Option<VoteFault> = Some(VoteFault::Gate(2));

#[test]
fn the_least_desk_that_stopped_is_named(rt: HostRuntime) -> Result<(), Fail> {
    let alloc = rt.alloc();
    let each = stopped(&rt, alloc, BALLOTS, 9, MAX_DESKS, Passes::Never)?;
    assert_same(&rt, each, (FIRST, (u64::from(MAX_DESKS), 0)));
    let second = stopped(&rt, alloc, BALLOTS, 9, 2, Passes::AllButOf(2, 2, 2))?;
    assert_same(&rt, second, (SECOND, (9, 8)));
    let two = stopped(&rt, alloc, BALLOTS, 9, 4, Passes::AllButOf(2, 3, 4))?;
    assert_same(&rt, two, (SECOND, (9, 7)));
    let none = stopped(&rt, alloc, "", 0, MAX_DESKS, Passes::Never)?;
    assert_same(&rt, none, (None, (0, 0)));
    Ok(())
}

/// Takes many lines at one desk through a gate, and asserts that the gate stopped the desk at this envelope, the next after those
/// cast.
fn assert_stopped_at<R: Threads + Wait + Abort + Sync>(
    rt: &R,
    alloc: Global,
    lines: &str,
    gate: &Turnstile,
    barred: u32,
) {
    let fault = taken(rt, alloc, lines, 1, gate).err();
    let asked = u64::from(barred);
    assert_same(
        rt,
        (fault, gate.counts()),
        (FIRST, (asked, asked.saturating_sub(1))),
    );
    gate.assert_asked_up_to(rt, barred);
}

/// The same through a gate that stops only this envelope and does not wait.
fn assert_barred<R: Threads + Wait + Abort + Sync>(
    rt: &R,
    alloc: Global,
    lines: &str,
    barred: u32,
) -> Result<(), AllocError> {
    let gate = Turnstile::new(alloc, MANY, Passes::AllBut(barred))?;
    assert_stopped_at(rt, alloc, lines, &gate, barred);
    drop(gate);
    Ok(())
}

/// The fifth envelope is within the first batch.
#[test]
fn a_gate_stops_a_desk_amid_a_batch(rt: HostRuntime) -> Result<(), Fail> {
    let lines = many_ballots(rt.alloc())?;
    let done = assert_barred(&rt, rt.alloc(), lines.as_str(), 5);
    drop(lines);
    done?;
    Ok(())
}

#[test]
fn memory_of_take_votes(rt: HostRuntime) -> Result<(), Fail> {
    match taken(&rt, rt.alloc(), BALLOTS, 2, &NoGate) {
        Ok(audited) => {
            assert_nine(&rt, audited.ballot_box());
            drop(audited);
            Ok(())
        }
        Err(VoteFault::Memory) => Err("refused".into()),
        Err(fault) => {
            assert_same(&rt, fault, VoteFault::Thread);
            Err("refused a thread".into())
        }
    }
}

#[test]
fn threads_of_take_votes(rt: HostRuntime) -> Result<(), Fail> {
    match taken(&rt, rt.alloc(), BALLOTS, 3, &NoGate) {
        Ok(audited) => {
            assert_same(&rt, audited.desks(), 3);
            drop(audited);
            Ok(())
        }
        Err(fault) => {
            assert_same(&rt, fault, VoteFault::Thread);
            Err("refused".into())
        }
    }
}
