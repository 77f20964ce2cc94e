//! Desks served by hand and in threads, audits that find a difference, and what is left when memory runs out.
ghost use Rattle.std.specs.Prelude.{◌≡◌, ◌≤◌, []};
ghost use Rattle.vote_steps.specs.Boxes.{box_of};
ghost use Rattle.vote_steps.specs.Desks.{AreDesks};

use crate::inputs::{assert_same, lines_of, poll_of};
use std::alloc::Global;
use std::marker::Brand;
use std::process::Abort;
use std::sync::Wait;
use std::sync::ledger::Blank;
use std::test::Fail;
use std::thread;
use std::thread::Threads;
use vote_desks::{
    AuditFault, Desk, DeskFault, EnterFault, NoVoter, Sealed, SharedBox, Slip, Tally, audit,
    compare, gather, open_desks,
};
use vote_poll::{Lines, Poll, Ranks, Reading, read_line};
use vote_steps::{AlreadyClosed, MAX_DESKS, Reply};

const TWO_ELECTORS: &str =
    "title = \"Two\"\noptions = [\"A\", \"B\"]\nratios = [1, 1]\ndefault = \"None\"\nquorum = 0\nroll = [\"ann\", \"bob\"]\n";

const FIRST_IS_LAST: &str =
    "title = \"First\"\noptions = [\"A\", \"B\"]\nratios = [1, 1]\ndefault = \"None\"\nquorum = 0\nroll = [\"ann\", \"bob\"]\nlast_envelope = 1\n";

const TWO_LINES: &str = "ann 1,2,3\nbob 2,1,3\n";

const ANN: &str = "ann 1,2,3";

const BOB: &str = "bob 2,1,3";

/// What is done at a shared box, and its answer.
#[derive(Clone, Copy)]
enum Deed {
    /// A cast at the desk at this index, with a stamp and a line.
    Cast(usize, u32, &'static str, Result<Reply, EnterFault>),
    /// A cast at the desk at this index, with a stamp and a ballot of a voter whom the box does not have.
    Stranger(usize, u32),
    Close(Result<(), AlreadyClosed>),
    /// The ranks of the three options in this voter's ballot that stands.
    Standing(usize, Result<Option<[u8; 3]>, NoVoter>),
}

/// The reply to a cast.
fn reply_of(cast: Result<Slip, EnterFault>) -> Result<Reply, EnterFault> {
    match cast {
        Ok(slip) => Ok(slip.reply),
        Err(fault) => Err(fault),
    }
}

/// A ballot of the voter after the last of two.
fn strangers_ballot(poll: &Poll) -> Reading {
    match read_line(poll, ANN.as_bytes()) {
        Reading::Ballot { ranks, .. } => Reading::Ballot { voter: 2, ranks },
        Reading::Bad(fault) => Reading::Bad(fault),
    }
}

/// Casts a reading at the desk at this index, and asserts the reply.
fn assert_cast<VL: Tally, RL: Tally, R: Wait + Abort>(
    rt: &R,
    shared: &SharedBox<VL, RL>,
    desks: &mut [Desk<VL, RL>],
    index: usize,
    stamp: u32,
    reading: Reading,
    answer: Result<Reply, EnterFault>,
) {
    let desk = desks.get_mut(index).expect(rt, "the desk");
    let reply = reply_of(shared.cast(rt, desk, stamp, reading));
    assert_same(rt, (stamp, reply), (stamp, answer));
}

/// The ranks that a ballot gives three options.
fn three_ranks(ranks: &Ranks) -> [u8; 3] {
    let keys = ranks.sort_keys();
    [keys[0], keys[1], keys[2]]
}

/// The ranks in this voter's ballot that stands.
fn standing<VL: Tally, RL: Tally, R: Wait>(
    rt: &R,
    shared: &SharedBox<VL, RL>,
    voter: usize,
) -> Result<Option<[u8; 3]>, NoVoter> {
    match shared.standing(rt, voter) {
        Ok(Some(ranks)) => Ok(Some(three_ranks(&ranks))),
        Ok(None) => Ok(None),
        Err(NoVoter) => Err(NoVoter),
    }
}

/// Does a deed, and asserts its answer. The line of the deed is read by this poll.
fn assert_done<VL: Tally, RL: Tally, R: Wait + Abort>(
    rt: &R,
    poll: &Poll,
    shared: &SharedBox<VL, RL>,
    desks: &mut [Desk<VL, RL>],
    deed: Deed,
) {
    match deed {
        Deed::Cast(index, stamp, line, answer) => {
            let reading = read_line(poll, line.as_bytes());
            assert_cast(rt, shared, desks, index, stamp, reading, answer);
        }
        Deed::Stranger(index, stamp) => {
            let reading = strangers_ballot(poll);
            assert_cast(
                rt,
                shared,
                desks,
                index,
                stamp,
                reading,
                Err(EnterFault::Sizes),
            );
        }
        Deed::Close(answer) => assert_same(rt, shared.close(rt), answer),
        Deed::Standing(voter, answer) => assert_same(rt, standing(rt, shared, voter), answer),
    }
}

/// Does the deeds.
fn assert_all_done<VL: Tally, RL: Tally, R: Wait + Abort>(
    rt: &R,
    poll: &Poll,
    shared: &SharedBox<VL, RL>,
    desks: &mut [Desk<VL, RL>],
    deeds: &[Deed],
) {
    for deed in deeds {
        assert_done(rt, poll, shared, desks, *deed);
    }
}

/// What is done at a box, and the number of its desks that are kept.
#[derive(Clone, Copy)]
struct Plan<'a> {
    deeds: &'a [Deed],
    kept: usize,
}

/// Does the deeds at a box for two lines, and gathers the first `kept` desks, from the last to the first.
fn act<VL: Tally, RL: Tally, R: Wait + Abort>(
    rt: &R,
    alloc: Global,
    poll: &Poll,
    desks: u8,
    plan: Plan<'_>,
    valid: Blank,
    refused: Blank,
) -> Result<Sealed, DeskFault>
    requires desks { AreDesks desks }
    requires valid { (valid.name ≡ VL.name) × (valid.parts ≡ VL.parts) }
    requires valid_desks { (VL.parts ≡ desks) × (VL.desks ≡ desks) }
    requires refused { (refused.name ≡ RL.name) × (refused.parts ≡ RL.parts) }
    requires refused_desks { (RL.parts ≡ desks) × (RL.desks ≡ desks) }
    requires opened { VL.opened ≡ box_of poll.now 2 [] }
{
    let (shared, mut opened) = open_desks::<VL, RL>(alloc, poll, 2, desks, valid, refused)?;
    assert_all_done(rt, poll, &shared, &mut opened, plan.deeds);
    opened.truncate(plan.kept);
    opened.reverse();
    gather(alloc, shared, opened)
}

/// Does the deeds at a box for the poll in this text, and gathers the first `kept` desks.
fn acted<R: Wait + Abort>(
    rt: &R,
    alloc: Global,
    poll: &str,
    desks: u8,
    deeds: &[Deed],
    kept: usize,
) -> Result<Sealed, DeskFault>
    requires { AreDesks desks }
{
    let poll = poll_of(rt, alloc, poll)?;
    let valid = Blank::new(u64::from(desks));
    let refused = Blank::new(u64::from(desks));
    let plan = Plan { deeds, kept };
    let sealed = act::<Brand, Brand, R>(rt, alloc, &poll, desks, plan, valid, refused);
    drop(poll);
    sealed
}

/// The number of steps of a box, the numbers of its valid and refused lines, and its number of desks.
fn counts_of(sealed: &Sealed) -> (usize, u64, u64, u8) {
    let ballot_box = sealed.ballot_box();
    let totals = ballot_box.totals();
    (
        ballot_box.steps().len(),
        totals.valid,
        totals.refused,
        sealed.desks(),
    )
}

/// The counts of a box with this many desks after the deeds.
fn counts_after<R: Wait + Abort>(
    rt: &R,
    alloc: Global,
    desks: u8,
    deeds: &[Deed],
) -> Result<(usize, u64, u64, u8), DeskFault>
    requires { AreDesks desks }
{
    let sealed = acted(rt, alloc, TWO_ELECTORS, desks, deeds, usize::from(desks))?;
    let counts = counts_of(&sealed);
    drop(sealed);
    Ok(counts)
}

#[test]
fn a_missing_desk_is_told(rt: HostRuntime) {
    let gathered = acted(&rt, rt.alloc(), TWO_ELECTORS, 2, &[], 1);
    assert_same(&rt, gathered.err(), Some(DeskFault::MissingDesk));
}

const REFUSED_CASTS: [Deed; 7] = [
    Deed::Stranger(0, 1),
    Deed::Cast(0, 1, ANN, Ok(Reply::Counted)),
    Deed::Cast(0, 1, ANN, Err(EnterFault::StampUsed)),
    Deed::Cast(0, 0, ANN, Err(EnterFault::StampRange)),
    Deed::Cast(0, 3, ANN, Err(EnterFault::StampRange)),
    Deed::Cast(0, 2, BOB, Ok(Reply::Counted)),
    Deed::Cast(0, 2, BOB, Err(EnterFault::SheetFull)),
];

#[test]
fn refused_casts_change_nothing(rt: HostRuntime) -> Result<(), Fail> {
    let counts = counts_after(&rt, rt.alloc(), 1, &REFUSED_CASTS)?;
    assert_same(&rt, counts, (3, 2, 0, 1));
    Ok(())
}

const ANNS: Option<[u8; 3]> = Some([1, 2, 3]);

const BOBS: Option<[u8; 3]> = Some([2, 1, 3]);

const CLOSED: [Deed; 9] = [
    Deed::Standing(2, Err(NoVoter)),
    Deed::Standing(0, Ok(None)),
    Deed::Cast(0, 1, ANN, Ok(Reply::Counted)),
    Deed::Standing(0, Ok(ANNS)),
    Deed::Close(Ok(())),
    Deed::Close(Err(AlreadyClosed)),
    Deed::Cast(0, 2, BOB, Ok(Reply::BoxClosed)),
    Deed::Standing(0, Ok(ANNS)),
    Deed::Standing(1, Ok(None)),
];

/// Does the deeds of `CLOSED` at this many desks, and asserts the counts of the box.
fn assert_closed<R: Wait + Abort>(rt: &R, alloc: Global, desks: u8) -> Result<(), DeskFault>
    requires { AreDesks desks }
{
    let counts = counts_after(rt, alloc, desks, &CLOSED)?;
    assert_same(rt, counts, (3, 1, 1, desks));
    Ok(())
}

#[test]
fn a_closed_box_refuses(rt: HostRuntime) -> Result<(), Fail> {
    assert_closed(&rt, rt.alloc(), 1)?;
    assert_closed(&rt, rt.alloc(), 2)?;
    assert_closed(&rt, rt.alloc(), MAX_DESKS)?;
    Ok(())
}

const CLOSED_EMPTY: [Deed; 4] = [
    Deed::Close(Ok(())),
    Deed::Close(Err(AlreadyClosed)),
    Deed::Cast(0, 1, ANN, Ok(Reply::BoxClosed)),
    Deed::Standing(0, Ok(None)),
];

#[test]
fn an_empty_box_is_closed(rt: HostRuntime) -> Result<(), Fail> {
    let counts = counts_after(&rt, rt.alloc(), 1, &CLOSED_EMPTY)?;
    assert_same(&rt, counts, (2, 0, 1, 1));
    Ok(())
}

const STANDING: [Deed; 6] = [
    Deed::Cast(1, 2, BOB, Ok(Reply::Counted)),
    Deed::Standing(1, Ok(BOBS)),
    Deed::Standing(0, Ok(None)),
    Deed::Cast(0, 1, ANN, Ok(Reply::Counted)),
    Deed::Standing(0, Ok(ANNS)),
    Deed::Standing(1, Ok(BOBS)),
];

#[test]
fn each_voter_has_the_own_ballot(rt: HostRuntime) -> Result<(), Fail> {
    let counts = counts_after(&rt, rt.alloc(), 2, &STANDING)?;
    assert_same(&rt, counts, (3, 2, 0, 2));
    Ok(())
}

const BOTH: [Deed; 2] = [
    Deed::Cast(0, 2, BOB, Ok(Reply::Counted)),
    Deed::Cast(0, 1, ANN, Ok(Reply::Counted)),
];

const ONE: [Deed; 1] = [Deed::Cast(0, 1, ANN, Ok(Reply::Counted))];

const MISTAKEN: [Deed; 2] = [
    Deed::Cast(0, 1, BOB, Ok(Reply::Counted)),
    Deed::Cast(0, 2, BOB, Ok(Reply::Replaced)),
];

const CLOSED_BETWEEN: [Deed; 3] = [
    Deed::Cast(0, 1, ANN, Ok(Reply::Counted)),
    Deed::Close(Ok(())),
    Deed::Cast(0, 2, BOB, Ok(Reply::BoxClosed)),
];

const LATE: [Deed; 2] = [
    Deed::Cast(0, 2, BOB, Ok(Reply::Late)),
    Deed::Cast(0, 1, ANN, Ok(Reply::Counted)),
];

/// The audit's fault in a sealed box by itself, without the slips of its desks.
fn found_without_slips<R: Threads + Abort + Sync>(
    rt: &R,
    poll: &Poll,
    lines: &Lines<'_>,
    sealed: &Sealed,
) -> Option<AuditFault> {
    let ballot_box = sealed.ballot_box();
    assert!(rt; !ballot_box.is_open());
    compare(rt, poll, lines, ballot_box, &[]).err()
}

/// The audit's fault in a sealed box with the slips of its desks.
fn found_with_slips<R: Threads + Sync>(
    rt: &R,
    poll: &Poll,
    lines: &Lines<'_>,
    sealed: Sealed,
) -> Option<AuditFault> {
    audit(rt, poll, lines, sealed).err()
}

/// The audit's faults in a sealed box with the slips of its desks and without them.
fn found_in<R: Threads + Abort + Sync>(
    rt: &R,
    poll: &Poll,
    lines: &Lines<'_>,
    sealed: Sealed,
) -> (Option<AuditFault>, Option<AuditFault>) {
    let without = found_without_slips(rt, poll, lines, &sealed);
    (found_with_slips(rt, poll, lines, sealed), without)
}

/// Does the deeds at one desk of a box for the poll in a text, and returns the audit's faults for a poll and its lines.
fn found_for<R: Threads + Wait + Abort + Sync>(
    rt: &R,
    alloc: Global,
    opened: &str,
    deeds: &[Deed],
    poll: &Poll,
    lines: &Lines<'_>,
) -> Result<(Option<AuditFault>, Option<AuditFault>), DeskFault> {
    let sealed = acted(rt, alloc, opened, 1, deeds, 1)?;
    Ok(found_in(rt, poll, lines, sealed))
}

/// The same for a poll and `TWO_LINES`.
fn found_by<R: Threads + Wait + Abort + Sync>(
    rt: &R,
    alloc: Global,
    opened: &str,
    deeds: &[Deed],
    poll: &Poll,
) -> Result<(Option<AuditFault>, Option<AuditFault>), DeskFault> {
    let lines = lines_of(rt, alloc, TWO_LINES)?;
    let found = found_for(rt, alloc, opened, deeds, poll, &lines);
    drop(lines);
    found
}

/// Does the deeds at one desk of a box for a poll, and returns the audit's faults for another poll and two lines, with the slips of
/// the desk and without them.
fn found_after<R: Threads + Wait + Abort + Sync>(
    rt: &R,
    alloc: Global,
    opened: &str,
    deeds: &[Deed],
    poll: &str,
) -> Result<(Option<AuditFault>, Option<AuditFault>), DeskFault> {
    let poll = poll_of(rt, alloc, poll)?;
    let found = found_by(rt, alloc, opened, deeds, &poll);
    drop(poll);
    found
}

const SIZE: Option<AuditFault> = Some(AuditFault::SizeDiffers);

const COUNT: Option<AuditFault> = Some(AuditFault::CountDiffers);

const STEP: Option<AuditFault> = Some(AuditFault::StepDiffers(1));

const SLIP: Option<AuditFault> = Some(AuditFault::SlipDiffers(1, 1));

const CLOSE: Option<AuditFault> = Some(AuditFault::ClosedEarly(2));

/// The poll of a box, what is done at it, the poll that it is audited for, and the audit's faults with the slips and without them.
const AUDITS: &[(&str, &[Deed], &str, Option<AuditFault>, Option<AuditFault>)] = &[
    (TWO_ELECTORS, &BOTH, TWO_ELECTORS, None, SLIP),
    (FIRST_IS_LAST, &LATE, FIRST_IS_LAST, None, SLIP),
    (TWO_ELECTORS, &BOTH, FIRST_IS_LAST, SIZE, SIZE),
    (TWO_ELECTORS, &ONE, TWO_ELECTORS, COUNT, COUNT),
    (TWO_ELECTORS, &MISTAKEN, TWO_ELECTORS, STEP, STEP),
    (TWO_ELECTORS, &CLOSED_BETWEEN, TWO_ELECTORS, CLOSE, SLIP),
];

#[test]
fn audits_find_what_differs(rt: HostRuntime) -> Result<(), Fail> {
    for audit in AUDITS {
        let (opened, deeds, poll, with, without) = *audit;
        let found = found_after(&rt, rt.alloc(), opened, deeds, poll)?;
        assert_same(&rt, found, (with, without));
    }
    Ok(())
}

/// Casts ann's ballot fifty times at a desk, with fifty stamps in order from `first` on.
fn cast_fifty<VL: Tally, RL: Tally, R: Wait + Abort>(
    rt: &R,
    poll: &Poll,
    shared: &SharedBox<VL, RL>,
    desk: &mut Desk<VL, RL>,
    first: u32,
)
    requires { first ≤ 51 }
{
    for before in 0..50u32 {
        let reading = read_line(poll, ANN.as_bytes());
        let cast = shared.cast(rt, desk, first + before, reading);
        assert!(rt; cast.is_ok());
    }
}

/// Two desks, each in a thread of its own, cast fifty envelopes each.
fn cast_at_once<VL: Tally + Send + Sync, RL: Tally + Send + Sync, R: Threads + Wait + Abort + Sync>(
    rt: &R,
    poll: &Poll,
    shared: &SharedBox<VL, RL>,
    desks: &mut [Desk<VL, RL>],
) {
    if let [first, second] = desks {
        thread::join(
            rt,
            move || cast_fifty(rt, poll, shared, first, 51),
            move || cast_fifty(rt, poll, shared, second, 1),
        );
    }
}

/// A box at which two desks cast a hundred envelopes at once.
fn act_at_once<VL: Tally + Send + Sync, RL: Tally + Send + Sync, R: Threads + Wait + Abort + Sync>(
    rt: &R,
    alloc: Global,
    poll: &Poll,
    valid: Blank,
    refused: Blank,
) -> Result<Sealed, DeskFault>
    requires valid { (valid.name ≡ VL.name) × (valid.parts ≡ VL.parts) }
    requires valid_desks { (VL.parts ≡ 2) × (VL.desks ≡ 2) }
    requires refused { (refused.name ≡ RL.name) × (refused.parts ≡ RL.parts) }
    requires refused_desks { (RL.parts ≡ 2) × (RL.desks ≡ 2) }
    requires opened { VL.opened ≡ box_of poll.now 100 [] }
{
    let (shared, mut opened) = open_desks::<VL, RL>(alloc, poll, 100, 2, valid, refused)?;
    cast_at_once(rt, poll, &shared, &mut opened);
    gather(alloc, shared, opened)
}

/// The same for the poll of two electors.
fn acted_at_once<R: Threads + Wait + Abort + Sync>(
    rt: &R,
    alloc: Global,
) -> Result<Sealed, DeskFault> {
    let poll = poll_of(rt, alloc, TWO_ELECTORS)?;
    let sealed = act_at_once::<Brand, Brand, R>(rt, alloc, &poll, Blank::new(2), Blank::new(2));
    drop(poll);
    sealed
}

/// The counts of that box.
fn counts_at_once<R: Threads + Wait + Abort + Sync>(
    rt: &R,
    alloc: Global,
) -> Result<(usize, u64, u64, u8), DeskFault> {
    let sealed = acted_at_once(rt, alloc)?;
    let counts = counts_of(&sealed);
    drop(sealed);
    Ok(counts)
}

#[test]
fn two_desks_in_threads(rt: HostRuntime) -> Result<(), Fail> {
    assert_same(&rt, counts_at_once(&rt, rt.alloc())?, (101, 100, 0, 2));
    Ok(())
}

/// Opens two desks of a box for two lines, and returns their numbers.
fn open_two<VL: Tally, RL: Tally>(
    alloc: Global,
    poll: &Poll,
    valid: Blank,
    refused: Blank,
) -> Result<(u8, u8), DeskFault>
    requires valid { (valid.name ≡ VL.name) × (valid.parts ≡ VL.parts) }
    requires valid_desks { (VL.parts ≡ 2) × (VL.desks ≡ 2) }
    requires refused { (refused.name ≡ RL.name) × (refused.parts ≡ RL.parts) }
    requires refused_desks { (RL.parts ≡ 2) × (RL.desks ≡ 2) }
    requires opened { VL.opened ≡ box_of poll.now 2 [] }
{
    let (_, desks) = open_desks::<VL, RL>(alloc, poll, 2, 2, valid, refused)?;
    Ok((desks[0].number(), desks[1].number()))
}

/// The numbers of the two desks of a box for the poll of two electors.
fn numbers_of_two(rt: &impl Abort, alloc: Global) -> Result<(u8, u8), DeskFault> {
    let poll = poll_of(rt, alloc, TWO_ELECTORS)?;
    let numbers = open_two::<Brand, Brand>(alloc, &poll, Blank::new(2), Blank::new(2));
    drop(poll);
    numbers
}

#[test]
fn memory_of_open_desks(rt: HostRuntime) -> Result<(), Fail> {
    let numbers = numbers_of_two(&rt, rt.alloc())?;
    assert_same(&rt, numbers, (1, 2));
    Ok(())
}

const AT_TWO_DESKS: [Deed; 2] = [
    Deed::Cast(0, 2, BOB, Ok(Reply::Counted)),
    Deed::Cast(1, 1, ANN, Ok(Reply::Counted)),
];

#[test]
fn memory_of_gather(rt: HostRuntime) -> Result<(), Fail> {
    let counts = counts_after(&rt, rt.alloc(), 2, &AT_TWO_DESKS)?;
    assert_same(&rt, counts, (3, 2, 0, 2));
    Ok(())
}
