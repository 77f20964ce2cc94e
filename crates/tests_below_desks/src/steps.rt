//! Worked examples. The poll itself reads their lines.
ghost use Rattle.std.specs.Prelude.{◌≡◌, ◌<◌, ◌≤◌};

use crate::same::{assert_same, assert_that};
use std::alloc::{AllocError, Global};
use std::process::Abort;
use std::test::Fail;
use vote_count::{Matrix, recount};
use vote_poll::{LineFault, Lines, LinesFault, MAX_LINES, Poll, PollFault, read_line};
use vote_steps::{AlreadyClosed, BallotBox, Reply, Step, StepFault, Totals, cast_all};

const TWO_ELECTORS: &str =
    "title = \"Two\"\noptions = [\"A\", \"B\"]\nratios = [1, 1]\ndefault = \"None\"\nquorum = 0\nroll = [\"ann\", \"bob\"]\n";

const TEN_ELECTORS: &str =
    "title = \"Ten\"\noptions = [\"A\", \"B\"]\nratios = [1, 1]\ndefault = \"None\"\nquorum = 3\nroll = [\"v0\", \"v1\", \"v2\", \"v3\", \"v4\", \"v5\", \"v6\", \"v7\", \"v8\", \"v9\"]\n";

// The lines of the ten electors. Each elector casts the same line again and again.
const TEN_LINES: [&str; 10] = [
    "v0 2,1,3", "v1 1,2,3", "v2 2,1,3", "v3 1,2,3", "v4 2,1,3", "v5 1,2,3", "v6 2,1,3", "v7 1,2,3",
    "v8 2,1,3", "v9 1,2,3",
];

// The line with this stamp. Each twentieth line is no ballot.
fn line_of(stamp: u32) -> &'static str {
    if stamp % 20 == 0 {
        "bad"
    } else {
        TEN_LINES[stamp as usize % 10]
    }
}

// The stamp that comes in this turn, from 0, in the first, the second or the third order.
fn stamp_at(order: usize, turn: u32) -> u32
    requires { turn < 100 }
{
    match order {
        0 => turn + 1,
        1 => 100 - turn,
        _ if turn < 50 => turn + 51,
        _ => turn - 49,
    }
}

// Casts the envelope with this stamp and this line into a box of the poll's size.
fn cast_line(
    rt: &impl Abort,
    ballot_box: &mut BallotBox,
    poll: &Poll,
    stamp: u32,
    line: &str,
) -> Result<Reply, StepFault> {
    assert_that(rt, poll.options() == ballot_box.options());
    assert_that(rt, poll.electors() == ballot_box.electors());
    ballot_box.cast(1, stamp, read_line(poll, line.as_bytes()))
}

// A call on a box, and the result that it must have.
#[derive(Clone, Copy)]
enum Act<'l> {
    Cast(u32, &'l str, Result<Reply, StepFault>),
    Close(Result<(), AlreadyClosed>),
}

// Makes one of these calls, and asserts its result.
fn play_one(rt: &impl Abort, ballot_box: &mut BallotBox, poll: &Poll, act: Act<'_>) {
    match act {
        Act::Cast(stamp, line, answer) => {
            let found = cast_line(rt, ballot_box, poll, stamp, line);
            assert_same(rt, (stamp, found), (stamp, answer));
        }
        Act::Close(answer) => {
            let closed = ballot_box.close();
            assert_same(rt, (closed, ballot_box.is_open()), (answer, false));
        }
    }
}

// Makes the calls of a list, and asserts each result.
fn play(rt: &impl Abort, ballot_box: &mut BallotBox, poll: &Poll, acts: &[Act<'_>]) {
    for act in acts {
        play_one(rt, ballot_box, poll, *act);
    }
}

// The votes of one of three options over each option.
fn row(matrix: &Matrix, a: u8) -> [u32; 3]
    requires three { matrix.now.options ≡ 3 }
    requires option { (1 ≤ a) × (a ≤ 3) }
{
    [matrix.votes(a, 1), matrix.votes(a, 2), matrix.votes(a, 3)]
}

// The votes of each of three options over each option.
fn table(rt: &impl Abort, matrix: &Matrix) -> [[u32; 3]; 3] {
    assert_that(rt, matrix.options() == 3);
    [row(matrix, 1), row(matrix, 2), row(matrix, 3)]
}

// Asserts the totals (valid, refused and voters) and the votes of each option over each option.
fn look(rt: &impl Abort, ballot_box: &BallotBox, totals: [u64; 3], votes: [[u32; 3]; 3]) {
    let [valid, refused, voters] = totals;
    let totals = Totals {
        valid,
        refused,
        voters,
    };
    assert_same(rt, ballot_box.totals(), totals);
    assert_same(rt, table(rt, &ballot_box.matrix()), votes);
}

// The matrix of a recount of the ballots that stand.
fn recounted(alloc: Global, ballot_box: &BallotBox) -> Result<Matrix, AllocError> {
    let mut ballots = Vec::new(alloc);
    for voter in 0..ballot_box.electors() {
        ballots.push(ballot_box.standing(voter))?;
    }
    Ok(recount(ballot_box.options(), &ballots))
}

// Asserts that the matrix of a box is that of a recount.
fn assert_recounted(
    rt: &impl Abort,
    alloc: Global,
    ballot_box: &BallotBox,
    order: usize,
    stamp: u32,
) -> Result<(), AllocError> {
    let recounted = recounted(alloc, ballot_box)?;
    let votes = table(rt, &recounted);
    let found = table(rt, &ballot_box.matrix());
    assert_same(rt, (order, stamp, found), (order, stamp, votes));
    Ok(())
}

// Casts a hundred envelopes in one of the orders, and asserts the matrix after each.
fn cast_hundred(
    rt: &impl Abort,
    alloc: Global,
    ballot_box: &mut BallotBox,
    poll: &Poll,
    order: usize,
) -> Result<(), AllocError> {
    for turn in 0..100 {
        let stamp = stamp_at(order, turn);
        let answer = cast_line(rt, ballot_box, poll, stamp, line_of(stamp));
        assert_same(rt, answer.is_ok(), true);
        assert_recounted(rt, alloc, ballot_box, order, stamp)?;
    }
    Ok(())
}

// Makes the calls of a list, asserts the totals and the votes, and returns the number of steps.
fn play_to(
    rt: &impl Abort,
    ballot_box: &mut BallotBox,
    poll: &Poll,
    acts: &[Act<'_>],
    totals: [u64; 3],
    votes: [[u32; 3]; 3],
) -> usize {
    play(rt, ballot_box, poll, acts);
    look(rt, ballot_box, totals, votes);
    ballot_box.steps().len()
}

// Whether a step is a cast with this reply.
fn is_answered(step: &Step, wanted: Reply) -> bool {
    match step {
        Step::Cast { reply, .. } => *reply == wanted,
        Step::Close => false,
    }
}

// The number of casts with this reply.
fn count_of(ballot_box: &BallotBox, wanted: Reply) -> usize {
    let mut number = 0;
    for step in ballot_box.steps() {
        if is_answered(step, wanted) {
            number += 1;
        }
    }
    number
}

// Whether a box has these numbers, and nothing was done to it yet.
fn is_new(ballot_box: &BallotBox, limit: u32, last: u32) -> bool {
    ballot_box.limit() == limit
        && ballot_box.last_in_time() == last
        && ballot_box.is_open()
        && ballot_box.steps().is_empty()
        && ballot_box.standing(0).is_none()
}

// Makes the calls of a list on a new box of the size of the poll of two electors. Asserts the totals and the votes, and returns
// the number of steps.
fn played_by(
    rt: &impl Abort,
    alloc: Global,
    poll: &Poll,
    limit: u32,
    last: u32,
    acts: &[Act<'_>],
    totals: [u64; 3],
    votes: [[u32; 3]; 3],
) -> Result<usize, AllocError>
    requires { (limit ≤ MAX_LINES) × (last ≤ MAX_LINES) }
{
    let mut ballot_box = BallotBox::new(alloc, 3, 2, limit, last)?;
    assert_same(rt, is_new(&ballot_box, limit, last), true);
    let steps = play_to(rt, &mut ballot_box, poll, acts, totals, votes);
    drop(ballot_box);
    Ok(steps)
}

// Makes the calls of a list on a new box of two electors. It has the stamps 1 to `limit`, and those above `last` are late.
// Asserts the totals and the votes, and returns the number of steps.
fn played(
    rt: &impl Abort,
    alloc: Global,
    limit: u32,
    last: u32,
    acts: &[Act<'_>],
    totals: [u64; 3],
    votes: [[u32; 3]; 3],
) -> Result<usize, AllocError>
    requires { (limit ≤ MAX_LINES) × (last ≤ MAX_LINES) }
{
    let poll = poll_of(rt, alloc, TWO_ELECTORS)?;
    let steps = played_by(rt, alloc, &poll, limit, last, acts, totals, votes);
    drop(poll);
    steps
}

// A recast in two orders.
const RECASTS: &[&[Act<'static>]] = &[
    &[
        Act::Cast(1, "ann 1,2,3", Ok(Reply::Counted)),
        Act::Cast(2, "bob 2,1,3", Ok(Reply::Counted)),
        Act::Cast(3, "ann 3,2,1", Ok(Reply::Replaced)),
    ],
    &[
        Act::Cast(3, "ann 3,2,1", Ok(Reply::Counted)),
        Act::Cast(2, "bob 2,1,3", Ok(Reply::Counted)),
        Act::Cast(1, "ann 1,2,3", Ok(Reply::Superseded)),
    ],
];

#[test]
fn a_recast_in_both_orders(rt: HostRuntime) {
    let votes = [[0, 0, 1], [2, 0, 1], [1, 1, 0]];
    for acts in RECASTS {
        let steps = played(&rt, rt.alloc(), 3, 100_000, acts, [3, 0, 2], votes);
        assert_same(&rt, steps, Ok(3));
    }
}

const REFUSALS: &[Act<'static>] = &[
    Act::Cast(0, "ann 1,2,3", Err(StepFault::StampRange)),
    Act::Cast(3, "ann 1,2,3", Err(StepFault::StampRange)),
    Act::Cast(1, "ann 1,2,3", Ok(Reply::Counted)),
    Act::Cast(1, "ann 1,2,3", Err(StepFault::StampUsed)),
    Act::Close(Ok(())),
    Act::Cast(2, "bob 1,2,3", Ok(Reply::BoxClosed)),
    Act::Cast(1, "bob 1,2,3", Err(StepFault::StampUsed)),
    Act::Close(Err(AlreadyClosed)),
];

#[test]
fn refusals_and_replies(rt: HostRuntime) {
    let votes = [[0, 1, 1], [0, 0, 1], [0, 0, 0]];
    let steps = played(&rt, rt.alloc(), 2, 100_000, REFUSALS, [1, 1, 1], votes);
    assert_same(&rt, steps, Ok(3));
}

const LATE: &[Act<'static>] = &[
    Act::Cast(2, "ann 1,2,3", Ok(Reply::Late)),
    Act::Cast(1, "ann 1,2,3", Ok(Reply::Counted)),
    Act::Cast(2, "ann 1,2,3", Err(StepFault::StampUsed)),
    Act::Close(Ok(())),
    Act::Cast(3, "bad", Ok(Reply::BoxClosed)),
];

#[test]
fn late_envelopes(rt: HostRuntime) {
    let votes = [[0, 1, 1], [0, 0, 1], [0, 0, 0]];
    let steps = played(&rt, rt.alloc(), 3, 1, LATE, [1, 2, 1], votes);
    assert_same(&rt, steps, Ok(4));
}

const ALL_LATE: &[Act<'static>] = &[
    Act::Cast(3, "bad", Ok(Reply::Late)),
    Act::Cast(1, "bob 1,2,3", Ok(Reply::Late)),
];

// A late line is late, whatever it says.
#[test]
fn no_envelope_in_time(rt: HostRuntime) {
    let steps = played(&rt, rt.alloc(), 3, 0, ALL_LATE, [0, 2, 0], [[0; 3]; 3]);
    assert_same(&rt, steps, Ok(2));
}

// How often each of these replies came.
fn reply_counts(ballot_box: &BallotBox) -> [usize; 4] {
    [
        count_of(ballot_box, Reply::Counted),
        count_of(ballot_box, Reply::Replaced),
        count_of(ballot_box, Reply::Superseded),
        count_of(ballot_box, Reply::BadLine(LineFault::Shape)),
    ]
}

// Casts a hundred envelopes in one of the orders, asserts the totals and the votes, and returns how often each reply came.
fn replies_by(
    rt: &impl Abort,
    alloc: Global,
    ballot_box: &mut BallotBox,
    poll: &Poll,
    order: usize,
) -> Result<[usize; 4], AllocError> {
    cast_hundred(rt, alloc, ballot_box, poll, order)?;
    let votes = [[0, 5, 10], [5, 0, 10], [0, 0, 0]];
    look(rt, ballot_box, [95, 5, 10], votes);
    Ok(reply_counts(ballot_box))
}

// The same, with a new box of the size of the poll of ten electors.
fn replies_to_hundred(
    rt: &impl Abort,
    alloc: Global,
    poll: &Poll,
    order: usize,
) -> Result<[usize; 4], AllocError> {
    let mut ballot_box = BallotBox::new(alloc, 3, 10, 100, 100_000)?;
    let replies = replies_by(rt, alloc, &mut ballot_box, poll, order);
    drop(ballot_box);
    replies
}

// The orders, and how often each reply comes in them.
const ORDERS: &[(usize, [usize; 4])] = &[
    (0, [10, 85, 0, 5]),
    (1, [10, 0, 85, 5]),
    (2, [10, 37, 48, 5]),
];

// Asserts how often each reply comes in each order.
fn assert_orders(rt: &impl Abort, alloc: Global, poll: &Poll) {
    for line in ORDERS {
        let (order, counts) = *line;
        assert_same(rt, replies_to_hundred(rt, alloc, poll, order), Ok(counts));
    }
}

#[test]
fn a_hundred_envelopes_in_three_orders(rt: HostRuntime) -> Result<(), Fail> {
    let poll = poll_of(&rt, rt.alloc(), TEN_ELECTORS)?;
    assert_orders(&rt, rt.alloc(), &poll);
    drop(poll);
    Ok(())
}

// The poll of a text. It can fail only because memory is refused.
fn poll_of(rt: &impl Abort, alloc: Global, text: &str) -> Result<Poll, AllocError> {
    match Poll::from_text(alloc, text.as_bytes()) {
        Ok(poll) => Ok(poll),
        Err(fault) => {
            assert_same(rt, fault, PollFault::Memory);
            Err(AllocError)
        }
    }
}

// An envelope with each of three stamps, and the close.
const THREE: &[Act<'static>] = &[
    Act::Cast(1, "ann 1,2,3", Ok(Reply::Counted)),
    Act::Cast(2, "bob 2,1,3", Ok(Reply::Counted)),
    Act::Cast(3, "ann 3,2,1", Ok(Reply::Replaced)),
    Act::Close(Ok(())),
];

// A whole box is made, with room for a step with each stamp and for the close, or the call reports that memory was refused.
#[test]
fn memory_of_new(rt: HostRuntime) -> Result<(), Fail> {
    let votes = [[0, 0, 1], [2, 0, 1], [1, 1, 0]];
    match played(&rt, rt.alloc(), 3, 99_999, THREE, [3, 0, 2], votes) {
        Ok(steps) => {
            assert_same(&rt, steps, 4);
            Ok(())
        }
        Err(AllocError) => Err(Fail::from("refused")),
    }
}

// The lines of a ballot file. The call can fail only because memory is refused.
fn lines_of<'a>(rt: &impl Abort, alloc: Global, text: &'a str) -> Result<Lines<'a>, AllocError> {
    match Lines::split(alloc, text.as_bytes()) {
        Ok(lines) => Ok(lines),
        Err(fault) => {
            assert_same(rt, fault, LinesFault::Memory);
            Err(AllocError)
        }
    }
}

// The box after one desk cast the lines of a text by this poll.
fn all_cast_by(
    rt: &impl Abort,
    alloc: Global,
    poll: &Poll,
    text: &str,
) -> Result<BallotBox, AllocError> {
    let lines = lines_of(rt, alloc, text)?;
    cast_all(alloc, poll, &lines)
}

// The box after one desk cast the lines of a text, by the poll of two electors.
fn all_cast(rt: &impl Abort, alloc: Global, text: &str) -> Result<BallotBox, AllocError> {
    let poll = poll_of(rt, alloc, TWO_ELECTORS)?;
    let ballot_box = all_cast_by(rt, alloc, &poll, text);
    drop(poll);
    ballot_box
}

// Asserts the contents of a closed box after a vote of each elector and a recast.
fn assert_three_cast(rt: &impl Abort, ballot_box: &BallotBox) {
    let votes = [[0, 0, 1], [2, 0, 1], [1, 1, 0]];
    look(rt, ballot_box, [3, 0, 2], votes);
    let replaced = count_of(ballot_box, Reply::Replaced);
    assert_same(rt, (replaced, ballot_box.is_open()), (1, false));
}

// One desk casts all lines in their order and closes the box, or the call reports that memory was refused.
#[test]
fn memory_of_cast_all(rt: HostRuntime) -> Result<(), Fail> {
    match all_cast(&rt, rt.alloc(), "ann 1,2,3\nbob 2,1,3\nann 3,2,1\n") {
        Ok(ballot_box) => {
            assert_three_cast(&rt, &ballot_box);
            drop(ballot_box);
            Ok(())
        }
        Err(AllocError) => Err(Fail::from("refused")),
    }
}
