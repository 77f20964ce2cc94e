//! What no clause says: that runs succeed.
//!
//! Also writers that fail, gates that stop a desk, and memory and threads that may be refused.
//!
//! Each test `memory_of_perform_..` and `threads_of_perform_..` has `perform` do one request, on a writer with room. The
//! test passes if the call gave its whole right answer. If the call reported that memory or a thread was refused, and nothing was
//! written, the test fails with `refused` or `refused a thread`. So whoever runs it with one growth or one start after another
//! refused sees whether there is any other answer.

ghost use Rattle.vote_request.specs.Requests.{DesksFit};
ghost use Rattle.vote_steps.specs.Desks.{AreDesks};
ghost use Rattle.vote_commands.specs.TakingVotes.{AreVotesTaken};

use crate::inputs::{BALLOTS, CYCLE, SHEET, assert_same, lines_of, poll_of};
use std::alloc::{AllocError, Global};
use std::io::{self, ErrorKind, Write};
use std::process::Abort;
use std::sync::Wait;
use std::test::Fail;
use std::thread::Threads;
use vote_commands::{
    Ended, FinishedRun, LoadedRequest, RunFault, perform, print_steps, run, sheet, split_joined,
    status, steps_joined,
};
use vote_desks::{Audited, Gate, NoGate, Slip, VoteFault, take_votes};
use vote_files::WriterSink;
use vote_poll::{Lines, Poll};
use vote_request::{Listing, Purpose, Request};

/// A writer in memory. It takes `at_once` bytes at a time, fails once it holds `limit` bytes, and counts its flushes.
#[derive(Drop)]
struct Paper {
    written: Vec<u8>,
    at_once: usize,
    limit: usize,
    can_flush: bool,
    flushes: u32,
    /// Whether it was flushed after the last write.
    is_flushed: bool,
}

impl Write for Paper {
    fn write(&mut self, text: &[u8]) -> io::Result<usize> {
        self.is_flushed = false;
        let count = text.len().min(self.at_once);
        if self.written.len() >= self.limit
            || self.written.extend_from_slice(&text[..count]).is_err()
        {
            return Err(io::Error::from(ErrorKind::Other));
        }
        Ok(count)
    }

    fn flush(&mut self) -> io::Result<()> {
        if !self.can_flush {
            return Err(io::Error::from(ErrorKind::Other));
        }
        self.flushes = self.flushes.saturating_add(1);
        self.is_flushed = true;
        Ok(())
    }
}

/// A paper that takes everything, with room for each text of these tests.
fn endless(alloc: Global) -> Result<Paper, AllocError> {
    Ok(Paper {
        written: Vec::with_capacity(alloc, 4096)?,
        at_once: usize::MAX,
        limit: usize::MAX,
        can_flush: true,
        flushes: 0,
        is_flushed: false,
    })
}

/// Performs a request on a paper. The votes are taken through a gate.
fn performed_on<G: Gate + Sync, R: Threads + Wait + Sync>(
    rt: &R,
    alloc: Global,
    request: &LoadedRequest<'_>,
    gate: &G,
    paper: Paper,
) -> (Paper, FinishedRun)
    requires { DesksFit request.now }
{
    let take = |poll: &Poll, lines: &Lines<'_>, desks: u8| -> Result<Audited, VoteFault>
        requires { AreDesks desks }
        ensures { AreVotesTaken poll.now lines.now desks result }
    { take_votes(rt, alloc, poll, lines, desks, gate) };
    let mut sink = WriterSink::new(paper);
    let finished = perform::<_, WriterSink<Paper>>(alloc, request, take, &mut sink);
    (sink.into_writer(), finished)
}

/// Counts the cycle at one desk on such a paper. Returns whether a prefix of the sheet is written, how long it is, how often the
/// paper was flushed, whether it was flushed after the last write, and how the count ends.
fn written_of_cycle<R: Threads + Wait + Sync>(
    rt: &R,
    alloc: Global,
    at_once: usize,
    limit: usize,
    can_flush: bool,
) -> Result<(bool, usize, (u32, bool), Result<Ended, RunFault>), AllocError> {
    let mut paper = endless(alloc)?;
    paper.at_once = at_once;
    paper.limit = limit;
    paper.can_flush = can_flush;
    let request = Request::Count {
        poll: CYCLE.as_bytes(),
        ballots: BALLOTS.as_bytes(),
        desks: 1,
        casting: None,
        purpose: Purpose::Sheet,
    };
    let (paper, done) = performed_on(rt, alloc, &request, &NoGate, paper);
    let ended = done.end;
    let is_front = SHEET.as_bytes().starts_with(paper.written.as_slice());
    let flushed = (paper.flushes, paper.is_flushed);
    let len = paper.written.len();
    drop(paper);
    Ok((is_front, len, flushed, ended))
}

const WON: Result<Ended, RunFault> = Ok(Ended::Decided(1));

const OUTPUT: Result<Ended, RunFault> = Err(RunFault::Output);

/// How much a paper takes at once and in all, and whether it can be flushed; then how much of the sheet is written, if not all, the
/// flushes, and how the count ends.
const WRITES: &[(
    usize,
    usize,
    bool,
    Option<usize>,
    (u32, bool),
    Result<Ended, RunFault>,
)] = &[
    (usize::MAX, usize::MAX, true, None, (1, true), WON),
    (1, usize::MAX, true, None, (1, true), WON),
    (10, 10, true, Some(10), (0, false), OUTPUT),
    (0, usize::MAX, true, Some(0), (0, false), OUTPUT),
    (1, usize::MAX, false, None, (0, false), OUTPUT),
];

#[test]
fn a_sheet_is_written_up_to_the_fault_and_flushed_once(rt: HostRuntime) -> Result<(), Fail> {
    for write in WRITES {
        let (at_once, limit, can_flush, len, flushed, end) = *write;
        let found = written_of_cycle(&rt, rt.alloc(), at_once, limit, can_flush)?;
        assert_same(&rt, found, (true, len.unwrap_or(SHEET.len()), flushed, end));
    }
    Ok(())
}

/// One byte per write. Each write in turn is the first that fails.
#[test]
fn any_write_of_a_sheet_may_fail(rt: HostRuntime) -> Result<(), Fail> {
    let output = Err(RunFault::Output);
    for limit in 0..SHEET.len() {
        let found = written_of_cycle(&rt, rt.alloc(), 1, limit, true)?;
        assert_same(&rt, found, (true, limit, (0, false), output));
    }
    Ok(())
}

/// The replies to the ballots of the cycle, and then the replies to the joined input.
const REPLIES: &[u8] =
    b"1 counted\n2 counted\n3 counted\n4 counted\n5 counted\n6 counted\n7 counted\n8 counted\n9 counted\n1 counted\n2 counted\n3 replaced\n";

/// Makes the calls that only callers of the library make, one after another on one paper with room. Returns how the count ends,
/// whether both listings succeed, and whether all their texts are written.
fn calls_on_one_paper<R: Threads + Wait + Sync>(
    rt: &R,
    alloc: Global,
) -> Result<(Result<Ended, RunFault>, bool, bool), AllocError> {
    let mut sink = WriterSink::new(endless(alloc)?);
    let take = |poll: &Poll, lines: &Lines<'_>, desks: u8| -> Result<Audited, VoteFault>
        requires { AreDesks desks }
        ensures { AreVotesTaken poll.now lines.now desks result }
    { take_votes(rt, alloc, poll, lines, desks, &NoGate) };
    let counted = run::<_, WriterSink<Paper>>(
        alloc,
        CYCLE.as_bytes(),
        BALLOTS.as_bytes(),
        2,
        None,
        take,
        &mut sink,
    );
    let end = counted.end;
    let listed = print_steps(alloc, CYCLE.as_bytes(), BALLOTS.as_bytes(), &mut sink).is_ok();
    let joined = steps_joined(alloc, JOINED, &mut sink).is_ok();
    let paper = sink.into_writer();
    let is_text = paper.written.as_slice().strip_prefix(SHEET.as_bytes()) == Some(REPLIES);
    drop(paper);
    Ok((end, listed && joined, is_text))
}

#[test]
fn calls_of_the_library_write_what_jobs_do(rt: HostRuntime) -> Result<(), Fail> {
    let found = calls_on_one_paper::<HostRuntime>(&rt, rt.alloc())?;
    assert_same(&rt, found, (WON, true, true));
    Ok(())
}

/// A gate that stops only at this envelope, or at each envelope if there is none.
#[derive(Clone, Copy)]
struct StopsAt(Option<u32>);

impl Gate for StopsAt {
    fn before(&self, _desk: u8, stamp: u32) -> bool {
        match self.0 {
            Some(one) => stamp != one,
            None => false,
        }
    }

    fn after(&self, _desk: u8, _slip: &Slip) {}
}

/// Performs a request on a paper with room. Returns whether this text is written, how many bytes are written, and how the run ends.
fn performed<G: Gate + Sync, R: Threads + Wait + Sync>(
    rt: &R,
    alloc: Global,
    request: &LoadedRequest<'_>,
    gate: &G,
    text: &str,
) -> Result<(bool, usize, Result<Ended, RunFault>), AllocError>
    requires { DesksFit request.now }
{
    let paper = endless(alloc)?;
    let (paper, done) = performed_on(rt, alloc, request, gate, paper);
    let ended = done.end;
    let is_text = paper.written.as_slice() == text.as_bytes();
    let len = paper.written.len();
    drop(paper);
    Ok((is_text, len, ended))
}

/// How much a count of the cycle writes at this many desks through a gate, and how it ends.
fn ended_through<R: Threads + Wait + Sync>(
    rt: &R,
    alloc: Global,
    gate: StopsAt,
    desks: u8,
) -> Result<(usize, Result<Ended, RunFault>), AllocError>
    requires { AreDesks desks }
{
    let request = Request::Count {
        poll: CYCLE.as_bytes(),
        ballots: BALLOTS.as_bytes(),
        desks,
        casting: None,
        purpose: Purpose::Sheet,
    };
    let (_, len, ended) = performed(rt, alloc, &request, &gate, SHEET)?;
    Ok((len, ended))
}

#[test]
fn a_gate_stops_a_count(rt: HostRuntime) -> Result<(), Fail> {
    let stopped = Err(RunFault::Vote(VoteFault::Gate(1)));
    let one = ended_through(&rt, rt.alloc(), StopsAt(Some(5)), 1)?;
    assert_same(&rt, one, (0, stopped));
    let all = ended_through(&rt, rt.alloc(), StopsAt(None), 8)?;
    assert_same(&rt, all, (0, stopped));
    Ok(())
}

/// The fault for which a request is refused, with nothing written and status 5; `None` if it is performed right.
fn fault_of<R: Threads + Wait + Sync>(
    rt: &R,
    alloc: Global,
    request: &LoadedRequest<'_>,
    text: &str,
    end: Ended,
) -> Result<Option<RunFault>, Fail>
    requires { DesksFit request.now }
{
    let (is_text, len, ended) = performed(rt, alloc, request, &NoGate, text)?;
    match ended {
        Ok(found) if found == end && is_text => Ok(None),
        Err(fault) if len == 0 && status(&ended) == 5 => Ok(Some(fault)),
        _ => Err(Fail::from("another answer")),
    }
}

/// Passes if the request is performed right. Fails with `refused` if memory was refused, and with `refused a thread` if a thread
/// was.
fn walk<R: Threads + Wait + Sync>(
    rt: &R,
    alloc: Global,
    request: &LoadedRequest<'_>,
    text: &str,
    end: Ended,
) -> Result<(), Fail>
    requires { DesksFit request.now }
{
    match fault_of(rt, alloc, request, text, end)? {
        None => Ok(()),
        Some(RunFault::Memory) => Err(Fail::from("refused")),
        Some(RunFault::Vote(VoteFault::Thread)) => Err(Fail::from("refused a thread")),
        Some(_) => Err(Fail::from("another fault")),
    }
}

/// The count of the cycle at two desks.
fn walk_count<R: Threads + Wait + Sync>(rt: &R, alloc: Global) -> Result<(), Fail> {
    let request = Request::Count {
        poll: CYCLE.as_bytes(),
        ballots: BALLOTS.as_bytes(),
        desks: 2,
        casting: None,
        purpose: Purpose::Sheet,
    };
    walk(rt, alloc, &request, SHEET, Ended::Decided(1))
}

#[test]
fn memory_of_perform_count(rt: HostRuntime) -> Result<(), Fail> {
    walk_count(&rt, rt.alloc())
}

#[test]
fn threads_of_perform_count(rt: HostRuntime) -> Result<(), Fail> {
    walk_count(&rt, rt.alloc())
}

#[test]
fn memory_of_perform_steps(rt: HostRuntime) -> Result<(), Fail> {
    let request = Request::List {
        poll: CYCLE.as_bytes(),
        ballots: b"v0 1,2\nv1 1,2,3,4\nv1 4,3,2,1",
        listing: Listing::Steps,
    };
    let replies = "1 bad rank count\n2 counted\n3 replaced\n";
    walk(&rt, rt.alloc(), &request, replies, Ended::Done)
}

#[test]
fn memory_of_perform_standing(rt: HostRuntime) -> Result<(), Fail> {
    let request = Request::List {
        poll: CYCLE.as_bytes(),
        ballots: b"v1 1,2,3,4\nv0 -,2,99,1\nv1 4,3,2,1",
        listing: Listing::Standing,
    };
    let standing = "v0 -,2,99,1\nv1 4,3,2,1\n";
    walk(&rt, rt.alloc(), &request, standing, Ended::Done)
}

/// The comparison of a sheet with the count of the cycle.
fn verify(sheet: &'static [u8]) -> LoadedRequest<'static>
    ensures { DesksFit result }
{
    Request::Count {
        poll: CYCLE.as_bytes(),
        ballots: BALLOTS.as_bytes(),
        desks: 1,
        casting: None,
        purpose: Purpose::Verification(sheet),
    }
}

#[test]
fn memory_of_perform_verify(rt: HostRuntime) -> Result<(), Fail> {
    let words = "differs at line 1\nsheet: A sheet\ncount: Poll: A cycle\n";
    walk(&rt, rt.alloc(), &verify(b"A sheet"), words, Ended::Differs)
}

#[test]
fn memory_of_perform_explain(rt: HostRuntime) -> Result<(), Fail> {
    let request = Request::Explain {
        poll: CYCLE.as_bytes(),
        ballots: Some(b"v0 1,2\nv1 1,2,3,4\r\n"),
        file: Some("my ballots"),
        poll_name: None,
    };
    let findings =
        "the ballot file has carriage returns at the ends of its lines of bad shape, as on Windows: this can be mended with tr -d '\\r' < 'my ballots' > 'my ballots'.new\nballots:1: bad rank count: 2 ranks, the poll has 4 options\n  1 | v0 1,2\n    |    ^^^\nballots:2: bad shape: column 11: carriage return; a ballot has a comma or its end there, or a second digit of the rank\n  2 | v1 1,2,3,4\\x0D\n    |           ^^^^\na ballot line of this poll: `v0 2,3,4,1`: the ranks of 1 A, 2 B, 3 C, 4 None; 1 is the best\n2 lines: 0 valid, 2 refused, 0 of them late; 0 of 9 electors have a ballot; refused lines count for nothing\n";
    walk(&rt, rt.alloc(), &request, findings, Ended::Found)
}

#[test]
fn memory_of_perform_check(rt: HostRuntime) -> Result<(), Fail> {
    let request = Request::Check {
        poll: CYCLE.as_bytes(),
    };
    let sizes = "poll ok: 4 options, 9 electors\n";
    walk(&rt, rt.alloc(), &request, sizes, Ended::Done)
}

/// A poll and its ballots in one input.
const JOINED: &[u8] =
    b"title = \"Two electors\"\noptions = [\"A\", \"B\"]\nratios = [1, 1]\ndefault = \"None\"\nquorum = 0\nroll = [\"ann\", \"bob\"]\n%%\nann 1,2,3\nbob 2,1,3\nann 3,2,1\n";

#[test]
fn memory_of_perform_joined(rt: HostRuntime) -> Result<(), Fail> {
    let (poll, ballots) = split_joined(JOINED);
    let request = Request::List {
        poll,
        ballots,
        listing: Listing::Steps,
    };
    let replies = "1 counted\n2 counted\n3 replaced\n";
    walk(&rt, rt.alloc(), &request, replies, Ended::Done)
}

/// The sheet of a poll and its lines. The votes are taken at two desks.
fn sheet_at_two<R: Threads + Wait + Sync>(
    rt: &R,
    alloc: Global,
    poll: &Poll,
    lines: &Lines<'_>,
) -> Result<String, VoteFault> {
    let audited = take_votes(rt, alloc, poll, lines, 2, &NoGate)?;
    let text = sheet(alloc, poll, lines, &audited, None);
    drop(audited);
    match text {
        Ok(text) => Ok(text),
        Err(AllocError) => Err(VoteFault::Memory),
    }
}

/// The sheet of the nine ballots for a poll.
fn sheet_for<R: Threads + Wait + Abort + Sync>(
    rt: &R,
    alloc: Global,
    poll: &Poll,
) -> Result<String, VoteFault> {
    let lines = lines_of(rt, alloc, BALLOTS)?;
    let text = sheet_at_two(rt, alloc, poll, &lines);
    drop(lines);
    text
}

/// The sheet of the cycle.
fn sheet_of_cycle<R: Threads + Wait + Abort + Sync>(
    rt: &R,
    alloc: Global,
) -> Result<String, VoteFault> {
    let poll = poll_of(rt, alloc, CYCLE)?;
    let text = sheet_for(rt, alloc, &poll);
    drop(poll);
    text
}

#[test]
fn memory_of_sheet(rt: HostRuntime) -> Result<(), Fail> {
    let text = sheet_of_cycle(&rt, rt.alloc())?;
    assert!(rt; text.as_str() == SHEET, "{}", text);
    Ok(())
}
