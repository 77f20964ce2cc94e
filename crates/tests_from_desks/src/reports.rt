//! What `report` prints about a run: the line and the status of each fault, and nothing about a run that came to its end.

use crate::inputs::assert_same;
use std::alloc::{AllocError, Global};
use std::test::Fail;
use vote_commands::{Ended, InputFault, InputFile, RunFault};
use vote_desks::{AuditFault, DeskFault, EnterFault, VoteFault};
use vote_files::WriterSink;
use vote_poll::{PollFault, PollKey};
use vote_program::report;

/// What is printed about a run on a standard error that keeps it, and the status.
fn told(alloc: Global, outcome: Result<Ended, RunFault>) -> Result<(Vec<u8>, u8), AllocError> {
    let heard = Vec::with_capacity(alloc, 128)?;
    let mut errors = WriterSink::new(heard);
    let status = report(&mut errors, &outcome);
    Ok((errors.into_writer(), status))
}

/// Whether exactly this line is printed about a run, or nothing if there is no line; and the status.
fn reported(
    alloc: Global,
    outcome: Result<Ended, RunFault>,
    line: Option<&str>,
) -> Result<(bool, u8), AllocError> {
    let (heard, status) = told(alloc, outcome)?;
    let is_told = match line {
        None => heard.is_empty(),
        Some(line) => heard.as_slice().strip_suffix(b"\n") == Some(line.as_bytes()),
    };
    Ok((is_told, status))
}

/// Each fault of a run, its line and its status.
const FAULTS: &[(RunFault, &str, u8)] = &[
    (
        RunFault::Input(InputFile::Poll, InputFault::Unreadable),
        "debvote: poll unreadable",
        3,
    ),
    (
        RunFault::Input(InputFile::Poll, InputFault::TooLong),
        "debvote: poll too long",
        3,
    ),
    (
        RunFault::Input(InputFile::Ballots, InputFault::Unreadable),
        "debvote: ballots unreadable",
        4,
    ),
    (
        RunFault::Input(InputFile::Ballots, InputFault::TooLong),
        "debvote: ballots too long",
        4,
    ),
    (
        RunFault::Input(InputFile::Sheet, InputFault::Unreadable),
        "debvote: sheet unreadable",
        10,
    ),
    (
        RunFault::Input(InputFile::Sheet, InputFault::TooLong),
        "debvote: sheet too long",
        10,
    ),
    (
        RunFault::Poll(PollFault::Syntax),
        "debvote: poll refused: syntax",
        3,
    ),
    (
        RunFault::Poll(PollFault::Key(PollKey::Title)),
        "debvote: poll refused: key title",
        3,
    ),
    (
        RunFault::Poll(PollFault::Key(PollKey::Options)),
        "debvote: poll refused: key options",
        3,
    ),
    (
        RunFault::Poll(PollFault::Key(PollKey::Ratios)),
        "debvote: poll refused: key ratios",
        3,
    ),
    (
        RunFault::Poll(PollFault::Key(PollKey::DefaultOption)),
        "debvote: poll refused: key default",
        3,
    ),
    (
        RunFault::Poll(PollFault::Key(PollKey::Quorum)),
        "debvote: poll refused: key quorum",
        3,
    ),
    (
        RunFault::Poll(PollFault::Key(PollKey::Roll)),
        "debvote: poll refused: key roll",
        3,
    ),
    (
        RunFault::Poll(PollFault::Key(PollKey::LastEnvelope)),
        "debvote: poll refused: key last_envelope",
        3,
    ),
    (
        RunFault::Poll(PollFault::Key(PollKey::Wording)),
        "debvote: poll refused: key wording",
        3,
    ),
    (
        RunFault::Poll(PollFault::Title),
        "debvote: poll refused: title",
        3,
    ),
    (
        RunFault::Poll(PollFault::OptionCount),
        "debvote: poll refused: number of options",
        3,
    ),
    (
        RunFault::Poll(PollFault::OptionName(2)),
        "debvote: poll refused: name of option 2",
        3,
    ),
    (
        RunFault::Poll(PollFault::Ratio),
        "debvote: poll refused: ratios",
        3,
    ),
    (
        RunFault::Poll(PollFault::Quorum),
        "debvote: poll refused: quorum",
        3,
    ),
    (
        RunFault::Poll(PollFault::RollSize),
        "debvote: poll refused: size of roll",
        3,
    ),
    (
        RunFault::Poll(PollFault::VoterName(0)),
        "debvote: poll refused: voter at position 0",
        3,
    ),
    (
        RunFault::Poll(PollFault::LastEnvelope),
        "debvote: poll refused: last envelope",
        3,
    ),
    (
        RunFault::Poll(PollFault::Wording),
        "debvote: poll refused: wording",
        3,
    ),
    (
        RunFault::Poll(PollFault::Memory),
        "debvote: out of memory",
        5,
    ),
    (
        RunFault::NoSuchOption,
        "debvote: casting option is not in the poll",
        8,
    ),
    (
        RunFault::TooManyLines,
        "debvote: ballots refused: too many lines",
        4,
    ),
    (
        RunFault::Vote(VoteFault::Memory),
        "debvote: out of memory",
        5,
    ),
    (
        RunFault::Vote(VoteFault::Thread),
        "debvote: a desk could not be started",
        5,
    ),
    (
        RunFault::Vote(VoteFault::Gate(1)),
        "debvote: desk 1 stopped at its gate",
        6,
    ),
    (
        RunFault::Vote(VoteFault::Gate(8)),
        "debvote: desk 8 stopped at its gate",
        6,
    ),
    (
        RunFault::Vote(VoteFault::Enter(2, EnterFault::StampUsed)),
        "debvote: desk 2 was refused by the box",
        6,
    ),
    (
        RunFault::Vote(VoteFault::Desk(DeskFault::MissingDesk)),
        "debvote: the desks could not be gathered",
        6,
    ),
    (
        RunFault::Vote(VoteFault::Desk(DeskFault::Memory)),
        "debvote: out of memory",
        5,
    ),
    (
        RunFault::Vote(VoteFault::Audit(AuditFault::SizeDiffers)),
        "debvote: audit failed",
        6,
    ),
    (
        RunFault::Vote(VoteFault::Audit(AuditFault::CountDiffers)),
        "debvote: audit failed",
        6,
    ),
    (
        RunFault::Vote(VoteFault::Audit(AuditFault::StepDiffers(1))),
        "debvote: audit failed",
        6,
    ),
    (
        RunFault::Vote(VoteFault::Audit(AuditFault::SlipDiffers(1, 1))),
        "debvote: audit failed",
        6,
    ),
    (
        RunFault::Vote(VoteFault::Audit(AuditFault::ClosedEarly(1))),
        "debvote: audit failed",
        6,
    ),
    (RunFault::Memory, "debvote: out of memory", 5),
    (RunFault::Output, "debvote: output failed", 7),
];

#[test]
fn each_fault_has_its_line(rt: HostRuntime) -> Result<(), Fail> {
    for row in FAULTS {
        let (fault, line, status) = *row;
        let found = reported(rt.alloc(), Err(fault), Some(line))?;
        assert_same(&rt, (fault, found), (fault, (true, status)));
    }
    Ok(())
}

/// The ways in which a run comes to its end, and their statuses.
const ENDS: &[(Ended, u8)] = &[
    (Ended::Decided(1), 0),
    (Ended::Tie, 1),
    (Ended::CastingOutside(1), 8),
    (Ended::Done, 0),
    (Ended::PollRefused, 3),
    (Ended::Found, 9),
    (Ended::Differs, 9),
];

#[test]
fn a_run_that_came_to_its_end_has_no_line(rt: HostRuntime) -> Result<(), Fail> {
    for row in ENDS {
        let (end, status) = *row;
        let found = reported(rt.alloc(), Ok(end), None)?;
        assert_same(&rt, (end, found), (end, (true, status)));
    }
    Ok(())
}
