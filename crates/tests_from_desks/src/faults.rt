//! Exit statuses, and the words of fault lines as the program prints them.

use crate::inputs::assert_same;
use std::alloc::{AllocError, Global};
use std::test::Fail;
use vote_commands::{Ended, InputFault, InputFile, RunFault, status};
use vote_desks::{AuditFault, DeskFault, EnterFault, VoteFault};
use vote_poll::{PollFault, PollKey};

/// The ways in which runs end, and their exit statuses.
const STATUSES: &[(Result<Ended, RunFault>, u8)] = &[
    (Ok(Ended::Decided(1)), 0),
    (Ok(Ended::Tie), 1),
    (Ok(Ended::CastingOutside(4)), 8),
    (Ok(Ended::Done), 0),
    (Ok(Ended::PollRefused), 3),
    (Ok(Ended::Found), 9),
    (Ok(Ended::Differs), 9),
    (
        Err(RunFault::Input(InputFile::Poll, InputFault::Unreadable)),
        3,
    ),
    (
        Err(RunFault::Input(InputFile::Poll, InputFault::TooLong)),
        3,
    ),
    (
        Err(RunFault::Input(InputFile::Ballots, InputFault::Unreadable)),
        4,
    ),
    (
        Err(RunFault::Input(InputFile::Ballots, InputFault::TooLong)),
        4,
    ),
    (
        Err(RunFault::Input(InputFile::Sheet, InputFault::Unreadable)),
        10,
    ),
    (
        Err(RunFault::Input(InputFile::Sheet, InputFault::TooLong)),
        10,
    ),
    (Err(RunFault::Poll(PollFault::Title)), 3),
    (Err(RunFault::Poll(PollFault::Memory)), 5),
    (Err(RunFault::NoSuchOption), 8),
    (Err(RunFault::TooManyLines), 4),
    (Err(RunFault::Vote(VoteFault::Thread)), 5),
    (Err(RunFault::Vote(VoteFault::Desk(DeskFault::Memory))), 5),
    (Err(RunFault::Vote(VoteFault::Gate(1))), 6),
    (
        Err(RunFault::Vote(VoteFault::Audit(AuditFault::CountDiffers))),
        6,
    ),
    (Err(RunFault::Memory), 5),
    (Err(RunFault::Output), 7),
];

#[test]
fn statuses_of_runs(rt: HostRuntime) {
    for line in STATUSES {
        let (outcome, number) = *line;
        assert_same(&rt, (outcome, status(&outcome)), (outcome, number));
    }
}

fn reads_as(alloc: Global, fault: RunFault, words: &str) -> Result<bool, AllocError> {
    let text = fault.to_string(alloc)?;
    Ok(text.as_str() == words)
}

/// Faults, and the words of their lines.
const FAULT_LINES: &[(RunFault, &str)] = &[
    (
        RunFault::Input(InputFile::Poll, InputFault::Unreadable),
        "poll unreadable",
    ),
    (
        RunFault::Input(InputFile::Poll, InputFault::TooLong),
        "poll too long",
    ),
    (
        RunFault::Input(InputFile::Ballots, InputFault::Unreadable),
        "ballots unreadable",
    ),
    (
        RunFault::Input(InputFile::Ballots, InputFault::TooLong),
        "ballots too long",
    ),
    (
        RunFault::Input(InputFile::Sheet, InputFault::Unreadable),
        "sheet unreadable",
    ),
    (
        RunFault::Input(InputFile::Sheet, InputFault::TooLong),
        "sheet too long",
    ),
    (
        RunFault::Poll(PollFault::Key(PollKey::DefaultOption)),
        "poll refused: key default",
    ),
    (
        RunFault::Poll(PollFault::OptionName(3)),
        "poll refused: name of option 3",
    ),
    (
        RunFault::Poll(PollFault::Key(PollKey::LastEnvelope)),
        "poll refused: key last_envelope",
    ),
    (
        RunFault::Poll(PollFault::LastEnvelope),
        "poll refused: last envelope",
    ),
    (
        RunFault::Poll(PollFault::Key(PollKey::Wording)),
        "poll refused: key wording",
    ),
    (RunFault::Poll(PollFault::Wording), "poll refused: wording"),
    (RunFault::Poll(PollFault::Memory), "out of memory"),
    (RunFault::TooManyLines, "ballots refused: too many lines"),
    (RunFault::NoSuchOption, "casting option is not in the poll"),
    (RunFault::Vote(VoteFault::Memory), "out of memory"),
    (
        RunFault::Vote(VoteFault::Thread),
        "a desk could not be started",
    ),
    (
        RunFault::Vote(VoteFault::Gate(2)),
        "desk 2 stopped at its gate",
    ),
    (
        RunFault::Vote(VoteFault::Enter(3, EnterFault::StampUsed)),
        "desk 3 was refused by the box",
    ),
    (
        RunFault::Vote(VoteFault::Desk(DeskFault::MissingDesk)),
        "the desks could not be gathered",
    ),
    (
        RunFault::Vote(VoteFault::Audit(AuditFault::StepDiffers(1))),
        "audit failed",
    ),
    (RunFault::Memory, "out of memory"),
    (RunFault::Output, "output failed"),
];

#[test]
fn fault_lines(rt: HostRuntime) -> Result<(), Fail> {
    for line in FAULT_LINES {
        let (fault, words) = *line;
        assert_same(
            &rt,
            (fault, reads_as(rt.alloc(), fault, words)?),
            (fault, true),
        );
    }
    Ok(())
}
