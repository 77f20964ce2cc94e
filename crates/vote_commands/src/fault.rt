//! How a run ends, and the exit status that says so.

ghost use Rattle.std.specs.Prelude.{◌≡◌, ◌≢◌, ◌↔◌, IsErrOf};
ghost use Rattle.vote_commands.specs.Status.{fault_status, status, unread};

use std::alloc::AllocError;
use std::fmt;
use thiserror::Error;
use vote_audit::VoteFault;
use vote_desks_box::DeskFault;
use vote_files::{DeviceFault, ReadFault};
use vote_poll::{LinesFault, PollFault};

/// How a run ended. Options are numbered from 1, and the default option is the last.
#[derive(Clone, Copy, Debug, PartialEq, Eq)]
pub enum Ended {
    /// A count was decided: this option won, alone or by the casting vote.
    Decided(u8),
    /// Several options are left in a count, and there was no casting vote.
    Tie,
    /// Several options are left in a count, and the casting vote was for this option, which is not among them.
    CastingOutside(u8),
    /// The text of another run was written.
    Done,
    /// All that is wrong with a poll was written, and the poll is refused.
    PollRefused,
    /// What is wrong with ballots, or with keys that are not read, was written. The poll is valid.
    Found,
    /// A published sheet differs from the count, and the difference was written.
    Differs,
}

/// A file that a run reads.
#[derive(Clone, Copy, Debug, PartialEq, Eq)]
pub enum InputFile {
    /// The poll file.
    Poll,
    /// The ballot file, or the joined input.
    Ballots,
    /// The published sheet.
    Sheet,
}

/// Why a file was not read.
#[derive(Clone, Copy, Debug, PartialEq, Eq, Error)]
pub enum InputFault {
    /// The file can't be opened, or its device failed.
    Unreadable,
    /// The file has more bytes than its limit.
    TooLong,
}

/// Why a run did not come to its end: the first of these faults that holds. `Memory` can be returned instead of any later fault.
/// The `Display` of a fault is the program's fault line.
///
/// If memory runs out, the fault is always `Memory`: no run returns a fault of a poll or of votes that says the same.
#[derive(Clone, Copy, Debug, PartialEq, Eq, Error)]
pub enum RunFault {
    /// A file was not read. Nothing was written.
    Input(InputFile, InputFault),
    /// The poll file is refused. Nothing was written.
    Poll(PollFault),
    /// The casting vote names no option of the poll. Nothing was written.
    NoSuchOption,
    /// The ballot file has too many lines. Nothing was written.
    TooManyLines,
    /// The votes were not taken. Nothing was written.
    Vote(VoteFault),
    /// Memory ran out. Nothing was written.
    Memory,
    /// The output failed or took no bytes. What was written is a prefix of the text.
    Output,
}

impl fmt::Display for InputFile {
    ghost use Rattle.std.specs.Prelude.{Some};
    ghost use Rattle.vote_commands.specs.Words.{file_words};

    ghost output = { λ file. Some (file_words file) };

    fn fmt<W: fmt::Write>(&self, f: &mut fmt::Formatter<W>) -> fmt::Result {
        f.write_str(match self {
            InputFile::Poll => "poll",
            InputFile::Ballots => "ballots",
            InputFile::Sheet => "sheet",
        })
    }
}

impl fmt::Display for InputFault {
    ghost use Rattle.std.specs.Prelude.{Some};
    ghost use Rattle.vote_commands.specs.Words.{input_words};

    ghost output = { λ fault. Some (input_words fault) };

    fn fmt<W: fmt::Write>(&self, f: &mut fmt::Formatter<W>) -> fmt::Result {
        f.write_str(match self {
            InputFault::Unreadable => "unreadable",
            InputFault::TooLong => "too long",
        })
    }
}

impl fmt::Display for RunFault {
    ghost use Rattle.std.specs.Prelude.{Some};
    ghost use Rattle.vote_commands.specs.Words.{fault_words};

    ghost output = { λ fault. Some (fault_words fault) };

    fn fmt<W: fmt::Write>(&self, f: &mut fmt::Formatter<W>) -> fmt::Result {
        match self {
            RunFault::Input(file, fault) => write!(f, "{file} {fault}"),
            RunFault::Poll(fault) => fault.fmt(f),
            RunFault::NoSuchOption => f.write_str("casting option is not in the poll"),
            RunFault::TooManyLines => LinesFault::TooMany.fmt(f),
            RunFault::Vote(fault) => fault.fmt(f),
            RunFault::Memory => f.write_str("out of memory"),
            RunFault::Output => f.write_str("output failed"),
        }
    }
}

impl From<DeviceFault> for RunFault {
    ghost use Rattle.std.specs.Prelude.{◌≡◌};
    ghost use Rattle.vote_commands.specs.declared.fault.RunFault.TheVariants.{Output};

    ghost from_gives = { λ _ e. e ≡ Output };

    fn from(_fault: DeviceFault) -> RunFault {
        RunFault::Output
    }
}

impl From<AllocError> for RunFault {
    ghost use Rattle.std.specs.Prelude.{◌≡◌};
    ghost use Rattle.vote_commands.specs.declared.fault.RunFault.TheVariants.{Memory};

    ghost from_gives = { λ _ e. e ≡ Memory };

    fn from(_fault: AllocError) -> RunFault {
        RunFault::Memory
    }
}

impl From<PollFault> for RunFault {
    ghost use Rattle.std.specs.Prelude.{◌≡◌};
    ghost use Rattle.vote_commands.specs.Words.{poll_refused};

    ghost from_gives = { λ fault e. e ≡ poll_refused fault };

    fn from(fault: PollFault) -> RunFault {
        match fault {
            PollFault::Memory => RunFault::Memory,
            _ => RunFault::Poll(fault),
        }
    }
}

impl From<LinesFault> for RunFault {
    ghost use Rattle.std.specs.Prelude.{◌≡◌};
    ghost use Rattle.vote_commands.specs.Words.{lines_refused};

    ghost from_gives = { λ fault e. e ≡ lines_refused fault };

    fn from(fault: LinesFault) -> RunFault {
        match fault {
            LinesFault::Memory => RunFault::Memory,
            LinesFault::TooMany => RunFault::TooManyLines,
        }
    }
}

impl From<VoteFault> for RunFault {
    ghost use Rattle.std.specs.Prelude.{◌≡◌};
    ghost use Rattle.vote_commands.specs.Words.{votes_stopped};

    ghost from_gives = { λ fault e. e ≡ votes_stopped fault };

    fn from(fault: VoteFault) -> RunFault {
        match fault {
            VoteFault::Memory => RunFault::Memory,
            _ => RunFault::Vote(fault),
        }
    }
}

/// Why this file was not read.
pub fn unread(file: InputFile, fault: ReadFault) -> RunFault
    ensures { result ≡ unread file fault }
{
    match fault {
        ReadFault::Device => RunFault::Input(file, InputFault::Unreadable),
        ReadFault::TooLong => RunFault::Input(file, InputFault::TooLong),
        ReadFault::Memory => RunFault::Memory,
    }
}

fn input_status(file: InputFile) -> u8
    ensures status { (fault : InputFault) → result ≡ fault_status (RunFault.Input file fault) }
    ensures other { result ≢ 7 }
{
    match file {
        InputFile::Poll => 3,
        InputFile::Ballots => 4,
        InputFile::Sheet => 10,
    }
}

fn vote_status(fault: &VoteFault) -> u8
    ensures status { result ≡ fault_status (RunFault.Vote fault.now) }
    ensures other { result ≢ 7 }
{
    match fault {
        VoteFault::Memory | VoteFault::Thread | VoteFault::Desk(DeskFault::Memory) => 5,
        VoteFault::Gate(_)
        | VoteFault::Enter(_, _)
        | VoteFault::Desk(DeskFault::MissingDesk)
        | VoteFault::Audit(_) => 6,
    }
}

/// The exit status of a run that did not come to its end. It is 7 only for a failed output.
pub fn fault_status(fault: &RunFault) -> u8
    ensures status { result ≡ fault_status fault.now }
    ensures output { (result ≡ 7) ↔ (fault.now ≡ RunFault.Output) }
{
    match fault {
        RunFault::Input(file, _) => input_status(*file),
        RunFault::Poll(PollFault::Memory) => 5,
        RunFault::Poll(_) => 3,
        RunFault::NoSuchOption => 8,
        RunFault::TooManyLines => 4,
        RunFault::Vote(fault) => vote_status(fault),
        RunFault::Memory => 5,
        RunFault::Output => 7,
    }
}

/// The exit status of a run. It is 7 only for a failed output.
pub fn status(outcome: &Result<Ended, RunFault>) -> u8
    ensures status { result ≡ status outcome.now }
    ensures output { (result ≡ 7) ↔ IsErrOf outcome.now RunFault.Output }
{
    match outcome {
        Ok(Ended::Decided(_) | Ended::Done) => 0,
        Ok(Ended::Tie) => 1,
        Ok(Ended::PollRefused) => 3,
        Ok(Ended::CastingOutside(_)) => 8,
        Ok(Ended::Found | Ended::Differs) => 9,
        Err(fault) => fault_status(fault),
    }
}
