//! The line that says why a run did not come to its end. It is made without memory, since there may be none.

ghost use Rattle.std.specs.Prelude.{◌≡◌, ◌+◌, ◌++◌, ◌<◌, ◌≤◌, length};
ghost use Rattle.std.specs.Fmt.InlineText.{inline_text};
ghost use Rattle.vote_poll_keys.specs.FaultWords as poll;
ghost use Rattle.vote_audit.specs.Words as votes;
ghost use Rattle.vote_commands.specs.Words.{fault_words, file_words};
ghost use Rattle.vote_program.specs.Errors.{fault_line};
ghost use Rattle.vote_program.specs.LineParts.{AreShort, line_text, number_text};

use itoa::Buffer;
use std::fmt::InlineText;
use vote_audit::VoteFault;
use vote_commands::{InputFault, InputFile, RunFault};
use vote_desks_box::DeskFault;
use vote_poll::PollFault;

/// More bytes than a line has.
const ROOM: usize = 128;

/// A line after `debvote: `: a text, a number if there is one, and the rest.
type LineParts = (&'static str, Option<usize>, &'static str);

fn poll_parts(fault: PollFault) -> LineParts
    ensures words { line_text result ≡ poll.fault_line fault }
    ensures short { AreShort result }
{
    match fault {
        PollFault::Syntax => ("poll refused: syntax", None, ""),
        PollFault::Key(key) => ("poll refused: key ", None, key.name()),
        PollFault::Title => ("poll refused: title", None, ""),
        PollFault::OptionCount => ("poll refused: number of options", None, ""),
        PollFault::OptionName(option) => ("poll refused: name of option ", Some(option), ""),
        PollFault::Ratio => ("poll refused: ratios", None, ""),
        PollFault::Quorum => ("poll refused: quorum", None, ""),
        PollFault::RollSize => ("poll refused: size of roll", None, ""),
        PollFault::VoterName(place) => ("poll refused: voter at position ", Some(place), ""),
        PollFault::LastEnvelope => ("poll refused: last envelope", None, ""),
        PollFault::Wording => ("poll refused: wording", None, ""),
        PollFault::Memory => ("out of memory", None, ""),
    }
}

fn vote_parts(fault: &VoteFault) -> LineParts
    ensures words { line_text result ≡ votes.fault_words fault.now }
    ensures short { AreShort result }
{
    match fault {
        VoteFault::Memory | VoteFault::Desk(DeskFault::Memory) => ("out of memory", None, ""),
        VoteFault::Thread => ("a desk could not be started", None, ""),
        VoteFault::Gate(desk) => ("desk ", Some(*desk as usize), " stopped at its gate"),
        VoteFault::Enter(desk, _) => ("desk ", Some(*desk as usize), " was refused by the box"),
        VoteFault::Desk(DeskFault::MissingDesk) => ("the desks could not be gathered", None, ""),
        VoteFault::Audit(_) => ("audit failed", None, ""),
    }
}

fn file_name(file: InputFile) -> &'static str
    ensures words { result.now ≡ file_words file }
    ensures short { length result.now ≤ 40 }
{
    match file {
        InputFile::Poll => "poll",
        InputFile::Ballots => "ballots",
        InputFile::Sheet => "sheet",
    }
}

fn parts_of(fault: &RunFault) -> LineParts
    ensures words { line_text result ≡ fault_words fault.now }
    ensures short { AreShort result }
{
    match fault {
        RunFault::Input(file, InputFault::Unreadable) => (file_name(*file), None, " unreadable"),
        RunFault::Input(file, InputFault::TooLong) => (file_name(*file), None, " too long"),
        RunFault::Poll(fault) => poll_parts(*fault),
        RunFault::NoSuchOption => ("casting option is not in the poll", None, ""),
        RunFault::TooManyLines => ("ballots refused: too many lines", None, ""),
        RunFault::Vote(fault) => vote_parts(fault),
        RunFault::Memory => ("out of memory", None, ""),
        RunFault::Output => ("output failed", None, ""),
    }
}

/// The line so far, with one part more.
fn with(line: InlineText<ROOM>, part: &str) -> InlineText<ROOM>
    requires { length (inline_text line) + length part.now < ROOM }
    ensures { inline_text result ≡ inline_text line ++ part.now }
{
    line.and_str(part, part.len())
}

fn with_number(line: InlineText<ROOM>, number: Option<usize>) -> InlineText<ROOM>
    requires { length (inline_text line) ≤ 60 }
    ensures text { inline_text result ≡ inline_text line ++ number_text number }
    ensures short { length (inline_text result) ≤ 80 }
{
    match number {
        Some(number) => with(line, Buffer::new().format(number)),
        None => line,
    }
}

/// The line, with its line feed.
pub(crate) fn fault_line(fault: &RunFault) -> InlineText<ROOM>
    ensures { inline_text result ≡ fault_line fault.now }
{
    let (head, number, tail) = parts_of(fault);
    let named = with(with(InlineText::new(), "debvote: "), head);
    with(with(with_number(named, number), tail), "\n")
}
