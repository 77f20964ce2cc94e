//! The exit status of the program, and the line that explains it.

ghost use Rattle.std.specs.Prelude.{◌≡◌, ◌↔◌, IsErrOf};
ghost use Rattle.vote_commands.specs.Status.{status};
ghost use Rattle.vote_program.specs.ArgsStatus.{args_status};
ghost use Rattle.vote_program.specs.Errors.{Says, SaysEnd};
ghost use Rattle.vote_program.specs.Outputs.{written_by};

use crate::fault_lines::fault_line;
use vote_command_line::ArgsFault;
use vote_commands::{Ended, RunFault, status};
use vote_files::{Sink, write_text};

/// Writes a text on standard error. If it can't be written, the run goes on.
pub(crate) fn say<E: Sink>(errors: &mut E, text: &str)
    ensures { Says text.now (written_by E.contents E.faults E.flushed errors.old errors.new) }
{
    let _ = write_text(errors, text.as_bytes());
}

/// Says on standard error why a run did not come to its end, and returns the exit status.
pub fn report<E: Sink>(errors: &mut E, outcome: &Result<Ended, RunFault>) -> u8
    ensures status { result ≡ status outcome.now }
    ensures output { (result ≡ 7) ↔ IsErrOf outcome.now RunFault.Output }
    ensures says { SaysEnd outcome.now
        (written_by E.contents E.faults E.flushed errors.old errors.new) }
{
    if let Err(fault) = outcome {
        say(errors, fault_line(fault).as_str());
    }
    status(outcome)
}

/// The exit status for words that make no request.
pub fn args_status(fault: &ArgsFault) -> u8
    ensures { result ≡ args_status fault.now }
{
    match fault {
        ArgsFault::Help(_) => 0,
        ArgsFault::Refused(_) | ArgsFault::NotUtf8 => 2,
        ArgsFault::Memory => 5,
    }
}
