//! A run that has finished.

ghost use Rattle.std.specs.Prelude.{◌≡◌};
ghost use Rattle.vote_commands.specs.Performing.{TellsNoBox};

use crate::fault::{Ended, RunFault};
use vote_audit::AuditWitness;

/// How a run ended and, if a count came to its end, the witness of the box in which its votes were audited.
#[derive(Drop)]
pub struct FinishedRun {
    pub end: Result<Ended, RunFault>,
    pub audited: Option<AuditWitness>,
}

/// A run that took no votes, or did not come to its end.
pub(crate) fn unaudited(end: Result<Ended, RunFault>) -> FinishedRun
    ensures end { result.end ≡ end }
    ensures none { TellsNoBox result }
{
    FinishedRun { end, audited: None }
}
