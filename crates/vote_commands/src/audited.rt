//! The result sheet of an audited box, for callers of the library.

ghost use Rattle.std.specs.Prelude.{IfOk, IfSome, string_bytes};
ghost use Rattle.vote_poll.specs.Options.{IsOption};
ghost use Rattle.vote_poll.specs.PollContent.{option_count};
ghost use Rattle.vote_audit.specs.Audit.{IsAudited};
ghost use Rattle.vote_sheet.specs.SheetOf.{IsSheet};

use std::alloc::{AllocError, Global};
use vote_audit::Audited;
use vote_poll::{Lines, Poll};
use vote_sheet::sheet_of_box;

/// Returns the result sheet of an audited box, with this option as the casting vote. Options are
/// numbered from 1. The program does not call it.
///
/// The sheet is the same for every number of desks and every order in which the lines were cast.
pub fn sheet(
    alloc: Global,
    poll: &Poll,
    lines: &Lines<'_>,
    audited: &Audited,
    casting: Option<u8>,
) -> Result<String, AllocError>
    requires audited { IsAudited poll.now lines.now audited.now.ballot_box audited.now.slips_by_desk }
    requires casting { IfSome casting (IsOption (option_count poll.now)) }
    ensures { IfOk result (λ text. IsSheet poll.now lines.now casting (string_bytes text)) }
{
    let (text, _) = sheet_of_box(alloc, poll, lines, audited.ballot_box(), casting)?;
    Ok(text)
}
