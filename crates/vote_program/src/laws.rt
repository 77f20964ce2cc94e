//! What the fact of a sheet means, how a count ends, and the limits of files in numbers.
//!
//! Each law is the contract of a function that calls other laws or does nothing.

ghost use Rattle.std.specs.Prelude.{◌≡◌};
ghost use Rattle.vote_program.specs.CountLaws.{CountsAskForSheet, KnownEndsAreKept, KnownSheetsAreWritten, StoppedCountsEndSo};

use crate::inputs::{BALLOTS_LIMIT, JOINED_LIMIT, POLL_LIMIT, SHEET_LIMIT};
use vote_audit::{Audited, VoteFault};
use vote_commands::laws::commands_have_one_text;
use vote_poll::{Lines, Poll};
use vote_sheet::sheet_is_unique;

/// An input has at most as many bytes as `docs/FORMATS.md` says. A joined input has room for both files and the line between them.
pub fn inputs_have_limits()
    ensures poll { POLL_LIMIT ≡ 1048576 }
    ensures ballots { BALLOTS_LIMIT ≡ 33554432 }
    ensures sheet { SHEET_LIMIT ≡ 1048576 }
    ensures joined { JOINED_LIMIT ≡ 34603011 }
{}

/// Words of which `count` is made ask for the sheet of the files that they name.
pub fn counts_ask_for_sheet()
    ensures { CountsAskForSheet }
{}

/// A count that ended with 0 or 1 has written the one sheet of its files, and nothing else.
pub fn known_sheets_are_written()
    ensures { KnownSheetsAreWritten }
{
    sheet_is_unique();
}

/// A count that was not stopped has the one status that its files call for.
pub fn known_ends_are_kept<V: FnOnce(&Poll, &Lines<'_>, u8) -> Result<Audited, VoteFault> + Drop>(
    _take: V,
)
    ensures { KnownEndsAreKept (V.post _take) }
{
    commands_have_one_text();
}

/// A count that was stopped ends with 5, 6 or 7.
pub fn stopped_counts_end_so<V: FnOnce(&Poll, &Lines<'_>, u8) -> Result<Audited, VoteFault> + Drop>(
    _take: V,
)
    ensures { StoppedCountsEndSo (V.post _take) }
{}
