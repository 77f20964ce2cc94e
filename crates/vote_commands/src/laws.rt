//! What follows for what the commands write, and the two parts of a joined input.
//!
//! Each law is the contract of a function that calls other laws or does nothing.
ghost use Rattle.vote_commands.specs.Joined.{InputsArePartedAtSeparator, PartsAreUnique};
ghost use Rattle.vote_commands.specs.OneText.{ChecksHaveOneText, CountsHaveOneText, ListingsHaveOneText};

use vote_sheet::laws::{verifications_are_determined, verifications_exist};
use vote_sheet::{
    picture_exists, picture_is_unique, sheet_exists, sheet_is_unique, steps_are_determined,
    steps_exist,
};

/// If a poll file means a poll, each command but `explain` has one text for the bytes of its files, and a count one end. So the
/// bytes of the files fix each byte that the command writes.
pub fn commands_have_one_text()
    ensures counts { CountsHaveOneText }
    ensures listings { ListingsHaveOneText }
    ensures checks { ChecksHaveOneText }
{
    sheet_exists();
    sheet_is_unique();
    picture_exists();
    picture_is_unique();
    verifications_exist();
    verifications_are_determined();
    steps_exist();
    steps_are_determined();
}

/// The poll of a joined input comes before its first line `%%`, and its ballots after that line. Without such a line all of
/// the input is the poll, and there are no ballots.
pub fn inputs_are_parted_at_separator()
    ensures { InputsArePartedAtSeparator }
{}

/// No other two texts are the poll and the ballots of a joined input.
pub fn parts_are_unique()
    ensures { PartsAreUnique }
{}
