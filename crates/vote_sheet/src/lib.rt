//! What is printed for a poll and its lines: sheet, picture, and the lines of the other commands.
//!
//! - [`sheet_of_box`] returns the sheet of a box that holds the lines of the poll, and the decision of the sheet. What the sheet
//!   says is a relation between the poll, the lines, the casting vote and the sheet (`IsSheetOf`), without history, desks or
//!   replies. Its text is a function of the sheet, the poll and the number of lines (`sheet_text`). Each poll that is read from a
//!   poll file has a sheet ([`sheet_exists`]), and only one ([`sheet_is_unique`]): it is the same for every number of desks and
//!   every order in which the lines are cast, byte for byte.
//! - [`steps_text`] returns the reply of the box to each line, if one desk casts the lines in their order. There
//!   is such a text for each poll and its lines ([`steps_exist`]), and only one ([`steps_are_determined`]).
//! - [`verify_sheet`] compares a text with the sheets of a box, without a casting vote and with each ([`Verification`]).
//! - [`standing_text`] returns the ballots that stand, as a ballot file.
//! - [`picture_of_box`] returns what the sheet of the same box says, as a graph in the language of Graphviz.
//! - [`check_text`] returns the line for a valid poll.
//! - The functions of [`laws`] state laws of the count in terms of what people see: ballot files, and the winner that a sheet
//!   names. They also state what an elector can rely on: the sheet knows no names and counts nobody twice, and refused and outdated
//!   lines have no influence on it. The published files of a secret vote say the same as the received files.
//!
//! Nothing here knows a file, a thread or a device: each call makes a text in memory, or fails when memory runs out. The modules
//! `sheet`, `verify`, `picture`, `steps` and `standing` have the public calls, and `sheet_text` has the parts of a sheet.
#![tactic(auto)]

pub mod laws;
mod picture;
mod sheet;
mod sheet_text;
mod standing;
mod steps;
mod verify;

pub use picture::{picture_exists, picture_is_unique, picture_of_box};
pub use sheet::{sheet_exists, sheet_is_unique, sheet_of_box};
pub use standing::standing_text;
pub use steps::{check_text, steps_are_determined, steps_exist, steps_text};
pub use verify::{Verification, verify_sheet};

/// The maximum number of bytes of a line that [`verify_sheet`] shows.
pub const MAX_SHOWN_OF_LINE: usize = 120;
