//! The texts of poll files and ballot files, whatever the poll: lines, names, and how bytes are shown.
//!
//! - [`Lines`]: the lines of a ballot file. Each is an envelope. [`Lines::split`] makes them.
//! - [`is_title`], [`is_option_name`] and [`is_voter_name`] say whether a text can be the title of a poll, or the name of an option
//!   or a voter. [`is_printable`] and [`is_voter_byte`] say which bytes it may have. The reader of a file and the commands that
//!   explain its faults judge names by the same calls.
//! - [`push_shown`]: appends bytes of a file to a text. A byte that is not printable ASCII appears as its number, in the digits of
//!   [`hex_digit`].
//!
//! Lines are numbered from 0: the line at index `i` is the envelope with stamp `i + 1`. All texts are bytes, and names are compared
//! byte for byte.
//!
//! What is promised, unless memory runs out:
//! - A text has one list of lines (`specs/Lines.antt`, [`lines_are_unique`]). `split` returns that list, or reports that it is too
//!   long.
//! - Whether a text is a name depends only on its length and its bytes (`specs/Names.antt`).
//! - The shown form of a text has no line feed (`specs/Shown.antt`).
//!
//! The formats of the two files are this project's own.
#![tactic(auto)]

ghost use Rattle.vote_poll_text.specs.Limits.{LimitsAreAsWritten};

mod lines;
mod names;
mod shown;

pub use lines::{
    Lines, LinesFault, MAX_LINES, count_feeds, lines_are_unique, split_at_feed, without_last_feed,
};
pub use names::{is_option_name, is_printable, is_title, is_voter_byte, is_voter_name};
pub use shown::{hex_digit, push_shown};

/// The most bytes that the name of a voter can have.
pub const MAX_VOTER_NAME: usize = 32;

/// The most bytes that the title of a poll can have.
pub const MAX_TITLE: usize = 80;

/// The most bytes that the name of an option can have.
pub const MAX_OPTION_NAME: usize = 40;

/// A law: the limits of texts are those in `docs/FORMATS.md`.
pub fn limits_are_as_written()
    ensures { LimitsAreAsWritten }
{}
