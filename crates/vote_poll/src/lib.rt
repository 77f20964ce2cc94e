//! What was written down before the count: the poll, its roll, and the lines of the ballot file.
//!
//! The terms of this crate:
//! - [`Poll`]: what a poll file says. It has a title, two to [`MAX_OPTIONS`] options, the last of them the default option, a
//!   majority ratio for each other option, a quorum as a multiple of Q, the roll of its electors, and a [`Wording`] of its
//!   majorities. It may have a last envelope; envelopes after it are late. [`Poll::from_text`] reads it, or returns the first
//!   [`PollFault`]. [`Poll::unless_faulty`] does the same for a file whose faults have all been found: those of its keys by
//!   `vote_poll_keys`, the others by [`push_faults`].
//! - [`Ranks`]: what one ballot says of the options, and which option it prefers to which.
//! - [`Reading`]: how a poll reads a line: as a ballot of an elector, or as a [`LineFault`]. [`read_line`] returns it.
//!   [`is_reading`] says whether a reading is the reading of a line, and [`is_ballot_line`] whether the line is a ballot line
//!   of some poll.
//! - [`Lines`], [`is_voter_name`] and the other calls of `vote_poll_text`: the texts of both files by themselves, whatever the
//!   poll.
//!
//! Options are numbered from 1, as in the file, and the default option has the greatest number. Voters are numbered from 0, by
//! their position on the roll. Lines are numbered from 0: the line at index `i` is the envelope with stamp `i + 1`. All texts
//! are bytes, and names are compared byte for byte.
//!
//! What is promised, unless memory runs out:
//! - A poll file means one poll or one fault (`specs/PollFile.antt`), and `from_text` returns exactly that. If there are
//!   several faults, it is the first in the order of [`PollFault`].
//! - A poll that a text means keeps the limits of a poll ([`polls_keep_the_limits`]).
//! - `specs/PollFaults.antt` has all faults of a poll file, each judged by itself. The fault that is returned is the first of
//!   them ([`first_fault_is_told`]).
//! - A poll reads a line in only one way (`specs/Readings.antt`, [`readings_are_unique`]), by a grammar that says how a ballot
//!   is spelled (`specs/BallotLine.antt`). `read_line` returns this reading for each line, whatever its bytes. It takes no
//!   memory and has no errors.
//! - A ballot that was read is of a voter on the roll, and has a rank or no rank for each option.
//!
//! The Constitution's sections are named if a rule is the Constitution's: 4.2 for the quorum, and A.5 of Appendix A for ranks,
//! ratios and the default option. This project's own are the formats of the two files, that envelopes can be late, and that a
//! majority can be worded as more than its ratio.
#![tactic(auto)]

ghost use Rattle.vote_poll.specs.Limits.{LimitsAreAsWritten};

mod faults;
mod names;
mod poll;
mod poll_file;
mod quorum;
mod rank_key;
mod ranks;
mod reading;
mod wording;

pub use faults::{parse_ratio, push_faults};
pub use names::names_are_distinct;
pub use poll::Poll;
pub use poll_file::{first_fault_is_told, polls_keep_the_limits};
pub use quorum::times_q;
pub use ranks::Ranks;
pub use reading::{
    LineFault, Reading, each_line_is_read, is_ballot_line, is_reading, read_line,
    readings_are_unique,
};
pub use vote_poll_keys::{PollFault, PollKey};
pub use vote_poll_text::{
    Lines, LinesFault, MAX_LINES, MAX_OPTION_NAME, MAX_TITLE, MAX_VOTER_NAME, hex_digit,
    is_option_name, is_printable, is_title, is_voter_byte, is_voter_name, lines_are_unique,
    push_shown,
};
pub use wording::Wording;

/// The most options that a poll can have, with the default option. It has at least two.
pub const MAX_OPTIONS: usize = 32;

/// The most electors that a roll can have. It has at least one.
pub const MAX_ELECTORS: usize = 10_000;

/// The greatest majority ratio of an option. The least is 1.
pub const MAX_RATIO: u8 = 10;

/// The greatest multiple of Q that can be a poll's quorum. The least is 0, which is no quorum.
pub const MAX_QUORUM_MULTIPLE: u8 = 10;

/// The greatest rank that a ballot can give an option. The least is 1.
pub const MAX_RANK: u8 = 99;

/// The sort key of an unranked option. It comes after all ranks.
pub const UNRANKED: u8 = 255;

/// The most bytes that a ballot line can have, without its line feed.
pub const MAX_LINE: usize = 200;

/// A law: the limits of a poll and of a ballot line are those in `docs/FORMATS.md`.
pub fn limits_are_as_written()
    ensures { LimitsAreAsWritten }
{}
