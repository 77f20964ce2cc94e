//! All that is wrong with a poll file, in words.
//!
//! They say what is at a place, and what the format wants there. What may have been meant is not
//! said, but for the name of a key, as a question.
//!
//! - [`explain_poll`] reads a poll file as [`Poll::from_text`](vote_poll::Poll::from_text) does, and gives beside the poll, or its first
//!   fault, a text of findings.
//!
//! **What is promised** (`specs/Findings.antt`), memory aside:
//!
//! - Each fault of the file has a line, judged by itself, in the order of the faults, with the words of its fault line. So the first one
//!   ([`first_fault_is_told`](vote_poll::first_fault_is_told)) is the fault beside the text, and without a fault there is a poll.
//! - After the faults each key that is not read has a line, in the order of the tables, with its path, as far as it is shown. A key that
//!   is suggested for it is missing, few edits lead to it, and no other missing one is nearer (`specs/UnreadKeys.antt`).
//! - Of a text that is no TOML it says what kind of file it is, or that the files may be exchanged, or else the line and the column of
//!   the place that `toml` tells (`specs/Syntax.antt`).
//! - What else a line says is a hint: one line of printable text of at most [`MAX_HINT`](vote_hints::MAX_HINT) bytes, whatever is in the file. Its words are
//!   open.
#![tactic(auto)]

mod explain;
mod findings;
mod full_lines;
mod near;
mod structure;
mod syntax;
mod unread;

pub use explain::{ExplainedPoll, explain_poll};
