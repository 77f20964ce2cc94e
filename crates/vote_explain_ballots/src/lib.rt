//! What is wrong with the lines of a ballot file, and where.
//!
//! It says what is at a place, and what the format wants there. What may have been meant is not
//! said, but for a name on the roll, as a question.
//!
//! - [`explain_ballots`] gives a text: what is remarked on the whole file, each line of the file that is refused, with what is wrong, a
//!   ballot of the poll with what its ranks are of, and how many lines are valid, refused and late.
//! - [`exit_of`] gives the place at which a line leaves the grammar of ballot lines, and the [`Part`] of a ballot line there.
//!
//! **What is promised** (`specs/Explained.antt`), memory aside:
//!
//! - As many lines are listed as the sheet has refused lines ([`each_refusal_is_listed`]): those that the box of `steps` refuses, each
//!   with its reply ([`refused_as_by_steps`]).
//! - The column is that of the grammar (`IsColumn`), which knows no reading from the left, and a line has one ([`columns_are_unique`]).
//!   What is said to be wanted there is wanted: the bytes with which some ballot line goes on, and the end if the line is a ballot up to
//!   there (`IsPartAfter`).
//! - A name that is suggested is on the roll, few edits lead to it, and no name on the roll is nearer (`IsNearest`).
//! - That the lines look like a table is said exactly if they do (`specs/Tables.antt`).
//! - If a line is refused that is not late, a ballot of the poll is told with what its ranks are of: the options in their order.
//! - All numbers are those of the result sheet, and so is whether it is said that lines are counted.
//! - What else is said is a remark: one line of printable text of at most [`MOST_REMARK`] characters, whatever is in the file.
//!
//! **What is open**: which remarks there are on the file.
#![tactic(auto)]

ghost use Rattle.vote_explain_ballots.specs.Remarks.{LimitsAreAsWritten};

mod explain;
mod findings;
mod near_names;
mod places;
mod tables;
mod whole_file;

pub use explain::{Explained, each_refusal_is_listed, explain_ballots, refused_as_by_steps};
pub use places::{Exit, Part, columns_are_unique, exit_of};

/// The most characters of a remark.
pub const MOST_REMARK: usize = 600;

/// What a text in UTF-8 may begin with, as editors for Windows write it: U+FEFF.
const MARK: &[u8] = b"\xEF\xBB\xBF";

/// A law: the limit of a remark is the one that `docs/FORMATS.md` writes.
pub fn limits_are_as_written()
    ensures { LimitsAreAsWritten }
{}
