//! What the two explanations of a file share: hints, and what is shown of a file.
//!
//! - A hint is one line of printable text of at most [`MAX_HINT`] bytes, whatever is in the file (`specs/Hints.antt`).
//!   [`push_hint_line`] adds one, and [`push_character`] names a character by one.
//! - [`push_excerpt`] adds a line of a file, and a mark below a place in it.
//! - [`file_kind`] says what a file is that is no plain text, and [`unmarked`] leaves out a byte-order mark.
//! - [`nearest_names`] finds the names that are nearest to one that is not known (`specs/Near.antt`), and [`are_within`] says whether few
//!   edits lead from one name to another.
//! - [`push_mending`] appends how to mend a file, with a shell command if single quotes can hold the file's name. `specs/Commands.antt`
//!   says which words.
#![tactic(auto)]

ghost use Rattle.std.specs.Prelude.{◌/◌};
ghost use Rattle.vote_poll_text.specs.Adding.{Adds};
ghost use Rattle.vote_poll_text.specs.Shown.{shown};
ghost use Rattle.vote_hints.specs.Hints.{IsHint, IsHintLine, LimitsAreAsWritten, Tells, hint_line};

mod characters;
mod commands;
mod excerpts;
mod file_kinds;
mod near;

pub use characters::push_character;
pub use commands::push_mending;
pub use excerpts::push_excerpt;
pub use file_kinds::{file_kind, unmarked};
pub use near::{are_within, nearest_names};
use std::alloc::AllocError;
use vote_poll_text::push_shown;

/// The most bytes of a name or text of a file that a finding shows.
pub const MAX_SHOWN: usize = 60;

/// The most bytes of a hint.
pub const MAX_HINT: usize = 4_000;

/// The most edits between a name that is not known and one that is near. An edit adds, drops or changes a character.
pub const MAX_EDITS: usize = 2;

/// A law: the limits of what a finding shows and of what is near are those that `docs/FORMATS.md` writes.
pub fn limits_are_as_written()
    ensures { LimitsAreAsWritten }
{}

/// Adds these words as a hint. Four characters may show a byte.
pub(crate) fn push_hint(text: &mut String, words: &[u8]) -> Result<(), AllocError>
    ensures hint { Tells result text.old IsHint text.new }
    ensures words { Adds result text.old (shown (MAX_HINT / 4) words.now) text.new }
{
    push_shown(text, words, MAX_HINT / 4)?;
    Ok(())
}

/// Adds these words as a hint, and a line feed.
pub fn push_hint_line(text: &mut String, words: &[u8]) -> Result<(), AllocError>
    ensures line { Tells result text.old IsHintLine text.new }
    ensures words { Adds result text.old (hint_line words.now) text.new }
{
    push_hint(text, words)?;
    text.push_str("\n")?;
    Ok(())
}
