//! The keys of a poll file: their values in TOML, and why a poll file is refused.
//!
//! - [`PollKey`] names a key. [`document`] reads the table of a text, and [`value_at`] returns the table's value at a key.
//! - [`FoundKeys`] has all keys of a table that are present and of the right kind. [`FoundKeys::key_faults`] returns the
//!   faults of the other keys.
//! - [`PollFault`] has all faults of a poll file: those of its keys, which this crate finds, and those of the keys' values,
//!   which vote_poll finds. [`FaultWords`] has their words for both `check` and `explain`.
//!
//! What is promised, unless memory runs out: each call returns what the definitions of `specs/Keys.antt` and
//! `specs/KeyFaults.antt` say of the text or the table, and the words are those of `specs/FaultWords.antt`.
//!
//! No crate above has public calls with a type of `toml`. vote_poll names toml's tables only in definitions, and
//! vote_explain_poll only in private calls.
#![tactic(auto)]

mod fault;
mod found;
mod keys;

pub use fault::{FaultWords, PollFault, PollKey};
pub use found::FoundKeys;
pub use keys::{document, value_at};
