//! The command line of debvote: what its words ask for.
//!
//! - [`parse_args`] has `clap` parse the words after the program's name, and returns the [`NamedRequest`] that they make, or an
//!   [`ArgsFault`]: they ask for help, they are refused, or memory ran out.
//!
//! **What is promised.** The contracts of `clap` say which faults words have, and which values it finds in them. By these contracts
//! a request is returned only if the words have no fault, and the request has the values of the words. Help is returned only if the
//! words ask for it. A refusal is returned only if `clap` finds a fault in the words, or no request has the values that it finds.
//! The texts of help and refusals are `clap`'s, and no clause says anything about them.
//!
//! This crate knows nothing about votes, so it is proved beside all others.
#![tactic(auto)]

mod command_line;

pub use command_line::{ArgsFault, NamedRequest, parse_args};

/// The version of the program, as `debvote --version` prints it.
pub const VERSION: &str = "3.0.0";
