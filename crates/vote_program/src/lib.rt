//! The program between its words and its output: a request of the command line with the files that it names, or a joined input.
//!
//! - [`answer`] answers the words after the program's name, over any files ([`Sources`](vote_files::Sources)), any
//!   [`StandardInput`](vote_files::StandardInput) and any two outputs ([`Sink`](vote_files::Sink)), standard output and standard
//!   error, and returns the exit status.
//! - [`carry_out`] reads the files that a request names, whole and up to their limits ([`read_inputs`]), and performs the request
//!   with their bytes ([`with_bytes`]); [`print_joined`] does so for standard input ([`read_joined`]).
//! - [`report`] says on standard error why a run did not come to its end, and returns the exit status; [`refuse`] does so for an
//!   [`ArgsFault`](vote_command_line::ArgsFault), and [`args_status`] is its status.
//!
//! **What is promised.** The answer to words is the end of the request that they make, on the bytes that the sources tell of the
//! names in those words; or that of the fault that the words have. A loaded request asks for what the named one asks for, with the
//! bytes of its own files. Those are read in their order, each once, and no other file; the first that is not read ends the run, which
//! names it and the fault of its reading. Standard input is read once if there are no words, and otherwise never. An input has no more
//! bytes than its limit, which [`laws`] has in numbers. The exit status is that of the tables of `vote_commands` and of
//! [`args_status`], and it is that of a failed output exactly when the sink failed. Standard error gets the line of the fault, if there
//! is one, or where words are refused the text of `clap`, at a terminal the hint, and nothing else, and is flushed; if it fails, it has
//! got a prefix.
#![tactic(auto)]

mod answers;
mod exit_status;
mod fault_lines;
mod inputs;
pub mod laws;
mod loaded_request;
mod request_run;

pub use answers::{answer, refuse};
pub use exit_status::{args_status, report};
pub use inputs::{FileBytes, read_inputs, read_joined};
pub use loaded_request::with_bytes;
pub use request_run::{carry_out, print_joined};
