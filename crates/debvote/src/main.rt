//! Counts votes by the Debian Constitution.
//!
//! `debvote count` counts the ballots of a file by a poll file and writes the result sheet. `debvote picture` writes the outcome as
//! a graph. `debvote steps` writes the reply of the ballot box to each line, `debvote standing` writes the ballots that count, and
//! `debvote verify` writes whether a published sheet is a sheet of the count. `debvote check` checks a poll file, and `debvote
//! explain` reports every problem in it and in the ballots. Without arguments the program reads a poll and its ballots from
//! standard input, joined by a line `%%`, and acts as `steps`.
//!
//! The program lends what the system has to one call, for words that are given or for words that are not: the files and standard input,
//! which can only be read, standard output and standard error, and threads, which can only take votes. For these alone a run may wait.
#![tactic(auto)]

ghost use Rattle.std.specs.Prelude.{IfErr};
ghost use Rattle.debvote.specs.Program.{AreNotGiven};

mod lent;
mod vote_threads;

use crate::lent::{lend, refuse_words, run_on_system};
use std::env;
use std::io::ErrorKind;
use std::process::ExitCode;
use std::rt::Env;
use vote_command_line::ArgsFault;

/// The program's arguments, its own name first. The contracts of std do not say what they are.
fn words_given<R: Env + AllocGlobal>(rt: &R) -> Result<Vec<String>, ArgsFault>
    ensures { IfErr result AreNotGiven }
{
    match env::args(rt) {
        Ok(args) => Ok(args.collect(rt.alloc())?),
        Err(error) if error.kind() == ErrorKind::InvalidData => Err(ArgsFault::NotUtf8),
        Err(_) => Err(ArgsFault::Memory),
    }
}

fn main(rt: HostRuntime) -> ExitCode {
    let mut lent = lend(&rt);
    let status = match words_given(&rt) {
        Ok(given) => run_on_system(rt.alloc(), &mut lent, given.as_slice()),
        Err(fault) => refuse_words(&fault, &mut lent),
    };
    ExitCode::from(status)
}
