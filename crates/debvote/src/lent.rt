//! What the system lends to a run, and the run on it.
//!
//! The fields are private, so only [`lend`] makes what is lent, and its type says that this is the system's. [`run_on_system`] is
//! proved for files, input and outputs of any types, so it can hand on no others than it was lent.

ghost use Rattle.std.specs.Prelude.{◌≡◌, ◌<◌, ◌≤◌, ◌↔◌, Some, false, length, pos};
ghost use Rattle.vote_steps.specs.Desks.{AreDesks};
ghost use Rattle.vote_commands.specs.TakingVotes.{AreTakenAtDesks};
ghost use Rattle.vote_files.specs.Sources.{HasRead};
ghost use Rattle.vote_program.specs.CountEnds.{EndsAsDue};
ghost use Rattle.vote_program.specs.Outputs.{written_by};
ghost use Rattle.vote_program.specs.ProgramAnswers.{AnswersJoined, AnswersWorded, AnswersWords, words_in};
ghost use Rattle.vote_program.specs.SheetOfFiles.{WritesTheSheet};
ghost use Rattle.debvote.specs.Program.{TakesInThreads};

use crate::vote_threads::VoteThreads;
use std::alloc::Global;
use std::io::IsTerminal;
use std::os::fd::AsRawFd;
use std::rt::{Stderr, Stdout};
use std::sync::Wait;
use std::thread::Threads;
use vote_command_line::ArgsFault;
use vote_desks::{Audited, VoteFault};
use vote_files::{ReadableFiles, ReadableInput, Sink, Sources, StandardInput, WriterSink};
use vote_poll::{Lines, Poll};
use vote_program::{answer, refuse};

/// Files and standard input, which can only be read; threads, which can only take votes; and two outputs, which alone can be written.
#[derive(Drop)]
pub(crate) struct Lent<S, I, T, W, E> {
    files: S,
    input: I,
    threads: VoteThreads<T>,
    /// Whether standard input is a terminal.
    at_terminal: bool,
    output: W,
    errors: E,
}

/// Lends what the system has.
pub(crate) fn lend(
    system: &HostRuntime,
) -> Lent<
    ReadableFiles<'_, HostRuntime>,
    ReadableInput<'_, HostRuntime>,
    &HostRuntime,
    WriterSink<Stdout>,
    WriterSink<Stderr>,
> {
    Lent {
        files: ReadableFiles::of(system),
        input: ReadableInput::of(system),
        threads: VoteThreads::of(system),
        at_terminal: system.stdin().is_terminal(),
        output: WriterSink::new(system.stdout()),
        errors: WriterSink::new(system.stderr()),
    }
}

/// Answers the arguments on what is lent, and returns the exit status: as [`answer`] does for these words, files, input and outputs, by a
/// call that takes the votes in threads. The outputs have to say that they are descriptors 1 and 2: `main` has no contract, but it has
/// to prove this.
pub(crate) fn run_on_system<
    S: Sources,
    I: StandardInput,
    T: AllocGlobal + Threads + Wait + Sync,
    W: Sink + AsRawFd,
    E: Sink + AsRawFd,
>(alloc: Global, lent: &mut Lent<S, I, T, W, E>, given: &[String]) -> u8
    requires standard_output { W.raw_fd lent.old.output ≡ Some (pos 1) }
    requires standard_error { E.raw_fd lent.old.errors ≡ Some (pos 2) }
    ensures sheet { 1 < length given.now
        → WritesTheSheet (S.file_bytes lent.old.files)
        (HasRead S.file_readings lent.old.files lent.new.files) (words_in given.now)
        (written_by W.contents W.faults W.flushed lent.old.output lent.new.output)
        (written_by E.contents E.faults E.flushed lent.old.errors lent.new.errors) result }
    ensures alone { length given.now ≤ 1
        → AnswersJoined lent.old.at_terminal (I.standard_bytes lent.old.input)
        (HasRead I.standard_readings lent.old.input lent.new.input)
        (written_by W.contents W.faults W.flushed lent.old.output lent.new.output)
        (written_by E.contents E.faults E.flushed lent.old.errors lent.new.errors) result }
    ensures worded { 1 < length given.now
        → AnswersWorded (S.file_bytes lent.old.files)
        (HasRead S.file_readings lent.old.files lent.new.files) TakesInThreads (words_in given.now)
        (written_by W.contents W.faults W.flushed lent.old.output lent.new.output)
        (written_by E.contents E.faults E.flushed lent.old.errors lent.new.errors) result }
    ensures due { 1 < length given.now
        → EndsAsDue (S.file_bytes lent.old.files) TakesInThreads (words_in given.now) result }
    ensures no_input { 1 < length given.now → lent.new.input ≡ lent.old.input }
    ensures no_file { length given.now ≤ 1 → lent.new.files ≡ lent.old.files }
    ensures output { (result ≡ 7) ↔ (W.faults lent.old.output < W.faults lent.new.output) }
{
    let threads = &lent.threads;
    let status = answer(
        alloc,
        &mut lent.files,
        &mut lent.input,
        given,
        lent.at_terminal,
        |poll: &Poll, lines: &Lines<'_>, desks: u8| -> Result<Audited, VoteFault>
            requires { AreDesks desks }
            ensures { AreTakenAtDesks (λ desk. false) poll.now lines.now desks result }
        { threads.take(poll, lines, desks) },
        &mut lent.output,
        &mut lent.errors,
    );
    status
}

/// Says why the system gives no arguments, and returns the exit status.
pub(crate) fn refuse_words<S, I, T, W: Sink + AsRawFd, E: Sink + AsRawFd>(
    fault: &ArgsFault,
    lent: &mut Lent<S, I, T, W, E>,
) -> u8
    requires standard_output { W.raw_fd lent.old.output ≡ Some (pos 1) }
    requires standard_error { E.raw_fd lent.old.errors ≡ Some (pos 2) }
    ensures answers { AnswersWords fault.now
        (written_by W.contents W.faults W.flushed lent.old.output lent.new.output)
        (written_by E.contents E.faults E.flushed lent.old.errors lent.new.errors) result }
    ensures output { (result ≡ 7) ↔ (W.faults lent.old.output < W.faults lent.new.output) }
{
    refuse(fault, &mut lent.output, &mut lent.errors)
}
