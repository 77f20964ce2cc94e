//! What the program answers to its words: the exit status, and what it writes.

ghost use Rattle.std.specs.Prelude.{◌≡◌, ◌<◌, ◌≤◌, ◌↔◌, IfOk, drop, length, map, string_bytes};
ghost use Rattle.vote_command_line.specs.Words.{texts_of};
ghost use Rattle.vote_files.specs.Sources.{HasRead};
ghost use Rattle.vote_commands.specs.TakingVotes.{TakesVotes};
ghost use Rattle.vote_program.specs.CountEnds.{EndsAsDue};
ghost use Rattle.vote_program.specs.Errors.{SaysHint};
ghost use Rattle.vote_program.specs.Outputs.{written_by};
ghost use Rattle.vote_program.specs.ProgramAnswers.{AnswersHelp, AnswersJoined, AnswersWorded, AnswersWords, words_in};
ghost use Rattle.vote_program.specs.SheetOfFiles.{WritesTheSheet};

use crate::exit_status::{args_status, report, say};
use crate::request_run::{carry_out, print_joined};
use std::alloc::{AllocError, Global};
use vote_audit::{Audited, VoteFault};
use vote_command_line::{ArgsFault, parse_args};
use vote_commands::RunFault;
use vote_files::{Sink, Sources, StandardInput, write_text};
use vote_poll::{Lines, Poll};

const TERMINAL_HINT: &str =
    "debvote: reading a poll and its ballots from the terminal; see debvote --help\n";

/// Writes the help that words ask for. Returns the exit status.
fn help<W: Sink, E: Sink>(text: &str, sink: &mut W, errors: &mut E) -> u8
    ensures answers { AnswersHelp text.now
        (written_by W.contents W.faults W.flushed sink.old sink.new)
        (written_by E.contents E.faults E.flushed errors.old errors.new) result }
    ensures output { (result ≡ 7) ↔ (W.faults sink.old < W.faults sink.new) }
{
    match write_text(sink, text.as_bytes()) {
        Ok(()) => 0,
        Err(_) => report(errors, &Err(RunFault::Output)),
    }
}

/// Answers words that make no request: writes the help that they ask for, or says on standard error why they are refused. Returns
/// the exit status.
pub fn refuse<W: Sink, E: Sink>(fault: &ArgsFault, sink: &mut W, errors: &mut E) -> u8
    ensures answers { AnswersWords fault.now
        (written_by W.contents W.faults W.flushed sink.old sink.new)
        (written_by E.contents E.faults E.flushed errors.old errors.new) result }
    ensures output { (result ≡ 7) ↔ (W.faults sink.old < W.faults sink.new) }
{
    match fault {
        ArgsFault::Help(text) => return help(text.as_str(), sink, errors),
        ArgsFault::Refused(text) => say(errors, text.as_str()),
        ArgsFault::NotUtf8 => say(errors, "debvote: an argument is not UTF-8\n"),
        ArgsFault::Memory => return report(errors, &Err(RunFault::Memory)),
    }
    args_status(fault)
}

/// Answers words: performs the request that they make, or says why they make none. Returns the exit status.
fn answer_words<
    S: Sources,
    V: FnOnce(&Poll, &Lines<'_>, u8) -> Result<Audited, VoteFault> + Drop,
    W: Sink,
    E: Sink,
>(alloc: Global, files: &mut S, words: &[&str], take: V, sink: &mut W, errors: &mut E) -> u8
    requires take { TakesVotes (V.pre take) (V.post take) }
    ensures answers { AnswersWorded (S.file_bytes files.old)
        (HasRead S.file_readings files.old files.new) (V.post take) (texts_of words.now)
        (written_by W.contents W.faults W.flushed sink.old sink.new)
        (written_by E.contents E.faults E.flushed errors.old errors.new) result }
    ensures output { (result ≡ 7) ↔ (W.faults sink.old < W.faults sink.new) }
{
    match parse_args(alloc, words) {
        Ok(request) => {
            let finished = carry_out(alloc, files, &request, take, sink);
            report(errors, &finished.end)
        }
        Err(fault) => refuse(&fault, sink, errors),
    }
}

/// Says at a terminal what the program waits for.
fn say_hint<E: Sink>(errors: &mut E, at_terminal: bool)
    ensures { SaysHint at_terminal
        (written_by E.contents E.faults E.flushed errors.old errors.new) }
{
    if at_terminal {
        say(errors, TERMINAL_HINT);
    }
}

/// Answers no words: a joined input. Returns the exit status.
fn answer_joined<I: StandardInput, W: Sink, E: Sink>(
    alloc: Global,
    input: &mut I,
    at_terminal: bool,
    sink: &mut W,
    errors: &mut E,
) -> u8
    ensures answers { AnswersJoined at_terminal (I.standard_bytes input.old)
        (HasRead I.standard_readings input.old input.new)
        (written_by W.contents W.faults W.flushed sink.old sink.new)
        (written_by E.contents E.faults E.flushed errors.old errors.new) result }
    ensures output { (result ≡ 7) ↔ (W.faults sink.old < W.faults sink.new) }
{
    say_hint(errors, at_terminal);
    report(errors, &print_joined(alloc, input, sink).end)
}

/// The words after the program's name.
fn after_name(given: &[String]) -> &[String]
    ensures { result.now ≡ drop 1 given.now }
{
    match given.split_first() {
        Some((_, words)) => words,
        None => given,
    }
}

/// Borrows the words.
fn borrowed<'a>(alloc: Global, words: &'a [String]) -> Result<Vec<&'a str>, AllocError>
    ensures { IfOk result (λ all. texts_of all.items ≡ map string_bytes words.now) }
{
    let mut all = Vec::new(alloc);
    for word in words {
        all.push(word.as_str())?;
    }
    Ok(all)
}

/// Answers the words that the system gives: those after the first, which is the program's name, or without any a joined input. Returns
/// the exit status. A count takes its votes by this call, at most once; nothing else waits.
pub fn answer<
    S: Sources,
    I: StandardInput,
    V: FnOnce(&Poll, &Lines<'_>, u8) -> Result<Audited, VoteFault> + Drop,
    W: Sink,
    E: Sink,
>(
    alloc: Global,
    files: &mut S,
    input: &mut I,
    given: &[String],
    at_terminal: bool,
    take: V,
    sink: &mut W,
    errors: &mut E,
) -> u8
    requires take { TakesVotes (V.pre take) (V.post take) }
    ensures sheet { 1 < length given.now
        → WritesTheSheet (S.file_bytes files.old) (HasRead S.file_readings files.old files.new)
        (words_in given.now)
        (written_by W.contents W.faults W.flushed sink.old sink.new)
        (written_by E.contents E.faults E.flushed errors.old errors.new) result }
    ensures alone { length given.now ≤ 1
        → AnswersJoined at_terminal (I.standard_bytes input.old)
        (HasRead I.standard_readings input.old input.new)
        (written_by W.contents W.faults W.flushed sink.old sink.new)
        (written_by E.contents E.faults E.flushed errors.old errors.new) result }
    ensures worded { 1 < length given.now
        → AnswersWorded (S.file_bytes files.old) (HasRead S.file_readings files.old files.new)
        (V.post take) (words_in given.now)
        (written_by W.contents W.faults W.flushed sink.old sink.new)
        (written_by E.contents E.faults E.flushed errors.old errors.new) result }
    ensures due { 1 < length given.now
        → EndsAsDue (S.file_bytes files.old) (V.post take) (words_in given.now) result }
    ensures no_input { 1 < length given.now → input.new ≡ input.old }
    ensures no_file { length given.now ≤ 1 → files.new ≡ files.old }
    ensures output { (result ≡ 7) ↔ (W.faults sink.old < W.faults sink.new) }
{
    let words = after_name(given);
    if words.is_empty() {
        return answer_joined(alloc, input, at_terminal, sink, errors);
    }
    match borrowed(alloc, words) {
        Ok(words) => answer_words(alloc, files, words.as_slice(), take, sink, errors),
        Err(fault) => refuse(&ArgsFault::from(fault), sink, errors),
    }
}
