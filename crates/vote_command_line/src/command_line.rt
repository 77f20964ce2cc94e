//! The command line.

ghost use Rattle.std.specs.Prelude.{◌≡◌, ◌≢◌, ℕ, IfErr, IfNone, IfOk, IfSome, codes, false, option_copied};
ghost use Rattle.clap.specs.Values.{kind_of};
ghost use Rattle.clap.specs.declared.builder.command.Command.TheViews.{out-Command as fields_of};
ghost use Rattle.clap.specs.Words.{app_of, first_of, found_of, rows_of, rule_of, subcommand_rows_of};
ghost use Rattle.vote_command_line.specs.CommandLine.{bare_command, debvote_command, desks_flag, flag, required_flag};
ghost use Rattle.vote_command_line.specs.ParsedArgs.{HasDesks, IsFaultOfKind, IsPrinted, IsRequestOf, IsSubcommandOf, IsSubcommandOfNone, is_stream, listing_name, purpose_name, told_name};
ghost use Rattle.vote_request.specs.Requests.{DesksFit};
ghost use Rattle.vote_command_line.specs.Subcommands.{flag_rule, name_and_flags, subcommand_app};
ghost use Rattle.vote_command_line.specs.Words.{AreArgsOf, HaveArgsFault, texts_of};
ghost use Rattle.vote_command_line.specs.declared.command_line.ArgsFault.TheVariants.{Help, Memory, NotUtf8};

use crate::VERSION;
use clap::error::ErrorKind;
use clap::{Arg, ArgAction, ArgMatches, Command, Error};
use std::alloc::{AllocError, Global};
use vote_request::{Listing, MAX_DESKS, Purpose, Request};

/// What the command line asks for: a request on files by their names.
pub type NamedRequest<'a> = Request<'a, &'a str>;

/// Why the command line has no request.
#[derive(Debug, Drop, thiserror::Error)]
pub enum ArgsFault {
    /// The words ask for help, and this is its text.
    #[error("{0}")]
    Help(String),
    /// The words are refused, for this reason.
    #[error("{0}")]
    Refused(String),
    /// A word is not UTF-8, so [`parse_args`] was not called.
    #[error("an argument is not UTF-8")]
    NotUtf8,
    /// Memory ran out.
    #[error("out of memory")]
    Memory,
}

impl From<AllocError> for ArgsFault {
    ghost use Rattle.std.specs.Prelude.{◌≡◌};
    ghost use Rattle.vote_command_line.specs.declared.command_line.ArgsFault.TheVariants.{Memory};

    ghost from_gives = { λ _ e. e ≡ Memory };

    fn from(_fault: AllocError) -> ArgsFault {
        ArgsFault::Memory
    }
}

/// A flag with one value, and its line in the help.
fn value_arg<'a>(alloc: Global, id: &'a str, value: &'a str, help: &'a str) -> Arg<'a>
    ensures rule { rule_of result ≡ flag id.entry.now }
    ensures local { result.global ≡ false }
{
    Arg::new(alloc, id)
        .long(id)
        .value_name(value)
        .action(ArgAction::Set)
        .help(help)
}

/// A required flag with one file.
fn file_arg<'a>(alloc: Global, id: &'a str, help: &'a str) -> Arg<'a>
    ensures rule { rule_of result ≡ required_flag id.entry.now }
    ensures local { result.global ≡ false }
{
    value_arg(alloc, id, "FILE", help).required(true)
}

/// The help on the ballot file.
const BALLOTS_HELP: &str = "The ballot file, one ballot a line: name 1,2,3";

/// The help on the number of desks.
const DESKS_HELP: &str = "How many desks enter ballots at once, 1 to 8; the result is the same";

/// A flag of the commands.
#[derive(Clone, Copy)]
enum Flag {
    /// The poll file.
    Poll,
    /// The ballot file.
    Ballots,
    /// The ballot file, which may be omitted.
    BallotsIfGiven,
    /// The published sheet.
    Sheet,
    /// How many desks enter ballots at once.
    Desks,
    /// The option that the casting vote chooses.
    Casting,
}

/// The flag with the number of desks.
fn desks_arg<'a>(alloc: Global) -> Arg<'a>
    ensures rule { rule_of result ≡ desks_flag }
    ensures local { result.global ≡ false }
{
    value_arg(alloc, "desks", "K", DESKS_HELP)
        .value_parser(clap::value_parser!(u8).range(1..=i64::from(MAX_DESKS)))
        .default_value("1")
}

/// The flag, as `clap` takes it.
fn arg_of<'a>(alloc: Global, flag: Flag) -> Arg<'a>
    ensures rule { rule_of result ≡ flag_rule flag }
    ensures local { result.global ≡ false }
{
    match flag {
        Flag::Poll => file_arg(alloc, "poll", "The poll file, in TOML"),
        Flag::Ballots => file_arg(alloc, "ballots", BALLOTS_HELP),
        Flag::BallotsIfGiven => value_arg(alloc, "ballots", "FILE", BALLOTS_HELP),
        Flag::Sheet => file_arg(alloc, "sheet", "The sheet that was published"),
        Flag::Desks => desks_arg(alloc),
        Flag::Casting => value_arg(
            alloc,
            "casting",
            "NAME",
            "The option that the casting vote chooses in a tie (its exact name)",
        ),
    }
}

/// A command of the program.
#[derive(Clone, Copy)]
enum Subcommand {
    Count,
    Steps,
    Check,
    Explain,
    Standing,
    Verify,
    Picture,
}

/// The commands, in the order in which help lists them.
const SUBCOMMANDS: [Subcommand; 7] = [
    Subcommand::Count,
    Subcommand::Steps,
    Subcommand::Check,
    Subcommand::Explain,
    Subcommand::Standing,
    Subcommand::Verify,
    Subcommand::Picture,
];

/// The flags of a command that reads only the poll.
const CHECK_FLAGS: [Flag; 1] = [Flag::Poll];

/// The flags of a command on a poll and its ballots.
const BALLOTS_FLAGS: [Flag; 2] = [Flag::Poll, Flag::Ballots];

/// The flags of `explain`.
const EXPLAIN_FLAGS: [Flag; 2] = [Flag::Poll, Flag::BallotsIfGiven];

/// The flags of a command that counts, with an optional casting vote.
const COUNT_FLAGS: [Flag; 4] = [Flag::Poll, Flag::Ballots, Flag::Desks, Flag::Casting];

/// The flags of `verify`.
const VERIFY_FLAGS: [Flag; 4] = [Flag::Poll, Flag::Ballots, Flag::Sheet, Flag::Desks];

impl Subcommand {
    /// The command's name on the command line.
    fn name<'a>(self) -> &'a str
        ensures { result.now ≡ (name_and_flags self).0 }
    {
        match self {
            Subcommand::Count => "count",
            Subcommand::Steps => "steps",
            Subcommand::Check => "check",
            Subcommand::Explain => "explain",
            Subcommand::Standing => "standing",
            Subcommand::Verify => "verify",
            Subcommand::Picture => "picture",
        }
    }

    /// What help says about the command.
    fn about<'a>(self) -> &'a str {
        match self {
            Subcommand::Count => "Counts the ballots and prints the result",
            Subcommand::Steps => "Prints the reply to each ballot",
            Subcommand::Check => "Checks a poll file",
            Subcommand::Explain =>
                "Reports every problem in a poll and its ballots, and where it is",
            Subcommand::Standing => "Prints the ballots that count: each elector's last valid one",
            Subcommand::Verify => {
                "Counts the ballots and compares the result with a published sheet"
            }
            Subcommand::Picture => {
                "Counts the ballots and prints the result as a graph for Graphviz"
            }
        }
    }

    /// The flags of the command, in the order in which help lists them.
    fn flags(self) -> &'static [Flag]
        ensures { result.now ≡ (name_and_flags self).1 }
    {
        match self {
            Subcommand::Count | Subcommand::Picture => &COUNT_FLAGS,
            Subcommand::Steps | Subcommand::Standing => &BALLOTS_FLAGS,
            Subcommand::Check => &CHECK_FLAGS,
            Subcommand::Explain => &EXPLAIN_FLAGS,
            Subcommand::Verify => &VERIFY_FLAGS,
        }
    }
}

/// The command with its flags, as `clap` takes it.
fn command_of<'a>(alloc: Global, subcommand: Subcommand) -> Result<Command<'a>, AllocError>
    ensures app { IfOk result (λ c. app_of c ≡ subcommand_app subcommand) }
    ensures local { IfOk result (λ c. (fields_of c).has_globals ≡ false) }
{
    let mut command = Command::new(alloc, subcommand.name()).about(subcommand.about());
    for flag in subcommand.flags() {
        command = command.arg(arg_of(alloc, *flag))?;
    }
    Ok(command)
}

/// The end of the help: what is done without a command, who says why, and the exit statuses.
const LAST_HELP: &str =
    "Without a command it acts as steps on standard input: poll, a line %%, ballots

If a file is refused, explain says why, and where

Exit statuses:
  0  success: there is a winner, no problem was found, or the sheet was verified
  1  a tie, and no casting vote was given; the result is printed
  2  the command line is refused
  3  the poll file is refused or can't be read
  4  the ballot file is refused or can't be read
  5  out of memory, or a thread could not be started
  6  the votes could not be taken, or their audit failed
  7  the output failed
  8  the casting vote is for an option that is not left, or not in the poll
  9  something was found by explain, or differs by verify
 10  the sheet can't be read";

/// The program without its subcommands. Its name is given, since the words come without it.
fn bare_command<'a>(alloc: Global) -> Result<Command<'a>, AllocError>
    ensures app { IfOk result (λ c. app_of c ≡ bare_command) }
    ensures local { IfOk result (λ c. (fields_of c).has_globals ≡ false) }
{
    Command::new(alloc, "debvote")
        .about("Counts votes by the Debian Constitution")
        .version(VERSION)
        .override_usage("debvote [COMMAND]")
        .after_help(LAST_HELP)
        .no_binary_name(true)
        .subcommand_required(true)
        .bin_name("debvote")
}

/// The program with its commands.
fn debvote_command<'a>(alloc: Global) -> Result<Command<'a>, AllocError>
    ensures app { IfOk result (λ c. app_of c ≡ debvote_command) }
    ensures local { IfOk result (λ c. (fields_of c).has_globals ≡ false) }
{
    let mut program = bare_command(alloc)?;
    for subcommand in SUBCOMMANDS {
        let command = command_of(alloc, subcommand)?;
        program = program.subcommand(command)?;
    }
    Ok(program)
}

/// The number of desks, if it is in range.
fn desks_given(given: &ArgMatches<'_>) -> Option<u8>
    ensures found { IfSome result (HasDesks (rows_of (found_of given.now))) }
    ensures none { IfNone result ((desks : ℕ) → HasDesks (rows_of (found_of given.now)) desks → ⊥) }
{
    let desks = given.get_one::<u8>("desks")?;
    if 1 <= desks && desks <= MAX_DESKS {
        Some(desks)
    } else {
        None
    }
}

/// The text that is given for a flag.
#[tactic(auto, using(crate::proofs::ArgLemmas::first_value_rows))]
fn text_given<'a>(given: &ArgMatches<'a>, id: &str) -> Option<&'a str>
    ensures { option_copied result ≡ first_of id.now (rows_of (found_of given.now)) }
{
    given.get_str(id)
}

/// Whether a later command might read other bytes under this name: a stream, or `-`, which other programs take for standard input.
fn is_stream(name: &[u8]) -> bool
    ensures { result ≡ is_stream name.now }
{
    name == b"-".as_slice() || name == b"/dev/stdin".as_slice() || name.starts_with(b"/dev/fd/")
}

/// The name; `None` if it is a stream.
fn told_name(name: &str) -> Option<&str>
    ensures { option_copied result ≡ told_name name.now }
{
    if is_stream(name.as_bytes()) {
        None
    } else {
        Some(name)
    }
}

/// The name of the option that the casting vote chooses, if there is a casting vote.
#[tactic(auto, using(crate::proofs::ArgLemmas::first_value_rows))]
fn casting_given<'a>(given: &ArgMatches<'a>) -> Option<&'a [u8]>
    ensures { option_copied result ≡ first_of (codes "casting") (rows_of (found_of given.now)) }
{
    match given.get_str("casting") {
        Some(name) => Some(name.as_bytes()),
        None => None,
    }
}

/// The request of a count that compares no sheet.
fn count_request<'a>(given: &ArgMatches<'a>, purpose: Purpose<&'a str>) -> Option<NamedRequest<'a>>
    requires { IsPrinted purpose }
    ensures { IsRequestOf (purpose_name purpose.entry) (rows_of (found_of given.now)) result }
{
    Some(Request::Count {
        poll: text_given(given, "poll")?,
        ballots: text_given(given, "ballots")?,
        desks: desks_given(given)?,
        casting: casting_given(given),
        purpose,
    })
}

fn verify_request<'a>(given: &ArgMatches<'a>) -> Option<NamedRequest<'a>>
    ensures { IsRequestOf (codes "verify") (rows_of (found_of given.now)) result }
{
    Some(Request::Count {
        poll: text_given(given, "poll")?,
        ballots: text_given(given, "ballots")?,
        desks: desks_given(given)?,
        casting: None,
        purpose: Purpose::Verification(text_given(given, "sheet")?),
    })
}

fn list_request<'a>(given: &ArgMatches<'a>, listing: Listing) -> Option<NamedRequest<'a>>
    ensures { IsRequestOf (listing_name listing) (rows_of (found_of given.now)) result }
{
    Some(Request::List {
        poll: text_given(given, "poll")?,
        ballots: text_given(given, "ballots")?,
        listing,
    })
}

fn check_request<'a>(given: &ArgMatches<'a>) -> Option<NamedRequest<'a>>
    ensures { IsRequestOf (codes "check") (rows_of (found_of given.now)) result }
{
    Some(Request::Check {
        poll: text_given(given, "poll")?,
    })
}

fn explain_request<'a>(given: &ArgMatches<'a>) -> Option<NamedRequest<'a>>
    ensures { IsRequestOf (codes "explain") (rows_of (found_of given.now)) result }
{
    let ballots = text_given(given, "ballots");
    let poll = text_given(given, "poll")?;
    Some(Request::Explain {
        poll,
        ballots,
        file: match ballots {
            Some(name) => told_name(name),
            None => None,
        },
        poll_name: told_name(poll),
    })
}

/// The request of the subcommand that is given.
fn request_of<'a>(matches: &ArgMatches<'a>) -> Option<NamedRequest<'a>>
    ensures found { IfSome result (IsSubcommandOf (subcommand_rows_of matches.now)) }
    ensures none { IfNone result (IsSubcommandOfNone (subcommand_rows_of matches.now)) }
{
    let (name, given) = matches.subcommand()?;
    match name {
        "count" => count_request(given, Purpose::Sheet),
        "steps" => list_request(given, Listing::Steps),
        "check" => check_request(given),
        "explain" => explain_request(given),
        "standing" => list_request(given, Listing::Standing),
        "verify" => verify_request(given),
        "picture" => count_request(given, Purpose::Picture),
        _ => None,
    }
}

/// The fault for an error of this kind: help that was asked for or a refusal, with `clap`'s text, or no memory.
fn fault_of_kind(kind: ErrorKind, text: String) -> ArgsFault
    ensures { IsFaultOfKind kind result }
{
    match kind {
        ErrorKind::DisplayHelp | ErrorKind::DisplayVersion => ArgsFault::Help(text),
        ErrorKind::OutOfMemory => ArgsFault::Memory,
        _ => ArgsFault::Refused(text),
    }
}

/// The fault for an error of `clap`. It is `Memory` if there is no memory for `clap`'s text.
fn args_fault_of(alloc: Global, error: &Error) -> ArgsFault
    ensures { result ≢ Memory → IsFaultOfKind (kind_of error.now) result }
{
    match error.to_string(alloc) {
        Ok(text) => fault_of_kind(error.kind(), text),
        Err(fault) => ArgsFault::from(fault),
    }
}

/// The refusal of words that `clap` accepts but that make no request, with the program's usage. It is `Memory` if there is no
/// memory for the usage.
fn no_request(command: &mut Command<'_>) -> ArgsFault
    ensures refuses { (text : _) → result ≢ Help text }
    ensures read { result ≢ NotUtf8 }
{
    match command.render_usage() {
        Ok(usage) => ArgsFault::Refused(usage),
        Err(fault) => ArgsFault::from(fault),
    }
}

/// Returns the request of these words, by this program's command line. The command line is lent, so that it is dropped in one
/// place.
fn parse_args_with<'a>(
    alloc: Global,
    command: &mut Command<'a>,
    words: &'a [&'a str],
) -> Result<NamedRequest<'a>, ArgsFault>
    requires app { app_of command.old ≡ debvote_command }
    ensures desks { IfOk result DesksFit }
    ensures ok { IfOk result (AreArgsOf (texts_of words.entry.now)) }
    ensures no_request { IfErr result (HaveArgsFault (texts_of words.entry.now)) }
{
    let matches = match command.try_get_matches_from_mut(words) {
        Ok(matches) => matches,
        Err(error) => return Err(args_fault_of(alloc, &error)),
    };
    match request_of(&matches) {
        Some(request) => Ok(request),
        None => Err(no_request(command)),
    }
}

/// Returns the request of the words after the program's name.
pub fn parse_args<'a>(alloc: Global, words: &'a [&'a str]) -> Result<NamedRequest<'a>, ArgsFault>
    ensures desks { IfOk result DesksFit }
    ensures ok { IfOk result (AreArgsOf (texts_of words.entry.now)) }
    ensures no_request { IfErr result (HaveArgsFault (texts_of words.entry.now)) }
{
    match debvote_command(alloc) {
        Ok(mut command) => parse_args_with(alloc, &mut command, words),
        Err(fault) => Err(ArgsFault::from(fault)),
    }
}
