//! The lines of findings: of a fault, with what was found and what is wanted, and of a key that is not read.
ghost use Rattle.std.specs.Prelude.{◌≡◌, IfOk, string_bytes};
ghost use Rattle.toml.specs.View.{table_view};
ghost use Rattle.vote_poll_text.specs.Adding.{Adds};
ghost use Rattle.vote_poll_keys.specs.FoundView.{found_view};
ghost use Rattle.vote_explain_poll.specs.Findings.{IsSaidOfFault, IsSaidOfQuorum, SaysFault, SaysKey, size_of_roll, votes_needed, what_a_quorum_is};
ghost use Rattle.vote_hints.specs.Hints.{Tells};
ghost use Rattle.vote_explain_poll.specs.UnreadKeys.{IsKeyRemark};

use crate::near::near_key;
use crate::structure::{structure_of, texts_at};
use crate::syntax::{first_line, line_begins, push_line_at};
use crate::unread::UnreadKey;
use indexmap::IndexMap;
use std::alloc::{AllocError, Global};
use toml::{Table, Value};
use vote_hints::{MAX_SHOWN, push_character, push_hint_line};
use vote_poll::{MAX_ELECTORS, MAX_OPTIONS, MAX_QUORUM_MULTIPLE, MAX_RATIO, parse_ratio, times_q};
use vote_poll_keys::{FoundKeys, PollFault, PollKey, value_at};
use vote_poll_text::{
    MAX_LINES, MAX_OPTION_NAME, MAX_TITLE, MAX_VOTER_NAME, is_printable, is_voter_byte, push_shown,
};

/// Adds a text in quotes, at most so many of its bytes as are shown.
fn push_quoted(words: &mut String, text: &str) -> Result<(), AllocError> {
    words.push_str("\"")?;
    push_shown(words, text.as_bytes(), MAX_SHOWN)?;
    words.push_str("\"")
}

/// How many characters of a name stand before the first one that it may not have. Each of them is one byte.
fn before_bad_character(name: &str, is_voter: bool) -> Option<usize> {
    name.bytes().position(|byte| !is_printable(byte) || is_voter && !is_voter_byte(byte))
}

/// Adds a name, and what is wrong with its shape; nothing of the latter if it is a name, of at most so many bytes.
fn push_shape(
    words: &mut String,
    name: &str,
    most: usize,
    is_voter: bool,
) -> Result<bool, AllocError> {
    push_quoted(words, name)?;
    match before_bad_character(name, is_voter) {
        _ if name.is_empty() => words.push_str(" is empty")?,
        _ if name.len() > most => write!(words, " has {} bytes", name.len())?,
        Some(place) => {
            write!(words, " has as character {}: ", place.saturating_add(1))?;
            push_character(words, name.as_bytes().get(place..).unwrap_or(b""))?;
        }
        None if name.starts_with(' ') => words.push_str(" begins with a space")?,
        None if name.ends_with(' ') => words.push_str(" ends with a space")?,
        None => return Ok(false),
    }
    Ok(true)
}

/// Adds what a quorum is.
fn push_what_a_quorum_is(words: &mut String) -> Result<(), AllocError>
    ensures { Adds result words.old what_a_quorum_is words.new }
{
    write!(
        words,
        "; a quorum is a whole number from 0 to {MAX_QUORUM_MULTIPLE}: how many times Q is needed, half the square root of the number of electors"
    )
}

/// Adds how many votes the least and the greatest quorum need.
fn push_votes_needed(
    words: &mut String,
    electors: usize,
    least: u64,
    greatest: u64,
) -> Result<(), AllocError>
    ensures { Adds result words.old (votes_needed electors least greatest) words.new }
{
    write!(
        words,
        "; with a roll of {electors}, the votes needed are {least} for 1 and {greatest} for {MAX_QUORUM_MULTIPLE}"
    )
}

/// Adds what a quorum is, and how many votes the least and the greatest one need with a roll of this size, if a roll may have it.
fn push_quorum(words: &mut String, electors: usize) -> Result<(), AllocError>
    ensures { Tells result words.old (IsSaidOfQuorum electors) words.new }
{
    push_what_a_quorum_is(words)?;
    if electors == 0 || electors > MAX_ELECTORS {
        return Ok(());
    }
    let least = times_q(1, electors);
    let greatest = times_q(MAX_QUORUM_MULTIPLE, electors);
    push_votes_needed(words, electors, least, greatest)?;
    Ok(())
}

/// What a ratio is.
const A_RATIO: &str =
    "; ratio S: S votes for it against each vote for the default: 1 for half, 2 for two thirds, 3 for three quarters";

/// What wordings there are.
const A_WORDING: &str =
    "at_least or more_than: with a ratio S above 1, at_least is met by S votes for it against each vote for the default, more_than only by more";

/// What a last envelope is.
const A_LAST_ENVELOPE: &str = ": the number of the last line of the ballot file that is in time";

/// Adds where the default option stands, with so many other options.
fn push_default(words: &mut String, others: usize) -> Result<(), AllocError> {
    let number = others.saturating_add(1);
    write!(
        words,
        "; the default is option {number}: it is no part of `options`"
    )
}

/// Adds that there are not so many ratios as options but the default, or else which is the first that is no ratio.
fn push_ratios(words: &mut String, ratios: &[i64], others: usize) -> Result<(), AllocError> {
    if ratios.len() != others {
        let found = ratios.len();
        write!(
            words,
            "{found} found; one ratio is wanted for each option but the default, {others} in all"
        )?;
        push_default(words, others)?;
        return words.push_str(A_RATIO);
    }
    let bad = ratios
        .iter()
        .position(|ratio| parse_ratio(*ratio).is_none());
    let (place, option) = (bad.unwrap_or(0), bad.unwrap_or(0).saturating_add(1));
    let ratio = ratios.get(place).copied().unwrap_or(0);
    write!(
        words,
        "{ratio} for option {option}; a ratio is a whole number from 1 to {MAX_RATIO}{A_RATIO}"
    )
}

/// What a value is.
fn kind_words(value: &Value) -> &'static str {
    match value {
        Value::String(_) => "a text",
        Value::Integer(_) => "an integer",
        Value::Float(_) => "a float",
        Value::Boolean(_) => "a boolean",
        Value::Datetime(_) => "a date or time",
        Value::Array(_) => "a list",
        Value::Table(_) => "a table",
    }
}

/// Adds what the value at a key is, and in a list the first entry of the wrong kind: no whole number among ratios, or no text in others.
fn push_kind(words: &mut String, key: PollKey, value: &Value) -> Result<(), AllocError> {
    words.push_str(kind_words(value))?;
    let Value::Array(entries) = value else {
        return Ok(());
    };
    for (place, entry) in entries.iter().enumerate() {
        let is_right = match key {
            PollKey::Ratios => entry.is_integer(),
            PollKey::Options | PollKey::Roll => entry.is_str(),
            _ => true,
        };
        if !is_right {
            let (kind, number) = (kind_words(entry), place.saturating_add(1));
            return write!(words, " with {kind} as entry {number}");
        }
    }
    Ok(())
}

/// Adds what belongs at a key, whose value is of the wrong kind or missing; nothing of a quorum.
fn push_wanted(words: &mut String, key: PollKey) -> Result<(), AllocError> {
    match key {
        PollKey::Title => words.push_str("; a text is wanted"),
        PollKey::DefaultOption => words.push_str("; the name of the default option is wanted"),
        PollKey::Wording => write!(words, "; a text is wanted: {A_WORDING}"),
        PollKey::Options | PollKey::Roll => words.push_str("; a list of texts is wanted"),
        PollKey::Ratios => write!(
            words,
            "; a list of whole numbers from 1 to {MAX_RATIO} is wanted, one for each option but the default{A_RATIO}"
        ),
        PollKey::Quorum => Ok(()),
        PollKey::LastEnvelope => write!(
            words,
            "; a whole number from 0 to {MAX_LINES} is wanted{A_LAST_ENVELOPE}"
        ),
    }
}

/// The names of a list, each with the place at which it stands first.
fn with_first_places<'t>(
    alloc: Global,
    names: &[&'t str],
) -> Result<Vec<(&'t str, usize)>, AllocError> {
    let mut seen = IndexMap::new(alloc);
    let mut placed = Vec::new(alloc);
    for (place, name) in names.iter().enumerate() {
        let first = *seen.entry(*name)?.or_insert(place);
        placed.push((*name, first))?;
    }
    Ok(placed)
}

/// The entries of a list that was found, or none.
fn entries<T>(list: &Option<Vec<T>>) -> &[T] {
    list.as_deref().unwrap_or(&[])
}

/// How many names are on the roll that was found.
fn roll_size(keys: &FoundKeys<'_>) -> usize
    ensures { result ≡ size_of_roll (found_view keys.now) }
{
    match &keys.roll {
        Some(roll) => roll.len(),
        None => 0,
    }
}

/// The key at which a fault is, if it is at one.
fn key_of(fault: PollFault) -> Option<PollKey> {
    match fault {
        PollFault::Syntax | PollFault::Memory => None,
        PollFault::Key(key) => Some(key),
        PollFault::Title => Some(PollKey::Title),
        PollFault::OptionCount => Some(PollKey::Options),
        PollFault::OptionName(_) => Some(PollKey::DefaultOption),
        PollFault::Ratio => Some(PollKey::Ratios),
        PollFault::Quorum => Some(PollKey::Quorum),
        PollFault::RollSize | PollFault::VoterName(_) => Some(PollKey::Roll),
        PollFault::LastEnvelope => Some(PollKey::LastEnvelope),
        PollFault::Wording => Some(PollKey::Wording),
    }
}

/// What hints on a poll file are made of.
#[derive(Drop)]
pub(crate) struct Hints<'f> {
    poll: &'f [u8],
    /// The table of the file.
    file: &'f Table,
    keys: &'f FoundKeys<'f>,
    unread: &'f [UnreadKey<'f>],
    options: Vec<(&'f str, usize)>,
    roll: Vec<(&'f str, usize)>,
    /// Where the options and the names of the roll are in the file, and how many bytes each has.
    option_places: Vec<(usize, usize)>,
    roll_places: Vec<(usize, usize)>,
    line_begins: Vec<usize>,
}

impl<'f> Hints<'f> {
    /// Of a file with this table, its keys that were found, and those that are not read.
    pub(crate) fn of(
        alloc: Global,
        poll: &'f [u8],
        file: &'f Table,
        keys: &'f FoundKeys<'f>,
        unread: &'f [UnreadKey<'f>],
    ) -> Result<Hints<'f>, AllocError>
        ensures file { IfOk result (λ hints. table_view hints.file.now ≡ table_view file.now) }
        ensures keys { IfOk result (λ hints. hints.keys.now ≡ keys.now) }
    {
        let names = keys.option_names(alloc)?;
        Ok(Hints {
            poll,
            file,
            keys,
            unread,
            options: with_first_places(alloc, entries(&names))?,
            roll: with_first_places(alloc, entries(&keys.roll))?,
            option_places: texts_at(alloc, poll, b"options")?,
            roll_places: texts_at(alloc, poll, b"roll")?,
            line_begins: line_begins(alloc, poll)?,
        })
    }

    /// Adds what is said of a key that is not read: where a key of its name is read, or a missing key that is near to it, or nothing.
    fn push_remark(
        &self,
        alloc: Global,
        text: &mut String,
        key: &UnreadKey<'_>,
    ) -> Result<(), AllocError>
        ensures { Tells result text.old (IsKeyRemark (table_view self.now.file.now) key.now.name) text.new }
    {
        let None = PollKey::named(key.name) else {
            return text.push_str("; it is read above all tables alone");
        };
        match near_key(alloc, self.file, key.name)? {
            Some(near) => write!(text, "; did you mean {near}?"),
            None => Ok(()),
        }
    }

    /// Adds what was found where the file has a fault, and what is wanted there, in words that may be longer than a hint; of a quorum only
    /// what was found.
    fn push_fault(&self, words: &mut String, fault: PollFault) -> Result<(), AllocError> {
        let keys = self.keys;
        let others = entries(&keys.options).len();
        match fault {
            PollFault::Syntax => words.push_str("it is no TOML"),
            PollFault::Key(key) => self.push_key(words, key),
            PollFault::Title => {
                push_shape(words, keys.title.unwrap_or(""), MAX_TITLE, false)?;
                write!(
                    words,
                    "; a title has 1 to {MAX_TITLE} printable characters of ASCII"
                )
            }
            PollFault::OptionCount => {
                write!(
                    words,
                    "{} found; with the default option, a poll has 2 to {MAX_OPTIONS}",
                    others.saturating_add(1)
                )?;
                push_default(words, others)
            }
            PollFault::OptionName(option) => self.push_option(words, option.saturating_sub(1)),
            PollFault::Ratio => push_ratios(words, entries(&keys.ratios), others),
            PollFault::Quorum => write!(words, "{} found", keys.quorum.unwrap_or(0)),
            PollFault::RollSize => {
                let found = self.roll.len();
                write!(words, "{found} found; a roll has 1 to {MAX_ELECTORS} names")
            }
            PollFault::VoterName(place) => self.push_voter(words, place),
            PollFault::LastEnvelope => write!(
                words,
                "{} found; a last envelope is a whole number from 0 to {MAX_LINES}{A_LAST_ENVELOPE}",
                keys.last_envelope.unwrap_or(0)
            ),
            PollFault::Wording => {
                push_quoted(words, keys.wording.unwrap_or(""))?;
                write!(words, " found; a wording is {A_WORDING}")
            }
            PollFault::Memory => words.push_str("out of memory"),
        }
    }

    /// Adds what is wrong with the name of the option at a place, from 0.
    fn push_option(&self, words: &mut String, place: usize) -> Result<(), AllocError> {
        let (name, first) = self.options.get(place).copied().unwrap_or(("", place));
        if !push_shape(words, name, MAX_OPTION_NAME, false)? {
            write!(words, " is option {} too", first.saturating_add(1))?;
        }
        write!(
            words,
            "; an option's name has 1 to {MAX_OPTION_NAME} printable characters of ASCII, no space at either end, and no other option has it"
        )?;
        match entries(&self.keys.options).len() {
            others if others == place => push_default(words, others),
            _ => Ok(()),
        }
    }

    /// Adds what is wrong with the name of the voter at a place, from 0.
    fn push_voter(&self, words: &mut String, place: usize) -> Result<(), AllocError> {
        let (name, first) = self.roll.get(place).copied().unwrap_or(("", place));
        if !push_shape(words, name, MAX_VOTER_NAME, true)? {
            write!(words, " is at position {first} too")?;
        }
        write!(
            words,
            "; a voter's name has 1 to {MAX_VOTER_NAME} of a to z, 0 to 9, . and -, and no other voter has it; positions count from 0"
        )
    }

    /// Adds what is wrong with a key: it is missing, or it is of the wrong kind.
    fn push_key(&self, words: &mut String, key: PollKey) -> Result<(), AllocError> {
        match value_at(self.file, key) {
            Some(value) => push_kind(words, key, value)?,
            None => self.push_tables(words, key)?,
        }
        push_wanted(words, key)
    }

    /// Adds that a key is missing, and each table that has it.
    fn push_tables(&self, words: &mut String, missing: PollKey) -> Result<(), AllocError> {
        words.push_str("it is missing")?;
        let mut before = " above all tables, and is in [";
        for key in self.unread {
            if key.name == missing.name() {
                words.push_str(before)?;
                push_shown(words, key.table_path(), MAX_SHOWN)?;
                words.push_str("]")?;
                before = " and in [";
            }
        }
        Ok(())
    }

    /// Where a fault is in the file, and how many bytes are there: a name in a list, or else the line of a key.
    fn place_of(&self, fault: PollFault) -> Option<(usize, usize)> {
        let text = match fault {
            PollFault::OptionName(option) => self.option_places.get(option.saturating_sub(1)),
            PollFault::VoterName(place) => self.roll_places.get(place),
            _ => None,
        };
        if text.is_some() {
            return text.copied();
        }
        let place = structure_of(self.poll, key_of(fault)?.name().as_bytes()).top?;
        let line = first_line(self.poll.get(place..).unwrap_or(b""));
        Some((place, line.len()))
    }

    /// What was found where the file has a fault, and what is wanted there.
    fn words_of(&self, alloc: Global, fault: PollFault) -> Result<String, AllocError>
        ensures { IfOk result (λ words. IsSaidOfFault (size_of_roll (found_view self.now.keys.now)) fault (string_bytes words)) }
    {
        let mut words = String::new(alloc);
        self.push_fault(&mut words, fault)?;
        if let PollFault::Quorum | PollFault::Key(PollKey::Quorum) = fault {
            push_quorum(&mut words, roll_size(self.keys))?;
        }
        Ok(words)
    }
}

/// Adds the line of a fault: the words of its fault line, what was found, and the line of the file at which it is.
pub(crate) fn push_fault_line(
    alloc: Global,
    text: &mut String,
    fault: PollFault,
    hints: &Hints<'_>,
) -> Result<(), AllocError>
    ensures { Tells result text.old (SaysFault (size_of_roll (found_view hints.now.keys.now)) fault) text.new }
{
    write!(text, "poll: {}: ", fault.words())?;
    let words = hints.words_of(alloc, fault)?;
    push_hint_line(text, words.as_bytes())?;
    let place = hints.place_of(fault);
    push_line_at(alloc, text, hints.poll, &hints.line_begins, place)?;
    Ok(())
}

/// Adds the line of a key that is not read.
pub(crate) fn push_key_line(
    alloc: Global,
    text: &mut String,
    key: &UnreadKey<'_>,
    hints: &Hints<'_>,
) -> Result<(), AllocError>
    ensures { Tells result text.old (SaysKey (table_view hints.now.file.now) key.now) text.new }
{
    let path = key.path(alloc)?;
    text.push_str("poll: key ")?;
    push_shown(text, &path, MAX_SHOWN)?;
    text.push_str(" is not read")?;
    hints.push_remark(alloc, text, key)?;
    text.push_str("\n")?;
    Ok(())
}
