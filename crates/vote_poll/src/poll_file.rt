//! Reading a poll file: its keys, their faults, and the poll if there is no fault.
ghost use Rattle.std.specs.Prelude.{◌≡◌, [], None, true, IfOk, map, nat_abs, option_and_then, option_copied, string_bytes, unwrap_or};
ghost use Rattle.std.specs.List.{list_all};
ghost use Rattle.toml.specs.Data.{Members};
ghost use Rattle.vote_poll_keys.specs.FoundView.{found_view, numbers_view, texts, texts_view};
ghost use Rattle.vote_poll_keys.specs.Keys.{Gives};
ghost use Rattle.vote_poll_text.specs.Names.{is_voter_name};
ghost use Rattle.vote_poll.specs.Names.{first_bad};
ghost use Rattle.vote_poll.specs.PollFaults.{IsJudged};
ghost use Rattle.vote_poll.specs.Meant.{PollsKeepTheLimits};
ghost use Rattle.vote_poll.specs.PollFile.{FirstIsTold, GivesPollOrFirst, poll_in, poll_of};
ghost use Rattle.vote_poll.specs.PollValues.{is_integer_within, last_envelope_in, quorum_in, wording_in};
ghost use Rattle.vote_poll.specs.declared.wording.Wording.TheVariants.{AtLeast};
ghost use Rattle.vote_poll.specs.declared.TheConstants.{MAX_RATIO};

use crate::faults::{parse_last_envelope, parse_quorum, parse_ratio, push_faults};
use crate::poll::Poll;
use crate::wording::{Wording, parse_wording};
use indexmap::IndexSet;
use std::alloc::{AllocError, Global};
use vote_poll_keys::{FoundKeys, PollFault, document};

/// The texts of a list, or no texts if the list was not found.
fn texts_or_none<'l, 't>(list: &'l Option<Vec<&'t str>>) -> &'l [&'t str]
    ensures { texts result.now ≡ unwrap_or (texts_view list.now) [] }
{
    match list {
        Some(texts) => texts,
        None => &[],
    }
}

/// The numbers of a list, or no numbers if the list was not found.
fn numbers_or_none(list: &Option<Vec<i64>>) -> &[i64]
    ensures { result.now ≡ unwrap_or (numbers_view list.now) [] }
{
    match list {
        Some(numbers) => numbers,
        None => &[],
    }
}

/// Copies of the names of options.
fn copies_of(alloc: Global, names: &[&str]) -> Result<Vec<String>, AllocError>
    ensures { IfOk result (λ copies. map string_bytes copies.items ≡ texts names.now) }
{
    let mut copies = Vec::new(alloc);
    for name in names {
        copies.push(String::from_str(alloc, name)?)?;
    }
    Ok(copies)
}

/// The roll of voters. None of the names is bad. The number of a voter is the index of the name.
fn roll_of(alloc: Global, names: &[&str]) -> Result<IndexSet<String>, AllocError>
    requires { first_bad is_voter_name (texts names.now) ≡ None }
    ensures { IfOk result (λ roll. map string_bytes roll.keys ≡ texts names.now) }
{
    let mut roll = IndexSet::with_capacity(alloc, names.len())?;
    for name in names {
        roll.insert(String::from_str(alloc, name)?)?;
    }
    Ok(roll)
}

/// The numbers as majority ratios. All of them are valid.
fn ratios_of(alloc: Global, numbers: &[i64]) -> Result<Vec<u8>, AllocError>
    requires { list_all (is_integer_within 1 MAX_RATIO) numbers.now ≡ true }
    ensures { IfOk result (λ ratios. ratios.items ≡ map nat_abs numbers.now) }
{
    let mut ratios = Vec::new(alloc);
    for number in numbers {
        ratios.push(parse_ratio(*number).unwrap_or(1))?;
    }
    Ok(ratios)
}

/// The multiple of Q that the key gives, or 0.
fn quorum_of(number: Option<i64>) -> u8
    ensures { result ≡ unwrap_or (option_and_then quorum_in number) 0 }
{
    match number {
        Some(number) => parse_quorum(number).unwrap_or(0),
        None => 0,
    }
}

/// The last envelope that is not late, if the key gives one.
fn last_envelope_of(number: Option<i64>) -> Option<u32>
    ensures { result ≡ option_and_then last_envelope_in number }
{
    match number {
        Some(number) => parse_last_envelope(number),
        None => None,
    }
}

/// The wording that the key gives, or the Constitution's if there is no key.
fn wording_of(text: Option<&str>) -> Wording
    ensures { result ≡ unwrap_or (option_and_then wording_in (option_copied text.entry)) AtLeast }
{
    match text {
        Some(text) => parse_wording(text).unwrap_or(Wording::AtLeast),
        None => Wording::AtLeast,
    }
}

impl Poll {
    /// The poll of a poll file's keys, which have no fault.
    fn of_keys(alloc: Global, keys: &FoundKeys<'_>) -> Result<Poll, AllocError>
        requires { (table : Members) × IsJudged table (found_view keys.now) [] }
        ensures { IfOk result (λ poll. poll ≡ poll_of (found_view keys.now)) }
    {
        let option_names = keys.option_names(alloc)?;
        Ok(Poll {
            title: String::from_str(alloc, keys.title.unwrap_or(""))?,
            options: copies_of(alloc, texts_or_none(&option_names))?,
            ratios: ratios_of(alloc, numbers_or_none(&keys.ratios))?,
            quorum_multiple: quorum_of(keys.quorum),
            roll: roll_of(alloc, texts_or_none(&keys.roll))?,
            last_envelope: last_envelope_of(keys.last_envelope),
            wording: wording_of(keys.wording),
        })
    }

    /// The poll of a poll file's keys, or the first of the file's faults. All its faults have been found, by
    /// `FoundKeys::key_faults` and [`push_faults`](crate::push_faults).
    ///
    /// # Errors
    ///
    /// The first of the faults, if there is one; or [`PollFault::Memory`].
    pub fn unless_faulty(
        alloc: Global,
        keys: &FoundKeys<'_>,
        faults: &[PollFault],
    ) -> Result<Poll, PollFault>
        requires { (table : Members) × IsJudged table (found_view keys.now) faults.now }
        ensures { GivesPollOrFirst (found_view keys.now) faults.now result }
    {
        match faults.first() {
            Some(fault) => Err(*fault),
            None => Ok(Poll::of_keys(alloc, keys)?),
        }
    }

    /// The poll that the text of a poll file means, or the first of its faults. The text is TOML. Its table has the keys of
    /// [`PollKey`](crate::PollKey); the last two may be missing. Other keys are ignored.
    ///
    /// # Errors
    ///
    /// The first [`PollFault`] that holds, in the order of that type, each exactly when it holds; or [`PollFault::Memory`].
    #[tactic(auto, unfolding(crate::specs::PollFile::poll_in))]
    pub fn from_text(alloc: Global, text: &[u8]) -> Result<Poll, PollFault>
        ensures { Gives (λ poll. poll) result (poll_in text.now) }
    {
        let table = document(alloc, text)?;
        let keys = FoundKeys::of_table(alloc, &table)?;
        let mut faults = keys.key_faults(alloc, &table)?;
        push_faults(alloc, &mut faults, &keys)?;
        Poll::unless_faulty(alloc, &keys, &faults)
    }
}

/// A law: a text means a poll exactly when it has no fault, and else it means the first of its faults. [`Poll::from_text`]
/// returns what the text means.
#[tactic(auto, using(crate::proofs::PollFaultsLaws::first_is_told))]
pub fn first_fault_is_told()
    ensures { FirstIsTold }
{}

/// A law: a poll that a text means keeps the limits of a poll.
pub fn polls_keep_the_limits()
    ensures { PollsKeepTheLimits }
{}
