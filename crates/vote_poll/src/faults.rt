//! The faults in the values of a poll file's keys. Each is judged by itself, in this one place.
ghost use Rattle.std.specs.Prelude.{◌≡◌, ◌+◌};
ghost use Rattle.std.specs.List.{list_all};
ghost use Rattle.vote_poll_keys.specs.FoundView.{AddsFaults, found_view};
ghost use Rattle.vote_poll_keys.specs.KeyFaults.{fault_unless};
ghost use Rattle.vote_poll_keys.specs.declared.fault.PollFault.TheVariants as fault;
ghost use Rattle.vote_poll_text.specs.Names.{is_within};
ghost use Rattle.vote_poll.specs.PollFaults.{of_contents, of_last_envelope, of_option_count, of_option_names, of_quorum, of_ratios, of_roll_size, of_title, of_voter_names, of_wording};
ghost use Rattle.vote_poll.specs.PollValues.{is_integer_within, last_envelope_in, quorum_in, ratio_in};
ghost use Rattle.vote_poll.specs.declared.TheConstants.{MAX_ELECTORS, MAX_OPTIONS, MAX_RATIO};

use crate::names::{NameList, push_bad_names};
use crate::wording::parse_wording;
use crate::{MAX_ELECTORS, MAX_OPTIONS, MAX_QUORUM_MULTIPLE, MAX_RATIO};
use std::alloc::{AllocError, Global};
use vote_poll_keys::{FoundKeys, PollFault};
use vote_poll_text::{MAX_LINES, is_title};

/// Appends a fault, unless the value is right.
fn push_unless(
    faults: &mut Vec<PollFault>,
    is_right: bool,
    fault: PollFault,
) -> Result<(), AllocError>
    ensures { AddsFaults result faults.old (fault_unless is_right fault) faults.new }
{
    if !is_right {
        faults.push(fault)?;
    }
    Ok(())
}

/// Whether the title is valid. True if it was not found.
#[tactic(auto, unfolding(crate::specs::PollFaults::of_title))]
fn is_title_right(keys: &FoundKeys<'_>) -> bool
    ensures { fault_unless result fault.Title ≡ of_title (found_view keys.now) }
{
    match keys.title {
        Some(title) => is_title(title.as_bytes()),
        None => true,
    }
}

/// Whether a poll can have this many options besides the default option.
fn can_have_options(others: usize) -> bool
    ensures { result ≡ is_within 2 MAX_OPTIONS (others + 1) }
{
    1 <= others && others < MAX_OPTIONS
}

/// Whether the number of options is valid. True if their list was not found.
#[tactic(auto, unfolding(crate::specs::PollFaults::of_option_count))]
fn is_option_count_right(keys: &FoundKeys<'_>) -> bool
    ensures { fault_unless result fault.OptionCount ≡ of_option_count (found_view keys.now) }
{
    match &keys.options {
        Some(options) => can_have_options(options.len()),
        None => true,
    }
}

/// Appends the faults of the options' names.
#[tactic(auto, unfolding(crate::specs::PollFaults::of_option_names))]
fn push_option_names(
    alloc: Global,
    faults: &mut Vec<PollFault>,
    keys: &FoundKeys<'_>,
) -> Result<(), AllocError>
    ensures { AddsFaults result faults.old (of_option_names (found_view keys.now)) faults.new }
{
    match keys.option_names(alloc)? {
        Some(names) => push_bad_names(alloc, faults, NameList::Options, &names),
        None => Ok(()),
    }
}

/// The number as a majority ratio, if it is from 1 to [`MAX_RATIO`].
pub fn parse_ratio(number: i64) -> Option<u8>
    ensures { result ≡ ratio_in number }
{
    if number < 1 || number > i64::from(MAX_RATIO) {
        return None;
    }
    Some(number as u8)
}

/// Whether all numbers are majority ratios.
fn are_ratios(numbers: &[i64]) -> bool
    ensures { result ≡ list_all (is_integer_within 1 MAX_RATIO) numbers.now }
{
    for number in numbers {
        if parse_ratio(*number).is_none() {
            return false;
        }
    }
    true
}

/// Whether there is one majority ratio for each option but the default. True if one of the two lists was not found.
#[tactic(auto, unfolding(crate::specs::PollFaults::of_ratios))]
fn are_ratios_right(keys: &FoundKeys<'_>) -> bool
    ensures { fault_unless result fault.Ratio ≡ of_ratios (found_view keys.now) }
{
    let Some(options) = &keys.options else {
        return true;
    };
    let Some(ratios) = &keys.ratios else {
        return true;
    };
    ratios.len() == options.len() && are_ratios(ratios)
}

/// The number as a multiple of Q, if it is from 0 to [`MAX_QUORUM_MULTIPLE`].
pub(crate) fn parse_quorum(number: i64) -> Option<u8>
    ensures { result ≡ quorum_in number }
{
    if number < 0 || number > i64::from(MAX_QUORUM_MULTIPLE) {
        return None;
    }
    Some(number as u8)
}

/// Whether a poll can have this multiple of Q as its quorum. True if it was not found.
#[tactic(auto, unfolding(crate::specs::PollFaults::of_quorum))]
fn is_quorum_right(keys: &FoundKeys<'_>) -> bool
    ensures { fault_unless result fault.Quorum ≡ of_quorum (found_view keys.now) }
{
    match keys.quorum {
        Some(number) => parse_quorum(number).is_some(),
        None => true,
    }
}

/// Whether a roll can have this many names.
fn can_have_electors(electors: usize) -> bool
    ensures { result ≡ is_within 1 MAX_ELECTORS electors }
{
    1 <= electors && electors <= MAX_ELECTORS
}

/// Whether the roll has a valid number of names. True if it was not found.
#[tactic(auto, unfolding(crate::specs::PollFaults::of_roll_size))]
fn is_roll_size_right(keys: &FoundKeys<'_>) -> bool
    ensures { fault_unless result fault.RollSize ≡ of_roll_size (found_view keys.now) }
{
    match &keys.roll {
        Some(roll) => can_have_electors(roll.len()),
        None => true,
    }
}

/// Appends the faults of the voters' names.
#[tactic(auto, unfolding(crate::specs::PollFaults::of_voter_names))]
fn push_voter_names(
    alloc: Global,
    faults: &mut Vec<PollFault>,
    keys: &FoundKeys<'_>,
) -> Result<(), AllocError>
    ensures { AddsFaults result faults.old (of_voter_names (found_view keys.now)) faults.new }
{
    match &keys.roll {
        Some(roll) => push_bad_names(alloc, faults, NameList::Roll, roll),
        None => Ok(()),
    }
}

/// The number as a last envelope, if it is from 0 to [`MAX_LINES`].
pub(crate) fn parse_last_envelope(number: i64) -> Option<u32>
    ensures { result ≡ last_envelope_in number }
{
    if number < 0 || number > MAX_LINES as i64 {
        return None;
    }
    Some(number as u32)
}

/// Whether a poll can have this last envelope. True if it was not found.
#[tactic(auto, unfolding(crate::specs::PollFaults::of_last_envelope))]
fn is_last_envelope_right(keys: &FoundKeys<'_>) -> bool
    ensures { fault_unless result fault.LastEnvelope ≡ of_last_envelope (found_view keys.now) }
{
    match keys.last_envelope {
        Some(number) => parse_last_envelope(number).is_some(),
        None => true,
    }
}

/// Whether the wording is valid. True if it was not found.
#[tactic(auto, unfolding(crate::specs::PollFaults::of_wording))]
fn is_wording_right(keys: &FoundKeys<'_>) -> bool
    ensures { fault_unless result fault.Wording ≡ of_wording (found_view keys.now) }
{
    match keys.wording {
        Some(text) => parse_wording(text).is_some(),
        None => true,
    }
}

/// Appends the faults of the keys' values to the faults of the keys, in the order of [`PollFault`]. Each is judged by itself:
/// if the keys that it concerns were found, whatever else is wrong.
///
/// # Errors
///
/// Memory ran out.
pub fn push_faults(
    alloc: Global,
    faults: &mut Vec<PollFault>,
    keys: &FoundKeys<'_>,
) -> Result<(), AllocError>
    ensures { AddsFaults result faults.old (of_contents (found_view keys.now)) faults.new }
{
    push_unless(faults, is_title_right(keys), PollFault::Title)?;
    push_unless(faults, is_option_count_right(keys), PollFault::OptionCount)?;
    push_option_names(alloc, faults, keys)?;
    push_unless(faults, are_ratios_right(keys), PollFault::Ratio)?;
    push_unless(faults, is_quorum_right(keys), PollFault::Quorum)?;
    push_unless(faults, is_roll_size_right(keys), PollFault::RollSize)?;
    push_voter_names(alloc, faults, keys)?;
    push_unless(
        faults,
        is_last_envelope_right(keys),
        PollFault::LastEnvelope,
    )?;
    push_unless(faults, is_wording_right(keys), PollFault::Wording)
}
