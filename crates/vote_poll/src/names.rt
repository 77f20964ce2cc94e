//! The names in the lists of a poll file: its options and the voters on its roll.
ghost use Rattle.std.specs.Prelude.{◌≡◌, ◌+◌, ◌<◌, ◌^◌, [], OnOk, position, string_bytes};
ghost use Rattle.std.specs.Str.{bytes_eq};
ghost use Rattle.vote_poll_keys.specs.FoundView.{AddsFaults, texts};
ghost use Rattle.vote_poll.specs.NameLists.{NotesName, bad_name, bad_names, has_shape, of_name};
ghost use Rattle.vote_poll.specs.Names.{NamesAreDistinct};

use indexmap::IndexSet;
use std::alloc::{AllocError, Global};
use vote_poll_keys::PollFault;
use vote_poll_text::{is_option_name, is_voter_name};

/// A list of names in a poll file.
#[derive(Clone, Copy)]
pub(crate) enum NameList {
    /// The options, numbered from 1.
    Options,
    /// The roll, numbered from 0.
    Roll,
}

impl NameList {
    /// Whether a text is a valid name in the list.
    fn has_shape(self, name: &[u8]) -> bool
        ensures { result ≡ has_shape self name.now }
    {
        match self {
            NameList::Options => is_option_name(name),
            NameList::Roll => is_voter_name(name),
        }
    }

    /// The fault of the name at an index that is malformed or a duplicate.
    fn bad_name(self, place: usize) -> PollFault
        requires { place + 1 < 2 ^ 64 }
        ensures { result ≡ bad_name self place }
    {
        match self {
            NameList::Options => PollFault::OptionName(place + 1),
            NameList::Roll => PollFault::VoterName(place),
        }
    }
}

/// Adds the name at an index of a list to the names seen, and appends its fault if it is malformed or was seen before.
fn judge_name<'t>(
    faults: &mut Vec<PollFault>,
    list: NameList,
    seen: &mut IndexSet<&'t str>,
    name: &'t str,
    place: usize,
) -> Result<(), AllocError>
    requires { place + 1 < 2 ^ 64 }
    ensures fault { AddsFaults result faults.old (of_name list seen.old name.now place) faults.new }
    ensures noted { OnOk result (NotesName name.now seen.old seen.new) }
{
    let is_new = seen.insert(name)?;
    if !list.has_shape(name.as_bytes()) || !is_new {
        faults.push(list.bad_name(place))?;
    }
    Ok(())
}

/// Appends the faults of a list's names. `seen` is empty at the start.
fn judge_names<'t>(
    faults: &mut Vec<PollFault>,
    list: NameList,
    seen: &mut IndexSet<&'t str>,
    names: &[&'t str],
) -> Result<(), AllocError>
    requires { seen.old.keys ≡ [] }
    ensures { AddsFaults result faults.old (bad_names list (texts names.now)) faults.new }
{
    for (place, name) in names.iter().enumerate() {
        judge_name(faults, list, seen, name, place)?;
    }
    Ok(())
}

/// Appends the faults of a list's names: those that are malformed, or the same as an earlier name.
pub(crate) fn push_bad_names(
    alloc: Global,
    faults: &mut Vec<PollFault>,
    list: NameList,
    names: &[&str],
) -> Result<(), AllocError>
    ensures { AddsFaults result faults.old (bad_names list (texts names.now)) faults.new }
{
    let mut seen = IndexSet::new(alloc);
    judge_names(faults, list, &mut seen, names)
}

/// The index of a name among the names of options, if it is there.
pub(crate) fn place_of(options: &[String], name: &[u8]) -> Option<usize>
    ensures { result ≡ position (λ option. bytes_eq name.now (string_bytes option)) options.now }
{
    for place in 0..options.len() {
        if name == options[place].as_bytes() {
            return Some(place);
        }
    }
    None
}

/// A law: on a roll without a bad name, each name belongs to the voter at its position, and to no other.
pub fn names_are_distinct()
    ensures { NamesAreDistinct }
{}
