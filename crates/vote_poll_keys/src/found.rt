//! The keys of a poll file that are present and of the right kind, and the faults of the other keys.
ghost use Rattle.std.specs.Prelude.{◌≡◌, IfOk};
ghost use Rattle.toml.specs.View.{table_view};
ghost use Rattle.vote_poll_keys.specs.FoundView.{AddsFaults, AreKeyFaults, AreTexts, found_view, key_fault};
ghost use Rattle.vote_poll_keys.specs.KeyFaults.{found_in, is_found, is_right, may_be_missing, names_of_options};

use crate::fault::{PollFault, PollKey};
use crate::keys::{integer_at, integers_at, text_at, texts_at, value_at};
use std::alloc::{AllocError, Global};
use toml::Table;

/// The keys of a poll file. Each has a value if it is present and of the right kind. Contracts see the record `FoundKeys` of
/// `specs/KeyFaults.antt`. The values are not judged here. The texts are borrowed from the table.
#[derive(Drop)]
pub struct FoundKeys<'t> {
    pub title: Option<&'t str>,
    pub options: Option<Vec<&'t str>>,
    pub ratios: Option<Vec<i64>>,
    pub default_option: Option<&'t str>,
    pub quorum: Option<i64>,
    pub roll: Option<Vec<&'t str>>,
    pub last_envelope: Option<i64>,
    pub wording: Option<&'t str>,
}

/// Whether a key may be missing.
fn may_be_missing(key: PollKey) -> bool
    ensures { result ≡ may_be_missing key }
{
    match key {
        PollKey::LastEnvelope | PollKey::Wording => true,
        _ => false,
    }
}

/// Appends the fault of a key that is missing although it is required, or is of the wrong kind.
fn push_key_fault(
    faults: &mut Vec<PollFault>,
    table: &Table,
    found: &FoundKeys<'_>,
    key: PollKey,
) -> Result<(), AllocError>
    ensures { AddsFaults result faults.old (key_fault table.now found.now key) faults.new }
{
    if !found.is_right(table, key) {
        faults.push(PollFault::Key(key))?;
    }
    Ok(())
}

impl<'t> FoundKeys<'t> {
    /// The keys of a poll file's table that are present and of the right kind. A key that is not in [`PollKey`] is ignored.
    ///
    /// # Errors
    ///
    /// Memory ran out.
    pub fn of_table(alloc: Global, table: &'t Table) -> Result<FoundKeys<'t>, AllocError>
        ensures { IfOk result (λ found. found_view found ≡ found_in (table_view table.now)) }
    {
        Ok(FoundKeys {
            title: text_at(table, PollKey::Title),
            options: texts_at(alloc, table, PollKey::Options)?,
            ratios: integers_at(alloc, table, PollKey::Ratios)?,
            default_option: text_at(table, PollKey::DefaultOption),
            quorum: integer_at(table, PollKey::Quorum),
            roll: texts_at(alloc, table, PollKey::Roll)?,
            last_envelope: integer_at(table, PollKey::LastEnvelope),
            wording: text_at(table, PollKey::Wording),
        })
    }

    /// Whether a key is present and of the right kind.
    fn is_found(&self, key: PollKey) -> bool
        ensures { result ≡ is_found (found_view self.now) key }
    {
        match key {
            PollKey::Title => self.title.is_some(),
            PollKey::Options => self.options.is_some(),
            PollKey::Ratios => self.ratios.is_some(),
            PollKey::DefaultOption => self.default_option.is_some(),
            PollKey::Quorum => self.quorum.is_some(),
            PollKey::Roll => self.roll.is_some(),
            PollKey::LastEnvelope => self.last_envelope.is_some(),
            PollKey::Wording => self.wording.is_some(),
        }
    }

    /// Whether a key has no fault: it is missing and may be missing, or it is present and of the right kind. `table` is the table
    /// in which these keys were found.
    fn is_right(&self, table: &Table, key: PollKey) -> bool
        ensures { result ≡ is_right (table_view table.now) (found_view self.now) key }
    {
        (may_be_missing(key) && value_at(table, key).is_none()) || self.is_found(key)
    }

    /// The faults of the keys, in the order of [`PollKey`]. `table` is the table in which these keys were found.
    ///
    /// # Errors
    ///
    /// Memory ran out.
    pub fn key_faults(&self, alloc: Global, table: &Table) -> Result<Vec<PollFault>, AllocError>
        ensures { IfOk result (AreKeyFaults table.now self.now) }
    {
        let mut faults = Vec::new(alloc);
        for key in PollKey::ALL {
            push_key_fault(&mut faults, table, self, key)?;
        }
        Ok(faults)
    }

    /// The names of the options that were found, the default option after the others. `None` if the list of options was not found.
    ///
    /// # Errors
    ///
    /// Memory ran out.
    pub fn option_names(&self, alloc: Global) -> Result<Option<Vec<&'t str>>, AllocError>
        ensures { IfOk result (AreTexts (names_of_options (found_view self.now))) }
    {
        let Some(options) = &self.options else {
            return Ok(None);
        };
        let mut names = Vec::from_slice(alloc, options)?;
        names.extend_from_slice(self.default_option.as_slice())?;
        Ok(Some(names))
    }
}
