//! The values at the keys of a poll file's table.
ghost use Rattle.std.specs.Prelude.{◌≡◌, IfOk, option_copied, option_map};
ghost use Rattle.toml.specs.Data.{as_array, as_integer, as_str};
ghost use Rattle.toml.specs.View.{items_view, table_view, view};
ghost use Rattle.vote_poll_keys.specs.FoundView.{AreNumbers, AreTexts, list_view};
ghost use Rattle.vote_poll_keys.specs.Keys.{Gives, document, each_of, found, list_of, value_at};

use crate::fault::{PollFault, PollKey};
use std::alloc::{AllocError, Global};
use toml::{Table, Value};

/// The table of a poll file's text.
///
/// # Errors
///
/// [`PollFault::Syntax`] if the text is not UTF-8, or not a TOML document; or [`PollFault::Memory`].
pub fn document(alloc: Global, text: &[u8]) -> Result<Table, PollFault>
    ensures { Gives table_view result (document text.now) }
{
    match toml::table_from_slice(alloc, text) {
        Ok(table) => Ok(table),
        Err(error) => {
            if error.is_memory() {
                return Err(PollFault::Memory);
            }
            Err(PollFault::Syntax)
        }
    }
}

/// The value at a key of a poll file's table, if there is one.
pub fn value_at<'t>(table: &'t Table, key: PollKey) -> Option<&'t Value>
    ensures { option_map (λ value. view value.now) result ≡ value_at key (table_view table.now) }
{
    table.get(key.name())
}

/// The text at a key, if there is one.
pub(crate) fn text_at<'t>(table: &'t Table, key: PollKey) -> Option<&'t str>
    ensures { option_copied result ≡ found key as_str (table_view table.now) }
{
    match value_at(table, key) {
        Some(Value::String(text)) => Some(text.as_str()),
        _ => None,
    }
}

/// The whole number at a key, if there is one.
pub(crate) fn integer_at(table: &Table, key: PollKey) -> Option<i64>
    ensures { result ≡ found key as_integer (table_view table.now) }
{
    match value_at(table, key) {
        Some(Value::Integer(number)) => Some(*number),
        _ => None,
    }
}

/// The list at a key, if there is one.
fn items_at<'t>(table: &'t Table, key: PollKey) -> Option<&'t [Value]>
    ensures { list_view result ≡ found key as_array (table_view table.now) }
{
    match value_at(table, key) {
        Some(Value::Array(items)) => Some(items.as_slice()),
        _ => None,
    }
}

/// The texts of a list, if all its items are texts.
fn texts_of(alloc: Global, items: &[Value]) -> Result<Option<Vec<&str>>, AllocError>
    ensures { IfOk result (AreTexts (each_of as_str (items_view items.now))) }
{
    let mut texts = Vec::new(alloc);
    for item in items {
        let Some(text) = item.as_str() else {
            return Ok(None);
        };
        texts.push(text)?;
    }
    Ok(Some(texts))
}

/// The whole numbers of a list, if all its items are whole numbers.
fn integers_of(alloc: Global, items: &[Value]) -> Result<Option<Vec<i64>>, AllocError>
    ensures { IfOk result (AreNumbers (each_of as_integer (items_view items.now))) }
{
    let mut numbers = Vec::new(alloc);
    for item in items {
        let Some(number) = item.as_integer() else {
            return Ok(None);
        };
        numbers.push(number)?;
    }
    Ok(Some(numbers))
}

/// The texts of the list at a key, in their order, if there is a list of texts.
pub(crate) fn texts_at(
    alloc: Global,
    table: &Table,
    key: PollKey,
) -> Result<Option<Vec<&str>>, AllocError>
    ensures { IfOk result (AreTexts (found key (list_of as_str) (table_view table.now))) }
{
    match items_at(table, key) {
        Some(items) => texts_of(alloc, items),
        None => Ok(None),
    }
}

/// The whole numbers of the list at a key, in their order, if there is a list of whole numbers.
pub(crate) fn integers_at(
    alloc: Global,
    table: &Table,
    key: PollKey,
) -> Result<Option<Vec<i64>>, AllocError>
    ensures { IfOk result (AreNumbers (found key (list_of as_integer) (table_view table.now))) }
{
    match items_at(table, key) {
        Some(items) => integers_of(alloc, items),
        None => Ok(None),
    }
}
