//! The names of a poll: its title, its options and the voters on its roll.
ghost use Rattle.std.specs.Prelude.{◌≡◌};
ghost use Rattle.std.specs.List.{list_all};
ghost use Rattle.vote_poll_text.specs.Names.{has_outer_space, is_option_name, is_printable, is_title, is_voter_byte, is_voter_name};

use crate::{MAX_OPTION_NAME, MAX_TITLE, MAX_VOTER_NAME};

/// Whether a voter's name may have this byte: `a` to `z`, `0` to `9`, `.` or `-`.
pub fn is_voter_byte(byte: u8) -> bool
    ensures { result ≡ is_voter_byte byte }
{
    matches!(byte, b'a'..=b'z' | b'0'..=b'9' | b'.' | b'-')
}

/// Whether a voter's name may have each of these bytes.
fn are_voter_bytes(text: &[u8]) -> bool
    ensures { result ≡ list_all is_voter_byte text.now }
{
    for byte in text {
        if !is_voter_byte(*byte) {
            return false;
        }
    }
    true
}

/// Whether a text is a voter's name: 1 to [`MAX_VOTER_NAME`] of the bytes that [`is_voter_byte`] admits.
pub fn is_voter_name(text: &[u8]) -> bool
    ensures { result ≡ is_voter_name text.now }
{
    1 <= text.len() && text.len() <= MAX_VOTER_NAME && are_voter_bytes(text)
}

/// Whether a byte is a printable ASCII character or a space: 0x20 to 0x7E.
pub fn is_printable(byte: u8) -> bool
    ensures { result ≡ is_printable byte }
{
    0x20 <= byte && byte <= 0x7E
}

/// Whether each byte is a printable ASCII character or a space.
fn are_printable(text: &[u8]) -> bool
    ensures { result ≡ list_all is_printable text.now }
{
    for byte in text {
        if !is_printable(*byte) {
            return false;
        }
    }
    true
}

/// Whether a text is a title: 1 to [`MAX_TITLE`] of the bytes that [`is_printable`] admits.
pub fn is_title(text: &[u8]) -> bool
    ensures { result ≡ is_title text.now }
{
    1 <= text.len() && text.len() <= MAX_TITLE && are_printable(text)
}

/// Whether a name begins or ends with a space.
fn has_outer_space(name: &[u8]) -> bool
    ensures { result ≡ has_outer_space name.now }
{
    matches!(name, [b' ', ..] | [.., b' '])
}

/// Whether a text is the name of an option: 1 to [`MAX_OPTION_NAME`] of the bytes that [`is_printable`] admits, without a
/// space at either end.
pub fn is_option_name(name: &[u8]) -> bool
    ensures { result ≡ is_option_name name.now }
{
    1 <= name.len()
        && name.len() <= MAX_OPTION_NAME
        && are_printable(name)
        && !has_outer_space(name)
}
