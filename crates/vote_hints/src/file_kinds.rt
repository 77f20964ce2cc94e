//! What a file is by its beginning, if it is no plain text in UTF-8.
ghost use Rattle.std.specs.Prelude.{◌≡◌, option_copied};
ghost use Rattle.vote_hints.specs.FileKinds.{begins_as_utf_16, file_kind, unmarked};

use vote_poll_text::is_printable;

/// Whether one of the first two bytes is printable, and the other is a zero.
fn begins_as_utf_16(text: &[u8]) -> bool
    ensures { result ≡ begins_as_utf_16 text.now }
{
    match text {
        [byte, 0, ..] | [0, byte, ..] => is_printable(*byte),
        _ => false,
    }
}

/// What a file with these bytes is, as the end of a sentence, unless it may be plain text in UTF-8.
pub fn file_kind(text: &[u8]) -> Option<&'static str>
    ensures { option_copied result ≡ file_kind text.now }
{
    // before UTF-16, whose sign is the beginning of this one
    if text.starts_with(b"\xFF\xFE\0\0") || text.starts_with(b"\0\0\xFE\xFF") {
        Some("UTF-32")
    } else if text.starts_with(b"\xFF\xFE") || text.starts_with(b"\xFE\xFF") {
        Some("UTF-16")
    } else if text.starts_with(b"PK\x03\x04") {
        Some("a ZIP file, as of word processors and spreadsheets")
    } else if text.starts_with(b"%PDF") {
        Some("a PDF file")
    } else if text.starts_with(b"{\\rtf") {
        Some("an RTF file")
    } else if text.starts_with(b"\xD0\xCF\x11\xE0") {
        Some("an old Word or Excel file")
    } else if begins_as_utf_16(text) {
        Some("UTF-16")
    } else if text[..text.len().min(16)].contains(&0) {
        Some("no text")
    } else {
        None
    }
}

/// A text without a byte-order mark at its beginning.
pub fn unmarked(text: &[u8]) -> &[u8]
    ensures { result.now ≡ unmarked text.now }
{
    text.strip_prefix(b"\xEF\xBB\xBF").unwrap_or(text)
}
