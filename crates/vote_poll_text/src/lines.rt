//! The lines of the ballot file.
ghost use Rattle.std.specs.Prelude.{◌≡◌, List, ℕ, ◌<◌, ◌≤◌, ◌↔◌, Some, length, map, slice_get, [], ◌∷◌, IfSome, IfNone, IfOk, IsErrOf};
ghost use Rattle.vote_poll_text.specs.FaultWords.{fault_line};
ghost use Rattle.vote_poll_text.specs.Lines.{AreLines, HasTooManyLines, feed_count, lines_of, parts_of, without_last_feed};
ghost use Rattle.vote_poll_text.specs.declared.lines.LinesFault.TheVariants.{Memory};

use memchr::memchr;
use std::alloc::{AllocError, Global};
use std::fmt;
use std::marker::Model;
use thiserror::Error;

/// The most lines that a ballot file can have. It may have none.
pub const MAX_LINES: usize = 100_000;

/// The lines of a text, without their line feeds. Contracts see the list of lines. The line at index `i` (from 0) is the envelope
/// with stamp `i + 1`. The text is borrowed, so no line is copied.
#[derive(Drop)]
pub struct Lines<'t> {
    lines: Vec<&'t [u8]>,
}

impl<'t> Model for Lines<'t> {
    ghost use Rattle.std.specs.Prelude.{ℕ, ◌≤◌, List, length, map};
    ghost use Rattle.vote_poll_text.specs.declared.lines.TheConstants.{MAX_LINES};

    ghost Value = { List (List ℕ) };

    ghost view = { λ l. map (λ line. line.now) l.lines.items };

    ghost invariant = { λ l. length l.lines.items ≤ MAX_LINES };
}

/// Why a text has no [`Lines`], in the order tested. A fault is displayed as its fault line.
#[derive(Clone, Copy, Debug, PartialEq, Eq, Error)]
pub enum LinesFault {
    /// The text has more than [`MAX_LINES`] lines. They are counted before any memory is asked for.
    TooMany,
    /// Memory was asked for and refused.
    Memory,
}

impl fmt::Display for LinesFault {
    ghost output = { λ fault. Some (fault_line fault) };

    fn fmt<W: fmt::Write>(&self, f: &mut fmt::Formatter<W>) -> fmt::Result {
        match *self {
            LinesFault::TooMany => f.write_str("ballots refused: too many lines"),
            LinesFault::Memory => f.write_str("out of memory"),
        }
    }
}

impl From<AllocError> for LinesFault {
    ghost from_gives = { λ _ e. e ≡ Memory };

    fn from(_error: AllocError) -> LinesFault {
        LinesFault::Memory
    }
}

/// A law: a text has only one list of lines, which [`Lines::split`] returns.
#[tactic(auto, using(crate::proofs::LinesLaws::lines_are_one))]
pub fn lines_are_unique()
    ensures { (text : List ℕ) (a b : List (List ℕ)) → AreLines text a → AreLines text b → a ≡ b }
{}

/// The text without a line feed at its end.
pub fn without_last_feed(text: &[u8]) -> &[u8]
    ensures { result.now ≡ without_last_feed text.now }
{
    text.strip_suffix(b"\n").unwrap_or(text)
}

/// The texts before and after the first line feed, if there is one.
pub fn split_at_feed(text: &[u8]) -> Option<(&[u8], &[u8])>
    ensures found { IfSome result (λ cut. parts_of text.now ≡ cut.0.now ∷ parts_of cut.1.now) }
    ensures shorter { IfSome result (λ cut. length cut.1.now < length text.now) }
    ensures none { IfNone result (parts_of text.now ≡ text.now ∷ []) }
{
    let end = memchr(b'\n', text)?;
    Some((&text[..end], &text[end + 1..]))
}

/// How many bytes are counted at once: a whole number of vectors, and few enough for the count to fit in a byte.
const STRETCH: usize = 224;

/// The number of line feeds in a short text. The count is a byte, so LLVM counts sixteen bytes at once. The function is inlined,
/// so LLVM knows the length of a stretch.
#[inline(always)]
fn count_few_feeds(text: &[u8]) -> u8
    requires { length text.now ≤ 255 }
    ensures { result ≡ feed_count text.now }
{
    let mut feeds = 0;
    for byte in text {
        if *byte == b'\n' {
            feeds += 1;
        }
    }
    feeds
}

/// The number of line feeds in a text.
pub fn count_feeds(text: &[u8]) -> usize
    ensures { result ≡ feed_count text.now }
{
    let mut feeds = 0;
    let mut rest = text;
    while rest.len() > STRETCH {
        let (stretch, after) = rest.split_at(STRETCH);
        feeds += count_few_feeds(stretch) as usize;
        rest = after;
    }
    feeds + count_few_feeds(rest) as usize
}

/// The parts of a text between its line feeds. The list has room for `count` parts from the start.
fn parts(alloc: Global, text: &[u8], count: usize) -> Result<Vec<&[u8]>, AllocError>
    ensures { IfOk result (λ parts. map (λ part. part.now) parts.items ≡ parts_of text.now) }
{
    let mut parts = Vec::with_capacity(alloc, count)?;
    let mut rest = text;
    while let Some((part, after)) = split_at_feed(rest) {
        parts.push(part)?;
        rest = after;
    }
    parts.push(rest)?;
    Ok(parts)
}

impl<'t> Lines<'t> {
    /// Splits a text into its lines. Each line ends with a line feed, but the last may lack it. So an empty text has no line, and
    /// a line feed alone is one empty line. A carriage return is a byte of its line.
    #[tactic(auto, using(crate::proofs::LinesLaws::line_laws))]
    pub fn split(alloc: Global, text: &'t [u8]) -> Result<Lines<'t>, LinesFault>
        ensures lines { IfOk result (AreLines text.now) }
        ensures same { IfOk result (λ lines. lines ≡ lines_of text.now) }
        ensures too_many { IsErrOf result LinesFault.TooMany ↔ HasTooManyLines text.now }
    {
        if text.is_empty() {
            return Ok(Lines {
                lines: Vec::new(alloc),
            });
        }
        let body = without_last_feed(text);
        let feeds = count_feeds(body);
        let too_many = feeds >= MAX_LINES;
        if too_many {
            return Err(LinesFault::TooMany);
        }
        let lines = parts(alloc, body, feeds + 1)?;
        Ok(Lines { lines })
    }

    /// The number of lines, 0 to [`MAX_LINES`].
    pub fn len(&self) -> usize
        ensures number { result ≡ length self.now }
        ensures at_most { result ≤ MAX_LINES }
    {
        self.lines.len()
    }

    /// The line at an index, from 0.
    pub fn line(&self, place: usize) -> &'t [u8]
        requires { place < length self.now }
        ensures { slice_get self.now place ≡ Some result.now }
    {
        self.lines[place]
    }
}
