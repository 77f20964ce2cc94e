//! What a ballot line has at each place, and where another line leaves the grammar.
ghost use Rattle.std.specs.Prelude.{◌≡◌, List, ℕ};
ghost use Rattle.vote_explain_ballots.specs.Places.{IsColumn, IsExit, has_byte, next_part, place_words};

use vote_poll::{MAX_LINE, MAX_VOTER_NAME, each_line_is_read, is_voter_byte};

/// The part of a ballot line that comes next.
#[derive(Clone, Copy)]
pub enum Part {
    /// A byte of the name, or the space after it.
    Name,
    /// The first byte of a rank.
    Rank,
    /// What is after the first digit of a rank.
    Digit,
    /// What is after a rank that can't be longer.
    RankEnd,
}

/// Where a line leaves the grammar of ballot lines: how many bytes are before the place, and what a ballot line has there.
#[derive(Clone, Copy)]
pub struct Exit {
    pub before: usize,
    pub part: Part,
}

/// Whether a ballot line may have this byte in this part, after this number of bytes.
fn has_byte(part: Part, count: usize, byte: u8) -> bool
    ensures { result ≡ has_byte part count byte }
{
    match part {
        Part::Name if byte == b' ' => 0 < count,
        Part::Name => count < MAX_VOTER_NAME && is_voter_byte(byte),
        Part::Rank => matches!(byte, b'1'..=b'9' | b'-'),
        Part::Digit if byte != b',' => count < MAX_LINE && byte.is_ascii_digit(),
        Part::Digit | Part::RankEnd => count < MAX_LINE - 1 && byte == b',',
    }
}

/// The part after this byte of this part.
fn next_part(part: Part, byte: u8) -> Part
    ensures { result ≡ next_part part byte }
{
    match part {
        Part::Name if byte != b' ' => Part::Name,
        Part::Rank if byte != b'-' => Part::Digit,
        Part::Digit if byte != b',' => Part::RankEnd,
        Part::Rank => Part::RankEnd,
        Part::Name | Part::Digit | Part::RankEnd => Part::Rank,
    }
}

/// Where a line leaves the grammar of ballot lines: before the first byte with which no ballot line goes on, or at the line's end.
pub fn exit_of(line: &[u8]) -> Exit
    ensures { IsExit line.now result }
{
    each_line_is_read();
    let mut part = Part::Name;
    for before in 0..line.len() {
        if !has_byte(part, before, line[before]) {
            return Exit { before, part };
        }
        part = next_part(part, line[before]);
    }
    Exit {
        before: line.len(),
        part,
    }
}

/// What a ballot line has in this part, after this number of bytes, in words.
pub(crate) fn place_words(part: Part, count: usize) -> &'static str
    ensures { result.now ≡ place_words part count }
{
    match part {
        Part::Name if count == 0 => "the name there: a to z, 0 to 9, . or -",
        Part::Name if count < MAX_VOTER_NAME =>
            "a space there, or more of the name: a to z, 0 to 9, . or -",
        Part::Name => "a space there: a name has at most 32 bytes",
        Part::Rank =>
            "a rank there: a number from 1 to 99, or a hyphen for an option that is not ranked, and so last",
        Part::Digit if count < MAX_LINE - 1 =>
            "a comma or its end there, or a second digit of the rank",
        Part::Digit if count < MAX_LINE =>
            "its end there, or a second digit of the rank: a line has at most 200 bytes",
        Part::RankEnd if count < MAX_LINE - 1 =>
            "a comma or its end there: a rank has at most two digits, or is a hyphen",
        Part::Digit | Part::RankEnd => "its end there: a line has at most 200 bytes",
    }
}

/// A law: a line leaves the grammar in one column.
pub fn columns_are_unique()
    ensures { (line : List ℕ) (a b : ℕ) → IsColumn line a → IsColumn line b → a ≡ b }
{}
