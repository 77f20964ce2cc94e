//! What looks like a table, whose columns may stand in another order than the options.
ghost use Rattle.std.specs.Prelude.{◌≡◌, ◌≤◌, ◌==◌, ◌&&◌, ◌||◌, not, [], IfOk, false, filter, length, option_map, unwrap_or};
ghost use Rattle.std.specs.List.{list_all, list_any};
ghost use Rattle.vote_poll.specs.Readings.{readings};
ghost use Rattle.vote_poll_text.specs.Adding.{Adds};
ghost use Rattle.vote_steps.specs.HeldLines.{AreCastInOrder, HoldsLines};
ghost use Rattle.vote_explain_ballots.specs.Tables.{first_word, has_cells, has_columns, has_each_rank, has_even_ranks, has_few_ranks, has_head, has_heads, is_column_sign, is_even, is_head, is_head_sign, is_joining, is_near_name, is_of_cells, is_of_ranks, is_parted_by, is_quote, is_quoted_rank, is_rank, is_row_of_heads, is_sign, later_words, may_be_head, names_nobody, number_of, rank_count, table_text, words_of};

use crate::explain::CastFile;
use crate::findings::refusing_at;
use crate::near_names::most_edits;
use std::alloc::{AllocError, Global};
use vote_hints::{are_within, unmarked};
use vote_poll::{Lines, MAX_OPTIONS, Poll, each_line_is_read};

/// Whether a byte is a sign that parts columns.
fn is_column_sign(byte: u8) -> bool
    ensures { result ≡ is_column_sign byte }
{
    matches!(byte, b',' | b';' | b'\t')
}

/// Whether a byte is a sign that parts words.
fn is_sign(byte: u8) -> bool
    ensures { result ≡ is_sign byte }
{
    is_column_sign(byte) || byte == b' '
}

/// How many words a line has.
fn word_count(line: &[u8]) -> usize
    ensures { result ≡ length (words_of line.now) }
{
    let parts = line.split(|byte| is_sign(*byte));
    parts.filter(|word| !word.is_empty()).count()
}

/// The first word of a line, behind a byte-order mark.
fn first_word(line: &[u8]) -> Option<&[u8]>
    ensures { unwrap_or (option_map (λ word. word.now) result) [] ≡ first_word line.now }
{
    let parts = unmarked(line).split(|byte| is_sign(*byte));
    let mut words = parts.filter(|word| !word.is_empty());
    words.nth(0)
}

/// Whether a word may be a rank.
fn is_rank(word: &[u8]) -> bool
    ensures { result ≡ is_rank word.now }
{
    matches!(word, [b'0'..=b'9' | b'-'] | [b'0'..=b'9', b'0'..=b'9'])
}

/// The number of a rank, which is 0 of a hyphen.
fn number_of(word: &[u8]) -> usize
    ensures { result ≡ number_of word.now }
{
    match word {
        [digit] => digit.saturating_sub(b'0') as usize,
        [tens, digit] => {
            10 * tens.saturating_sub(b'0') as usize + digit.saturating_sub(b'0') as usize
        }
        _ => 0,
    }
}

/// Whether a word is a rank in quotation marks.
fn is_quoted_rank(word: &[u8]) -> bool
    ensures { result ≡ is_quoted_rank word.now }
{
    matches!(
        word,
        [b'"', b'0'..=b'9' | b'-', b'"'] | [b'"', b'0'..=b'9', b'0'..=b'9', b'"']
    )
}

/// How many words behind the first of a line are ranks.
fn later_rank_count(line: &[u8]) -> usize
    ensures { result ≡ rank_count line.now }
{
    let parts = line.split(|byte| is_sign(*byte));
    let words = parts.filter(|word| !word.is_empty());
    words.skip(1).filter(|word| is_rank(word)).count()
}

/// Whether a word behind the first of a line has this number.
fn has_rank(line: &[u8], option: usize) -> bool
    ensures { result ≡ list_any (λ word. number_of word == option) (later_words line.now) }
{
    let parts = line.split(|byte| is_sign(*byte));
    let words = parts.filter(|word| !word.is_empty());
    words.skip(1).any(|word| number_of(word) == option)
}

/// Whether a line has as many words behind its first as there are options, and each number of an option.
fn has_each_rank(options: usize, line: &[u8]) -> bool
    requires { options ≤ MAX_OPTIONS }
    ensures { result ≡ has_each_rank options line.now }
{
    let mut numbers = 1..options + 1;
    let has_all = numbers.all(|option| has_rank(line, option));
    (word_count(line) == options + 1) & has_all
}

/// Whether a line has two ranks or more behind its first word, and no other words.
fn is_of_ranks(line: &[u8]) -> bool
    ensures { result ≡ is_of_ranks line.now }
{
    let ranks = later_rank_count(line);
    2 <= ranks && word_count(line).saturating_sub(1) == ranks
}

/// Whether a sign that parts columns is in a line.
fn has_column_sign(line: &[u8]) -> bool
    ensures { result ≡ list_any is_column_sign line.now }
{
    line.iter().any(|byte| is_column_sign(*byte))
}

/// Whether a sign is between any two words of a line.
fn is_parted_by(line: &[u8], sign: u8) -> bool
    ensures { result ≡ is_parted_by line.now sign }
{
    let mut parts = line.split(|byte| *byte == sign);
    parts.all(|part| word_count(part) <= 1)
}

/// Whether the same sign is behind the first word of a line and between all others.
fn is_even(line: &[u8]) -> bool
    ensures { result ≡ is_even line.now }
{
    let by_one = is_parted_by(line, b',') | is_parted_by(line, b';') | is_parted_by(line, b'\t');
    !has_column_sign(line) | by_one
}

/// Whether a sign that parts the columns of a head is in a line.
fn has_head_sign(line: &[u8]) -> bool
    ensures { result ≡ list_any is_head_sign line.now }
{
    line.iter().any(|byte| is_column_sign(*byte) || matches!(*byte, b'|' | b'/'))
}

/// Whether a line has as many columns by a sign as there are options, or up to four more.
fn has_columns(options: usize, line: &[u8], sign: u8) -> bool
    requires { options ≤ MAX_OPTIONS }
    ensures { result ≡ has_columns options line.now sign }
{
    let columns = line.iter().filter(|byte| **byte == sign).count() + 1;
    options <= columns && columns <= options + 4
}

/// Whether a word only joins others, so that it heads no column.
fn is_joining(word: &[u8]) -> bool
    ensures { result ≡ is_joining word.now }
{
    match word {
        b"and" | b"by" | b"from" | b"of" | b"the" => true,
        b"das" | b"dem" | b"der" | b"des" | b"die" | b"und" | b"vom" | b"von" => true,
        b"del" | b"du" | b"las" | b"les" | b"los" => true,
        _ => false,
    }
}

/// Whether a word of a line only joins others.
fn has_joining(line: &[u8]) -> bool
    ensures { result ≡ list_any is_joining (words_of line.now) }
{
    let parts = line.split(|byte| is_sign(*byte));
    let mut words = parts.filter(|word| !word.is_empty());
    words.any(|word| is_joining(word))
}

/// Whether a line has as many words as a head of words alone.
fn is_row_of_heads(options: usize, line: &[u8]) -> bool
    requires { options ≤ MAX_OPTIONS }
    ensures { result ≡ is_row_of_heads options line.now }
{
    !has_head_sign(line) && word_count(line) == options + 1 && !has_joining(line)
}

/// Whether a line has as many columns as a head.
fn has_heads(options: usize, line: &[u8]) -> bool
    requires { options ≤ MAX_OPTIONS }
    ensures { result ≡ has_heads options line.now }
{
    let has_columns = has_columns(options, line, b',')
        | has_columns(options, line, b';')
        | has_columns(options, line, b'\t')
        | has_columns(options, line, b'|')
        | has_columns(options, line, b'/');
    has_columns || is_row_of_heads(options, line)
}

/// Whether at most half of the words behind the first of a line are ranks.
fn has_few_ranks(line: &[u8]) -> bool
    ensures { result ≡ has_few_ranks line.now }
{
    let (ranks, words) = (later_rank_count(line), word_count(line).saturating_sub(1));
    ranks <= words.saturating_sub(ranks)
}

/// Whether a line, of which is given whether it is one of ranks, has the words of a head where it stands, which may be below a line of
/// ranks.
fn may_be_head(options: usize, is_below: bool, line: &[u8], are_ranks: bool) -> bool
    requires options { options ≤ MAX_OPTIONS }
    requires ranks { are_ranks ≡ is_of_ranks line.now }
    ensures { result ≡ may_be_head options is_below line.now }
{
    if are_ranks {
        return !is_below && has_each_rank(options, line);
    }
    !(is_below & (options == 2)) && has_few_ranks(line) && has_heads(options, line)
}

/// Whether a name on the roll is so near to a word that it may be meant.
#[tactic(auto, using(crate::proofs::Words::places))]
fn is_near_name(poll: &Poll, word: &[u8]) -> bool
    ensures { result ≡ is_near_name poll.now.roll word.now }
{
    let edits = most_edits(word);
    for voter in 0..poll.electors() {
        let Some(name) = poll.voter_name(voter) else {
            unreachable!()
        };
        if are_within(edits, word, name) {
            return true;
        }
    }
    false
}

/// Whether the first word of a line, in small letters, is the name of no elector; of a line of ranks, which may be a ballot with a wrong
/// name, nor is a name near to it.
fn names_nobody(
    alloc: Global,
    poll: &Poll,
    line: &[u8],
    are_ranks: bool,
) -> Result<bool, AllocError>
    requires { are_ranks ≡ is_of_ranks line.now }
    ensures { IfOk result (λ nobody. nobody ≡ names_nobody poll.now line.now) }
{
    let word = first_word(line).unwrap_or(b"").to_ascii_lowercase(alloc)?;
    let is_elector = poll.voter_of(&word).is_some();
    Ok(!is_elector && !(are_ranks && is_near_name(poll, &word)))
}

/// Whether a line, of which is given whether it is one of ranks, is a head where it stands, which may be below a line of ranks.
fn is_head(
    alloc: Global,
    poll: &Poll,
    is_below: bool,
    line: &[u8],
    are_ranks: bool,
) -> Result<bool, AllocError>
    requires { are_ranks ≡ is_of_ranks line.now }
    ensures { IfOk result (λ is. is ≡ is_head poll.now is_below line.now) }
{
    let may_be = may_be_head(poll.options() as usize, is_below, line, are_ranks);
    Ok(may_be && names_nobody(alloc, poll, line, are_ranks)?)
}

/// Whether a line is a head where it stands, and a line of ranks below it. A line that is not refused is a ballot, and so no head: below a
/// line of ranks it is not looked at before a head was found.
#[tactic(auto, using(crate::proofs::Words::places))]
fn has_head(alloc: Global, file: &CastFile<'_>) -> Result<bool, AllocError>
    requires held { HoldsLines file.now.poll.now file.now.lines.now file.now.ballot_box.now }
    requires in_order { AreCastInOrder (readings file.now.poll.now file.now.lines.now) file.now.ballot_box.now.steps }
    ensures { IfOk result (λ has. has ≡ has_head file.now.poll.now false file.now.lines.now) }
{
    each_line_is_read();
    let (mut is_below, mut has_one) = (false, false);
    for place in 0..file.lines.len() {
        let line = file.lines.line(place);
        if is_below && !has_one && refusing_at(file.ballot_box.steps(), place).is_none() {
            continue;
        }
        let is_of_ranks = is_of_ranks(line);
        if has_one & is_of_ranks {
            return Ok(true);
        }
        has_one = has_one | is_head(alloc, file.poll, is_below, line, is_of_ranks)?;
        is_below = is_below | is_of_ranks;
    }
    Ok(false)
}

/// Whether two lines or more are of ranks, and each of these is even.
#[tactic(auto, using(crate::proofs::Words::places))]
fn has_even_ranks(lines: &Lines<'_>) -> bool
    ensures { result ≡ has_even_ranks lines.now }
{
    let mut number = 0usize;
    for place in 0..lines.len() {
        let line = lines.line(place);
        let is_of_ranks = is_of_ranks(line);
        if is_of_ranks && !is_even(line) {
            return false;
        }
        number = number.saturating_add(usize::from(is_of_ranks));
    }
    2 <= number
}

/// Whether a quotation mark is in a line: it is looked for first, since most lines have none.
fn has_quote(line: &[u8]) -> bool
    ensures { result ≡ list_any is_quote line.now }
{
    line.iter().any(|byte| *byte == b'"')
}

/// Whether all words behind the first of a line are ranks in quotation marks.
fn has_only_quoted(line: &[u8]) -> bool
    ensures { result ≡ list_all is_quoted_rank (later_words line.now) }
{
    let parts = line.split(|byte| is_sign(*byte));
    let words = parts.filter(|word| !word.is_empty());
    words.skip(1).all(|word| is_quoted_rank(word))
}

/// Whether a line has two ranks or more in quotation marks behind its first word, and no other words.
fn is_of_cells(line: &[u8]) -> bool
    ensures { result ≡ is_of_cells line.now }
{
    has_quote(line) && word_count(line) > 2 && has_only_quoted(line)
}

/// Whether two lines or more are of cells.
#[tactic(auto, using(crate::proofs::Words::places))]
fn has_cells(lines: &Lines<'_>) -> bool
    ensures { result ≡ has_cells lines.now }
{
    let mut number = 0usize;
    for place in 0..lines.len() {
        number = number.saturating_add(usize::from(is_of_cells(lines.line(place))));
    }
    2 <= number
}

/// Adds whether a file looks like a table.
pub(crate) fn push_table(
    alloc: Global,
    text: &mut String,
    file: &CastFile<'_>,
) -> Result<(), AllocError>
    requires held { HoldsLines file.now.poll.now file.now.lines.now file.now.ballot_box.now }
    requires in_order { AreCastInOrder (readings file.now.poll.now file.now.lines.now) file.now.ballot_box.now.steps }
    ensures { Adds result text.old (table_text file.now.poll.now file.now.lines.now) text.new }
{
    let lines = file.lines;
    if !(has_head(alloc, file)? || has_even_ranks(lines) || has_cells(lines)) {
        return Ok(());
    }
    text.push_str(
        "the lines look like a table; its columns may stand in another order than the options\n",
    )
}
