//! The words of the count.

ghost use Rattle.std.specs.Prelude.{◌≡◌, ◌∷◌, ◌++◌, [], IfOk, OnOk, codes, map, string_bytes};
ghost use Rattle.vote_memory.specs.CountWords.{casting_words, count_words};

use std::alloc::{AllocError, Global};

/// The words with one more at the end.
fn push_word(alloc: Global, words: &mut Vec<String>, word: &str) -> Result<(), AllocError>
    ensures { OnOk result (map string_bytes words.new.items ≡ map string_bytes words.old.items ++ word.now ∷ []) }
{
    let mut owned = String::new(alloc);
    owned.push_str(word)?;
    words.push(owned)?;
    Ok(())
}

/// The words with a casting vote for the option `B`, if there is one.
fn push_casting(alloc: Global, words: &mut Vec<String>, casting: bool) -> Result<(), AllocError>
    ensures { OnOk result (map string_bytes words.new.items ≡ map string_bytes words.old.items ++ casting_words casting) }
{
    if !casting {
        return Ok(());
    }
    push_word(alloc, words, "--casting")?;
    push_word(alloc, words, "B")
}

/// The words that ask for the sheet of the files `poll` and `ballots`, after the program's name.
pub(crate) fn words_of_count(alloc: Global, casting: bool) -> Result<Vec<String>, AllocError>
    ensures { IfOk result (λ words. map string_bytes words.items ≡ codes "debvote" ∷ count_words casting) }
{
    let mut words = Vec::new(alloc);
    push_word(alloc, &mut words, "debvote")?;
    push_word(alloc, &mut words, "count")?;
    push_word(alloc, &mut words, "--poll")?;
    push_word(alloc, &mut words, "poll")?;
    push_word(alloc, &mut words, "--ballots")?;
    push_word(alloc, &mut words, "ballots")?;
    push_casting(alloc, &mut words, casting)?;
    Ok(words)
}
