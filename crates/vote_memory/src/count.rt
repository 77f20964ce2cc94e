//! A count of two files in memory.

ghost use Rattle.std.specs.Prelude.{◌≡◌, ◌<◌, ◌∷◌, ◌↔◌, [], None, Some, IfOk, codes, if◌then◌else◌, map, string_bytes};
ghost use Rattle.vote_commands.specs.TakingVotes.{TakesVotes};
ghost use Rattle.vote_program.specs.CountEnds.{IsDueOrStopped};
ghost use Rattle.vote_memory.specs.CountWords.{count_words};
ghost use Rattle.vote_memory.specs.MemoryCounts.{IsCountOf};

use crate::files::MemoryFiles;
use crate::input::NoInput;
use crate::words::words_of_count;
use std::alloc::{AllocError, Global};
use vote_audit::{Audited, VoteFault};
use vote_files::WriterSink;
use vote_poll::{Lines, Poll};
use vote_program::answer;

/// How a count ended: the exit status, the output and standard error with what stands on them, and the files and the standard input
/// with the readings that were made.
#[derive(Drop)]
pub struct MemoryCount<'a> {
    pub status: u8,
    pub output: WriterSink<Vec<u8>>,
    pub errors: WriterSink<Vec<u8>>,
    pub files: MemoryFiles<'a>,
    pub input: NoInput,
}

/// Answers these words, with a casting vote or without, over files that were not read.
fn count_by_words<'a, V: FnOnce(&Poll, &Lines<'_>, u8) -> Result<Audited, VoteFault> + Drop>(
    alloc: Global,
    words: &[String],
    _casting: bool,
    files: MemoryFiles<'a>,
    take: V,
    output: Vec<u8>,
) -> MemoryCount<'a>
    requires words { map string_bytes words.now ≡ codes "debvote" ∷ count_words _casting }
    requires unread { files.readings ≡ [] }
    requires take { TakesVotes (V.pre take) (V.post take) }
    ensures sheet { IsCountOf files.entry.poll files.entry.ballots
        (if _casting then Some (codes "B") else None) output.items result }
    ensures due { IsDueOrStopped (V.post take) files.entry.poll files.entry.ballots
        (if _casting then Some (codes "B") else None) result.status }
    ensures output { (result.status ≡ 7) ↔ (0 < result.output.meter.faults) }
{
    let mut files = files;
    let mut input = NoInput::new();
    let mut sink = WriterSink::new(output);
    let mut errors = WriterSink::new(Vec::new(alloc));
    let status = answer(
        alloc,
        &mut files,
        &mut input,
        words,
        false,
        take,
        &mut sink,
        &mut errors,
    );
    MemoryCount {
        status,
        output: sink,
        errors,
        files,
        input,
    }
}

/// Counts the ballots of a file by a poll file, as `debvote count --poll poll --ballots ballots` does, with these bytes as the two files.
/// If a casting vote is given, it is for the option `B`. The sheet is written after what stands on the output. If the exit status is
/// neither 0 nor 1, the contract does not say what was written and read.
pub fn count_in_memory<'a, V: FnOnce(&Poll, &Lines<'_>, u8) -> Result<Audited, VoteFault> + Drop>(
    alloc: Global,
    poll: &'a [u8],
    ballots: &'a [u8],
    casting: bool,
    take: V,
    output: Vec<u8>,
) -> Result<MemoryCount<'a>, AllocError>
    requires { TakesVotes (V.pre take) (V.post take) }
    ensures sheet { IfOk result (IsCountOf poll.entry.now ballots.entry.now
        (if casting then Some (codes "B") else None) output.items) }
    ensures due { IfOk result (λ counted.
        IsDueOrStopped (V.post take) poll.entry.now ballots.entry.now
        (if casting then Some (codes "B") else None) counted.status) }
    ensures output { IfOk result (λ counted.
        (counted.status ≡ 7) ↔ (0 < counted.output.meter.faults)) }
{
    let words = words_of_count(alloc, casting)?;
    let files = MemoryFiles::new(poll, ballots);
    Ok(count_by_words(alloc, words.as_slice(), casting, files, take, output))
}
