//! A poll file and a ballot file in memory.

ghost use Rattle.std.specs.Prelude.{◌≡◌, ◌≢◌, ◌<◌, ◌≤◌, [], Err, Some, IfOk, IsErrOf, IsSome, length, option_copied, vec_len};
ghost use Rattle.std.specs.Result.{result_err};
ghost use Rattle.vote_files.specs.Device.{IsTooLong};
ghost use Rattle.vote_memory.specs.Files.{bytes_named};

use crate::log::{Log, Note};
use std::alloc::Global;
use std::marker::Model;
use vote_files::{ReadFault, Sources};

/// A poll file and a ballot file, by the names `poll` and `ballots`.
#[derive(Drop)]
pub struct MemoryFiles<'a> {
    poll: &'a [u8],
    ballots: &'a [u8],
    log: Log,
}

impl<'a> Model for MemoryFiles<'a> {
    ghost use Rattle.vote_memory.specs.Files.{FilesInMemory};

    ghost Value = { FilesInMemory };

    ghost view = { λ files. record { poll = files.poll.now; ballots = files.ballots.now; readings = files.log.readings } };
}

/// A copy of these bytes, if they are no more than the limit.
fn copy_within(alloc: Global, bytes: &[u8], limit: usize) -> Result<Vec<u8>, ReadFault>
    ensures same { IfOk result (λ copy. copy.items ≡ bytes.now) }
    ensures within { IfOk result (λ copy. vec_len copy ≤ limit) }
    ensures too_long { IsErrOf result ReadFault.TooLong → limit < length bytes.now }
    ensures device { result ≢ Err ReadFault.Device }
{
    if bytes.len() > limit {
        return Err(ReadFault::TooLong);
    }
    let mut copy = Vec::new(alloc);
    copy.extend_from_slice(bytes)?;
    Ok(copy)
}

/// The bytes of this file, if it is there, and if they are no more than the limit.
fn read_named(alloc: Global, file: Option<&[u8]>, limit: usize) -> Result<Vec<u8>, ReadFault>
    ensures whole { IfOk result (λ bytes. option_copied file.entry ≡ Some bytes.items) }
    ensures within { IfOk result (λ bytes. vec_len bytes ≤ limit) }
    ensures too_long { IsErrOf result ReadFault.TooLong → IsTooLong (option_copied file.entry) limit }
    ensures device { IsErrOf result ReadFault.Device → ¬ IsSome (option_copied file.entry) }
{
    match file {
        Some(bytes) => copy_within(alloc, bytes, limit),
        None => Err(ReadFault::Device),
    }
}

/// Why a file was not read, if it was not.
fn fault_of(read: &Result<Vec<u8>, ReadFault>) -> Option<ReadFault>
    ensures { result ≡ result_err read.now }
{
    match read {
        Ok(_) => None,
        Err(fault) => Some(*fault),
    }
}

impl<'a> MemoryFiles<'a> {
    /// These files, of which none was read.
    pub fn new(poll: &'a [u8], ballots: &'a [u8]) -> MemoryFiles<'a>
        ensures { result ≡ record { poll = poll.entry.now; ballots = ballots.entry.now; readings = [] } }
    {
        MemoryFiles {
            poll,
            ballots,
            log: Log::new(),
        }
    }

    /// The bytes of the file of this name.
    fn bytes_of(&self, name: &str) -> Option<&'a [u8]>
        ensures { option_copied result ≡ bytes_named self.now name.now }
    {
        if name == "poll" {
            Some(self.poll)
        } else if name == "ballots" {
            Some(self.ballots)
        } else {
            None
        }
    }
}

impl<'a> Sources for MemoryFiles<'a> {
    ghost file_bytes = { bytes_named };

    ghost file_readings = { λ files. Some files.readings };

    fn read_file(&mut self, alloc: Global, name: &str, limit: usize) -> Result<Vec<u8>, ReadFault> {
        let read = read_named(alloc, self.bytes_of(name), limit);
        let note = Note {
            name,
            fault: fault_of(&read),
        };
        self.log = self.log.then(&note);
        read
    }
}
