//! The readings that were made. Only contracts see them: the list takes no memory and no time.

ghost use Rattle.std.specs.Prelude.{◌≡◌, List, [], ◌∷◌, ◌++◌};
ghost use base.Fml.{ftrue};
ghost use Rattle.vote_files.specs.Sources.{FileReading};
ghost use Rattle.vote_memory.specs.ReadingsCode.{readings_code};

use std::marker::Model;
use vote_files::ReadFault;

/// All readings, the oldest first.
#[derive(Drop)]
pub(crate) struct Log {
    ghost readings: { List FileReading } by { readings_code },
}

impl Model for Log {
    ghost also_owns = { λ _. ftrue };
}

/// One reading: the name of the file, and why it was not read, if it was not.
#[derive(Clone, Copy, Drop)]
pub(crate) struct Note<'a> {
    pub name: &'a str,
    pub fault: Option<ReadFault>,
}

impl Log {
    /// No reading.
    pub(crate) fn new() -> Log
        ensures { result.readings ≡ [] }
    {
        Log {}
    }

    /// The readings with one more. The contract alone uses the note.
    pub(crate) fn then(&self, _note: &Note<'_>) -> Log
        ensures { result.readings ≡ self.now.readings ++ record { name = _note.now.name.now; fault = _note.now.fault } ∷ [] }
    {
        Log {}
    }
}
