//! A standard input without bytes.

ghost use Rattle.std.specs.Prelude.{◌≡◌, [], Some, map};

use crate::log::{Log, Note};
use std::alloc::Global;
use std::marker::Model;
use vote_files::{ReadFault, StandardInput};

/// Has no bytes. Contracts see the list of the readings that were made.
#[derive(Drop)]
pub struct NoInput {
    log: Log,
}

impl Model for NoInput {
    ghost use Rattle.std.specs.Prelude.{List};
    ghost use Rattle.vote_files.specs.Sources.{FileReading};

    ghost Value = { List FileReading };

    ghost view = { λ input. input.log.readings };
}

impl NoInput {
    /// An input that was not read.
    pub fn new() -> NoInput
        ensures { result ≡ [] }
    {
        NoInput { log: Log::new() }
    }
}

impl StandardInput for NoInput {
    ghost standard_bytes = { λ _. Some [] };

    ghost standard_readings = { λ readings. Some (map (λ reading. reading.fault) readings) };

    fn read_standard_input(&mut self, alloc: Global, _limit: usize) -> Result<Vec<u8>, ReadFault> {
        let note = Note {
            name: "",
            fault: None,
        };
        self.log = self.log.then(&note);
        Ok(Vec::new(alloc))
    }
}
