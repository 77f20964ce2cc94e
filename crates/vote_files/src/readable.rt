//! What the system has, lent to be read.
//!
//! Who is given one of these can read, and do nothing else with the system's files and input: the
//! field is private, and no other module of this crate has what stands there.

use std::fs::File;
use std::io;
use std::rt::Files;

/// The files of the system, to be read.
#[derive(Clone, Copy)]
pub struct ReadableFiles<'r, R> {
    system: &'r R,
}

impl<'r, R: Files> ReadableFiles<'r, R> {
    /// Lends the files of the system to be read.
    pub fn of(system: &'r R) -> Self {
        ReadableFiles { system }
    }

    // The file of this name, opened for reading.
    pub(crate) fn open(&self, name: &str) -> io::Result<R::File> {
        File::open(self.system, name)
    }
}

/// The standard input of the system, to be read.
#[derive(Clone, Copy)]
pub struct ReadableInput<'r, R> {
    system: &'r R,
}

impl<'r, R: Input> ReadableInput<'r, R> {
    /// Lends the standard input of the system to be read.
    pub fn of(system: &'r R) -> Self {
        ReadableInput { system }
    }

    // What reads it.
    pub(crate) fn reader(&self) -> R::Reader {
        self.system.reader()
    }
}
