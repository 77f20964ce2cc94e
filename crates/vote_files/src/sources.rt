//! What a program reads from: files by their names, and standard input.

ghost use Rattle.std.specs.Prelude.{◌≡◌, ◌≤◌, ℕ, List, [], ◌∷◌, None, Option, IfOk, IsErrOf, IsSome, vec_len};
ghost use Rattle.std.specs.Result.{result_err};
ghost use Rattle.vote_files.specs.declared.input.ReadFault.{ReadFault};
ghost use Rattle.vote_files.specs.Device.{IsTooLong, IsWhole};
ghost use Rattle.vote_files.specs.Sources.{FileReading, HasRead};

use crate::input::ReadFault;
use crate::readable::{ReadableFiles, ReadableInput};
use crate::standard::read_all;
use std::alloc::Global;
use std::rt::Files;

/// Files that a program reads by their names. One that can't be opened is as one whose device failed.
pub trait Sources {
    /// The bytes of the file of this name, if they are told.
    ghost file_bytes: { Self → List ℕ → Option (List ℕ) };

    /// The readings that were made, the oldest first, if they are told.
    ghost file_readings: { Self → Option (List FileReading) };

    /// All bytes of the file of this name, if they are no more than the limit. A file that tells its bytes has no fault of its device.
    fn read_file(&mut self, alloc: Global, name: &str, limit: usize) -> Result<Vec<u8>, ReadFault>
        ensures whole { IfOk result (λ bytes. IsWhole (file_bytes self.old name.now) bytes.items) }
        ensures within { IfOk result (λ bytes. vec_len bytes ≤ limit) }
        ensures too_long { IsErrOf result ReadFault.TooLong → IsTooLong (file_bytes self.old name.now) limit }
        ensures device { IsErrOf result ReadFault.Device → ¬ IsSome (file_bytes self.old name.now) }
        ensures kept { file_bytes self.new ≡ file_bytes self.old }
        ensures read { HasRead file_readings self.old self.new (record { name = name.now; fault = result_err result } ∷ []) };
}

/// The standard input of a program.
pub trait StandardInput {
    /// The bytes of standard input, if they are told.
    ghost standard_bytes: { Self → Option (List ℕ) };

    /// Why each reading failed, if it did, the oldest first, if readings are told.
    ghost standard_readings: { Self → Option (List (Option ReadFault)) };

    /// All bytes of standard input, if they are no more than the limit. One that tells its bytes has no fault of its device.
    fn read_standard_input(&mut self, alloc: Global, limit: usize) -> Result<Vec<u8>, ReadFault>
        ensures whole { IfOk result (λ bytes. IsWhole (standard_bytes self.old) bytes.items) }
        ensures within { IfOk result (λ bytes. vec_len bytes ≤ limit) }
        ensures too_long { IsErrOf result ReadFault.TooLong → IsTooLong (standard_bytes self.old) limit }
        ensures device { IsErrOf result ReadFault.Device → ¬ IsSome (standard_bytes self.old) }
        ensures read { HasRead standard_readings self.old self.new (result_err result ∷ []) };
}

/// The files of the system tell no bytes and no readings: that a name opens its file, and which bytes come from it, no contract of
/// std says.
impl<'r, R: Files> Sources for ReadableFiles<'r, R> {
    ghost file_bytes = { λ _ _. None };

    ghost file_readings = { λ _. None };

    fn read_file(&mut self, alloc: Global, name: &str, limit: usize) -> Result<Vec<u8>, ReadFault> {
        match self.open(name) {
            Ok(file) => read_all(alloc, file, limit),
            Err(_) => Err(ReadFault::Device),
        }
    }
}

/// The standard input of the system tells no bytes and no readings: which bytes come from it, no contract of std says.
impl<'r, R: Input> StandardInput for ReadableInput<'r, R> {
    ghost standard_bytes = { λ _. None };

    ghost standard_readings = { λ _. None };

    fn read_standard_input(&mut self, alloc: Global, limit: usize) -> Result<Vec<u8>, ReadFault> {
        read_all(alloc, self.reader(), limit)
    }
}
