//! The inputs of the program, read whole up to their limits.

ghost use Rattle.std.specs.Prelude.{◌≡◌, ◌≤◌, [], ◌∷◌, None, Some, IfErr, IfOk, IfSome, IsSome, IsSomeAnd, OnOk, option_map, option_to_list, vec_len};
ghost use Rattle.vote_files.specs.Sources.{HasRead};
ghost use Rattle.vote_request.specs.Requests.{ballot_file, sheet_file};
ghost use Rattle.vote_program.specs.LoadedRequests.{AreReadOf, IsReadWithin};
ghost use Rattle.vote_program.specs.FileReadings.{IsOneUnread, IsUnread, all_read, limit_of, named_files, read_whole};

use std::alloc::Global;
use vote_command_line::NamedRequest;
use vote_commands::{InputFile, RunFault, unread};
use vote_files::{Sources, StandardInput};

/// The most bytes of a poll file.
pub(crate) const POLL_LIMIT: usize = 1_048_576;

/// The most bytes of a published sheet.
pub(crate) const SHEET_LIMIT: usize = 1_048_576;

/// The most bytes of a ballot file.
pub(crate) const BALLOTS_LIMIT: usize = 33_554_432;

/// The most bytes of a joined input: both files and the line between them.
pub(crate) const JOINED_LIMIT: usize = 34_603_011;

/// The most bytes of a file of this kind.
fn limit_of(file: InputFile) -> usize
    ensures { result ≡ limit_of file }
{
    match file {
        InputFile::Poll => POLL_LIMIT,
        InputFile::Ballots => BALLOTS_LIMIT,
        InputFile::Sheet => SHEET_LIMIT,
    }
}

/// All bytes of the file of this name.
fn read_named<S: Sources>(
    files: &mut S,
    alloc: Global,
    file: InputFile,
    name: &str,
) -> Result<Vec<u8>, RunFault>
    ensures whole { IfOk result (λ bytes.
        IsReadWithin (limit_of file) (S.file_bytes files.old name.now) bytes.items) }
    ensures kept { S.file_bytes files.new ≡ S.file_bytes files.old }
    ensures read { OnOk result (HasRead S.file_readings files.old files.new
        (read_whole name.now ∷ [])) }
    ensures fault { IfErr result (IsUnread file (S.file_bytes files.old name.now) (limit_of file)
        (λ fault. HasRead S.file_readings files.old files.new
        (record { name = name.now; fault = Some fault } ∷ []))) }
{
    match files.read_file(alloc, name, limit_of(file)) {
        Ok(bytes) => Ok(bytes),
        Err(fault) => Err(unread(file, fault)),
    }
}

/// The same, or no bytes if there is no name.
fn read_if_named<S: Sources>(
    files: &mut S,
    alloc: Global,
    file: InputFile,
    name: Option<&str>,
) -> Result<Vec<u8>, RunFault>
    ensures whole { IfOk result (λ bytes. IfSome name.entry (λ name.
        IsReadWithin (limit_of file) (S.file_bytes files.old name.now) bytes.items)) }
    ensures within { IfOk result (λ bytes. vec_len bytes ≤ limit_of file) }
    ensures unnamed { ¬ IsSome name.entry → IfOk result (λ bytes. bytes.items ≡ []) }
    ensures kept { S.file_bytes files.new ≡ S.file_bytes files.old }
    ensures read { OnOk result (HasRead S.file_readings files.old files.new
        (option_to_list (option_map (λ name. read_whole name.now) name.entry))) }
    ensures fault { IfErr result (λ told. IsSomeAnd name.entry
        (λ name. IsUnread file (S.file_bytes files.old name.now) (limit_of file)
        (λ fault. HasRead S.file_readings files.old files.new
        (record { name = name.now; fault = Some fault } ∷ [])) told)) }
{
    match name {
        Some(name) => read_named(files, alloc, file, name),
        None => Ok(Vec::new(alloc)),
    }
}

/// The files of a request. One that it does not name has no bytes.
#[derive(Drop)]
pub struct FileBytes {
    pub poll: Vec<u8>,
    pub ballots: Vec<u8>,
    pub sheet: Vec<u8>,
}

/// Reads the files of a request: the poll, then the ballots, then a published sheet.
pub fn read_inputs<S: Sources>(
    files: &mut S,
    alloc: Global,
    request: &NamedRequest<'_>,
) -> Result<FileBytes, RunFault>
    ensures files { IfOk result (λ inputs. AreReadOf (S.file_bytes files.old) request.now inputs) }
    ensures poll { IfOk result (λ inputs. vec_len inputs.poll ≤ POLL_LIMIT) }
    ensures ballots { IfOk result (λ inputs. vec_len inputs.ballots ≤ BALLOTS_LIMIT) }
    ensures sheet { IfOk result (λ inputs. vec_len inputs.sheet ≤ SHEET_LIMIT) }
    ensures no_ballots { ¬ IsSome (ballot_file request.now)
        → IfOk result (λ inputs. inputs.ballots.items ≡ []) }
    ensures no_sheet { ¬ IsSome (sheet_file request.now)
        → IfOk result (λ inputs. inputs.sheet.items ≡ []) }
    ensures read { OnOk result (HasRead S.file_readings files.old files.new
        (all_read (named_files request.now))) }
    ensures fault { IfErr result (IsOneUnread (S.file_bytes files.old)
        (HasRead S.file_readings files.old files.new) request.now) }
{
    let poll = match read_named(files, alloc, InputFile::Poll, request.poll()) {
        Ok(poll) => poll,
        Err(fault) => return Err(fault),
    };
    let ballots = match read_if_named(files, alloc, InputFile::Ballots, request.ballots()) {
        Ok(ballots) => ballots,
        Err(fault) => return Err(fault),
    };
    let sheet = match read_if_named(files, alloc, InputFile::Sheet, request.sheet()) {
        Ok(sheet) => sheet,
        Err(fault) => return Err(fault),
    };
    Ok(FileBytes {
        poll,
        ballots,
        sheet,
    })
}

/// All bytes of standard input, a joined input. One that can't be read is as a ballot file that can't be.
pub fn read_joined<I: StandardInput>(input: &mut I, alloc: Global) -> Result<Vec<u8>, RunFault>
    ensures whole { IfOk result (λ bytes.
        IsReadWithin JOINED_LIMIT (I.standard_bytes input.old) bytes.items) }
    ensures read { OnOk result (HasRead I.standard_readings input.old input.new (None ∷ [])) }
    ensures fault { IfErr result (IsUnread InputFile.Ballots (I.standard_bytes input.old) JOINED_LIMIT
        (λ fault. HasRead I.standard_readings input.old input.new (Some fault ∷ []))) }
{
    match input.read_standard_input(alloc, JOINED_LIMIT) {
        Ok(bytes) => Ok(bytes),
        Err(fault) => Err(unread(InputFile::Ballots, fault)),
    }
}
