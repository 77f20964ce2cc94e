//! A request with the bytes of its files.

ghost use Rattle.vote_program.specs.LoadedRequests.{IsLoadedWith};
ghost use Rattle.vote_request.specs.Requests.{DesksFit};

use crate::inputs::FileBytes;
use vote_command_line::NamedRequest;
use vote_commands::LoadedRequest;

/// The request with the bytes of its files. A file that the request does not name has no bytes.
pub fn with_bytes<'a>(request: &NamedRequest<'a>, inputs: &'a FileBytes) -> LoadedRequest<'a>
    requires { DesksFit request.now }
    ensures loaded { IsLoadedWith request.now inputs.now result }
    ensures desks { DesksFit result }
{
    let poll = inputs.poll.as_slice();
    let ballots = inputs.ballots.as_slice();
    let sheet = inputs.sheet.as_slice();
    request.on(poll, ballots, sheet)
}
