//! The steps of a ballot box, and the replies to its casts.
ghost use Rattle.std.specs.Prelude.{◌≡◌};
ghost use Rattle.vote_steps.specs.ReplyWords.{reply_words};

use crate::packed_reading::PackedReading;
use vote_poll::{LineFault, Ranks};

/// The reply to a cast: the first of these that fits, in the order `BoxClosed`, `Late`, `BadLine`, `Superseded`,
/// `Replaced`, `Counted`.
#[derive(Clone, Copy, Debug, PartialEq, Eq)]
pub enum Reply {
    /// The line is a ballot of a voter who has no ballot yet. It stands.
    Counted,
    /// The voter's ballot that stood has a smaller stamp. The new ballot stands in its place.
    Replaced,
    /// The voter's ballot that stands has a greater stamp. It still stands.
    Superseded,
    /// The line is no ballot, because of this fault.
    BadLine(LineFault),
    /// The stamp of the envelope is above the last envelope of the box. The line does not count, whatever it says and
    /// whenever it came.
    Late,
    /// The box was closed before. The line does not count, whatever it says.
    BoxClosed,
}

/// The words of a reply, as `steps` writes them.
pub fn reply_words(reply: Reply) -> &'static str
    ensures { result.now ≡ reply_words reply }
{
    match reply {
        Reply::Counted => "counted",
        Reply::Replaced => "replaced",
        Reply::Superseded => "superseded",
        Reply::BadLine(LineFault::Shape) => "bad shape",
        Reply::BadLine(LineFault::RankCount) => "bad rank count",
        Reply::BadLine(LineFault::Roll) => "bad not on roll",
        Reply::Late => "late",
        Reply::BoxClosed => "closed",
    }
}

/// One step of a ballot box. The steps of a box are numbered from 1.
#[derive(Clone, Copy)]
pub enum Step {
    /// An envelope was cast.
    Cast {
        /// The desk at which it was cast, from 1 to [`MAX_DESKS`](crate::MAX_DESKS).
        desk: u8,
        /// Its stamp, from 1 to the limit of the box.
        stamp: u32,
        /// The poll's reading of its line.
        reading: PackedReading,
        /// The reply to the cast.
        reply: Reply,
    },
    /// The box was closed.
    Close,
}

/// A ballot as it was received.
#[derive(Clone, Copy)]
pub struct Received {
    /// The rank that it gives each option, or no rank.
    pub ranks: Ranks,
    /// The stamp of its envelope, from 1.
    pub stamp: u32,
}
