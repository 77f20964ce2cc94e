//! The slip that a desk notes.
use vote_steps::Reply;

/// A desk's record of a cast.
#[derive(Clone, Copy, Debug, PartialEq, Eq)]
pub struct Slip {
    /// The number of the step that the cast made in the box, from 1.
    pub number: u32,
    /// The number of the envelope, from 1.
    pub stamp: u32,
    /// The box's reply.
    pub reply: Reply,
}
