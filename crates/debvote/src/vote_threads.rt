//! The threads of the system, lent to take votes.
//!
//! Who is given them can take votes, and do nothing else with the system: the field is private, and
//! no other module has what stands there.

ghost use Rattle.std.specs.Prelude.{false};
ghost use Rattle.vote_steps.specs.Desks.{AreDesks};
ghost use Rattle.vote_commands.specs.TakingVotes.{AreTakenAtDesks};

use std::sync::Wait;
use std::thread::Threads;
use vote_desks::{Audited, NoGate, VoteFault, take_votes};
use vote_poll::{Lines, Poll};

/// The threads of the system, to take votes.
#[derive(Drop)]
pub(crate) struct VoteThreads<R> {
    system: R,
}

impl<R> VoteThreads<R> {
    /// Lends the threads of the system to take votes.
    pub(crate) fn of(system: R) -> Self {
        VoteThreads { system }
    }
}

impl<R: AllocGlobal + Threads + Wait + Sync> VoteThreads<R> {
    /// Takes the votes of all lines at desks 1 to `desks`, each in a thread. No gate stops a desk.
    pub(crate) fn take(
        &self,
        poll: &Poll,
        lines: &Lines<'_>,
        desks: u8,
    ) -> Result<Audited, VoteFault>
        requires { AreDesks desks }
        ensures { AreTakenAtDesks (λ desk. false) poll.now lines.now desks result }
    {
        let alloc = self.system.alloc();
        take_votes(&self.system, alloc, poll, lines, desks, &NoGate)
    }
}
