//! The ballot box.
ghost use Rattle.std.specs.Prelude.{◌≡◌, ◌+◌, ◌<◌, ◌≤◌, ◌↔◌, ◌∷◌, ◌++◌, [], length, Err, vec_len, vec_capacity, if◌then◌else◌, IsTrue, IfOk, OnOk, OnErr};
ghost use Rattle.vote_count.specs.Ballots.{IsBallotOf};
ghost use Rattle.vote_steps.specs.History.{is_closed, is_valid, standing_ranks};
ghost use Rattle.vote_poll.specs.Readings.{ReadingFits};
ghost use Rattle.vote_steps.specs.Boxes.{AddsCast, AddsClose, CountsRefused, CountsValid, HasUsed, HasVotesOf, IsLegal, IsOutOfRange, UsesAll, box_of, empty_box, refused_in, reply_in, valid_in};
ghost use Rattle.vote_steps.specs.Totals.{totals_of};

use crate::MAX_DESKS;
use crate::packed_reading::PackedReading;
use crate::roll::Roll;
use crate::step::{Reply, Step};
use std::alloc::{AllocError, Global};
use std::marker::Model;
use thiserror::Error;
use vote_count::{Matrix, RunningMatrix};
use vote_poll::{MAX_ELECTORS, MAX_LINES, MAX_OPTIONS, Poll, Ranks, Reading};

/// Why a cast is refused. No step is made, and nothing changes.
#[derive(Clone, Copy, Debug, PartialEq, Eq, Error)]
pub enum StepFault {
    /// The stamp is 0, or greater than the limit of the box.
    #[error("the stamp is not from 1 to the limit of the box")]
    StampRange,
    /// A step of the box has this stamp.
    #[error("a step of the box has this stamp")]
    StampUsed,
}

/// Why a close is refused: the box was closed before. No step is made, and nothing changes.
#[derive(Clone, Copy, Debug, PartialEq, Eq, Error)]
#[error("the box was closed before")]
pub struct AlreadyClosed;

/// How many lines counted and how many did not, and how many voters have a ballot that stands.
#[derive(Clone, Copy, Debug, PartialEq, Eq)]
pub struct Totals {
    /// The casts with the reply `Counted`, `Replaced` or `Superseded`: the ballots that came before the close and were not late.
    pub valid: u64,
    /// The casts with any other reply: `BadLine`, `Late` or `BoxClosed`.
    pub refused: u64,
    /// The voters with a ballot that stands.
    pub voters: u64,
}

/// A ballot box. Contracts see its sizes and its history.
#[derive(Drop)]
pub struct BallotBox {
    limit: u32,
    last_in_time: u32,
    roll: Roll,
    /// For each stamp, from 1, whether a step has it.
    used: Vec<bool>,
    steps: Vec<Step>,
    valid: u64,
    refused: u64,
    closed: bool,
}

impl Model for BallotBox {
    ghost use Rattle.vote_steps.specs.Boxes.{BoxState};

    ghost Value = { BoxState };

    ghost use Rattle.vote_steps.specs.Keeping.{state_of, KeepsHistory};

    ghost view = { state_of };

    ghost invariant = { KeepsHistory };
}

impl BallotBox {
    /// An open box with no steps. It has `options` options with the default, `electors` electors and the stamps 1 to `limit`. An
    /// envelope with a stamp above `last_in_time` is late, in whatever order the envelopes come. With 0 every envelope is late,
    /// and with `MAX_LINES` none is.
    ///
    /// All memory is taken here: a ballot for each elector, a mark for each stamp, and a step for each stamp and for the close.
    pub fn new(
        alloc: Global,
        options: u8,
        electors: usize,
        limit: u32,
        last_in_time: u32,
    ) -> Result<BallotBox, AllocError>
        requires options { (2 ≤ options) × (options ≤ MAX_OPTIONS) }
        requires electors { (1 ≤ electors) × (electors ≤ MAX_ELECTORS) }
        requires limit { limit ≤ MAX_LINES }
        requires last_in_time { last_in_time ≤ MAX_LINES }
        ensures { IfOk result (λ b. b ≡ empty_box options electors limit last_in_time) }
    {
        let ballots = vec![in alloc; None; electors]?;
        let used = vec![in alloc; false; limit as usize]?;
        let steps = Vec::with_capacity(alloc, limit as usize + 1)?;
        Ok(BallotBox {
            limit,
            last_in_time,
            roll: Roll {
                ballots,
                voters: 0,
                matrix: RunningMatrix::zero(options),
            },
            used,
            steps,
            valid: 0,
            refused: 0,
            closed: false,
        })
    }

    /// An open box with no steps for a poll: with the poll's options and electors, its last envelope in time, and the stamps 1
    /// to `limit`. All memory is taken here, as in [`BallotBox::new`].
    pub fn for_poll(alloc: Global, poll: &Poll, limit: u32) -> Result<BallotBox, AllocError>
        requires { limit ≤ MAX_LINES }
        ensures { IfOk result (λ b. b ≡ box_of poll.now limit []) }
    {
        BallotBox::new(
            alloc,
            poll.options(),
            poll.electors(),
            limit,
            poll.last_in_time(),
        )
    }

    /// Casts an envelope at a desk, from 1 to `MAX_DESKS`. This makes a step with the reply. If the envelope has a ballot, it is
    /// from an elector of this box, and has a rank or no rank for each of the box's options.
    ///
    /// The reply is the first that fits, in the order that [`Reply`] names. A ballot with the reply `Counted` or `Replaced`
    /// stands from now on. `StampRange` is tested first, and `StampUsed` next. Both change nothing: no step, no mark, no count.
    pub fn cast(&mut self, desk: u8, stamp: u32, reading: Reading) -> Result<Reply, StepFault>
        requires desk { (1 ≤ desk) × (desk ≤ MAX_DESKS) }
        requires reading { ReadingFits self.old.options self.old.electors reading }

        // An envelope that is taken makes one step, with the reply that the steps before it call for.
        ensures reply { IfOk result (λ reply. reply ≡ reply_in self.old stamp reading) }
        ensures step { IfOk result (AddsCast self.old self.new desk stamp reading) }
        ensures valid { IfOk result (CountsValid self.old self.new) }
        ensures refused { IfOk result (CountsRefused self.old self.new) }

        // When each refusal comes.
        ensures range { (result ≡ Err StepFault.StampRange) ↔ IsOutOfRange self.old stamp }
        ensures used { (result ≡ Err StepFault.StampUsed) ↔ HasUsed self.old stamp }
        ensures err { OnErr result (self.new ≡ self.old) }
    {
        if stamp == 0 || stamp > self.limit {
            return Err(StepFault::StampRange);
        }
        let place = stamp as usize - 1;
        if self.used[place] {
            return Err(StepFault::StampUsed);
        }
        let is_late = stamp > self.last_in_time;
        let reply = self.roll.answer(self.closed, is_late, stamp, &reading);
        count(reply, &mut self.valid, &mut self.refused);
        self.used[place] = true;
        let step = Step::Cast {
            desk,
            stamp,
            reading: PackedReading::of(&reading),
            reply,
        };
        push_step(&mut self.steps, step);
        Ok(reply)
    }

    /// Closes the box, which makes a step. If the box was closed before, returns `AlreadyClosed` and changes nothing.
    pub fn close(&mut self) -> Result<(), AlreadyClosed>
        ensures ok { OnOk result (AddsClose self.old self.new) }
        ensures valid { OnOk result (valid_in self.new ≡ valid_in self.old) }
        ensures refused { OnOk result (refused_in self.new ≡ refused_in self.old) }
        ensures closed { IsTrue (is_closed self.new.steps) }
        ensures legal { IsLegal self.new }
        ensures already { (result ≡ Err record {}) ↔ IsTrue (is_closed self.old.steps) }
        ensures err { OnErr result (self.new ≡ self.old) }
    {
        if self.closed {
            return Err(AlreadyClosed);
        }
        self.closed = true;
        push_step(&mut self.steps, Step::Close);
        Ok(())
    }

    /// The ranks of the voter's ballot that stands: of the voter's ballots that were cast before the close and are not late, the
    /// one with the greatest stamp. Voters are numbered from 0. `None` if the voter has no such ballot, or if there is no such
    /// voter.
    pub fn standing(&self, voter: usize) -> Option<Ranks>
        ensures ranks { result ≡ standing_ranks self.now.last_in_time self.now.steps voter }
        ensures fits { IsBallotOf self.now.options result }
    {
        self.roll.standing(voter)
    }

    /// For each two options, how many voters prefer one to the other, by the ballots that stand. Options are numbered from 1.
    /// This reads the matrix that the box keeps, and no ballot.
    pub fn matrix(&self) -> Matrix
        ensures options { result.options ≡ self.now.options }
        ensures votes { HasVotesOf self.now result }
    {
        self.roll.matrix.matrix()
    }

    /// How many lines counted and how many did not, and how many voters have a ballot that stands.
    pub fn totals(&self) -> Totals
        ensures { result ≡ totals_of self.now }
    {
        Totals {
            valid: self.valid,
            refused: self.refused,
            voters: self.roll.voters,
        }
    }

    /// The steps, oldest first: step 1 is at index 0. They are a legal history.
    pub fn steps(&self) -> &[Step]
        ensures steps { result.now ≡ self.now.steps }

        // Facts about every legal history.
        ensures legal { IsLegal self.now }
        ensures len { length self.now.steps ≤ self.now.limit + 1 }
        ensures at_most { length self.now.steps ≤ MAX_LINES + 1 }
        ensures all_used { UsesAll self.now }
    {
        self.steps.as_slice()
    }

    /// Whether the box has not been closed.
    /// For callers of the library; the program does not call it.
    pub fn is_open(&self) -> bool
        ensures { IsTrue result ↔ ¬ IsTrue (is_closed self.now.steps) }
    {
        !self.closed
    }

    /// The number of options, with the default.
    pub fn options(&self) -> u8
        ensures same { result ≡ self.now.options }
        ensures at_most { result ≤ MAX_OPTIONS }
    {
        self.roll.matrix.options()
    }

    /// The number of electors.
    pub fn electors(&self) -> usize
        ensures same { result ≡ self.now.electors }
        ensures at_most { result ≤ MAX_ELECTORS }
    {
        self.roll.ballots.len()
    }

    /// The greatest stamp that the box takes.
    pub fn limit(&self) -> u32
        ensures same { result ≡ self.now.limit }
        ensures at_most { result ≤ MAX_LINES }
    {
        self.limit
    }

    /// The greatest stamp that is not late.
    pub fn last_in_time(&self) -> u32
        ensures same { result ≡ self.now.last_in_time }
        ensures at_most { result ≤ MAX_LINES }
    {
        self.last_in_time
    }
}

// Counts a reply as that of a valid or of a refused line.
fn count(reply: Reply, valid: &mut u64, refused: &mut u64)
    requires { valid.old + refused.old ≤ MAX_LINES }
    ensures valid { valid.new ≡ valid.old + (if is_valid reply then 1 else 0) }
    ensures refused { refused.new ≡ refused.old + (if is_valid reply then 0 else 1) }
{
    match reply {
        Reply::Counted | Reply::Replaced | Reply::Superseded => *valid += 1,
        Reply::BadLine(_) | Reply::Late | Reply::BoxClosed => *refused += 1,
    }
}

// Adds a step, for which room is kept.
//
// The function takes the step apart and puts it together again. The kit does not prove a function that moves a `Step` into a
// call and has no value of type `Reading` in its hands, such as `close` with `steps.push_reserved(Step::Close)`: a type of
// another crate is inside an enum of this crate. Only one step is copied.
fn push_step(steps: &mut Vec<Step>, step: Step)
    requires { vec_len steps.old < vec_capacity steps.old }
    ensures items { steps.new.items ≡ steps.old.items ++ step ∷ [] }
    ensures len { vec_len steps.new ≡ vec_len steps.old + 1 }
    ensures capacity { vec_capacity steps.old ≤ vec_capacity steps.new }
{
    match step {
        Step::Cast {
            desk,
            stamp,
            reading,
            reply,
        } => steps.push_reserved(Step::Cast {
            desk,
            stamp,
            reading,
            reply,
        }),
        Step::Close => steps.push_reserved(Step::Close),
    }
}
