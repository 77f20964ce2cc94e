//! The ballots that stand, and their matrix.
//!
//! The matrix is kept by differences: a ballot that comes to stand is added, or exchanged for the ballot that it replaces.
//! With n options, at most 32, each costs n² additions of bytes, sixteen at a time, whatever the number of voters and lines. A
//! recount at each question would cost as much for each voter on the roll, and a desk may ask after each cast.
ghost use Rattle.std.specs.Prelude.{◌≡◌, ◌<◌, ◌≤◌, length, is_some, vec_len, count_by};
ghost use Rattle.vote_poll.specs.Readings.{ReadingFits};
ghost use Rattle.vote_poll.specs.declared.TheConstants.{MAX_ELECTORS};
ghost use Rattle.vote_count.specs.Ballots.{IsBallotOf};
ghost use Rattle.vote_steps.specs.Receiving.{AreVotesOf, HaveRanks, ballot_at, ballots_given, ranks_at, reply_given, with_ballot};
ghost use Rattle.vote_steps.specs.History.{reply_beside};

use crate::step::{Received, Reply};
use vote_count::RunningMatrix;
use vote_poll::{Ranks, Reading};

/// The ballots that stand, and their votes together.
#[derive(Drop)]
pub struct Roll {
    /// The ballot that stands of each voter, by the position on the roll, from 0.
    pub ballots: Vec<Option<Received>>,
    /// How many voters have a ballot that stands.
    pub voters: u64,
    /// For each two options, how many voters prefer one to the other.
    pub matrix: RunningMatrix,
    ghost few: { vec_len ballots ≤ MAX_ELECTORS },
    ghost fit: { HaveRanks matrix.options ballots.items },
    ghost counted: { voters ≡ count_by is_some ballots.items },
    ghost recounted: { AreVotesOf ballots.items matrix },
}

impl Roll {
    /// The ranks of a voter's ballot that stands. `None` too if the voter is not on the roll.
    pub fn standing(&self, voter: usize) -> Option<Ranks>
        ensures ranks { result ≡ ranks_at self.now.ballots.items voter }
        ensures fits { IsBallotOf self.now.matrix.options result }
    {
        match self.ballots.get(voter) {
            Some(Some(ballot)) => Some(ballot.ranks),
            _ => None,
        }
    }

    /// Answers an envelope, and takes in its ballot if the box is open and the envelope is not late.
    pub fn answer(&mut self, is_closed: bool, is_late: bool, stamp: u32, reading: &Reading) -> Reply
        requires { ReadingFits self.old.matrix.options (vec_len self.old.ballots) reading.now }
        ensures reply { result ≡ reply_given is_closed is_late self.old.ballots.items stamp reading.now }
        ensures ballots { self.new.ballots.items ≡ ballots_given is_closed is_late self.old.ballots.items stamp reading.now }
        ensures options { self.new.matrix.options ≡ self.old.matrix.options }
        ensures len { vec_len self.new.ballots ≡ vec_len self.old.ballots }
    {
        if is_closed {
            return Reply::BoxClosed;
        }
        if is_late {
            return Reply::Late;
        }
        match reading {
            Reading::Ballot { voter, ranks } => {
                let ranks = *ranks;
                self.receive(*voter, Received { stamp, ranks })
            }
            Reading::Bad(fault) => Reply::BadLine(*fault),
        }
    }

    /// Takes in a ballot of a voter. It stands from now on, unless a ballot with a greater stamp does.
    pub fn receive(&mut self, voter: usize, ballot: Received) -> Reply
        requires voter { voter < vec_len self.old.ballots }
        requires ranks { length ballot.ranks ≡ self.old.matrix.options }
        ensures reply { result ≡ reply_beside (ballot_at self.old.ballots.items voter) ballot.stamp }
        ensures ballots { self.new.ballots.items ≡ with_ballot self.old.ballots.items voter ballot }
        ensures options { self.new.matrix.options ≡ self.old.matrix.options }
    {
        match &self.ballots[voter] {
            Some(standing) if ballot.stamp < standing.stamp => Reply::Superseded,
            Some(standing) => {
                self.matrix.exchange(&standing.ranks, &ballot.ranks);
                self.ballots[voter] = Some(ballot);
                Reply::Replaced
            }
            None => {
                self.matrix.add(&ballot.ranks);
                self.ballots[voter] = Some(ballot);
                self.voters += 1;
                Reply::Counted
            }
        }
    }
}
