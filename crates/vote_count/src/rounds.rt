//! The rounds of the count, and the decision.
ghost use Rattle.std.specs.Prelude.{◌≡◌, ℕ, ◌≤◌, IfOk};
ghost use Rattle.vote_poll.specs.Options.{IsOption};
ghost use Rattle.vote_poll.specs.PollContent.{option_count};
ghost use Rattle.vote_count.specs.Rounds.{AreRounds, HasCause, IsDecision, IsOutcome, IsFinalSetKept, IsDefaultFinalAlone, IsDefaultAlone, cause_of, final_set};
ghost use Rattle.vote_count.specs.Rules.{IsQuorum};
ghost use Rattle.vote_count.specs.Sets.{In, Pairs};

use crate::rules::{has_quorum, kept_with};
use crate::{Defeats, Matrix, OptionSet, meets_majority, quorum_votes, reach, schwartz, weakest};
use std::alloc::{AllocError, Global};
use std::marker::Model;
use vote_poll::{MAX_OPTIONS, Poll};

/// Why an option is dropped (Appendix A, Vote Counting).
#[derive(Clone, Copy, PartialEq, Eq)]
pub enum Cause {
    /// Its votes over the default option do not meet the quorum, whatever its majority.
    Quorum,
    /// It meets the quorum, but does not defeat the default option by its majority ratio.
    Majority,
}

/// One round of the count (Appendix A, Vote Counting).
#[derive(Clone, Copy)]
pub struct Round {
    /// The Schwartz set.
    pub set: OptionSet,
    /// The weakest defeats within the set. They are dropped: the next round goes on without them. The last round
    /// drops none.
    pub removed: Defeats,
}

/// The decision (Appendix A, Vote Counting).
#[derive(Clone, Copy, Debug, PartialEq, Eq)]
pub enum Decision {
    /// This option wins: it is alone in the final set, or the casting vote chooses it from the set.
    Winner(u8),
    /// The final set has several options, and there is no casting vote.
    Tie,
    /// The final set has several options, and the casting vote is for this option, which is not in the set.
    CastingOutside(u8),
}

/// The result of a count: which options were dropped and why, the defeats, and the rounds.
#[derive(Drop)]
pub struct Verdict {
    causes: [Option<Cause>; MAX_OPTIONS],
    defeats: Defeats,
    rounds: Vec<Round>,
}

impl Model for Verdict {
    ghost use Rattle.std.specs.Prelude.{◌<◌, length};
    ghost use Rattle.vote_count.specs.Rounds.{VerdictState};

    ghost Value = { VerdictState };

    ghost view = { λ v. record { causes = v.causes; defeats = v.defeats; rounds = v.rounds.items } };

    ghost invariant = { λ v. 0 < length v.rounds.items };
}

// The rounds over a list of defeats.
fn rounds_of(
    alloc: Global,
    matrix: &Matrix,
    standing: &OptionSet,
    mut defeats: Defeats,
) -> Result<Vec<Round>, AllocError>
    requires few { matrix.now.options ≤ MAX_OPTIONS }
    requires standing { (o : ℕ) → In standing.now o → IsOption matrix.now.options o }
    ensures { IfOk result (λ r. AreRounds (In standing.now) matrix.now (Pairs defeats) r.items) }
{
    let mut rounds = Vec::new(alloc);
    loop {
        let set = schwartz(standing, &reach(&defeats));
        let removed = weakest(&set, &defeats, matrix);
        rounds.push(Round { set, removed })?;
        if removed.is_empty() {
            return Ok(rounds);
        }
        defeats = defeats.minus(&removed);
    }
}

// Why an option is dropped, if it is. `quorum` is the fewest votes that meet the quorum.
fn dropped_for(poll: &Poll, matrix: &Matrix, option: u8, quorum: u64) -> Option<Cause>
    requires matrix { matrix.now.options ≡ option_count poll.now }
    requires option { IsOption (option_count poll.now) option }
    requires quorum { IsQuorum poll.now quorum }
    ensures { HasCause poll.now matrix.now option result }
{
    if option == poll.options() {
        None
    } else if !has_quorum(poll, matrix, option, quorum) {
        Some(Cause::Quorum)
    } else if !meets_majority(poll, matrix, option) {
        Some(Cause::Majority)
    } else {
        None
    }
}

/// Counts the votes of a matrix by the rules of its poll (section 4.2; Appendix A, Vote Counting).
///
/// # Errors
///
/// Memory for the list of rounds was refused.
#[tactic(auto, using(vote_poll::proofs::OptionLaws::options))]
pub fn outcome(alloc: Global, poll: &Poll, matrix: &Matrix) -> Result<Verdict, AllocError>
    requires { matrix.now.options ≡ option_count poll.now }
    ensures outcome { IfOk result (IsOutcome poll.now matrix.now) }

    // The final set is never empty, and has no dropped option. The default is in it exactly when no other option is
    // kept, and then it is alone.
    ensures some { IfOk result (λ verdict. (o : ℕ) × In (final_set verdict.rounds) o) }
    ensures kept { IfOk result (IsFinalSetKept poll.now matrix.now) }
    ensures default { IfOk result (IsDefaultFinalAlone poll.now matrix.now) }
    ensures default_alone { IfOk result (IsDefaultAlone poll.now) }
{
    let quorum = quorum_votes(poll);
    let standing = kept_with(poll, matrix, quorum);
    let mut causes = [None; MAX_OPTIONS];
    for option in 1..poll.options() {
        causes[option as usize - 1] = dropped_for(poll, matrix, option, quorum);
    }
    let defeats = Defeats::of(&standing, matrix);
    let rounds = rounds_of(alloc, matrix, &standing, defeats)?;
    Ok(Verdict {
        causes,
        defeats,
        rounds,
    })
}

#[tactic(auto, using(vote_poll::proofs::OptionLaws::options))]
impl Verdict {
    /// Why an option was dropped, if it was. `option` is from 1 to `MAX_OPTIONS`.
    pub fn dropped(&self, option: u8) -> Option<Cause>
        requires { IsOption MAX_OPTIONS option }
        ensures { result ≡ cause_of self.now option }
    {
        self.causes[option as usize - 1]
    }

    /// The defeats among the options that are not dropped, before any removal.
    pub fn defeats(&self) -> Defeats
        ensures { result ≡ self.now.defeats }
    {
        self.defeats
    }

    /// The rounds in order. There is at least one.
    pub fn rounds(&self) -> &[Round]
        ensures { result.now ≡ self.now.rounds }
    {
        self.rounds.as_slice()
    }

    /// The final set, which is the set of the last round.
    pub fn final_set(&self) -> OptionSet
        ensures { result ≡ final_set self.now.rounds }
    {
        self.rounds[self.rounds.len() - 1].set
    }
}

/// Who wins: the option that is alone in the final set, whatever the casting vote; else the option that the casting
/// vote chooses from the set (Appendix A, Vote Counting).
pub fn decide(verdict: &Verdict, casting: Option<u8>) -> Decision
    ensures decision { IsDecision (final_set verdict.now.rounds) casting result }
    ensures winner { (o : ℕ) → result ≡ Decision.Winner o → In (final_set verdict.now.rounds) o }
{
    let set = verdict.final_set();
    if let Some(winner) = set.only() {
        return Decision::Winner(winner);
    }
    match casting {
        None => Decision::Tie,
        Some(choice) if set.has(choice) => Decision::Winner(choice),
        Some(choice) => Decision::CastingOutside(choice),
    }
}
