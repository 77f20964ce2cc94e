//! Takes and audits the votes of a poll file and a ballot file. Each run that counts begins with this.

ghost use Rattle.std.specs.Prelude.{◌≡◌, IfErr, IfNone, IfOk, IfSome, option_copied};
ghost use Rattle.vote_poll.specs.PollFile.{poll_in};
ghost use Rattle.vote_steps.specs.Desks.{AreDesks};
ghost use Rattle.vote_commands.specs.Counting.{IsNamed, NamesNoOption};
ghost use Rattle.vote_commands.specs.Reading.{AsksForNoVotes};
ghost use Rattle.vote_commands.specs.TakenVotes.{AreBallotsTaken, AreTaken, StopsTaking};
ghost use Rattle.vote_commands.specs.TakingVotes.{TakesVotes};

use crate::fault::RunFault;
use crate::reading::{lines_of_file, poll_of_file};
use std::alloc::Global;
use std::marker::Model;
use vote_audit::{Audited, VoteFault};
use vote_poll::{Lines, Poll};

/// The inputs of a run that counts.
#[derive(Drop)]
pub struct CountInputs<'a> {
    /// The bytes of the poll file.
    pub poll: &'a [u8],
    /// The bytes of the ballot file.
    pub ballots: &'a [u8],
    /// From 1 to [`MAX_DESKS`](vote_steps::MAX_DESKS).
    pub desks: u8,
    /// The name of the option that the casting vote chooses in a tie.
    pub casting: Option<&'a [u8]>,
}

impl<'a> Model for CountInputs<'a> {
    ghost use Rattle.vote_commands.specs.Inputs.{Inputs, inputs_at};

    ghost Value = { Inputs };

    ghost view = { λ given. inputs_at given.poll given.ballots given.desks given.casting };
}

/// A poll and its lines, the option of the casting vote, and the audited box of the votes.
#[derive(Drop)]
pub(crate) struct TakenVotes<'t> {
    pub poll: Poll,
    pub lines: Lines<'t>,
    pub casting: Option<u8>,
    pub audited: Audited,
}

/// The option that the casting vote names, if there is a casting vote; `None` if no option has the name.
fn named_option(poll: &Poll, casting: Option<&[u8]>) -> Option<Option<u8>>
    ensures none { IfNone result (NamesNoOption poll.now (option_copied casting.entry)) }
    ensures named { IfSome result (IsNamed poll.now (option_copied casting.entry)) }
{
    match casting {
        None => Some(None),
        Some(name) => {
            let option = poll.option_of(name)?;
            Some(Some(option))
        }
    }
}

/// The poll of the poll file, and its option that the casting vote names, if there is a casting vote.
#[tactic(auto, using(crate::proofs::Stopping::without_poll, crate::proofs::Stopping::without_option))]
fn read_poll(alloc: Global, inputs: &CountInputs<'_>) -> Result<(Poll, Option<u8>), RunFault>
    ensures poll { IfOk result (λ read. poll_in inputs.now.poll ≡ Ok read.0) }
    ensures casting { IfOk result (λ read. IsNamed read.0 inputs.now.casting read.1) }
    ensures stopped { IfErr result (AsksForNoVotes inputs.now) }
{
    let poll = match poll_of_file(alloc, inputs.poll) {
        Ok(poll) => poll,
        Err(fault) => return Err(fault),
    };
    let Some(casting) = named_option(&poll, inputs.casting) else {
        return Err(RunFault::NoSuchOption);
    };
    Ok((poll, casting))
}

/// Takes the votes of the ballot file by this call, and returns the lines and the audited box. `poll` is the poll of the poll file,
/// and has the option that the casting vote names.
#[tactic(auto, using(crate::proofs::Stopping::count_without_votes))]
fn take_ballots<'t, V: FnOnce(&Poll, &Lines<'_>, u8) -> Result<Audited, VoteFault> + Drop>(
    alloc: Global,
    poll: &Poll,
    inputs: &CountInputs<'t>,
    take: V,
) -> Result<(Lines<'t>, Audited), RunFault>
    requires take { TakesVotes (V.pre take) (V.post take) }
    requires desks { AreDesks inputs.now.desks }
    requires poll { poll_in inputs.now.poll ≡ Ok poll.now }
    requires casting { ¬ NamesNoOption poll.now inputs.now.casting }
    ensures taken { IfOk result (AreBallotsTaken poll.now inputs.now) }
    ensures stopped { IfErr result (StopsTaking (V.post take) inputs.now) }
{
    let lines = match lines_of_file(alloc, inputs.ballots) {
        Ok(lines) => lines,
        Err(fault) => return Err(fault),
    };
    let audited = match take(poll, &lines, inputs.desks) {
        Ok(audited) => audited,
        Err(fault) => return Err(RunFault::from(fault)),
    };
    Ok((lines, audited))
}

/// Reads the poll, then the casting vote, then the lines, and takes the votes by this call.
#[tactic(auto, using(crate::proofs::Stopping::count_without_votes_asked))]
pub(crate) fn take_inputs<
    't,
    V: FnOnce(&Poll, &Lines<'_>, u8) -> Result<Audited, VoteFault> + Drop,
>(alloc: Global, inputs: &CountInputs<'t>, take: V) -> Result<TakenVotes<'t>, RunFault>
    requires desks { AreDesks inputs.now.desks }
    requires take { TakesVotes (V.pre take) (V.post take) }
    ensures taken { IfOk result (AreTaken inputs.now) }
    ensures stopped { IfErr result (StopsTaking (V.post take) inputs.now) }
{
    let (poll, casting) = match read_poll(alloc, inputs) {
        Ok(read) => read,
        Err(fault) => return Err(fault),
    };
    let (lines, audited) = match take_ballots(alloc, &poll, inputs, take) {
        Ok(taken) => taken,
        Err(fault) => return Err(fault),
    };
    Ok(TakenVotes {
        poll,
        lines,
        casting,
        audited,
    })
}
