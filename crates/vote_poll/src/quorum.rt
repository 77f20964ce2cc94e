//! The votes that a quorum needs.
ghost use Rattle.std.specs.Prelude.{◌≤◌};
ghost use Rattle.vote_poll.specs.Quorum.{AreTimesQ};
ghost use Rattle.vote_poll.specs.declared.TheConstants.{MAX_ELECTORS};

/// The fewest votes that are at least this multiple of Q (section 4.2). Q is half of the square root of
/// the number of electors, and is not rounded. With a multiple of 0 the result is 0.
pub fn times_q(multiple: u8, electors: usize) -> u64
    requires multiple { multiple ≤ 10 }
    requires electors { electors ≤ MAX_ELECTORS }
    ensures { AreTimesQ multiple electors result }
{
    let times = u64::from(multiple);
    let bound = times * times * electors as u64;
    let mut votes: u64 = 0;
    while 2 * votes * (2 * votes) < bound {
        votes += 1;
    }
    votes
}
