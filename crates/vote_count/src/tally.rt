//! The matrix of votes.
ghost use Rattle.std.specs.Prelude.{◌≡◌, ℕ, ◌-◌, ◌^◌, ◌<◌, ◌≤◌, length, All};
ghost use Rattle.vote_count.specs.Ballots.{IsBallotOf, HasNoVotes, HasRoomFor, HasCounted, CountsOneMore, CountsOneLess, CountsAll};
ghost use Rattle.vote_count.specs.Rows.{key_at, IsRaised};
ghost use Rattle.vote_poll.specs.Options.{IsOption};
ghost use Rattle.vote_count.specs.Votes.{votes, AreRows};

use std::marker::Model;
use vote_poll::{MAX_ELECTORS, MAX_OPTIONS, Ranks};

/// V(A,B) for each two options A and B: the number of voters who prefer A to B (Appendix A, Vote
/// Counting).
#[derive(Clone, Copy, PartialEq, Eq)]
pub struct Matrix {
    options: u8,
    counts: [[u32; MAX_OPTIONS]; MAX_OPTIONS],
}

impl Model for Matrix {
    ghost use Rattle.std.specs.Prelude.{◌≤◌};
    ghost use Rattle.vote_count.specs.Votes.{Votes, AreRows};
    ghost use Rattle.vote_poll.specs.declared.TheConstants.{MAX_OPTIONS};

    ghost Value = { Votes };

    ghost view = { λ m. record { options = m.options; rows = m.counts } };

    ghost invariant = { λ m. (m.options ≤ MAX_OPTIONS) × AreRows m.counts };

    ghost inverse = { λ v. record { options = v.options; counts = v.rows } };
}

#[tactic(auto, using(vote_poll::proofs::OptionLaws::options))]
impl Matrix {
    /// The matrix for this many options, with no votes.
    pub fn zero(options: u8) -> Self
        requires { options ≤ MAX_OPTIONS }
        ensures options { result.options ≡ options }
        ensures votes { HasNoVotes options result }
    {
        Self {
            options,
            counts: [[0; MAX_OPTIONS]; MAX_OPTIONS],
        }
    }

    /// The number of options, which is also the number of the default option.
    pub fn options(&self) -> u8
        ensures same { result ≡ self.now.options }
        ensures at_most { result ≤ MAX_OPTIONS }
    {
        self.options
    }

    /// V(a,b): how many voters prefer option `a` to option `b`.
    pub fn votes(&self, a: u8, b: u8) -> u32
        requires a { IsOption self.now.options a }
        requires b { IsOption self.now.options b }
        ensures { result ≡ votes self.now a b }
    {
        self.counts[a as usize - 1][b as usize - 1]
    }

    // The matrix with these votes. Each row has the votes that one option wins.
    pub(crate) fn of_rows(options: u8, counts: [[u32; MAX_OPTIONS]; MAX_OPTIONS]) -> Self
        requires options { options ≤ MAX_OPTIONS }
        requires wide { AreRows counts }
        ensures { result ≡ record { options = options; rows = counts } }
    {
        Self { options, counts }
    }

    /// Counts a ballot: adds one to V(A,B) for each two options A and B if the ballot prefers A to B.
    pub fn add(&mut self, ranks: &Ranks)
        requires options { length ranks.now ≡ self.old.options }
        requires room { HasRoomFor self.old ranks.now }
        ensures options { self.new.options ≡ self.old.options }
        ensures votes { CountsOneMore self.old self.new ranks.now }
    {
        let keys = ranks.sort_keys();
        let options = self.options;
        for option in 0..options as usize {
            raise(&mut self.counts[option], keys[option], keys, options);
        }
    }

    /// Takes out a ballot that was counted: the votes that it added are taken back. For callers of the
    /// library; the program does not call it.
    pub fn take_out(&mut self, ranks: &Ranks)
        requires options { length ranks.now ≡ self.old.options }
        requires counted { HasCounted self.old ranks.now }
        ensures options { self.new.options ≡ self.old.options }
        ensures votes { CountsOneLess self.old self.new ranks.now }
    {
        let keys = ranks.sort_keys();
        let options = self.options;
        for option in 0..options as usize {
            lower(&mut self.counts[option], keys[option], keys, options);
        }
    }
}

// Adds one vote over each option with a greater sort key, in the row of the option with this key.
fn raise(row: &mut [u32], key: u8, keys: &[u8], options: u8)
    requires row { length row.old ≡ MAX_OPTIONS }
    requires keys { length keys.now ≡ MAX_OPTIONS }
    requires options { options ≤ MAX_OPTIONS }
    requires room { (k : ℕ) → k < options → key < key_at keys.now k → key_at row.old k < 2 ^ 32 - 1 }
    ensures { IsRaised options key keys.now row.old row.new }
{
    for option in 0..options as usize {
        row[option] += u32::from(key < keys[option]);
    }
}

// Takes away one vote over each option with a greater sort key, in the row of the option with this
// key.
fn lower(row: &mut [u32], key: u8, keys: &[u8], options: u8)
    requires row { length row.old ≡ MAX_OPTIONS }
    requires keys { length keys.now ≡ MAX_OPTIONS }
    requires options { options ≤ MAX_OPTIONS }
    requires some { (k : ℕ) → k < options → key < key_at keys.now k → 0 < key_at row.old k }
    ensures { IsRaised options key keys.now row.new row.old }
{
    for option in 0..options as usize {
        row[option] -= u32::from(key < keys[option]);
    }
}

/// The matrix of a list of ballots for this many options. The list has one entry for each voter, which
/// is `None` if the voter has no ballot. There are at most `MAX_ELECTORS` entries. For callers of the
/// library; the program does not call it.
pub fn recount(options: u8, ballots: &[Option<Ranks>]) -> Matrix
    requires options { options ≤ MAX_OPTIONS }
    requires few { length ballots.now ≤ MAX_ELECTORS }
    requires ballots { All (IsBallotOf options) ballots.now }
    ensures options { result.options ≡ options }
    ensures votes { CountsAll options result ballots.now }
{
    let mut matrix = Matrix::zero(options);
    for entry in ballots {
        if let Some(ranks) = entry {
            matrix.add(ranks);
        }
    }
    matrix
}
