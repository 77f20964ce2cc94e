//! A matrix for ballots that are added and exchanged one after another.
//!
//! A vote is a number of four bytes, and a ballot changes it by at most one. So changes are kept apart, in a byte each, and
//! are added to the votes after 127 ballots. Sixteen changes fit in one register.
//!
//! Options are taken in halves of sixteen. One half wins a vote and one half loses it, which makes four squares. A square
//! has sixteen turns. In turn `t` each option `k` of the one half meets option `k + t` of the other, counted around. So a
//! ballot's changes in a turn come from its sort keys, compared with the same keys rotated by `t`. That is one comparison.
//! With a row of the matrix, one key would first have to be copied into each lane of a register.
ghost use Rattle.std.specs.Prelude.{◌≡◌, ℕ, ◌+◌, ◌-◌, ◌/◌, ◌<◌, ◌≤◌, [], length, slice_index_or};
ghost use Rattle.vote_count.specs.Ballots.{HasNoVotes, HasRoomFor, HasCounted, HasSameVotes, CountsOneMore, CountsInstead};
ghost use Rattle.vote_count.specs.Rows.{key_at};
ghost use Rattle.vote_count.specs.Changes.{AreFewTurnsMoved, AreOthersSame, AreTurns, AreTurnsMoved, CountsKeysInstead, HasCountedKeys, HasRoomForKeys, HasSameSums, IsAround, IsMovedByKeys, IsMovedByOnes, IsNotOver, IsRowOf, IsSettledTurn, IsSum, IsWithin, OfEach, kept_at, sum_at, turn_of};

use crate::tally::Matrix;
use std::marker::Model;
use std::simd::prelude::*;
use vote_poll::{MAX_OPTIONS, Ranks};

/// The number of changes in one turn.
const LANES: usize = MAX_OPTIONS / 2;

/// The number of turns in the four squares.
const TURNS: usize = 4 * LANES;

/// The byte that means no change.
const EVEN: u8 = 128;

/// The most ballots whose changes are sure to fit in a byte each.
const MOST_PENDING: u8 = 127;

/// V(A,B) for each two options A and B, for ballots that are added and exchanged. Contracts see it as they see a
/// [`Matrix`].
#[derive(Drop)]
pub struct RunningMatrix {
    options: u8,
    /// The number of ballots in the changes.
    pending: u8,
    settled: [[u32; LANES]; TURNS],
    changes: [[u8; LANES]; TURNS],
}

impl Model for RunningMatrix {
    ghost use Rattle.vote_count.specs.Votes.{Votes};

    ghost Value = { Votes };

    ghost use Rattle.vote_count.specs.Changes.{votes_of, KeepsVotes};

    ghost view = { votes_of };

    ghost invariant = { KeepsVotes };
}

impl RunningMatrix {
    /// The matrix for this many options, with no votes.
    pub fn zero(options: u8) -> Self
        requires { options ≤ MAX_OPTIONS }
        ensures options { result.options ≡ options }
        ensures votes { HasNoVotes options result }
    {
        Self {
            options,
            pending: 0,
            settled: [[0; LANES]; TURNS],
            changes: [[EVEN; LANES]; TURNS],
        }
    }

    /// The number of options, which is also the number of the default option.
    pub fn options(&self) -> u8
        ensures same { result ≡ self.now.options }
        ensures at_most { result ≤ MAX_OPTIONS }
    {
        self.options
    }

    /// The matrix as it is now.
    pub fn matrix(&self) -> Matrix
        ensures options { result.options ≡ self.now.options }
        ensures votes { HasSameVotes self.now result }
    {
        let options = self.options as usize;
        let mut counts = [[0; MAX_OPTIONS]; MAX_OPTIONS];
        for row in 0..options {
            fill_row(&mut counts[row], options, row, &self.settled, &self.changes);
        }
        Matrix::of_rows(self.options, counts)
    }

    /// Counts a ballot: adds one to V(A,B) for each two options A and B if the ballot prefers A to B.
    pub fn add(&mut self, ranks: &Ranks)
        requires options { length ranks.now ≡ self.old.options }
        requires room { HasRoomFor self.old ranks.now }
        ensures options { self.new.options ≡ self.old.options }
        ensures votes { CountsOneMore self.old self.new ranks.now }
    {
        self.change(&[0; MAX_OPTIONS], ranks.sort_keys());
    }

    /// Counts a ballot in place of one that was counted, in one pass. The votes are then the same as after
    /// [`Matrix::take_out`] of the first ballot and [`Matrix::add`] of the second.
    pub fn exchange(&mut self, before: &Ranks, after: &Ranks)
        requires options_before { length before.now ≡ self.old.options }
        requires options_after { length after.now ≡ self.old.options }
        requires counted { HasCounted self.old before.now }
        requires room { HasRoomFor self.old after.now }
        ensures options { self.new.options ≡ self.old.options }
        ensures votes { CountsInstead self.old self.new before.now after.now }
    {
        self.change(before.sort_keys(), after.sort_keys());
    }

    // Counts a ballot with the new keys in place of one with the old keys.
    fn change(&mut self, old: &[u8], new: &[u8])
        requires old { length old.now ≡ MAX_OPTIONS }
        requires new { length new.now ≡ MAX_OPTIONS }
        requires counted { HasCountedKeys self.old old.now }
        requires room { HasRoomForKeys self.old new.now }
        ensures options { self.new.options ≡ self.old.options }
        ensures votes { CountsKeysInstead self.old self.new old.now new.now }
    {
        let options = self.options as usize;
        self.pending = make_room(self.pending, &mut self.settled, &mut self.changes, options);
        change_squares(&mut self.changes, old, new, options);
    }
}

// Fills a row with its votes.
fn fill_row(
    counts: &mut [u32],
    options: usize,
    row: usize,
    settled: &[[u32; LANES]],
    changes: &[[u8; LANES]],
)
    requires counts { length counts.old ≡ MAX_OPTIONS }
    requires options { options ≤ MAX_OPTIONS }
    requires row { row < options }
    requires settled { AreTurns settled.now }
    requires changes { AreTurns changes.now }
    requires sums { (column : ℕ) → column < options → IsSum settled.now changes.now row column }
    ensures long { length counts.new ≡ MAX_OPTIONS }
    ensures votes { IsRowOf settled.now changes.now options row counts.new }
{
    for column in 0..options {
        counts[column] = vote_of(row, column, settled, changes);
    }
}

// The votes of the row's option over the column's option.
#[inline(always)]
fn vote_of(row: usize, column: usize, settled: &[[u32; LANES]], changes: &[[u8; LANES]]) -> u32
    requires row { row < MAX_OPTIONS }
    requires column { column < MAX_OPTIONS }
    requires settled { AreTurns settled.now }
    requires changes { AreTurns changes.now }
    requires sum { IsSum settled.now changes.now row column }
    ensures { result ≡ sum_at settled.now changes.now row column }
{
    let square = 2 * (row / LANES) + column / LANES;
    let turn = LANES * square + (LANES + column - row % LANES) % LANES;
    let lane = row % LANES;
    let sum = u64::from(settled[turn][lane]) + u64::from(changes[turn][lane]);
    (sum - u64::from(EVEN)) as u32
}

// Adds the changes to the votes if there is no room for another ballot. Returns the number of pending ballots, with the
// next one.
fn make_room(
    pending: u8,
    settled: &mut [[u32; LANES]],
    changes: &mut [[u8; LANES]],
    options: usize,
) -> u8
    requires pending { pending ≤ MOST_PENDING }
    requires options { options ≤ MAX_OPTIONS }
    requires settled { AreTurns settled.old }
    requires changes { AreTurns changes.old }
    requires within { OfEach options (IsWithin pending changes.old) }
    requires sums { OfEach options (IsSum settled.old changes.old) }
    ensures pending { (1 ≤ result) × (result ≤ MOST_PENDING) }
    ensures settled { AreTurns settled.new }
    ensures changes { AreTurns changes.new }
    ensures within { OfEach options (IsWithin (result - 1) changes.new) }
    ensures same { HasSameSums options settled.new changes.new settled.old changes.old }
{
    if pending < MOST_PENDING {
        return pending + 1;
    }
    settle(settled, changes, options);
    1
}

// Adds the changes to the votes.
fn settle(settled: &mut [[u32; LANES]], changes: &mut [[u8; LANES]], options: usize)
    requires options { options ≤ MAX_OPTIONS }
    requires settled { AreTurns settled.old }
    requires changes { AreTurns changes.old }
    requires sums { OfEach options (IsSum settled.old changes.old) }
    ensures settled { AreTurns settled.new }
    ensures changes { AreTurns changes.new }
    ensures even { OfEach options (λ row column. kept_at changes.new row column ≡ EVEN) }
    ensures same { HasSameSums options settled.new changes.new settled.old changes.old }
{
    for turn in 0..turns_of(options) {
        settle_turn(&mut settled[turn], &mut changes[turn]);
    }
}

// The number of turns that this many options need.
#[inline(always)]
fn turns_of(options: usize) -> usize
    requires { options ≤ MAX_OPTIONS }
    ensures at_most { result ≤ TURNS }
    ensures all { OfEach options (λ row column. turn_of row column < result) }
{
    if options <= LANES { LANES } else { TURNS }
}

// Adds the changes of one turn to the votes.
#[inline(always)]
fn settle_turn(settled: &mut [u32], changes: &mut [u8])
    requires settled { length settled.old ≡ LANES }
    requires changes { length changes.old ≡ LANES }
    ensures settled_long { length settled.new ≡ LANES }
    ensures changes_long { length changes.new ≡ LANES }
    ensures even { (k : ℕ) → k < LANES → key_at changes.new k ≡ EVEN }
    ensures sums { IsSettledTurn settled.old changes.old settled.new }
{
    let moves = u8x16::from_slice(changes);
    let sums = u32x16::from_slice(settled) + moves.cast::<u32>() - u32x16::splat(128);
    sums.copy_to_slice(settled);
    u8x16::splat(EVEN).copy_to_slice(changes);
}

// Counts a ballot with the new keys in place of one with the old keys.
//
// A poll of few options needs few turns: of eight options no two are eight to fifteen apart, unless counted around. The
// first turn of a square on the diagonal changes nothing, since each option meets itself.
#[inline(always)]
fn change_squares(changes: &mut [[u8; LANES]], old: &[u8], new: &[u8], options: usize)
    requires options { options ≤ MAX_OPTIONS }
    requires old { length old.now ≡ MAX_OPTIONS }
    requires new { length new.now ≡ MAX_OPTIONS }
    requires turns { AreTurns changes.old }
    ensures turns { AreTurns changes.new }
    ensures moved { IsMovedByKeys options changes.old changes.new old.now new.now }
{
    if options <= LANES / 2 {
        change_few(changes, old, new, options);
    } else if options <= LANES {
        change_square(changes, 0, 1, old, new);
    } else {
        for square in 0..4 {
            change_square(changes, square, 0, old, new);
        }
    }
}

// The same in one square, from the turn `from` on.
#[inline(always)]
fn change_square(changes: &mut [[u8; LANES]], square: usize, from: usize, old: &[u8], new: &[u8])
    requires square { square < 4 }
    requires from { from ≤ LANES }
    requires old { length old.now ≡ MAX_OPTIONS }
    requires new { length new.now ≡ MAX_OPTIONS }
    requires turns { AreTurns changes.old }
    ensures turns { AreTurns changes.new }
    ensures moved { AreTurnsMoved square from changes.old changes.new old.now new.now }
    ensures others { AreOthersSame square from changes.old changes.new }
{
    let row = LANES * (square / 2);
    let column = LANES * (square % 2);
    let old_rows = u8x16::from_slice(&old[row..]);
    let new_rows = u8x16::from_slice(&new[row..]);
    let old_columns = around(old, column);
    let new_columns = around(new, column);
    for turn in from..LANES {
        let gone = not_over(old_rows, &old_columns, turn);
        let come = not_over(new_rows, &new_columns, turn);
        move_lanes(&mut changes[LANES * square + turn], gone, come);
    }
}

// The same in the first square, for at most eight options.
#[inline(always)]
fn change_few(changes: &mut [[u8; LANES]], old: &[u8], new: &[u8], options: usize)
    requires options { options ≤ LANES / 2 }
    requires old { length old.now ≡ MAX_OPTIONS }
    requires new { length new.now ≡ MAX_OPTIONS }
    requires turns { AreTurns changes.old }
    ensures turns { AreTurns changes.new }
    ensures moved { AreFewTurnsMoved options changes.old changes.new old.now new.now }
    ensures first { slice_index_or changes.new 0 [] ≡ slice_index_or changes.old 0 [] }
{
    let old_rows = u8x16::from_slice(old);
    let new_rows = u8x16::from_slice(new);
    let old_columns = around(old, 0);
    let new_columns = around(new, 0);
    for turn in 1..options {
        let gone = not_over(old_rows, &old_columns, turn);
        let come = not_over(new_rows, &new_columns, turn);
        move_lanes(&mut changes[turn], gone, come);
        let gone_back = not_over(old_rows, &old_columns, LANES - turn);
        let come_back = not_over(new_rows, &new_columns, LANES - turn);
        move_lanes(&mut changes[LANES - turn], gone_back, come_back);
    }
}

// The keys of half of the options, twice. So the keys from any of these options on, counted around, are sixteen in a row.
#[inline(always)]
fn around(keys: &[u8], first: usize) -> [u8; MAX_OPTIONS]
    requires { first + LANES ≤ length keys.now }
    ensures long { length result ≡ MAX_OPTIONS }
    ensures around { IsAround first keys.now result }
{
    let half = u8x16::from_slice(&keys[first..]);
    let mut twice = [0; MAX_OPTIONS];
    put_half(&mut twice, half, 0);
    put_half(&mut twice, half, LANES);
    twice
}

// Writes sixteen keys into a row of keys.
#[inline(always)]
fn put_half(keys: &mut [u8], half: u8x16, first: usize)
    requires keys { first + LANES ≤ length keys.old }
    requires half { length half ≡ LANES }
    ensures long { length keys.new ≡ length keys.old }
    ensures half { (k : ℕ) → k < LANES → key_at keys.new (first + k) ≡ key_at half k }
    ensures before { (k : ℕ) → k < first → key_at keys.new k ≡ key_at keys.old k }
{
    half.copy_to_slice(&mut keys[first..]);
}

// For each option of the rows: 0 if it is preferred to the option that it meets in this turn, else 1.
#[inline(always)]
fn not_over(rows: u8x16, columns: &[u8], turn: usize) -> u8x16
    requires rows { length rows ≡ LANES }
    requires columns { turn + LANES ≤ length columns.now }
    ensures long { length result ≡ LANES }
    ensures each { IsNotOver turn rows columns.now result }
{
    let met = u8x16::from_slice(&columns[turn..]);
    rows.simd_ge(met).select(u8x16::splat(1), u8x16::splat(0))
}

// Moves each change by one: up if a vote comes, and down if a vote goes.
#[inline(always)]
fn move_lanes(lanes: &mut [u8], gone: u8x16, come: u8x16)
    requires lanes { length lanes.old ≡ LANES }
    requires long { (length gone ≡ LANES) × (length come ≡ LANES) }
    requires gone { (k : ℕ) → k < LANES → key_at gone k ≤ 1 }
    requires come { (k : ℕ) → k < LANES → key_at come k ≤ 1 }
    ensures long { length lanes.new ≡ LANES }
    ensures moved { IsMovedByOnes gone come lanes.old lanes.new }
{
    let moved = u8x16::from_slice(lanes) + gone - come;
    moved.copy_to_slice(lanes);
}
