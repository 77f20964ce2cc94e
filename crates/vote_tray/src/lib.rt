//! A lock-free tray of numbered places. Threads take the places: each place is taken once, and none is left out.
//!
//! A tray of `size` places has the places 0 to `size - 1`, and hands out a fixed number of passes. A desk is a thread of its own.
//! It takes envelopes by taking places with its pass. When all desks are done, their passes are joined into one, and the tray is
//! finished with that pass.
//!
//! **What is shared.** One word: the number of places that are taken. It starts at 0 and rises by one at a time, up to `size`.
//! Only the owner of a pass can write it, by a compare-exchange from a number to the next number. This takes the place with the
//! first number. A pass is used by one thread at a time, and holds the word as that thread last saw it. The places that a pass
//! took, and its parts, exist only in proofs and cost no byte. `rule` has the rule that the word and all passes keep between any
//! two steps.
//!
//! **What is promised.** Each place below the word was taken by one pass, once, and no other place was taken. `take` returns a
//! place, or reports that none is left, and tries again only if another pass took a place meanwhile. If all passes were joined
//! into one pass, it has taken all places below the number that `finish` returns. No call takes a `Wait`, so no call can wait for
//! another thread: a tray behind a `Mutex` does not compile with these signatures.
//!
//! **What is not promised.** Fairness: one pass may get all places. Any order between desks: which desk takes which place, or that
//! a place is worked off before the next place is taken. That an attempt wins. The places of a pass that was dropped stay taken,
//! and its parts are lost: from then on no pass has all parts.
//!
//! **Orderings.** Each step on the word is sequentially consistent. `atomic_table` has no weaker step, and its rules are about one
//! order of all steps.
//!
//! **Why `join` loads.** Joining two seats reveals nothing about the rule: a caller learns about it only by a step on the word. So
//! `join` makes a load with the joined seat, which shows that no place and no part was in both passes. The number that it reads is
//! not used.
#![tactic(auto)]

ghost use Rattle.std.specs.Prelude.{◌≡◌, ◌≢◌, ◌↔◌, ◌<◌, ◌≤◌, [], length, take, drop, vec_len, All, IfOk, IfSome, IfNone, Err};
ghost use Rattle.vote_tray.specs.Numbers.{EachOnce, AtMostOnce, AreApart};
ghost use Rattle.vote_tray.specs.Passes.{AreNewPasses, HasAllParts, IsSound, TakesPlace, joined, whole_pass, with_seen};
ghost use Rattle.vote_tray.specs.Attempts.{Attempts};

mod rule;

use atomic_table::{Seat, Table};
use rule::{Claim, Counts, Cut, Dealing, Glue, Look, View};
use std::alloc::{AllocError, Global};
use std::marker::Model;
use thiserror::Error;

/// The most places that a tray can have.
pub const MAX_PLACES: u64 = 100_000;

/// The most passes of a tray.
pub const MAX_PASSES: u8 = 8;

/// Why there is no tray.
#[derive(Clone, Copy, Debug, PartialEq, Eq, Error)]
pub enum TrayFault {
    /// More than `MAX_PLACES` places were asked for. No memory was asked for.
    #[error("too many places")]
    TooMany,
    /// Memory for the word or for the list of passes was refused.
    #[error("out of memory")]
    Memory,
}

impl From<AllocError> for TrayFault {
    ghost use Rattle.std.specs.Prelude.{◌≡◌};
    ghost use Rattle.vote_tray.specs.declared.TrayFault.TheVariants.{Memory};

    ghost from_gives = { λ _ fault. fault ≡ Memory };

    fn from(_: AllocError) -> TrayFault {
        TrayFault::Memory
    }
}

/// A tray of places, numbered from 0. Threads share it by reference, and each takes places with a pass of its own.
///
/// Contracts see which tray it is, the number of its places and the number of its passes.
#[derive(Drop)]
pub struct Tray {
    table: Table<(), View, Counts, Dealing, Global>,
    size: u64,
}

impl Model for Tray {
    ghost use Rattle.std.specs.Prelude.{◌≡◌};
    ghost use Rattle.vote_tray.specs.Passes.{TrayId};

    ghost Value = { TrayId };

    ghost view = { λ t. record { table = t.table.shared.table_id; size = t.size; passes = t.table.shared.key.passes } };

    ghost invariant = { λ t. (t.table.shared.table_id.words ≡ 1) × (t.table.shared.table_id.slots ≡ 0) × (t.table.shared.key.size ≡ t.size) };
}

/// The right to take places of one tray, for one thread at a time.
///
/// Contracts see its tray, the number of taken places that it has seen, the places that it took, in that order, and its parts.
/// Each pass of a new tray has one part, numbered from 0. A joined pass has the parts of both passes. Each call requires that the
/// pass is of this tray.
// `seen` is at most what the seat has seen: the load in `join` changes only what the seat has seen.
#[derive(Drop)]
pub struct Pass {
    seat: Seat<(), View>,
    seen: u64,
}

impl Model for Pass {
    ghost use Rattle.std.specs.Prelude.{◌≡◌, ◌≢◌, ◌≤◌, []};
    ghost use Rattle.vote_tray.specs.Passes.{PassState};
    ghost use Rattle.vote_tray.specs.Rule.{IsSoundView};

    ghost Value = { PassState };

    ghost view = { λ p. record { tray = record { table = p.seat.table_id; size = p.seat.me.0.size; passes = p.seat.me.0.passes }; seen = p.seen; places = p.seat.me.0.places; parts = p.seat.me.0.parts } };

    ghost invariant = { λ p. (p.seen ≤ p.seat.me.0.seen) × (p.seat.me.1 ≡ []) × (p.seat.me.0.parts ≢ []) × IsSoundView p.seat.me.0 };
}

/// The result of one attempt to take a place.
#[derive(Clone, Copy, Debug, PartialEq, Eq)]
pub enum Take {
    /// The pass has seen that all places are taken. No attempt was made.
    Empty,
    /// The pass took this place.
    Got(u64),
    /// Others were faster: this many places are taken, which is more than the pass had seen.
    Lost(u64),
}

impl Tray {
    /// A tray of `size` places, at most `MAX_PLACES`, and its passes, from 1 to `MAX_PASSES`.
    ///
    /// The pass at index `j` of the list, from 0, has only part `j`, and has taken nothing.
    pub fn new(alloc: Global, size: u64, passes: u8) -> Result<(Tray, Vec<Pass>), TrayFault>
        requires { (1 ≤ passes) × (passes ≤ MAX_PASSES) }
        ensures too_many { (result ≡ Err TrayFault.TooMany) ↔ (MAX_PLACES < size) }
        ensures memory { result ≡ Err TrayFault.Memory → size ≤ MAX_PLACES }
        ensures tray { IfOk result (λ t. (t.0.size ≡ size) × (t.0.passes ≡ passes)) }
        ensures passes { IfOk result (λ t. AreNewPasses t.0 passes (vec_len t.1) t.1.items) }
        ensures sound { IfOk result (λ t. All IsSound t.1.items) }
    {
        if size > MAX_PLACES {
            return Err(TrayFault::TooMany);
        }
        let (table, seat) = Table::of_words(alloc, &[0], &Counts { size, passes })?;
        let tray = Tray { table, size };
        let dealt = tray.deal(alloc, Pass { seat, seen: 0 }, passes)?;
        Ok((tray, dealt))
    }

    // Cuts the pass that has all parts into passes of one part each.
    fn deal(&self, alloc: Global, mut rest: Pass, passes: u8) -> Result<Vec<Pass>, AllocError>
        requires { (1 ≤ passes) × (rest ≡ whole_pass self.now passes) }
        ensures { IfOk result (λ dealt. AreNewPasses self.now passes (vec_len dealt) dealt.items) }
    {
        let mut dealt = Vec::with_capacity(alloc, passes as usize)?;
        for _ in 1..passes {
            dealt.push(self.split(&mut rest))?;
        }
        dealt.push(rest)?;
        Ok(dealt)
    }

    // Moves the first part to a new pass.
    fn split(&self, pass: &mut Pass) -> Pass
        requires tray { pass.old.tray ≡ self.now }
        requires parts { 1 < length pass.old.parts }
        ensures first { result ≡ record pass.old { places = []; parts = take 1 pass.old.parts } }
        ensures rest { pass.new ≡ record pass.old { parts = drop 1 pass.old.parts } }
    {
        let seat = self.table.shared.split_seat::<Cut>(&mut pass.seat);
        Pass {
            seat,
            seen: pass.seen,
        }
    }

    // Loads the word.
    fn look(&self, pass: &mut Pass)
        requires { pass.old.tray ≡ self.now }
        ensures seen { pass.old.seen ≤ pass.new.seen }
        ensures kept { pass.new ≡ with_seen pass.old pass.new.seen }
        ensures sound { IsSound pass.new }
    {
        pass.seen = self.table.shared.load::<Look>(&mut pass.seat, 0);
    }

    /// Tries once to take the place that is next as far as the pass has seen.
    ///
    /// It makes one compare-exchange, or none if the pass has seen that all places are taken.
    pub fn try_take(&self, pass: &mut Pass) -> Take
        requires { pass.old.tray ≡ self.now }
        ensures answer { Attempts pass.old result pass.new }
        ensures empty { (result ≡ Take.Empty) ↔ (pass.old.seen ≡ self.now.size) }
        ensures kept { (pass.new.tray ≡ pass.old.tray) × (pass.new.parts ≡ pass.old.parts) }
        ensures sound { IsSound pass.new }
    {
        let seen = pass.seen;
        if seen == self.size {
            return Take::Empty;
        }
        let word = self
            .table
            .shared
            .compare_exchange::<Claim>(&mut pass.seat, 0, seen, seen + 1);
        if word == seen {
            pass.seen = seen + 1;
            Take::Got(seen)
        } else {
            pass.seen = word;
            Take::Lost(word)
        }
    }

    /// Takes the first place that is left. It returns `None` only if no place is left.
    ///
    /// It loads the word once, and then tries until an attempt is not lost. It never waits for a thread: it takes no `Wait`, and
    /// without one a body that waits does not compile.
    pub fn take(&self, pass: &mut Pass) -> Option<u64>
        requires { pass.old.tray ≡ self.now }
        ensures some { IfSome result (λ place. TakesPlace self.now pass.old place pass.new) }
        ensures none { IfNone result (pass.new ≡ with_seen pass.old self.now.size) }
        ensures kept { (pass.new.tray ≡ pass.old.tray) × (pass.new.parts ≡ pass.old.parts) }
        ensures sound { IsSound pass.new }
    {
        self.look(pass);
        loop {
            match self.try_take(pass) {
                Take::Empty => return None,
                Take::Got(place) => return Some(place),
                Take::Lost(_) => {}
            }
        }
    }

    /// Joins two passes into one. No place and no part was in both.
    ///
    /// The joined pass has the places of the first and then those of the second, and the parts of both.
    pub fn join(&self, mut first: Pass, second: Pass) -> Pass
        requires { (first.tray ≡ self.now) × (second.tray ≡ self.now) }
        ensures joined { result ≡ joined first second }
        ensures apart { AreApart first.places second.places × AreApart first.parts second.parts }
        ensures sound { IsSound result }
    {
        let Pass { seat, seen } = second;
        let shared = &self.table.shared;
        shared.join_seat::<Glue>(&mut first.seat, seat);
        // Only a step shows what the rule says of the joined seat: no place and no part was in both.
        shared.load::<Look>(&mut first.seat, 0);
        first.seen = first.seen.max(seen);
        first
    }

    /// Ends the tray with one of its passes, and returns how many places all passes took.
    ///
    /// If every pass was joined into this pass, it has taken each place below that number.
    pub fn finish(self, pass: Pass) -> u64
        requires { pass.tray ≡ self }
        ensures word { (pass.seen ≤ result) × (result ≤ self.size) }
        ensures places { AtMostOnce result pass.places }
        ensures all { HasAllParts pass → EachOnce result pass.places }
        ensures count { HasAllParts pass → length pass.places ≡ result }
    {
        let Tray { table, size: _ } = self;
        let Pass { seat, seen: _ } = pass;
        let closed = table.close_with(seat);
        let word = closed.word(0);
        closed.free();
        word
    }
}
