//! The tests of `vote_tray`: threads take each place once, and memory may be refused.

ghost use Rattle.std.specs.Prelude.{◌≡◌, ◌≤◌, IfOk};
ghost use Rattle.vote_tray.specs.Passes.{new_pass};

use crate::same::assert_same;
use std::alloc::{AllocError, Global};
use std::test::Fail;
use std::thread::{Threads, join};
use vote_tray::{MAX_PASSES, MAX_PLACES, Pass, Take, Tray, TrayFault};

// A tray with one pass.
fn for_one(alloc: Global, size: u64) -> Result<(Tray, Pass), TrayFault>
    ensures { IfOk result (λ t. t.1.tray ≡ t.0) }
{
    let (tray, mut passes) = Tray::new(alloc, size, 1)?;
    let pass = passes.pop().unwrap();
    Ok((tray, pass))
}

// A tray with two passes.
fn for_two(alloc: Global, size: u64) -> Result<(Tray, Pass, Pass), TrayFault>
    ensures { IfOk result (λ t. (t.1 ≡ new_pass t.0 0) × (t.2 ≡ new_pass t.0 1)) }
{
    let (tray, mut passes) = Tray::new(alloc, size, 2)?;
    let second = passes.pop().unwrap();
    let first = passes.pop().unwrap();
    Ok((tray, first, second))
}

// Takes places until none is left.
fn take_all(tray: &Tray, mut pass: Pass, alloc: Global) -> Result<(Pass, Vec<u64>), AllocError>
    requires { pass.tray ≡ tray.now }
    ensures { IfOk result (λ t. t.0.tray ≡ tray.now) }
{
    let mut places = Vec::new(alloc);
    while let Some(place) = tray.take(&mut pass) {
        places.push(place)?;
    }
    Ok((pass, places))
}

// Takes places in a thread of its own: a `join` starts a thread only for its first closure.
fn take_all_in_a_thread<R: Threads>(
    rt: &R,
    tray: &Tray,
    pass: Pass,
    alloc: Global,
) -> Result<(Pass, Vec<u64>), AllocError>
    requires { pass.tray ≡ tray.now }
    ensures { IfOk result (λ t. t.0.tray ≡ tray.now) }
{
    join(rt, move || take_all(tray, pass, alloc), || ()).0
}

// The results of a try and of a take on an empty tray, and how many places were taken.
fn taken_of_none(alloc: Global) -> Result<(Take, Option<u64>, u64), TrayFault> {
    let (tray, mut pass) = for_one(alloc, 0)?;
    let tried = tray.try_take(&mut pass);
    let taken = tray.take(&mut pass);
    Ok((tried, taken, tray.finish(pass)))
}

#[test]
fn an_empty_tray_has_no_place(rt: HostRuntime) {
    let found = taken_of_none(rt.alloc());
    assert_same(&rt, found, Ok((Take::Empty, None, 0)));
}

// The results of calls on a tray with one place, and how many places were taken. One pass makes two tries; another makes two
// tries and a take.
fn taken_of_one(
    alloc: Global,
) -> Result<((Take, Take), (Take, Take), Option<u64>, u64), TrayFault> {
    let (tray, mut p, mut q) = for_two(alloc, 1)?;
    let first = (tray.try_take(&mut p), tray.try_take(&mut p));
    let second = (tray.try_take(&mut q), tray.try_take(&mut q));
    let last = tray.take(&mut q);
    let both = tray.join(p, q);
    Ok((first, second, last, tray.finish(both)))
}

#[test]
fn the_slower_pass_loses_the_only_place(rt: HostRuntime) {
    let found = taken_of_one(rt.alloc());
    let first = (Take::Got(0), Take::Empty);
    let second = (Take::Lost(1), Take::Empty);
    assert_same(&rt, found, Ok((first, second, None, 1)));
}

// The fault of a tray of this size, if it can't be made.
fn fault_of(alloc: Global, size: u64, passes: u8) -> Option<TrayFault>
    requires { (1 ≤ passes) × (passes ≤ MAX_PASSES) }
{
    Tray::new(alloc, size, passes).err()
}

#[test]
fn one_place_more_than_the_most_is_too_many(rt: HostRuntime) {
    let more = fault_of(rt.alloc(), 100_001, 1);
    let most = fault_of(rt.alloc(), MAX_PLACES, MAX_PASSES);
    assert_same(&rt, (more, most), (Some(TrayFault::TooMany), None));
}

// The number of passes of a tray with three places that was made for two passes, and the results of a try of the first pass and
// of the second.
fn tried_by_two(alloc: Global) -> Result<(usize, (Take, Take)), TrayFault> {
    let (tray, mut passes) = Tray::new(alloc, 3, 2)?;
    let number = passes.len();
    let mut second = passes.pop().unwrap();
    let mut first = passes.pop().unwrap();
    let tried = (tray.try_take(&mut first), tray.try_take(&mut second));
    drop(tray);
    Ok((number, tried))
}

/// For `tests/refused-memory`, which refuses one growth after another: the test passes only with the right results, and fails
/// with `refused` if memory was refused.
#[test]
fn memory_of_new(rt: HostRuntime) -> Result<(), Fail> {
    match tried_by_two(rt.alloc()) {
        Ok(found) => {
            assert_same(&rt, found, (2, (Take::Got(0), Take::Lost(1))));
            Ok(())
        }
        Err(fault) => {
            assert_same(&rt, fault, TrayFault::Memory);
            Err("refused".into())
        }
    }
}

// Whether these are the first thousand places, in order.
fn are_thousand(places: &[u64]) -> bool {
    places.iter().copied().eq(0..1000)
}

// Whether the places of two lists are the first thousand, each once.
fn share_thousand(places: &mut Vec<u64>, others: &[u64]) -> Result<bool, AllocError> {
    places.extend_from_slice(others)?;
    places.sort()?;
    Ok(are_thousand(places.as_slice()))
}

// How many places were taken in all, and whether the places of the two passes are the first thousand, each once.
fn finished(
    tray: Tray,
    first: Result<(Pass, Vec<u64>), AllocError>,
    second: Result<(Pass, Vec<u64>), AllocError>,
) -> Result<(u64, Result<bool, AllocError>), AllocError>
    requires first { IfOk first (λ t. t.0.tray ≡ tray) }
    requires second { IfOk second (λ t. t.0.tray ≡ tray) }
{
    let (p, mut places) = first?;
    let (q, others) = second?;
    let both = tray.join(p, q);
    let number = tray.finish(both);
    Ok((number, share_thousand(&mut places, others.as_slice())))
}

#[test]
fn two_threads_take_each_place_once(rt: HostRuntime) -> Result<(), Fail> {
    let alloc = rt.alloc();
    let (tray, p, q) = for_two(alloc, 1000)?;
    let shared = &tray;
    let (a, b) = join(
        &rt,
        move || take_all(shared, p, alloc),
        || take_all_in_a_thread(&rt, shared, q, alloc),
    );
    assert_same(&rt, finished(tray, a, b), Ok((1000, Ok(true))));
    Ok(())
}
