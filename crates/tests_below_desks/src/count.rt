//! Worked examples, with values from outside.
ghost use Rattle.std.specs.Prelude.{◌≡◌, ◌<◌, ◌≤◌, IfOk, All, length};
ghost use Rattle.vote_poll.specs.PollContent.{option_count};
ghost use Rattle.vote_count.specs.Ballots.{IsBallotOf};

use crate::same::assert_same;
use std::alloc::{AllocError, Global};
use std::process::Abort;
use std::test::Fail;
use vote_count::{
    Defeats, Matrix, RunningMatrix, Verdict, Word, outcome, reach, recount, standing_options,
};
use vote_poll::{LineFault, MAX_ELECTORS, MAX_OPTIONS, Poll, PollFault, Ranks, Reading, read_line};

/// A poll of three options and the default, with a quorum of three and nine electors.
const THREE_OPTIONS: &str =
    "title = \"Three\"\noptions = [\"A\", \"B\", \"C\"]\nratios = [1, 1, 1]\ndefault = \"None\"\nquorum = 3\nroll = [\"v0\", \"v1\", \"v2\", \"v3\", \"v4\", \"v5\", \"v6\", \"v7\", \"v8\"]\n";

/// A poll of four options and the default.
const FOUR_OPTIONS: &str =
    "title = \"Four\"\noptions = [\"A\", \"B\", \"C\", \"D\"]\nratios = [1, 1, 1, 1]\ndefault = \"None\"\nquorum = 0\nroll = [\"v0\", \"v1\", \"v2\", \"v3\", \"v4\", \"v5\", \"v6\", \"v7\", \"v8\", \"v9\", \"v10\", \"v11\", \"v12\"]\n";

/// A poll of 31 options and the default.
const MOST_OPTIONS: &str =
    "title = \"Most\"\noptions = [\"A\", \"B\", \"C\", \"D\", \"E\", \"F\", \"G\", \"H\", \"I\", \"J\", \"K\", \"L\", \"M\", \"N\", \"O\", \"P\", \"Q\", \"R\", \"S\", \"T\", \"U\", \"V\", \"W\", \"X\", \"Y\", \"Z\", \"1\", \"2\", \"3\", \"4\", \"5\"]\nratios = [1, 1, 1, 1, 1, 1, 1, 1, 1, 1, 1, 1, 1, 1, 1, 1, 1, 1, 1, 1, 1, 1, 1, 1, 1, 1, 1, 1, 1, 1, 1]\ndefault = \"None\"\nquorum = 0\nroll = [\"v0\"]\n";

/// The ranks of a line.
fn ranks(poll: &Poll, line: &str) -> Result<Ranks, LineFault>
    ensures { IfOk result (λ ranks. length ranks ≡ option_count poll.now) }
{
    match read_line(poll, line.as_bytes()) {
        Reading::Ballot { voter: _, ranks } => Ok(ranks),
        Reading::Bad(fault) => Err(fault),
    }
}

/// Appends the ballots of these lines.
fn push_ballots(poll: &Poll, lines: &[&str], ballots: &mut Vec<Option<Ranks>>) -> Result<(), Fail>
    requires { All (IsBallotOf (option_count poll.now)) ballots.old.items }
    ensures { All (IsBallotOf (option_count poll.now)) ballots.new.items }
{
    for line in lines {
        let ranks = ranks(poll, line)?;
        ballots.push(Some(ranks))?;
    }
    Ok(())
}

/// The matrix of these ballots, or an error if there are more than [`MAX_ELECTORS`].
fn recounted(poll: &Poll, ballots: &[Option<Ranks>]) -> Result<Matrix, Fail>
    requires { All (IsBallotOf (option_count poll.now)) ballots.now }
    ensures { IfOk result (λ matrix. matrix.options ≡ option_count poll.now) }
{
    if ballots.len() > MAX_ELECTORS {
        return Err(Fail::from("too many ballots"));
    }
    Ok(recount(poll.options(), ballots))
}

/// The matrix of the ballots of these lines.
fn count(alloc: Global, poll: &Poll, lines: &[&str]) -> Result<Matrix, Fail>
    ensures { IfOk result (λ matrix. matrix.options ≡ option_count poll.now) }
{
    let mut ballots = Vec::new(alloc);
    push_ballots(poll, lines, &mut ballots)?;
    recounted(poll, &ballots)
}

/// Nine ballots, of three kinds.
const CYCLE: &[&str] = &[
    "v0 1,2,3,4",
    "v0 1,2,3,4",
    "v0 1,2,3,4",
    "v0 1,2,3,4",
    "v0 3,1,2,4",
    "v0 3,1,2,4",
    "v0 3,1,2,4",
    "v0 2,3,1,4",
    "v0 2,3,1,4",
];

/// The defeats of a count, which must drop no option.
fn kept_defeats(poll: &Poll, matrix: &Matrix) -> Result<Defeats, Fail>
    requires { matrix.now.options ≡ option_count poll.now }
{
    let standing = standing_options(poll, matrix);
    if standing.len() < poll.options() as usize {
        return Err(Fail::from("an option is dropped"));
    }
    Ok(Defeats::of(&standing, matrix))
}

/// Whether three options and the default are all kept.
fn are_kept(verdict: &Verdict) -> bool {
    let causes = [
        verdict.dropped(1),
        verdict.dropped(2),
        verdict.dropped(3),
        verdict.dropped(4),
    ];
    causes == [None; 4]
}

/// Whether the first round removes this defeat and no other.
fn removes(verdict: &Verdict, a: u8, b: u8) -> bool {
    match verdict.rounds().first() {
        Some(round) => round.removed.len() == 1 && round.removed.has(a, b),
        None => false,
    }
}

/// Whether the first option wins after a round that removes the weakest defeat of the cycle.
fn is_verdict_of_three(verdict: &Verdict) -> bool {
    let set = verdict.final_set();
    verdict.rounds().len() == 2
        && are_kept(verdict)
        && removes(verdict, 3, 1)
        && set.has(1)
        && set.len() == 1
}

/// The number of defeats, and for each of four options the options that it reaches by them.
fn words_of_four(defeats: &Defeats) -> (usize, [Word; 4]) {
    let chains = reach(defeats);
    let words = [chains.row(1), chains.row(2), chains.row(3), chains.row(4)];
    (defeats.len(), words)
}

/// The defeats that the first round of a count leaves.
fn left_by_first_round(verdict: &Verdict) -> Defeats {
    match verdict.rounds().first() {
        Some(round) => verdict.defeats().minus(&round.removed),
        None => verdict.defeats(),
    }
}

/// The outcome of the cycle, by this poll.
fn outcome_by(alloc: Global, poll: &Poll) -> Result<Result<Verdict, AllocError>, Fail> {
    let matrix = count(alloc, poll, CYCLE)?;
    Ok(outcome(alloc, poll, &matrix))
}

/// The outcome of the cycle, by the poll of three options.
fn outcome_of_cycle(alloc: Global) -> Result<Result<Verdict, AllocError>, Fail> {
    let poll = Poll::from_text(alloc, THREE_OPTIONS.as_bytes())?;
    let outcome = outcome_by(alloc, &poll);
    drop(poll);
    outcome
}

/// If memory is refused, the call reports this, or returns the right result.
#[test]
fn memory_of_outcome(rt: HostRuntime) -> Result<(), Fail> {
    match outcome_of_cycle(rt.alloc())? {
        Ok(verdict) => {
            assert_same(&rt, is_verdict_of_three(&verdict), true);
            drop(verdict);
            Ok(())
        }
        Err(AllocError) => Err(Fail::from("refused")),
    }
}

const PAIRS: [(u8, u8); 6] = [(1, 2), (1, 3), (1, 4), (2, 3), (2, 4), (3, 4)];

/// For each pair of options: the lines that make the two equal, that prefer the first, and that prefer the second. Of two such
/// lines both prefer the same option of the pair; of any other pair of the four options, one line prefers one option, and the other
/// line the other.
const LINES_OF_PAIRS: [[&[&str]; 3]; 6] = [
    [
        &[],
        &["v0 1,2,3,4,5", "v0 3,4,2,1,5"],
        &["v0 2,1,3,4,5", "v0 4,3,2,1,5"],
    ],
    [
        &[],
        &["v0 1,3,2,4,5", "v0 3,2,4,1,5"],
        &["v0 2,3,1,4,5", "v0 4,2,3,1,5"],
    ],
    [
        &[],
        &["v0 1,3,4,2,5", "v0 3,2,1,4,5"],
        &["v0 2,3,4,1,5", "v0 4,2,1,3,5"],
    ],
    [
        &[],
        &["v0 3,1,2,4,5", "v0 2,3,4,1,5"],
        &["v0 3,2,1,4,5", "v0 2,4,3,1,5"],
    ],
    [
        &[],
        &["v0 3,1,4,2,5", "v0 2,3,1,4,5"],
        &["v0 3,2,4,1,5", "v0 2,4,1,3,5"],
    ],
    [
        &[],
        &["v0 3,4,1,2,5", "v0 2,1,3,4,5"],
        &["v0 3,4,2,1,5", "v0 2,1,4,3,5"],
    ],
];

/// The lines by which a pair of options is a defeat one way, a defeat the other way, or no defeat, as the last base-3 digit of
/// `relation` says.
fn lines_of(pair: usize, relation: u16) -> &'static [&'static str]
    requires { pair < 6 }
{
    LINES_OF_PAIRS[pair][usize::from(relation % 3)]
}

/// Appends ballots by which each of the six pairs of four options is a defeat one way, a defeat the other way, or no defeat. The
/// base-3 digits of `relation` say which.
fn push_relation(poll: &Poll, relation: u16, ballots: &mut Vec<Option<Ranks>>) -> Result<(), Fail>
    requires { All (IsBallotOf (option_count poll.now)) ballots.old.items }
    ensures { All (IsBallotOf (option_count poll.now)) ballots.new.items }
{
    let mut rest = relation;
    for pair in 0..6 {
        push_ballots(poll, lines_of(pair, rest), ballots)?;
        rest /= 3;
    }
    push_ballots(poll, &["v0 1,1,1,1,2"], ballots)
}

/// Whether the defeats among the four options are those of `relation`.
fn is_relation(defeats: &Defeats, relation: u16) -> bool {
    let mut rest = relation;
    for (a, b) in PAIRS {
        if defeats.has(a, b) != (rest % 3 == 1) || defeats.has(b, a) != (rest % 3 == 2) {
            return false;
        }
        rest /= 3;
    }
    true
}

/// Appends a pair for each option, up to the last, that the second option defeats: the first option and this option. A pair that is
/// there already is left out.
fn push_pairs(
    defeats: &Defeats,
    first: u8,
    second: u8,
    last: u8,
    pairs: &mut Vec<(u8, u8)>,
) -> Result<(), AllocError>
    requires { last ≤ MAX_OPTIONS }
{
    for c in 0..last {
        let pair = (first, c + 1);
        if defeats.has(second, c + 1) && !pairs.contains(&pair) {
            pairs.push(pair)?;
        }
    }
    Ok(())
}

/// The transitive defeats among the options up to the last, in a plain form, as a list of pairs. For each pair that was found and
/// each defeat by its second option, it also finds the pair of both ends.
fn reach_by_pairs(defeats: &Defeats, last: u8, pairs: &mut Vec<(u8, u8)>) -> Result<(), AllocError>
    requires { last ≤ MAX_OPTIONS }
{
    for a in 0..last {
        push_pairs(defeats, a + 1, a + 1, last, pairs)?;
    }
    for next in 0..usize::from(last) * usize::from(last) {
        if next < pairs.len() {
            let (a, b) = pairs[next];
            push_pairs(defeats, a, b, last, pairs)?;
        }
    }
    Ok(())
}

/// Whether the chains are exactly these pairs, up to the last option.
fn are_pairs(chains: &Defeats, pairs: &[(u8, u8)], last: u8) -> bool {
    for a in 1..=last {
        for c in 1..=last {
            if chains.has(a, c) != pairs.contains(&(a, c)) {
                return false;
            }
        }
    }
    true
}

/// The defeats of the ballots for a relation.
fn defeats_of(alloc: Global, poll: &Poll, relation: u16) -> Result<Defeats, Fail> {
    let mut ballots = Vec::new(alloc);
    push_relation(poll, relation, &mut ballots)?;
    let matrix = recounted(poll, &ballots)?;
    kept_defeats(poll, &matrix)
}

/// Whether the chains of defeats among the options up to the last are those of the plain form.
fn is_like_plain(alloc: Global, defeats: &Defeats, last: u8) -> Result<bool, AllocError>
    requires { last ≤ MAX_OPTIONS }
{
    let mut plain = Vec::new(alloc);
    reach_by_pairs(defeats, last, &mut plain)?;
    Ok(are_pairs(&reach(defeats), &plain, last))
}

/// Whether the ballots for a relation give its defeats, and whether the chains of these defeats are those of the plain form.
fn agrees(alloc: Global, poll: &Poll, relation: u16) -> Result<(bool, bool), Fail> {
    let defeats = defeats_of(alloc, poll, relation)?;
    let is_like_plain = is_like_plain(alloc, &defeats, poll.options())?;
    Ok((is_relation(&defeats, relation), is_like_plain))
}

/// Asserts both for each relation among four options.
fn assert_agreement(rt: &impl Abort, alloc: Global, poll: &Poll) -> Result<(), Fail> {
    for relation in 0..729 {
        let found = agrees(alloc, poll, relation)?;
        assert_same(rt, found, (true, true));
    }
    Ok(())
}

#[test]
fn both_forms_of_reach_agree(rt: HostRuntime) -> Result<(), Fail> {
    let poll = Poll::from_text(rt.alloc(), FOUR_OPTIONS.as_bytes())?;
    let asserted = assert_agreement(&rt, rt.alloc(), &poll);
    drop(poll);
    asserted
}

/// A ballot that ranks the first of 31 options first, the others equal, and the default last.
const FIRST_OF_31: &[&str] = &[
    "v0 1,2,2,2,2,2,2,2,2,2,2,2,2,2,2,2,2,2,2,2,2,2,2,2,2,2,2,2,2,2,2,3",
];

/// The rows of the first, the second and the last of 32 options by the defeats of this ballot.
fn rows_of_32(alloc: Global, poll: &Poll) -> Result<(Word, Word, Word), Fail> {
    let matrix = count(alloc, poll, FIRST_OF_31)?;
    let defeats = kept_defeats(poll, &matrix)?;
    Ok((defeats.row(1), defeats.row(2), defeats.row(32)))
}

/// The same, by the poll of 31 options.
fn rows_by_poll(alloc: Global) -> Result<(Word, Word, Word), Fail> {
    let poll = Poll::from_text(alloc, MOST_OPTIONS.as_bytes())?;
    let rows = rows_of_32(alloc, &poll);
    drop(poll);
    rows
}

#[test]
fn rows_as_words(rt: HostRuntime) -> Result<(), Fail> {
    let rows = rows_by_poll(rt.alloc())?;
    assert_same(&rt, rows, (0xFFFF_FFFE, 0x8000_0000, 0));
    Ok(())
}

/// The words of the cycle's defeats, and of the defeats that its first round leaves.
fn words_of_cycle(alloc: Global) -> Result<((usize, [Word; 4]), (usize, [Word; 4])), Fail> {
    let verdict = outcome_of_cycle(alloc)??;
    let left = left_by_first_round(&verdict);
    let words = (words_of_four(&verdict.defeats()), words_of_four(&left));
    drop(verdict);
    Ok(words)
}

#[test]
fn a_cycle_without_its_weakest_defeat(rt: HostRuntime) -> Result<(), Fail> {
    let words = words_of_cycle(rt.alloc())?;
    let whole = (6, [0b1111, 0b1111, 0b1111, 0]);
    let left = (5, [0b1110, 0b1100, 0b1000, 0]);
    assert_same(&rt, words, (whole, left));
    Ok(())
}

/// The matrix that a running matrix has after two ballots.
fn counted_running(poll: &Poll, first: &Ranks, second: &Ranks) -> Matrix
    requires first { length first.now ≡ option_count poll.now }
    requires second { length second.now ≡ option_count poll.now }
{
    let mut running = RunningMatrix::zero(poll.options());
    running.add(first);
    running.add(second);
    running.matrix()
}

/// The same, after the second ballot is exchanged for a third.
fn exchanged_running(poll: &Poll, first: &Ranks, second: &Ranks, third: &Ranks) -> Matrix
    requires first { length first.now ≡ option_count poll.now }
    requires second { length second.now ≡ option_count poll.now }
    requires third { length third.now ≡ option_count poll.now }
{
    let mut running = RunningMatrix::zero(poll.options());
    running.add(first);
    running.add(second);
    running.exchange(second, third);
    running.matrix()
}

/// The matrix of two ballots, and the same matrix after the second is taken out and a third is added.
fn exchanged_plainly(poll: &Poll, first: &Ranks, second: &Ranks, third: &Ranks) -> (Matrix, Matrix)
    requires first { length first.now ≡ option_count poll.now }
    requires second { length second.now ≡ option_count poll.now }
    requires third { length third.now ≡ option_count poll.now }
{
    let mut counted = Matrix::zero(poll.options());
    counted.add(first);
    counted.add(second);
    let mut exchanged = counted;
    exchanged.take_out(second);
    exchanged.add(third);
    (counted, exchanged)
}

/// Four comparisons: whether taking out and adding give the matrix of the first and the third ballot, whether they leave the matrix
/// as it was, and whether a running matrix has the right votes before and after an exchange.
fn compared(poll: &Poll, first: &Ranks, second: &Ranks, third: &Ranks) -> [bool; 4]
    requires first { length first.now ≡ option_count poll.now }
    requires second { length second.now ≡ option_count poll.now }
    requires third { length third.now ≡ option_count poll.now }
{
    let both = recount(poll.options(), &[Some(*first), Some(*third)]);
    let (counted, exchanged) = exchanged_plainly(poll, first, second, third);
    let before = counted_running(poll, first, second);
    let after = exchanged_running(poll, first, second, third);
    [
        exchanged == both,
        exchanged == counted,
        before == counted,
        after == both,
    ]
}

/// The same for the ballots of three lines.
fn compared_lines(poll: &Poll) -> Result<[bool; 4], LineFault> {
    let first = ranks(poll, "v0 1,2,3,4")?;
    let second = ranks(poll, "v1 3,1,2,4")?;
    let third = ranks(poll, "v1 2,2,-,1")?;
    Ok(compared(poll, &first, &second, &third))
}

/// The same, by the poll of three options.
fn compared_by_poll(alloc: Global) -> Result<Result<[bool; 4], LineFault>, PollFault> {
    let poll = Poll::from_text(alloc, THREE_OPTIONS.as_bytes())?;
    let found = compared_lines(&poll);
    drop(poll);
    Ok(found)
}

#[test]
fn exchange_is_take_out_and_add(rt: HostRuntime) {
    let found = compared_by_poll(rt.alloc());
    assert_same(&rt, found, Ok(Ok([true, false, true, true])));
}
