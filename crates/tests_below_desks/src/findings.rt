//! The findings in a poll file.
//!
//! tests/refused-memory refuses the memory of the call, one growth after another.

use crate::same::assert_same;
use std::alloc::{AllocError, Global};
use std::test::Fail;
use vote_explain_poll::explain_poll;
use vote_poll::{PollFault, PollKey};

/// A poll with faults, and with keys that are not read.
const FAULTY: &str =
    "title = 3\noptions = [\"A\", \"B \"]\nratios = [1, 12]\ndefault = \"A\"\nquorum = 11\nrol = 1\nwording = \"most\"\n[more]\nroll = [\"v0\"]\n[rest]\nx = 1\ny = 2\n";

/// The findings in it.
const FINDINGS: &str = "poll: key title: an integer; a text is wanted\n\
    \x20 1 | title = 3\n\
    \x20   | ^^^^^^^^^\n\
    poll: key roll: it is missing above all tables, and is in [more]; a list of texts is wanted\n\
    poll: name of option 2: \"B \" ends with a space; an option's name has 1 to 40 printable characters of ASCII, no space at either end, and no other option has it\n\
    \x20 2 | options = [\"A\", \"B \"]\n\
    \x20   |                 ^^^^\n\
    poll: name of option 3: \"A\" is option 1 too; an option's name has 1 to 40 printable characters of ASCII, no space at either end, and no other option has it; the default is option 3: it is no part of `options`\n\
    \x20 4 | default = \"A\"\n\
    \x20   | ^^^^^^^^^^^^^\n\
    poll: ratios: 12 for option 2; a ratio is a whole number from 1 to 10; ratio S: S votes for it against each vote for the default: 1 for half, 2 for two thirds, 3 for three quarters\n\
    \x20 3 | ratios = [1, 12]\n\
    \x20   | ^^^^^^^^^^^^^^^^\n\
    poll: quorum: 11 found; a quorum is a whole number from 0 to 10: how many times Q is needed, half the square root of the number of electors\n\
    \x20 5 | quorum = 11\n\
    \x20   | ^^^^^^^^^^^\n\
    poll: wording: \"most\" found; a wording is at_least or more_than: with a ratio S above 1, at_least is met by S votes for it against each vote for the default, more_than only by more\n\
    \x20 7 | wording = \"most\"\n\
    \x20   | ^^^^^^^^^^^^^^^^\n\
    poll: key more.roll is not read; it is read above all tables alone\n\
    poll: key rest is not read\n\
    poll: key rol is not read; did you mean roll?\n";

/// The findings in a text, and its fault if it is not a poll.
fn explained(alloc: Global, text: &[u8]) -> Result<(String, Option<PollFault>), AllocError> {
    let explained = explain_poll(alloc, text, None)?;
    Ok((explained.findings, explained.outcome.err()))
}

#[test]
fn memory_of_explain_poll(rt: HostRuntime) -> Result<(), Fail> {
    match explained(rt.alloc(), FAULTY.as_bytes()) {
        Ok((findings, fault)) => {
            assert_same(&rt, fault, Some(PollFault::Key(PollKey::Title)));
            assert_same(&rt, findings.as_str(), FINDINGS);
            Ok(())
        }
        Err(AllocError) => Err(Fail::from("refused")),
    }
}

/// A poll whose roll has one name too many.
fn crowded(alloc: Global) -> Result<String, AllocError> {
    let mut text = String::from_str(
        alloc,
        "title = \"T\"\noptions = [\"A\"]\nratios = [1]\ndefault = \"None\"\nquorum = 0\nroll = [",
    )?;
    for voter in 0..10_001 {
        write!(text, "\"v{voter}\",")?;
    }
    text.push_str("]\n")?;
    Ok(text)
}

/// The findings in it, and its fault.
fn crowd(alloc: Global) -> Result<(String, Option<PollFault>), AllocError> {
    let text = crowded(alloc)?;
    explained(alloc, text.as_bytes())
}

#[test]
fn a_roll_with_one_name_too_many(rt: HostRuntime) -> Result<(), Fail> {
    let (findings, fault) = crowd(rt.alloc())?;
    assert_same(&rt, fault, Some(PollFault::RollSize));
    let most =
        "poll: size of roll: 10001 found; a roll has 1 to 10000 names\n  6 | roll = [\"v0\",\"v1\",\"v2\",\"v3\",\"v4\",\"v5\",\"v6\",\"v7\",\"v8\",\"v9\",\"v\n    | ^^^^^^^^^^^^^^^^^^^^^^^^^^^^^^^^^^^^^^^^^^^^^^^^^^^^^^^^^^^^\n";
    assert_same(&rt, findings.as_str(), most);
    Ok(())
}
