//! The lines of a file that are not empty, and whether they begin as ballots.
ghost use Rattle.std.specs.Prelude.{◌≡◌, ◌↔◌, [], IsTrue, option_copied, slice_index_or, unwrap_or};
ghost use Rattle.vote_explain_poll.specs.Syntax.{BeginAsBallots, full_lines};

use vote_hints::unmarked;
use vote_poll::is_ballot_line;

/// The line at an index, from 0, among those that are not empty. Carriage returns end lines, too.
fn full_line(text: &[u8], place: usize) -> Option<&[u8]>
    ensures { unwrap_or (option_copied result) [] ≡ slice_index_or (full_lines text.now) place [] }
{
    let parts = unmarked(text).split(|byte| *byte == b'\n' || *byte == b'\r');
    let mut lines = parts.filter(|line| !line.is_empty());
    lines.nth(place)
}

/// Whether a text begins as ballots do, perhaps below a head.
#[tactic(auto, unfolding(crate::specs::Syntax::BeginAsBallots))]
pub(crate) fn begins_as_ballots(text: &[u8]) -> bool
    ensures { IsTrue result ↔ BeginAsBallots (full_lines text.now) }
{
    let first = full_line(text, 0).unwrap_or(b"");
    let may_be_head = !first.contains(&b'=');
    is_ballot_line(first) || may_be_head && is_ballot_line(full_line(text, 1).unwrap_or(b""))
}
