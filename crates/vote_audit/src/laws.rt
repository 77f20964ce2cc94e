//! What an audit means for the voters, and how many desks there can be.
//!
//! Each law is the contract of a function that does nothing.
ghost use Rattle.vote_audit.specs.Limits.{DesksAreAsWritten};
ghost use Rattle.vote_audit.specs.Standing.{LastLinesStand, LinesAreCounted};

/// In an audited box each voter's ballot that stands is the voter's last line that reads as a
/// ballot and is not late, in whatever order the lines were cast.
pub fn last_lines_stand()
    ensures { LastLinesStand }
{
    vote_steps::laws::last_lines_stand();
}

/// The counts of an audited box are those of the lines: how many are ballots and not late, how many
/// voters have such a ballot, and how many voters' last such ballots prefer one option to another.
pub fn lines_are_counted()
    ensures { LinesAreCounted }
{
    vote_steps::laws::lines_are_counted();
}

/// There are at most 8 desks, as the documents say. With another `MAX_DESKS` in vote_steps this is
/// not proved.
pub fn desks_are_as_written()
    ensures { DesksAreAsWritten }
{}
