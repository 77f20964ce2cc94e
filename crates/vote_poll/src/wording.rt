//! How a poll words the majority that an option needs.
ghost use Rattle.std.specs.Prelude.{◌≡◌};
ghost use Rattle.vote_poll.specs.PollValues.{wording_in};

/// How many voters have to prefer an option to the default option if its majority ratio is r, compared with those who
/// prefer the default option to it.
#[derive(Clone, Copy, Debug, PartialEq, Eq)]
pub enum Wording {
    /// At least r times as many, and strictly more. This is the wording of A.5 of the Constitution's Appendix A. A
    /// poll file says `at_least`, or nothing.
    AtLeast,
    /// More than r times as many. This wording is this project's own. A poll file says `more_than`.
    MoreThan,
}

/// The wording with this name, if there is one.
pub(crate) fn parse_wording(text: &str) -> Option<Wording>
    ensures { result ≡ wording_in text.now }
{
    match text {
        "at_least" => Some(Wording::AtLeast),
        "more_than" => Some(Wording::MoreThan),
        _ => None,
    }
}
