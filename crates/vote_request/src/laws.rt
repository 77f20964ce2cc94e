//! The limit of a request, as a number. The law is the contract of a function that does nothing.

ghost use Rattle.std.specs.Prelude.{◌≡◌};

use crate::MAX_DESKS;

/// A request can have at most 8 desks, as `docs/FORMATS.md` says.
pub fn words_ask_for_eight_desks_at_most()
    ensures { MAX_DESKS ≡ 8 }
{}
