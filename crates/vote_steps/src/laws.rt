//! The meaning of the definitions on histories. Each law is the contract of a function that calls other laws or does nothing.
ghost use Rattle.vote_steps.specs.Recasts.{OrderDoesNotMatter, TheGreatestStands, EachCastIsCounted};
ghost use Rattle.vote_steps.specs.Laws.{CastsAreAtDesks, RepliesAsInTheExamples, StampsAreDistinct, EachStampIsUsed, ClosesOnce, HasRoomForAll, VotesAreRecounted};
ghost use Rattle.vote_steps.specs.HeldLines.{LinesCanBeCast, OrderLeavesNoChoice};
ghost use Rattle.vote_steps.specs.Standing.{LastLinesStand, LinesAreCounted};

use vote_poll::each_line_is_read;

/// Of each voter's ballots that came before the close and are not late, the one with the greatest stamp stands.
#[tactic(auto, using(crate::proofs::RecastLemmas::the_greatest_stands_lem))]
pub fn the_greatest_stands()
    ensures { TheGreatestStands }
{}

/// Whatever the order in which the lines are cast, each voter's last line that is a ballot and is not late stands.
#[tactic(auto, using(crate::proofs::RecastLemmas::order_does_not_matter_lem))]
pub fn order_does_not_matter()
    ensures { OrderDoesNotMatter }
{}

/// Each cast is valid or refused.
pub fn each_cast_is_counted()
    ensures { EachCastIsCounted }
{}

/// No two casts of a legal history have the same stamp.
#[tactic(auto, using(crate::proofs::LegalLemmas::stamps_are_distinct_lem))]
pub fn stamps_are_distinct()
    ensures { StampsAreDistinct }
{}

/// A legal history with as many casts as stamps uses each stamp.
#[tactic(auto, using(crate::proofs::LegalLemmas::each_stamp_is_used_lem))]
pub fn each_stamp_is_used()
    ensures { EachStampIsUsed }
{}

/// Each cast of a legal history is at a desk from 1 to 8.
#[tactic(auto, using(crate::proofs::Examples::casts_are_at_desks))]
pub fn casts_are_at_desks()
    ensures { CastsAreAtDesks }
{}

/// Examples of the reply to an envelope: an earlier envelope of the same voter is superseded, and a later envelope replaces.
#[tactic(auto, using(crate::proofs::Examples::replies_in_examples))]
pub fn replies_are_as_in_the_examples()
    ensures { RepliesAsInTheExamples }
{}

/// A legal history has at most one close.
#[tactic(auto, using(crate::proofs::LegalLemmas::closes_once_lem))]
pub fn closes_once()
    ensures { ClosesOnce }
{}

/// A legal history has at most one step for each stamp, and one more step.
#[tactic(auto, using(crate::proofs::LegalLemmas::has_room_for_all_lem))]
pub fn has_room_for_all()
    ensures { HasRoomForAll }
{}

/// The votes of a history are the votes of a recount of the ballots that stand.
#[tactic(auto, using(crate::proofs::RecountLemmas::votes_are_recounted_lem))]
pub fn votes_are_recounted()
    ensures { VotesAreRecounted }
{}

/// In a box that holds the lines of a poll, each voter's last line that is a ballot and is not late stands, whatever the
/// order in which the lines were cast.
#[tactic(auto, using(crate::proofs::StandingLemmas::last_lines_stand_lem))]
pub fn last_lines_stand()
    ensures { LastLinesStand }
{}

/// The counts of a box that holds the lines of a poll follow from the lines: how many lines are ballots and not late, how
/// many voters have such a line, and how many voters' last such ballots prefer one option to another.
pub fn lines_are_counted()
    ensures { LinesAreCounted }
{}

/// There is only one history in which desk 1 casts the lines of a poll in their order.
#[tactic(auto, using(crate::proofs::CastLemmas::one_history))]
pub fn order_leaves_no_choice()
    ensures { OrderLeavesNoChoice }
{}

/// There is a history in which desk 1 casts the lines of a poll in their order.
pub fn lines_can_be_cast()
    ensures { LinesCanBeCast }
{
    each_line_is_read();
}
