//! Laws of the count in terms of what people see, from the lines of a ballot file to the sheet.
//!
//! Each function only calls the laws of the count that it needs: its contract is the law, and that
//! is proved.
ghost use Rattle.vote_sheet.specs.ElectorLaws.{BallotsThatOrderAlikeCountAlike, NamesDoNotMatter, NobodyCountsTwice, OneBallotMovesEachCountByOne, OnlyLastBallotsDecide, OnlyTheLastBallotCounts, RefusedLinesAreOnlyCounted, RefusedLinesHaveNoInfluence};
ghost use Rattle.vote_sheet.specs.Limits.{LimitsAreAsWritten};
ghost use Rattle.vote_sheet.specs.Publishing.{KeepsTheOrder, NormalRanksTellTheOrderAlone, PublishedFilesHaveTheSameSheet, PublishedFilesSayTheSame, normal_ranks};
ghost use Rattle.vote_sheet.specs.SheetLaws.{CondorcetWinnersAreNamed, LikedOptionsStay, LikedWinnersStay, UnanimityRules};
ghost use Rattle.vote_sheet.specs.Standing.{StandingHasTheSameSheet, StandingSaysTheSame};
ghost use Rattle.vote_sheet.specs.Verify.{NamesTheFirstLine, VerificationsAreDetermined, VerificationsExist};

use crate::sheet::{sheet_exists, sheet_is_unique};
use vote_count::{
    condorcet_winners_win, final_set_is_one, final_set_is_pareto, final_set_is_schulze,
    raised_ballots_raise, raised_winners_win, winners_are_in_the_set,
};
use vote_poll::{each_line_is_read, lines_are_unique, names_are_distinct, readings_are_unique};

/// Monotonicity: if the electors come to like an option more and change nothing else, it stays in the last round.
pub fn liked_options_stay()
    ensures { LikedOptionsStay }
{
    final_set_is_one();
    final_set_is_schulze();
    raised_ballots_raise();
    raised_winners_win();
}

/// Monotonicity for the winner that a sheet without a casting vote names: it stays in the last round.
pub fn liked_winners_stay()
    ensures { LikedWinnersStay }
{
    liked_options_stay();
    winners_are_in_the_set();
}

/// Pareto's criterion: if each last valid ballot prefers a kept option to another option, the other option is not in the last
/// round, and does not win.
pub fn unanimity_rules()
    ensures { UnanimityRules }
{
    final_set_is_one();
    final_set_is_pareto();
    winners_are_in_the_set();
}

/// A Condorcet winner among the kept options is the winner that the sheet names, whatever the casting vote.
pub fn condorcet_winners_are_named()
    ensures { CondorcetWinnersAreNamed }
{
    final_set_is_one();
    condorcet_winners_win();
}

/// The text of `standing` is a ballot file of the same poll: it has as many lines as there are voters, each is a ballot that is
/// not late, and the last valid ballot of each elector is the same.
pub fn standing_says_the_same()
    ensures { StandingSaysTheSame }
{
    lines_are_unique();
    each_line_is_read();
}

/// For every casting vote the sheet of a ballot file and the sheet of its text of `standing` are the same from the line `Voters:`
/// on.
pub fn standing_has_the_same_sheet()
    ensures { StandingHasTheSameSheet }
{
    only_last_ballots_decide();
    standing_says_the_same();
}

/// Ranks in normal form, which are 1, 2 and so on, keep the order of the options. So do unchanged ranks.
pub fn normal_ranks_keep_the_order()
    ensures normal { KeepsTheOrder normal_ranks }
    ensures as_they_are { KeepsTheOrder (λ ranks. ranks) }
{}

/// Ranks in normal form show which options have a rank, and their order, and nothing else about the numbers that an elector chose.
#[tactic(auto, using(crate::proofs::NormalRanksAreOne::tell_the_order_alone))]
pub fn normal_ranks_tell_the_order_alone()
    ensures { NormalRanksTellTheOrderAlone }
{}

/// A secret vote is published as the poll with other names on its roll and without a last envelope, and the lines of `standing`
/// with these names, in any order, and with their ranks in a form that keeps the order, such as `normal_ranks`. The published files
/// say the same: there are as many lines as voters, each is a ballot that is not late, and each elector's last valid ballot is the
/// same in this form.
pub fn published_files_say_the_same()
    ensures { PublishedFilesSayTheSame }
{
    each_line_is_read();
    readings_are_unique();
    names_are_distinct();
}

/// For every casting vote, the sheet of the published files of a secret vote and the sheet of the received files are the same from
/// the line `Voters:` on.
pub fn published_files_have_the_same_sheet()
    ensures { PublishedFilesHaveTheSameSheet }
{
    each_line_is_read();
    ballots_that_order_alike_count_alike();
    published_files_say_the_same();
}

/// The words of a difference name the first line in which the two texts differ. A line feed belongs to its line.
#[tactic(auto, using(crate::proofs::Differences::names_the_first_line))]
pub fn the_first_line_is_named()
    ensures { NamesTheFirstLine }
{}

/// The poll, the lines and the text determine what `verify` says about the text, and its words.
pub fn verifications_are_determined()
    ensures { VerificationsAreDetermined }
{
    sheet_is_unique();
}

/// Of each text `verify` says something, for each poll that is read from a poll file and any lines. By
/// [`verifications_are_determined`] it is one thing, in the same words.
pub fn verifications_exist()
    ensures { VerificationsExist }
{
    sheet_exists();
    sheet_is_unique();
}

/// The sums of a sheet show that nobody counts twice: for two options, the votes for the first over the second and for the second
/// over the first are together at most the number of voters, there are at most as many voters as electors and as valid lines, and
/// each line is valid or refused.
pub fn nobody_counts_twice()
    ensures { NobodyCountsTwice }
{}

/// Ballot files that differ only in refused lines have the same sheets. A refused line at the end of a file changes nothing on the
/// sheet but the numbers of lines and of refused lines.
pub fn refused_lines_have_no_influence()
    ensures changed { RefusedLinesHaveNoInfluence }
    ensures added { RefusedLinesAreOnlyCounted }
{}

/// Of an elector with several valid ballots only the last one counts: if another ballot of this elector replaces an earlier one,
/// the sheet is the same, byte for byte.
pub fn only_the_last_ballot_counts()
    ensures { OnlyTheLastBallotCounts }
{}

/// If one elector's last valid ballot differs in two ballot files, or only one file has it, the votes for each option over each
/// other option differ by at most one, and so do the numbers of voters.
pub fn one_ballot_moves_each_count_by_one()
    ensures { OneBallotMovesEachCountByOne }
{}

/// The sheet knows no names: if the electors of a poll have other names, or are in another order on its roll, and the lines say the
/// same about them, the sheet is the same, byte for byte, for each casting vote.
pub fn names_do_not_matter()
    ensures { NamesDoNotMatter }
{
    each_line_is_read();
}

/// Only the last valid ballots decide: if two polls differ only in names and last envelope, and two ballot files have the same last
/// valid ballots, then for each casting vote their sheets are the same from the line `Voters:` on.
pub fn only_last_ballots_decide()
    ensures { OnlyLastBallotsDecide }
{
    ballots_that_order_alike_count_alike();
}

/// Two ballots that order the options alike count alike: if two polls differ only in names and last envelope, and each elector's
/// last valid ballots in two files prefer the same options to the same others, whatever the numbers of their ranks, then for each
/// casting vote their sheets are the same from the line `Voters:` on.
pub fn ballots_that_order_alike_count_alike()
    ensures { BallotsThatOrderAlikeCountAlike }
{
    sheet_is_unique();
}

/// `MAX_SHOWN_OF_LINE` is the limit that `docs/FORMATS.md` has for a shown line.
pub fn limits_are_as_written()
    ensures { LimitsAreAsWritten }
{}
