//! Laws of the count. Each function does nothing: its contract is the law, which is proved.
ghost use Rattle.vote_count.specs.Laws.{BallotsAreAnonymous, CondorcetWinnersWin, FinalSetIsInSmithSet, FinalSetIsSchulze, RaisedWinnersWin, RaisedBallotsRaise, FinalSetIsCloneproof, ClonesOnBallotsAreClones, CloneSetsAreIndependent, CloneSetsOnBallotsAreCloneSets, FinalSetIsPareto, OutcomesAreDetermined, DecisionsAreDetermined, FinalSetIsNotEmpty, OneOrSeveralAreLeft, RoundsExist, OutcomesExist, DecisionsExist, QuorumsExist, FinalSetIsOne, WeakerDefeatsAsInTheExamples, WinnersAreInTheSet};
ghost use Rattle.vote_count.specs.Rounds.{RoundsAreDetermined};

/// The rules leave no choice: two lists of rounds of the same poll and matrix are the same.
pub fn rounds_are_determined()
    ensures { RoundsAreDetermined }
{}

/// Each count has rounds. Each round but the last drops a defeat, so they end.
pub fn rounds_exist()
    ensures { RoundsExist }
{}

/// Each count has an outcome, whatever the matrix.
pub fn outcomes_exist()
    ensures { OutcomesExist }
{}

/// There is a decision, whatever the final set and the casting vote.
pub fn decisions_exist()
    ensures { DecisionsExist }
{}

/// Some number of votes is the smallest that meets the quorum.
pub fn quorums_exist()
    ensures { QuorumsExist }
{}

/// All rounds of a count have the same final set. The laws below are about this set.
pub fn final_set_is_one()
    ensures { FinalSetIsOne }
{}

/// The outcome of a matrix depends only on the votes between the poll's options, and these leave no choice.
pub fn outcomes_are_determined()
    ensures { OutcomesAreDetermined }
{}

/// A decision depends only on the options of the final set and on the casting vote, and these leave no choice.
pub fn decisions_are_determined()
    ensures { DecisionsAreDetermined }
{}

/// A count always leaves an option: the final set is not empty.
pub fn final_set_is_not_empty()
    ensures { FinalSetIsNotEmpty }
{}

/// So one option is left, and wins; or two or more are left, and the casting vote decides, or there is a tie.
pub fn one_or_several_are_left()
    ensures { OneOrSeveralAreLeft }
{}

/// A winner is in the final set: it is alone there, or the casting vote chose it.
pub fn winners_are_in_the_set()
    ensures { WinnersAreInTheSet }
{}

/// Anonymity: the votes of `recount` do not depend on the order of its ballots.
pub fn ballots_are_anonymous()
    ensures { BallotsAreAnonymous }
{}

/// Condorcet's criterion: an option that defeats each other option is alone in the final set. Dropped
/// options do not count.
pub fn condorcet_winners_win()
    ensures { CondorcetWinnersWin }
{}

/// Smith's criterion: each option of the final set is in the smallest set whose members each defeat
/// each option outside it. Dropped options do not count.
pub fn final_set_is_in_smith_set()
    ensures { FinalSetIsInSmithSet }
{}

/// The final set has exactly the winners of Schulze's method. If another option has a chain of defeats to a winner, the winner
/// has a chain to it that is as strong. Dropped options do not count.
pub fn final_set_is_schulze()
    ensures { FinalSetIsSchulze }
{}

/// Monotonicity: if an option of the final set is liked more and nothing else changes, it stays in the final set. The quorum
/// and the majorities do not matter, nor whether it is the default option.
pub fn raised_winners_win()
    ensures { RaisedWinnersWin }
{}

/// Monotonicity of the matrix: if each ballot of a second list differs from the ballot at its index in the first at most by
/// liking one option more, `raised_winners_win` applies to the matrices of the lists.
pub fn raised_ballots_raise()
    ensures { RaisedBallotsRaise }
{}

/// Independence of clones. Two options are clones if each further option has the same votes over both, and both have the same
/// votes over it. If one of two clones is taken out, the final set has the same further options. It has the other clone exactly
/// when it had one of the two. Dropped options do not count.
pub fn final_set_is_cloneproof()
    ensures { FinalSetIsCloneproof }
{}

/// Clones of the matrix: if no ballot ranks a further option between two options, or equal to only one of them,
/// `final_set_is_cloneproof` applies to the two and to the matrix of the ballots.
pub fn clones_on_ballots_are_clones()
    ensures { ClonesOnBallotsAreClones }
{}

/// Independence of clones, any number of them. The options of a set are clones if each option outside the set has the same
/// votes over all of them, and all of them have the same votes over it. If some of the clones are taken out, but not all, the
/// final set has the same options outside the set. It has some of the clones exactly when it had some.
pub fn clone_sets_are_independent()
    ensures { CloneSetsAreIndependent }
{}

/// Sets of clones of the matrix: if no ballot ranks an option outside a set between two of its options, or equal to only one of
/// two, `clone_sets_are_independent` applies to the set and to the matrix of the ballots.
pub fn clone_sets_on_ballots_are_clone_sets()
    ensures { CloneSetsOnBallotsAreCloneSets }
{}

/// Pareto's criterion: if each ballot prefers one option, which is not dropped, to another, the other is not in the final set.
pub fn final_set_is_pareto()
    ensures { FinalSetIsPareto }
{}

/// Examples of which of two defeats is weaker: the defeat with fewer votes for it or, if as many are for each, the defeat with
/// more votes against it.
pub fn weaker_defeats_are_as_in_the_examples()
    ensures { WeakerDefeatsAsInTheExamples }
{}
