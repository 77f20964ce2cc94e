//! The rules of the Debian Constitution for counting votes: the quorum (4.2), and Appendix A.
//!
//! A [`Matrix`] has V(A,B), the number of voters who prefer option A to option B, for each two options
//! of a poll. Ballots are added to it or taken out of it one at a time, and [`recount`] makes it from a
//! list of them. In a [`RunningMatrix`] a ballot can also be exchanged for another.
//!
//! [`outcome`] counts a matrix by the rules of a poll. It drops the options that miss the quorum or
//! their majority ([`quorum_votes`], [`meets_quorum`], [`meets_majority`], [`standing_options`]) and
//! lists the defeats among the others ([`Defeats`]). Then come the rounds. Each finds the transitive
//! defeats of the list ([`reach`]), the Schwartz set of these ([`schwartz`]), and the [`weakest`]
//! defeats within it. It removes them from the list, and the next round begins, until there are no
//! defeats to remove. [`decide`] names the winner in the set of the last round, with the casting vote if
//! it needs one.
//!
//! Options are numbered from 1, and the last is the default option. Votes are numbers of voters. A set
//! has only options as members: 0, or a number after the last option, is never in it.
//!
//! Each contract says the rule and not the steps of the code. The rules are in `specs/`, in the words of
//! the Constitution: `Ballots` and `Votes`, `Sets`, `Rules`, `Rounds`. `Laws` has the laws that the
//! literature on voting asks of such rules. Each of them is the contract of a function that does
//! nothing: [`ballots_are_anonymous`], [`condorcet_winners_win`], [`final_set_is_in_smith_set`],
//! [`final_set_is_schulze`], [`raised_winners_win`], [`raised_ballots_raise`],
//! [`final_set_is_cloneproof`], [`clones_on_ballots_are_clones`], [`clone_sets_are_independent`],
//! [`clone_sets_on_ballots_are_clone_sets`], [`final_set_is_pareto`]. Each count has a result:
//! [`rounds_exist`], [`outcomes_exist`], [`decisions_exist`], [`quorums_exist`]. The rules leave no
//! choice: [`rounds_are_determined`], [`outcomes_are_determined`], [`decisions_are_determined`],
//! [`final_set_is_one`]. A count always leaves one option or several: [`final_set_is_not_empty`],
//! [`one_or_several_are_left`]. A winner is in the final set: [`winners_are_in_the_set`].
//!
//! A set of options is a word of bits, and a list of defeats has one such word for each option. Only
//! `outcome` takes memory, for its rounds. No round takes more steps than the third power of the number
//! of options.
#![tactic(auto)]

mod laws;
mod options;
mod pairs;
mod rounds;
mod rules;
mod running_matrix;
mod tally;

pub use laws::{
    ballots_are_anonymous, clone_sets_are_independent, clone_sets_on_ballots_are_clone_sets,
    clones_on_ballots_are_clones, condorcet_winners_win, decisions_are_determined, decisions_exist,
    final_set_is_cloneproof, final_set_is_in_smith_set, final_set_is_not_empty, final_set_is_one,
    final_set_is_pareto, final_set_is_schulze, one_or_several_are_left, outcomes_are_determined,
    outcomes_exist, quorums_exist, raised_ballots_raise, raised_winners_win, rounds_are_determined,
    rounds_exist, winners_are_in_the_set,
};
pub use options::{OptionSet, Word};
pub use pairs::{Defeats, reach};
pub use rounds::{Cause, Decision, Round, Verdict, decide, outcome};
pub use rules::{meets_majority, meets_quorum, quorum_votes, schwartz, standing_options, weakest};
pub use running_matrix::RunningMatrix;
pub use tally::{Matrix, recount};
