//! The tests of the calls above the ballot box.
//!
//! They test what no clause says, such as that a call succeeds if there is memory, and what no
//! command of the program shows, such as gates, threads, a refused growth or a writer that fails.
//!
//! The tests of the calls up to the box are in `tests_below_desks`. A module has the tests of one crate and its name, such as
//! `sheet` for `vote_sheet`. Exceptions: `desks` has the tests of `vote_desks_box` and of the audit, `votes` the other tests of
//! `vote_desks`, `faults` more tests of `vote_commands`, `reports` the tests of `vote_program`, `memory` those of `vote_memory`,
//! and `inputs` what several of them share. The tests name only public calls.

#![tactic(auto)]

#[cfg(test)]
mod desks;
#[cfg(test)]
mod explain;
#[cfg(test)]
mod faults;
#[cfg(test)]
mod inputs;
#[cfg(test)]
mod memory;
#[cfg(test)]
mod reports;
#[cfg(test)]
mod runs;
#[cfg(test)]
mod sheet;
#[cfg(test)]
mod votes;
