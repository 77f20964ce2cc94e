//! The tests of the calls up to the ballot box.
//!
//! They test what no clause says, such as that a call succeeds if there is memory, and what no
//! command of the program shows, such as a refused growth or a device that fails.
//!
//! Tests are in crates of their own, this crate and `tests_from_desks`, since the kit proves a crate with tests twice, with
//! them and without them. A module has the tests of one crate and is named after it, such as `count` after `vote_count`. It
//! uses only public calls. `same` has the assertions that the modules share.

#![tactic(auto)]

#[cfg(test)]
mod count;
#[cfg(test)]
mod files;
#[cfg(test)]
mod findings;
#[cfg(test)]
mod poll;
#[cfg(test)]
mod same;
#[cfg(test)]
mod steps;
#[cfg(test)]
mod tray;
