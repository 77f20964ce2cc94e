//! From bytes to bytes: the runs of the program.
//!
//! Each run reads its texts, works on them, and writes the text that is meant into a sink.
//!
//! - [`count_for`] counts the ballots of its [`CountInputs`] and writes the text for its [`Purpose`](vote_request::Purpose): the
//!   result sheet, the picture, or how a published sheet compares. [`run`] does so for the sheet.
//! - [`print_listing`] casts the ballots and writes a [`Listing`](vote_request::Listing): the reply to each line, or the ballots
//!   that count. [`print_steps`] does so for the replies, and [`steps_joined`] for the replies to a poll and its ballots in one
//!   input.
//! - [`check_poll`] reads a poll file and writes how many options and electors it has, and [`explain`] writes all that is wrong
//!   with it and with its ballots.
//! - [`perform`] does the run that a [`LoadedRequest`] asks for, and returns how the run ended
//!   ([`FinishedRun`]). [`perform_listing`] does the run of a listing.
//! - No run here may wait. One that counts takes its votes by a call that it is given, at most once, and it returns if that call does.
//!   The call promises that a box which it returns is audited, as `take_votes` of `vote_desks` does. Votes stop a run only by
//!   a fault that this call may return.
//! - [`sheet`] returns the result sheet of an audited box, for callers of the library.
//! - [`status`] and [`fault_status`] return the exit status of a run, from how it ended ([`Ended`]) or why it did not
//!   ([`RunFault`], whose `Display` is the program's fault line). [`unread`] returns the fault for a file that was not read.
//!
//! **What is promised.** A run writes the text that is meant, once, and nothing else. If its output fails, it has written a prefix
//! of that text, and after any other fault nothing. It returns each fault exactly when the fault holds, in the order of the inputs.
//! But memory may be refused at any growth, and then the run returns [`RunFault::Memory`] instead of any later fault; and the call that
//! takes votes may be refused a thread. When a run returns Ok, its sink was flushed. The clauses hold for every [`Sink`](vote_files::Sink),
//! whatever it does and whenever it fails.
//!
//! The modules: `joined` splits a joined input, and [`laws`] says what its parts are. `reading` reads poll and lines. `votes` takes
//! the votes of two files, and `counting` makes the text for a purpose from them. `listing`, `checking` and `explaining` are the
//! other runs. `requests` does the run that is asked for, `audited` has the sheet of an audited box, `output` writes the text of a
//! run, and `fault` says how a run ends.
#![tactic(auto)]

mod audited;
mod checking;
mod counting;
mod explaining;
mod fault;
mod finished_run;
mod joined;
pub mod laws;
mod listing;
mod output;
mod reading;
mod requests;
mod votes;

pub use audited::sheet;
pub use checking::check_poll;
pub use counting::{count_for, run};
pub use explaining::explain;
pub use fault::{Ended, InputFault, InputFile, RunFault, fault_status, status, unread};
pub use finished_run::FinishedRun;
pub use joined::split_joined;
pub use listing::{print_listing, print_steps, steps_joined};
pub use requests::{LoadedRequest, perform, perform_listing};
pub use votes::CountInputs;
