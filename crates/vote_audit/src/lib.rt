//! The audit of a box: each line is read once more, and compared with what the desks did.
//!
//! [`compare`] returns Ok exactly when everything agrees, and otherwise the first fault. [`audit`]
//! turns a [`Sealed`](vote_desks_box::Sealed) box into an [`Audited`] box, whose steps are a legal
//! history of exactly these lines. So by [`laws::last_lines_stand`] each voter's ballot that stands
//! is the voter's last line that is a ballot and not late, in whatever order the desks cast. A line
//! is late if its number is above the poll's last envelope, whenever it was cast.
//!
//! [`VoteFault`] says why the votes were not taken: who counts votes knows an audited box and these
//! faults, and not how the votes are taken, by `vote_desks`.
#![tactic(auto)]

mod auditing;
mod fault;
pub mod laws;
mod slips;

pub use auditing::{AuditWitness, Audited, audit, compare};
pub use fault::{AuditFault, VoteFault};
