//! Workers that take the votes of all lines at the desks of one box.
//!
//! The box, its desks and their slips are from [`vote_desks_box`], the audit from `vote_audit`; the
//! public names of both are also exported here. `take_votes` does everything: it opens the desks,
//! serves each by a worker in a thread of its own, joins the workers, gathers the desks and audits
//! the box.
//!
//! **What is shared, and who writes it.** The box is behind its lock. The tray decides which worker
//! casts which line; it is outside the lock. All workers read the poll, the lines and the gate. A
//! worker allocates nothing. If its gate never waits for another desk, it takes and reads several
//! envelopes at once, and then casts them one by one.
//!
//! **What is promised.** A box that `take_votes` returns is audited for the poll and the lines, and
//! the stamps of each desk's slips rise. `take_votes` reports that a gate stopped the votes only
//! for a desk that the gate may stop, and an audit's fault only if the audit finds it in a legal
//! box.
//!
//! **What is not promised.** That two threads run at the same time, that a waiting call ever
//! continues, fairness among desks, which desk casts which line, or in what order. That a call
//! succeeds, since memory or a thread may be refused. What a gate says, and how long it takes.
#![tactic(auto)]

mod batch;
mod no_gate;
mod votes;
mod work;
mod worker_result;

pub use no_gate::NoGate;
pub use vote_audit::{AuditFault, AuditWitness, Audited, VoteFault, audit, compare, laws};
pub use vote_desks_box::{
    Desk, DeskFault, EnterFault, Held, NoVoter, Sealed, SharedBox, Slip, Tally, enter, gather,
    open_desks,
};
pub use votes::take_votes;
pub use work::Gate;
