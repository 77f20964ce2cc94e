//! One box that desks share: its lock, the desks with their slips, and the gathering of both.
//!
//! `open_desks` returns a [`SharedBox`] and its desks, 1 to at most [`vote_steps::MAX_DESKS`].
//! `SharedBox::cast` takes the lock, enters an envelope in the box as one step, and releases the
//! lock; the desk notes a [`Slip`] of the cast. `gather` closes the box and turns the box and all
//! desks into a [`Sealed`] box. No call starts a thread or reads a line: the caller gives each
//! envelope to a desk, with its stamp and its reading.
//!
//! **What is shared, and who writes it.** The box and its two books, of valid and of refused lines,
//! are behind one lock, and change by one cast or one close at a time. A desk, with its slips and
//! its shares of the books, belongs to one thread at a time. `open_desks` reserves room for all
//! steps of the box and for all slips of each desk, so no cast allocates.
//!
//! **What is promised.** Whenever the lock is free, the box is a legal history, it has the sizes,
//! the limit and the last envelope that it was opened with, and its books are the numbers of valid
//! and refused lines in it. The contract of `enter` describes one cast completely, on a box and a
//! desk that are lent to it. A caller that only shares the box knows less, since another desk may
//! cast between its calls. It knows when its ballot does not fit the box, when its desk has no
//! room, and when its stamp is out of range. It knows that only an envelope above the last one is
//! late. It does not know which stamps were used, which ballots stand, or whether the box is open:
//! `standing` and `close` answer as some legal history of the box does. The shares record what each
//! desk did, and `gather` shows that all shares together are the books.
//!
//! **What is not promised.** That a waiting call ever continues, fairness among desks, or any order
//! of their casts. That `open_desks` and `gather` succeed, since memory may be refused.
#![tactic(auto)]

mod desk;
mod entry;
mod fault;
mod sealed;
mod shared;
mod slip;

pub use desk::{Desk, Held, Tally};
pub use entry::enter;
pub use fault::{DeskFault, EnterFault, NoVoter};
pub use sealed::{Sealed, gather};
pub use shared::{SharedBox, open_desks};
pub use slip::Slip;
