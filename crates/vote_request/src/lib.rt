//! What the program can be asked for, as one type.
//!
//! - [`Request`] is generic over what is known about a file: the command line gives its name, and a run has its bytes. [`Purpose`]
//!   says what a count is for, and [`Listing`] what is listed about the ballots.
//!
//! This crate knows nothing about votes or command lines.
#![tactic(auto)]

pub mod laws;
mod request;

pub use request::{Listing, Purpose, Request};

/// The greatest number of desks that can be asked for.
pub const MAX_DESKS: u8 = 8;
