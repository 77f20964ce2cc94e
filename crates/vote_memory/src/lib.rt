//! A count of two files in memory, which tell their bytes and their readings.
//!
//! No contract says what the files of the system hold, and the facts about a count are about files
//! that tell it. So they would be empty if there were no such files. Here they are not assumed:
//! [`count_in_memory`] answers the words of a count over such files, and its contract has no premise about files.
//!
//! - [`MemoryFiles`] are a poll file and a ballot file, by the names `poll` and `ballots`. Contracts see their bytes and the list of
//!   the readings that were made.
//! - [`NoInput`] is a standard input without bytes.
#![tactic(auto)]

mod count;
mod files;
mod input;
mod log;
mod words;

pub use count::{MemoryCount, count_in_memory};
pub use files::MemoryFiles;
pub use input::NoInput;
