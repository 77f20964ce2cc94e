//! An input read whole, and a text written whole, over any reader and writer.
//!
//! A [`Source`] gives bytes and a [`Sink`] takes them. Their contracts tell how often each was called and how often it failed,
//! whether a sink was flushed after the last that it took, and, if a device tells them, the bytes themselves. So the
//! contracts of [`read_limited`] and [`write_text`] hold at every device, whatever it does and whenever it fails.
//!
//! - [`read_limited`] reads an input to its end, in no more than so many bytes and so many reads, or says why not: its
//!   device failed, more came than the limit, or memory ran out. Then it asks for nothing more. [`read_all`] does so for a
//!   reader of std.
//! - [`write_text`] writes a text, all of it and nothing else, and flushes it; if it can't, a prefix of the text is
//!   written.
//! - [`Sources`] are files that are read by their names, and [`StandardInput`] is read whole. Those of the system are lent as
//!   [`ReadableFiles`] and [`ReadableInput`]: who has one can read, and do nothing else.
//! - [`ReaderSource`] and [`WriterSink`] are devices over std's readers and writers. They count by a [`Meter`], which only
//!   contracts see: it takes no memory and no time.
//!
//! What is not promised: what a file, a terminal or a pipe really gives or keeps, which no contract can say.
#![tactic(auto)]

mod device;
mod input;
mod meter;
mod output;
mod readable;
mod sources;
mod standard;

pub use device::{DeviceFault, Sink, Source};
pub use input::{ReadFault, read_limited};
pub use meter::Meter;
pub use output::write_text;
pub use readable::{ReadableFiles, ReadableInput};
pub use sources::{Sources, StandardInput};
pub use standard::{ReaderSource, WriterSink, read_all};
