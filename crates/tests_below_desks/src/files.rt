//! Tests of what no clause says: that calls succeed. And tests with devices that fail, and with memory that may be refused.
//!
//! The test `memory_of_read_limited` makes its call once. It passes if the call returned its whole right result, and fails
//! with `refused` if the call reported that memory was refused. So a run that refuses one growth after another shows whether
//! there is any other result.

use crate::same::assert_same;
use std::alloc::{AllocError, Global};
use std::io::{self, ErrorKind, Read};
use std::snapshot::Snapshot;
use std::test::Fail;
use vote_files::{DeviceFault, Meter, ReadFault, Sink, Source, read_all, read_limited, write_text};

/// A sink in memory. It takes at most `at_once` bytes at once, and fails once it holds `limit` bytes.
#[derive(Drop)]
struct Paper {
    written: Vec<u8>,
    at_once: usize,
    limit: usize,
    flushes: bool,
    flushed: Snapshot<bool>,
    meter: Meter,
}

impl Paper {
    /// A paper on which these bytes are already written.
    fn new(written: Vec<u8>, at_once: usize, limit: usize, flushes: bool) -> Paper {
        Paper {
            written,
            at_once,
            limit,
            flushes,
            flushed: Snapshot::of(&false),
            meter: Meter::new(),
        }
    }

    /// The bytes that it holds.
    fn into_written(self) -> Vec<u8> {
        let Paper {
            written,
            at_once: _,
            limit: _,
            flushes: _,
            flushed: _,
            meter: _,
        } = self;
        written
    }
}

impl Sink for Paper {
    ghost use Rattle.std.specs.Prelude.{Some};

    ghost calls = { λ s. s.meter.calls };

    ghost faults = { λ s. s.meter.faults };

    ghost contents = { λ s. Some s.written.items };

    ghost flushed = { λ s. s.flushed.value };

    fn put(&mut self, text: &[u8]) -> Result<usize, DeviceFault> {
        self.meter.count_call();
        self.flushed = Snapshot::of(&false);
        let count = text.len().min(self.at_once);
        if self.written.len() >= self.limit
            || self.written.extend_from_slice(&text[..count]).is_err()
        {
            self.meter.count_fault();
            return Err(DeviceFault);
        }
        if count == 0 && !text.is_empty() {
            self.meter.count_fault();
        }
        Ok(count)
    }

    fn flush(&mut self) -> Result<(), DeviceFault> {
        self.meter.count_call();
        if !self.flushes {
            self.meter.count_fault();
            return Err(DeviceFault);
        }
        self.flushed = Snapshot::of(&true);
        Ok(())
    }
}

fn write(
    alloc: Global,
    at_once: usize,
    limit: usize,
    flushes: bool,
    text: &[u8],
) -> (Vec<u8>, bool) {
    let mut paper = Paper::new(Vec::new(alloc), at_once, limit, flushes);
    let ended = write_text(&mut paper, text).is_ok();
    (paper.into_written(), ended)
}

/// How much a sink takes at once and in all, whether it flushes, how much of a text is then written, and whether the call
/// succeeds.
const WRITTEN: &[(usize, usize, bool, usize, bool)] = &[
    (100, 100, true, 11, true),
    (1, 100, true, 11, true),
    (10, 10, true, 10, false),
    (0, 100, true, 0, false),
    (100, 100, false, 11, false),
    (1, 3, true, 3, false),
];

/// Whether the written bytes are the start of the text, how many there are, and whether the call succeeds.
fn written_of_text(
    alloc: Global,
    at_once: usize,
    limit: usize,
    flushes: bool,
) -> (bool, usize, bool) {
    let text = b"Poll: Votes";
    let (written, ended) = write(alloc, at_once, limit, flushes, text);
    let starts = text.starts_with(written.as_slice());
    (starts, written.len(), ended)
}

#[test]
fn a_text_is_written_whole_or_to_the_fault(rt: HostRuntime) {
    for line in WRITTEN {
        let (at_once, limit, flushes, len, ends) = *line;
        let found = written_of_text(rt.alloc(), at_once, limit, flushes);
        assert_same(&rt, found, (true, len, ends));
    }
}

/// A source over bytes. It gives at most `at_once` bytes at once, but at least one, and fails after `reads` reads.
#[derive(Drop)]
struct Tape<'a> {
    rest: &'a [u8],
    at_once: usize,
    reads: u32,
    meter: Meter,
}

impl Source for Tape<'_> {
    ghost use Rattle.std.specs.Prelude.{Some};

    ghost reads = { λ s. s.meter.calls };

    ghost faults = { λ s. s.meter.faults };

    ghost remaining = { λ s. Some s.rest.now };

    fn get(&mut self, buffer: &mut [u8]) -> Result<usize, DeviceFault> {
        self.meter.count_call();
        if self.reads == 0 {
            self.meter.count_fault();
            return Err(DeviceFault);
        }
        self.reads -= 1;
        let most = self.rest.len().min(self.at_once.max(1));
        let count = buffer.len().min(most);
        buffer[..count].copy_from_slice(&self.rest[..count]);
        self.rest = &self.rest[count..];
        Ok(count)
    }
}

fn read(
    alloc: Global,
    bytes: &[u8],
    at_once: usize,
    reads: u32,
    limit: usize,
) -> Result<Vec<u8>, ReadFault> {
    let mut tape = Tape {
        rest: bytes,
        at_once,
        reads,
        meter: Meter::new(),
    };
    read_limited(alloc, &mut tape, limit)
}

/// Whether these bytes are read whole, and the fault if they are not. The source gives `at_once` bytes at once and fails after
/// `reads` reads; at most `limit` bytes are read.
fn read_whole(
    alloc: Global,
    bytes: &[u8],
    at_once: usize,
    reads: u32,
    limit: usize,
) -> (bool, Option<ReadFault>) {
    match read(alloc, bytes, at_once, reads, limit) {
        Ok(all) => (all.as_slice() == bytes, None),
        Err(fault) => (false, Some(fault)),
    }
}

/// Reads and limits, whether five bytes are read whole with them, and the fault.
const FIVE_BYTES: &[(u32, usize, bool, Option<ReadFault>)] = &[
    (9, 5, true, None),
    (9, 4, false, Some(ReadFault::TooLong)),
    (0, 9, false, Some(ReadFault::Device)),
    (1, 9, false, Some(ReadFault::Device)),
    (2, 9, false, Some(ReadFault::Device)),
];

#[test]
fn an_input_is_read_to_its_end_or_refused(rt: HostRuntime) {
    for line in FIVE_BYTES {
        let (reads, limit, whole, fault) = *line;
        let found = read_whole(rt.alloc(), b"hello", 3, reads, limit);
        assert_same(&rt, found, (whole, fault));
    }
}

/// A reader of std over bytes. It gives at most `at_once` bytes at once, and fails after `reads` reads.
#[derive(Drop)]
struct Reel<'a> {
    rest: &'a [u8],
    at_once: usize,
    reads: u32,
}

impl Read for Reel<'_> {
    fn read(&mut self, buffer: &mut [u8]) -> io::Result<usize> {
        if self.reads == 0 {
            return Err(io::Error::from(ErrorKind::Other));
        }
        self.reads -= 1;
        let count = buffer.len().min(self.rest.len().min(self.at_once));
        buffer[..count].copy_from_slice(&self.rest[..count]);
        self.rest = &self.rest[count..];
        Ok(count)
    }
}

/// The same as `read_whole`, with a reader of std.
fn read_reel(
    alloc: Global,
    bytes: &[u8],
    at_once: usize,
    reads: u32,
    limit: usize,
) -> (bool, Option<ReadFault>) {
    let reel = Reel {
        rest: bytes,
        at_once,
        reads,
    };
    match read_all(alloc, reel, limit) {
        Ok(all) => (all.as_slice() == bytes, None),
        Err(fault) => (false, Some(fault)),
    }
}

/// No clause of std says when a reader fails. So no clause says when `read_all` reports that its device failed.
#[test]
fn a_reader_is_read_to_its_end_or_refused(rt: HostRuntime) {
    for line in FIVE_BYTES {
        let (reads, limit, whole, fault) = *line;
        let found = read_reel(rt.alloc(), b"hello", 3, reads, limit);
        assert_same(&rt, found, (whole, fault));
    }
}

/// Whether this many bytes are read whole, and the fault if they are not. The source fails after `reads` reads; at most
/// `limit` bytes are read.
fn read_many(
    alloc: Global,
    number: usize,
    reads: u32,
    limit: usize,
) -> Result<(bool, Option<ReadFault>), AllocError> {
    let bytes = vec![in alloc; b'x'; number]?;
    Ok(read_whole(alloc, bytes.as_slice(), usize::MAX, reads, limit))
}

#[test]
fn an_input_of_a_mebibyte_and_a_byte_is_too_long(rt: HostRuntime) {
    let most = read_many(rt.alloc(), 1_048_576, u32::MAX, 1_048_576);
    let more = read_many(rt.alloc(), 1_048_577, u32::MAX, 1_048_576);
    let refused = Some(ReadFault::TooLong);
    assert_same(&rt, (most, more), (Ok((true, None)), Ok((false, refused))));
}

#[test]
fn memory_of_read_limited(rt: HostRuntime) -> Result<(), Fail> {
    let found = read_many(rt.alloc(), 10_000, 9, 10_000);
    if found == Err(AllocError) || found == Ok((false, Some(ReadFault::Memory))) {
        return Err(Fail::from("refused"));
    }
    assert_same(&rt, found, Ok((true, None)));
    Ok(())
}
