// Streams in memory that fail at the calls that are listed, streams of one byte a call, and those of std.

use crate::asserts::{equal, same_items};
use ceal_io::{
    DripSink, DripSource, Failed, MemSink, MemSource, ReadError, Sink, SoundSink, Source, StdSink,
    StdSource, Stopped, read_all, write_all,
};
use std::alloc::Global;
use std::io;
use std::io::{ErrorKind, Read, Write};
use std::process::Abort;

/// The bytes `abcde`, of which the second read fails.
fn fails_second<R: Abort>(rt: &R, alloc: Global) -> MemSource {
    let bytes = b"abcde".to_vec(alloc).expect(rt, "memory");
    let fails = vec![in alloc; 2].expect(rt, "memory");
    MemSource::new(bytes, fails)
}

fn reads_by_two<R: Abort>(rt: &R, source: &mut MemSource) {
    let mut piece = [0u8; 2];
    equal(rt, source.read(&mut piece), Ok(2));
    equal(rt, piece, *b"ab");
    equal(rt, source.read(&mut piece), Err(Failed));
    equal(rt, source.read(&mut piece), Ok(2));
    equal(rt, piece, *b"cd");
}

#[test]
fn a_listed_read_fails_and_loses_nothing(rt: HostRuntime) {
    let mut source = fails_second(&rt, rt.alloc());
    reads_by_two(&rt, &mut source);
    drop(source);
}

#[test]
fn a_read_that_fails_ends_all_reading(rt: HostRuntime) {
    let mut source = fails_second(&rt, rt.alloc());
    let answer = read_all(rt.alloc(), &mut source, 9);
    drop(source);
    equal(&rt, answer.err(), Some(ReadError::ReadFault));
}

fn writes_but_the_second<R: Abort>(rt: &R, sink: &mut MemSink) {
    equal(rt, write_all(sink, b"ab"), Ok(()));
    equal(rt, write_all(sink, b"cd"), Err(Stopped::Failed));
    equal(rt, write_all(sink, b"ef"), Ok(()));
    same_items(rt, sink.bytes(), b"abef");
}

#[test]
fn a_listed_write_fails_and_writes_nothing(rt: HostRuntime) {
    let alloc = rt.alloc();
    let fails = vec![in alloc; 2].expect(&rt, "memory");
    let mut sink = MemSink::new(alloc, fails);
    writes_but_the_second(&rt, &mut sink);
    drop(sink);
}

/// Reading all answers this error, and where there is none, the whole input.
fn answers<R: Abort>(
    rt: &R,
    answer: Result<Vec<u8>, ReadError>,
    input: &[u8],
    want: Option<ReadError>,
) {
    match answer {
        Ok(bytes) => {
            same_items(rt, bytes.as_slice(), input);
            drop(bytes);
            equal(rt, want, None);
        }
        Err(error) => equal(rt, Some(error), want),
    }
}

/// What a source of this input answers, which has it whole or byte by byte.
fn reads<R: Abort>(rt: &R, alloc: Global, input: &[u8], limit: u16, want: Option<ReadError>) {
    let mut sound = MemSource::sound(input.to_vec(alloc).expect(rt, "memory"));
    let answer = read_all(alloc, &mut sound, usize::from(limit));
    drop(sound);
    answers(rt, answer, input, want);
    let mut drip = DripSource::new(input.to_vec(alloc).expect(rt, "memory"));
    let answer = read_all(alloc, &mut drip, usize::from(limit));
    drop(drip);
    answers(rt, answer, input, want);
}

#[test]
fn reads_up_to_the_limit(rt: HostRuntime) {
    let alloc = rt.alloc();
    reads(&rt, alloc, b"", 0, None);
    reads(&rt, alloc, b"abcd", 4, None);
    reads(
        &rt,
        alloc,
        b"abcd",
        3,
        Some(ReadError::TooLong { taken: 4 }),
    );
    reads(
        &rt,
        alloc,
        b"abcd",
        2,
        Some(ReadError::TooLong { taken: 3 }),
    );
}

fn writes_whole<R: Abort>(rt: &R, sink: &mut SoundSink) {
    equal(rt, write_all(sink, b"abc"), Ok(()));
    same_items(rt, sink.bytes(), b"abc");
}

fn writes_byte_by_byte<R: Abort>(rt: &R, sink: &mut DripSink) {
    equal(rt, sink.write(b"abc"), Ok(1));
    equal(rt, write_all(sink, b"bc"), Ok(()));
    same_items(rt, sink.bytes(), b"abc");
}

#[test]
fn writes_all_by_pieces(rt: HostRuntime) {
    let mut sound = MemSink::sound(rt.alloc());
    writes_whole(&rt, &mut sound);
    drop(sound);
    let mut drip = DripSink::new(rt.alloc());
    writes_byte_by_byte(&rt, &mut drip);
    drop(drip);
}

// A device that fails at each call.
#[derive(Drop)]
struct Broken;

impl Read for Broken {
    fn read(&mut self, _into: &mut [u8]) -> io::Result<usize> {
        Err(io::Error::from(ErrorKind::Interrupted))
    }
}

impl Write for Broken {
    fn write(&mut self, _bytes: &[u8]) -> io::Result<usize> {
        Err(io::Error::from(ErrorKind::Interrupted))
    }

    fn flush(&mut self) -> io::Result<()> {
        Ok(())
    }
}

fn reads_a_slice<R: Abort>(rt: &R, alloc: Global) {
    let mut source = StdSource::new(&b"abc"[..]);
    let bytes = read_all(alloc, &mut source, 3).expect(rt, "bytes");
    drop(source);
    same_items(rt, bytes.as_slice(), b"abc");
    drop(bytes);
}

fn reads_a_broken_device<R: Abort>(rt: &R, alloc: Global) {
    let mut source = StdSource::new(Broken);
    let answer = read_all(alloc, &mut source, 3);
    drop(source);
    equal(rt, answer.err(), Some(ReadError::ReadFault));
}

fn writes_to_a_vector<R: Abort>(rt: &R, alloc: Global) {
    let mut written = Vec::new(alloc);
    equal(
        rt,
        write_all(&mut StdSink::new(&mut written), b"abc"),
        Ok(()),
    );
    same_items(rt, written.as_slice(), b"abc");
    drop(written);
}

fn writes_to_a_broken_device<R: Abort>(rt: &R) {
    let mut sink = StdSink::new(Broken);
    equal(rt, write_all(&mut sink, b"abc"), Err(Stopped::Failed));
    drop(sink);
}

// A full slice takes nothing.
fn writes_to_a_slice<R: Abort>(rt: &R) {
    let mut room = [0u8; 2];
    let answer = write_all(&mut StdSink::new(&mut room[..]), b"abc");
    equal(rt, answer, Err(Stopped::Failed));
    equal(rt, room, *b"ab");
}

#[test]
fn streams_of_std(rt: HostRuntime) {
    reads_a_slice(&rt, rt.alloc());
    reads_a_broken_device(&rt, rt.alloc());
    writes_to_a_vector(&rt, rt.alloc());
    writes_to_a_broken_device(&rt);
    writes_to_a_slice(&rt);
}
