//! Runs the rows of a file through the top call, and says which of them differ.
//!
//! A row is these lines: `row NAME`, `words WORDS`, `status STATUS`, the input, the output, `end`. A line of the input
//! is after `> `, or after `>|` where no line feed follows it; a line of the output after `< ` or `<|`. After `repeat
//! COUNT ` such a line stands for COUNT lines. With `fill COUNT` line feeds bring the input to COUNT bytes. With
//! `drips` the bytes come and go one at a time. With `fails` the row is run again with each call of the source and of
//! the sink failing in turn.
#![tactic(auto)]

use ceal_cli::{Status, ceal_main};
use ceal_io::{DripSink, DripSource, MemSink, MemSource, Sink, Source};
use std::alloc::{AllocError, Global};
use std::{fs, io};

/// A row as far as its lines have come.
#[derive(Drop)]
struct Row {
    name: String,
    words: Vec<String>,
    status: String,
    fill: usize,
    drips: bool,
    fails: bool,
    input: Vec<u8>,
    output: Vec<u8>,
}

// More calls than a row with `fails` makes.
const CALLS: u32 = 1_000;

fn main(rt: HostRuntime) -> io::Result<()> {
    let alloc = rt.alloc();
    let text = fs::read(&rt, "rows.txt")?;
    let mut row = Row::new(alloc);
    let mut passed = 0u64;
    let mut failed = 0u64;
    for line in text.split(|byte| *byte == b'\n') {
        if line != b"end".as_slice() {
            row.add(alloc, line)?;
            continue;
        }
        row.fill()?;
        if row.passes(alloc)? {
            passed = passed.saturating_add(1);
        } else {
            failed = failed.saturating_add(1);
            println!(rt; "{} differs", row.name)?;
        }
        row = Row::new(alloc);
    }
    println!(rt; "{passed} passed, {failed} failed")
}

impl Row {
    fn new(alloc: Global) -> Row {
        Row {
            name: String::new(alloc),
            words: Vec::new(alloc),
            status: String::new(alloc),
            fill: 0,
            drips: false,
            fails: false,
            input: Vec::new(alloc),
            output: Vec::new(alloc),
        }
    }

    // Adds a line of the file.
    fn add(&mut self, alloc: Global, line: &[u8]) -> Result<(), AllocError> {
        if let Some(name) = line.strip_prefix(b"row ".as_slice()) {
            self.name = text(alloc, name)?;
        } else if let Some(words) = line.strip_prefix(b"words ".as_slice()) {
            self.words = split(alloc, words)?;
        } else if let Some(status) = line.strip_prefix(b"status ".as_slice()) {
            self.status = text(alloc, status)?;
        } else if let Some(count) = line.strip_prefix(b"fill ".as_slice()) {
            self.fill = number(count);
        } else if line == b"drips".as_slice() {
            self.drips = true;
        } else if line == b"fails".as_slice() {
            self.fails = true;
        } else if let Some(repeated) = line.strip_prefix(b"repeat ".as_slice()) {
            self.add_repeated(repeated)?;
        } else {
            self.add_text(line)?;
        }
        Ok(())
    }

    // Adds a line after its count as often as that.
    fn add_repeated(&mut self, line: &[u8]) -> Result<(), AllocError> {
        let mut parts = line.splitn(2, |byte| *byte == b' ');
        let count = number(parts.next().unwrap_or(b""));
        let line = parts.next().unwrap_or(b"");
        for _ in 0..count {
            self.add_text(line)?;
        }
        Ok(())
    }

    // Adds a line of the input or of the output.
    fn add_text(&mut self, line: &[u8]) -> Result<(), AllocError> {
        if let Some(bytes) = line.strip_prefix(b"> ".as_slice()) {
            add_line(&mut self.input, bytes)?;
        } else if let Some(bytes) = line.strip_prefix(b">|".as_slice()) {
            self.input.extend_from_slice(bytes)?;
        } else if let Some(bytes) = line.strip_prefix(b"< ".as_slice()) {
            add_line(&mut self.output, bytes)?;
        } else if let Some(bytes) = line.strip_prefix(b"<|".as_slice()) {
            self.output.extend_from_slice(bytes)?;
        }
        Ok(())
    }

    // Fills the input up with line feeds.
    fn fill(&mut self) -> Result<(), AllocError> {
        if self.input.len() < self.fill {
            self.input.resize(self.fill, b'\n')?;
        }
        Ok(())
    }

    // Whether the top call answers the row's status and writes its output.
    fn passes(&self, alloc: Global) -> Result<bool, AllocError> {
        if self.drips {
            let mut sink = DripSink::new(alloc);
            let status = self.answer(alloc, DripSource::new(self.input.clone()?), &mut sink);
            return Ok(self.is(status, sink.bytes()));
        }
        if self.fails && !(self.read_failures_show(alloc)? && self.write_failures_show(alloc)?) {
            return Ok(false);
        }
        let mut sink = MemSink::sound(alloc);
        let status = self.answer(alloc, MemSource::sound(self.input.clone()?), &mut sink);
        Ok(self.is(status, sink.bytes()))
    }

    fn answer<S: Source + Drop, K: Sink>(&self, alloc: Global, source: S, sink: &mut K) -> Status {
        let mut source = source;
        ceal_main(alloc, &self.words, &mut source, sink)
    }

    fn is(&self, status: Status, written: &[u8]) -> bool {
        name(status) == self.status.as_str() && written == self.output.as_slice()
    }

    // Whether each failing read is answered ReadFault with nothing written, up to the last read.
    fn read_failures_show(&self, alloc: Global) -> Result<bool, AllocError> {
        for call in 1..CALLS {
            let source = MemSource::new(self.input.clone()?, vec![in alloc; call]?);
            let mut sink = MemSink::sound(alloc);
            let status = self.answer(alloc, source, &mut sink);
            if !matches!(status, Status::ReadFault) {
                return Ok(call > 1 && self.is(status, sink.bytes()));
            }
            if !sink.bytes().is_empty() {
                return Ok(false);
            }
        }
        Ok(false)
    }

    // Whether each failing write is answered WriteFault with the beginning of the output, up to the last write.
    fn write_failures_show(&self, alloc: Global) -> Result<bool, AllocError> {
        for call in 1..CALLS {
            let source = MemSource::sound(self.input.clone()?);
            let mut sink = MemSink::new(alloc, vec![in alloc; call]?);
            let status = self.answer(alloc, source, &mut sink);
            if !matches!(status, Status::WriteFault) {
                return Ok(call > 1 && self.is(status, sink.bytes()));
            }
            if !self.output.starts_with(sink.bytes()) {
                return Ok(false);
            }
        }
        Ok(false)
    }
}

fn number(digits: &[u8]) -> usize {
    str::from_utf8(digits)
        .ok()
        .and_then(|text| text.parse::<usize>().ok())
        .unwrap_or(0)
}

fn add_line(text: &mut Vec<u8>, line: &[u8]) -> Result<(), AllocError> {
    text.extend_from_slice(line)?;
    text.push(b'\n')?;
    Ok(())
}

fn text(alloc: Global, bytes: &[u8]) -> Result<String, AllocError> {
    String::from_str(alloc, str::from_utf8(bytes).unwrap_or("?"))
}

// The words of a line, cut at spaces.
fn split(alloc: Global, line: &[u8]) -> Result<Vec<String>, AllocError> {
    let mut words = Vec::new(alloc);
    for word in line.split(|byte| *byte == b' ') {
        words.push(text(alloc, word)?)?;
    }
    Ok(words)
}

fn name(status: Status) -> &'static str {
    match status {
        Status::Done => "Done",
        Status::Refused => "Refused",
        Status::Usage => "Usage",
        Status::TooLong => "TooLong",
        Status::Memory => "Memory",
        Status::ReadFault => "ReadFault",
        Status::WriteFault => "WriteFault",
    }
}
