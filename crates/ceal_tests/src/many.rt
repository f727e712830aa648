// Sessions that say again all that they have heard. The replies are worked out by hand.

ghost use Rattle.std.specs.Prelude.{◌≡◌, [], ◌∷◌, ◌++◌};

use crate::asserts::same_items;
use ceal_base::no_memory::NoMemory;
use ceal_base::text::Text;
use ceal_many::{Answerer, Maker, Many};
use std::alloc::Global;
use std::process::Abort;

// Says all lines that it has heard, each with a line feed after it.
#[derive(Drop)]
struct Echo {
    heard: Text,
}

impl Answerer for Echo {
    ghost use Rattle.std.specs.Prelude.{List, ℕ};

    type Beginning = Text;

    ghost State = { List ℕ };

    ghost opening = { λ heard. heard };

    ghost stands = { λ echo heard. echo.heard ≡ heard };

    ghost needs = { λ _. Unit {0} };

    ghost answers = { λ heard line text next. (text ≡ heard ++ line ++ 10 ∷ []) × (next ≡ text) };

    ghost leaves = { λ _ _ _. Unit {0} };

    fn command(&mut self, line: &[u8]) -> Result<Text, NoMemory> {
        self.heard.append(line)?;
        self.heard.push(b'\n')?;
        self.heard.copy()
    }
}

#[derive(Drop)]
struct Echoes {
    alloc: Global,
}

impl Maker for Echoes {
    type Made = Echo;

    ghost beginning = { λ _. [] };

    fn make(&self) -> Result<Echo, NoMemory> {
        Ok(Echo {
            heard: Text::empty(self.alloc),
        })
    }
}

fn reply(many: &mut Many<Echoes>, line: &[u8]) -> Result<Text, NoMemory> {
    many.command(line)
}

/// A line is answered by this.
fn says<R: Abort>(rt: &R, many: &mut Many<Echoes>, line: &[u8], wanted: &[u8]) {
    let text = reply(many, line).expect(rt, "memory");
    same_items(rt, text.items(), wanted);
    drop(text);
}

/// No session yet.
fn no_sessions<R: Abort>(rt: &R, alloc: Global) -> Many<Echoes> {
    Many::new(alloc, Echoes { alloc }).expect(rt, "memory")
}

const UNREADABLE: &[u8] = b"refused C1: unreadable line\n";

const FULL: &[u8] = b"refused C9: too many sessions\n";

fn says_by_names<R: Abort>(rt: &R, many: &mut Many<Echoes>) {
    says(rt, many, b"@x a", b"x: a\n");
    says(rt, many, b"@yy\tb", b"yy: b\n");
    says(rt, many, b"@x", b"x: a\nx: \n");
    says(rt, many, b"@x  c", b"x: a\nx: \nx:  c\n");
    says(rt, many, b"@yy ", b"yy: b\nyy: \n");
}

#[test]
fn each_name_has_its_session(rt: HostRuntime) {
    let mut many = no_sessions(&rt, rt.alloc());
    says_by_names(&rt, &mut many);
    drop(many);
}

fn says_without_a_name<R: Abort>(rt: &R, many: &mut Many<Echoes>) {
    says(rt, many, b" \t", b"");
    says(rt, many, b"  // @x a", b"");
    says(rt, many, b"steps", UNREADABLE);
    says(rt, many, b" @x a", UNREADABLE);
    says(rt, many, b"@ x a", UNREADABLE);
    says(rt, many, b"@null a", UNREADABLE);
}

#[test]
fn lines_without_a_name(rt: HostRuntime) {
    let mut many = no_sessions(&rt, rt.alloc());
    says_without_a_name(&rt, &mut many);
    drop(many);
}

/// Opens the session of the name `n` with a number.
fn open<R: Abort>(rt: &R, alloc: Global, many: &mut Many<Echoes>, number: usize) {
    let mut line = Text::from_slice(alloc, b"@n").expect(rt, "memory");
    line.append_number(number).expect(rt, "memory");
    let text = reply(many, line.items()).expect(rt, "memory");
    drop(text);
    drop(line);
}

fn open_all<R: Abort>(rt: &R, alloc: Global, many: &mut Many<Echoes>) {
    for number in 0..64 {
        open(rt, alloc, many, number);
    }
}

fn says_when_full<R: Abort>(rt: &R, many: &mut Many<Echoes>) {
    says(rt, many, b"@n64 a", FULL);
    says(rt, many, b"@n64", FULL);
    says(rt, many, b"@n63 a", b"n63: \nn63: a\n");
}

#[test]
fn sixty_four_names(rt: HostRuntime) {
    let mut many = no_sessions(&rt, rt.alloc());
    open_all(&rt, rt.alloc(), &mut many);
    says_when_full(&rt, &mut many);
    drop(many);
}
