// How names are hashed.

use crate::table::FEW;
use ceal_base::syntax::{Entry, FieldDecl, FunctionDecl, Stmt};
use ceal_base::text::Text;
use sha2::{Digest, Sha512};
use std::hash::{BuildHasher, DefaultHasher, Hasher};

/// What each hash of a table begins with. Made of all that is hashed there, it keeps names of one hash from being
/// prepared: whoever changes one of them changes the hashes of all. Any seed is right: no clause depends on it.
#[derive(Clone, Copy)]
pub struct Seed {
    start: DefaultHasher,
}

impl BuildHasher for Seed {
    type Hasher = DefaultHasher;

    ghost build_hasher = { λ s. s.start };

    fn build_hasher(&self) -> DefaultHasher {
        self.start
    }
}

/// Names of which a seed is made.
#[derive(Clone, Copy)]
pub struct Fed {
    all: DefaultHasher,
}

impl Fed {
    /// Nothing was fed yet.
    pub fn new() -> Fed {
        Fed {
            all: DefaultHasher::new(),
        }
    }

    /// One name more. No name has a byte 0.
    pub fn add(&mut self, name: &Text) {
        self.all.write(name.items());
        self.all.write_u8(0);
    }

    fn add_fields(&mut self, fields: &[FieldDecl]) {
        for field in fields {
            self.add(&field.name.text);
        }
    }

    // The names that statements declare. It recurses as deep as blocks are nested.
    fn add_declared(&mut self, stmts: &[Stmt]) {
        for s in stmts {
            match s {
                Stmt::Declare(_, _, name, _) => self.add(&name.text),
                Stmt::If(_, _, first, second) => {
                    self.add_declared(first.items());
                    self.add_declared(second.items());
                }
                Stmt::While(_, _, body) => self.add_declared(body.items()),
                _ => {}
            }
        }
    }

    /// A whole word, so that each hash continues after a word.
    pub fn seed(&self) -> Seed {
        let mut more = self.all;
        more.write_u8(1);
        let mut start = DefaultHasher::new();
        start.write_u64(self.all.finish());
        start.write_u64(more.finish());
        Seed { start }
    }
}

// How many names statements declare. It recurses as deep as blocks are nested.
fn declared(stmts: &[Stmt]) -> usize {
    let mut count: usize = 0;
    for s in stmts {
        let more = match s {
            Stmt::Declare(..) => 1,
            Stmt::If(_, _, first, second) => {
                declared(first.items()).saturating_add(declared(second.items()))
            }
            Stmt::While(_, _, body) => declared(body.items()),
            _ => 0,
        };
        count = count.saturating_add(more);
    }
    count
}

impl Seed {
    /// For a table that hashes nothing.
    fn unused() -> Seed {
        Seed {
            start: DefaultHasher::new(),
        }
    }

    /// A number that another table may begin with.
    pub fn number(&self, at: u64) -> u64 {
        let mut more = self.start;
        more.write_u64(at);
        more.finish()
    }

    /// A whole text, for all that will be read in it. It begins with the text's SHA-512 digest, which nobody can work
    /// backwards: nobody finds a text for a seed that he would like.
    pub fn of_text(text: &[u8]) -> Seed {
        let digest = Sha512::digest(text);
        let mut start = DefaultHasher::new();
        start.write(&digest);
        Seed { start }
    }

    /// The names of structs and functions.
    pub fn of_entries(entries: &[Entry]) -> Seed {
        let mut fed = Fed::new();
        for entry in entries {
            match entry {
                Entry::Struct(structure) => fed.add(&structure.name.text),
                Entry::Function(function) => fed.add(&function.name.text),
            }
        }
        fed.seed()
    }

    /// The names of a struct's fields.
    pub fn of_fields(fields: &[FieldDecl]) -> Seed {
        let mut fed = Fed::new();
        fed.add_fields(fields);
        fed.seed()
    }

    /// The names of a function's parameters and variables. A table of few names hashes none.
    pub fn of_function(function: &FunctionDecl) -> Seed {
        let names = function
            .params
            .items()
            .len()
            .saturating_add(declared(function.body.items()));
        if names <= FEW {
            return Seed::unused();
        }
        let mut fed = Fed::new();
        fed.add_fields(function.params.items());
        fed.add_declared(function.body.items());
        fed.seed()
    }
}
