// The sessions of one input, and what makes them.

ghost use Rattle.std.specs.Prelude.{◌≡◌};
ghost use Rattle.ceal_lex.specs.Parts.{IsSplit};
ghost use Rattle.ceal_cli.specs.Members.{Opens};

use crate::accepted_program::program;
use crate::input::Input;
use ceal_base::no_memory::NoMemory;
use ceal_base::text::Text;
use ceal_compile::compile::one_answer;
use ceal_compile::laws::one_code;
use ceal_compile::program::Program;
use ceal_many::{Answerer, Maker};
use ceal_session::laws::{kept_line, some_reply};
use ceal_session::session::Session;
use ceal_types::seed::Seed;
use std::alloc::Global;
use std::marker::Model;

/// What sessions begin with: the program, and how many steps a run may take. Only contracts speak of it.
#[derive(Drop)]
pub struct Start {
    pub program: Program,
    pub fuel: u32,
}

/// A session among others.
#[derive(Drop)]
pub struct Member {
    pub session: Session,
}

impl Answerer for Member {
    ghost use Rattle.ceal_cli.specs.Members.{first_situation};
    ghost use Rattle.ceal_session.specs.AfterLine.{IsAfterNoMemory};
    ghost use Rattle.ceal_session.specs.SessionState.{situation};
    ghost use Rattle.ceal_session.specs.Replies.{Replies};
    ghost use Rattle.ceal_session.specs.Consistency.{IsIn, IsConsistent};
    ghost use Rattle.ceal_session.specs.State.{Situation};

    type Beginning = Start;

    ghost State = { Situation };

    ghost opening = { first_situation };

    ghost stands = { λ member m. IsIn (situation member.session) m };

    ghost needs = { IsConsistent };

    ghost answers = { Replies };

    ghost leaves = { IsAfterNoMemory };

    fn command(&mut self, line: &[u8]) -> Result<Text, NoMemory> {
        // for the proof: a session keeps to its situation, in which each line has a reply
        kept_line();
        some_reply();
        self.session.command(line)
    }
}

/// What makes the sessions of an input, which is compiled again for each. The hashes of names begin in all of them with
/// one seed, made of the whole input. Contracts see the program and the fuel.
#[derive(Drop)]
pub struct Members<'a> {
    alloc: Global,
    input: Input<'a>,
    seed: Seed,
    program: Program,
    fuel: u32,
}

impl<'a> Model for Members<'a> {
    ghost use Rattle.ceal_base.specs.contracts.typed.TypedStmt as statement;
    ghost use Rattle.ceal_code.specs.contracts.expr.CodeExpr as expr;
    ghost use Rattle.ceal_code.specs.contracts.function.InitStmt as initialising;
    ghost use Rattle.ceal_cli.specs.Members.{Opens};
    ghost use Rattle.ceal_lex.specs.Parts.{IsSplit};
    ghost use Rattle.ceal_cli.specs.declared.members.Start.{Start};
    ghost use Rattle.std.specs.Coded.{codes};

    ghost Value = { Start };

    ghost coded = { Prim.hlevel (
      codes,
      statement.the_row.coded,
      expr.the_row.coded,
      initialising.the_row.coded,
    ) };

    ghost view = { λ o. record { program = o.program; fuel = o.fuel } };

    ghost invariant = { λ o. Opens o.input.bytes.now o.program o.fuel
        × IsSplit o.input.bytes.now o.input.part };
}

impl<'a> Members<'a> {
    /// What makes the sessions of this input, whose program this is.
    pub fn new(alloc: Global, input: Input<'a>, program: Program, fuel: u32) -> Members<'a>
        requires split { IsSplit input.bytes.now input.part }
        requires opens { Opens input.bytes.now program fuel }
        ensures { result ≡ record { program = program; fuel = fuel } }
    {
        Members {
            alloc,
            input,
            seed: Seed::of_text(input.bytes),
            program,
            fuel,
        }
    }
}

impl<'a> Maker for Members<'a> {
    type Made = Member;

    ghost beginning = { λ m. m };

    fn make(&self) -> Result<Member, NoMemory> {
        // for the proof: an input has one program, and that has one code, with which a session begins in a situation
        one_answer();
        one_code();
        some_reply();
        let program = program(self.alloc, self.input)?;
        let session = Session::seeded(self.alloc, program, self.fuel, self.seed)?;
        Ok(Member { session })
    }
}
