// The phases, one after the other.

ghost use Rattle.std.specs.Prelude.{◌≡◌, ◌<◌, ◌^◌, Result as ResultOf, Ok as OkOf, Err as ErrOf, List, ℕ, true, length};
ghost use Rattle.std.specs.Prelude.{IfOk, IfErr};
ghost use Rattle.ceal_base.specs.Answers.{Gives, IfFault};
ghost use Rattle.ceal_base.specs.WellTyped.{WellTyped};
ghost use Rattle.ceal_base.specs.declared.fault.Fault.{Fault as FaultRecord};
ghost use Rattle.ceal_base.specs.declared.typed.Typed.{Typed as TypedRecord};
ghost use Rattle.ceal_code.specs.Valid.{valid};
ghost use Rattle.ceal_lex.specs.Parts.{IsSplit};
ghost use Rattle.ceal_compile.specs.Compiled.{IsCodeOf, IsCompiled, Means, typed_of};
ghost use Rattle.ceal_compile.specs.Phases.{ruled, IsChecked};
ghost use Rattle.ceal_compile.specs.Source.{Comes, IsFirstFault, IsProgram, PartComes};

use crate::program::Program;
use ceal_base::fault::{Fault, FrontError};
use ceal_base::no_memory::NoMemory;
use ceal_base::typed::Typed;
use ceal_code::code::Code;
use ceal_flow::lower::{check_limit, graph};
use ceal_fold::fold::fold;
use ceal_lex::lex::lex;
use ceal_lex::parts::Split;
use ceal_lex::split::{one_split, split};
use ceal_live::live::live;
use ceal_norm::normalise::normalise;
use ceal_parse::parse::parse_owned;
use ceal_types::check::check;
use ceal_usage::check::check_usage;
use std::alloc::Global;

/// The rules of usage, and then the limit on blocks.
fn check_rules(program: &Typed) -> Result<(), Fault>
    requires { WellTyped program.now }
    ensures kept { IfOk result (λ _. ruled program.now ≡ OkOf program.now) }
    ensures checked { IfOk result (λ _. IsChecked program.now) }
    ensures broken { IfErr result (λ fault. ruled program.now ≡ ErrOf fault) }
{
    check_usage(program)?;
    check_limit(program)
}

/// What a part of an input comes to: its tokens, their tree, its names and types, and the rules that it keeps.
fn read_part(alloc: Global, input: &[u8], part: &Split) -> Result<Typed, FrontError>
    requires { IsSplit input.now part.now }
    ensures found { IfOk result (λ program. PartComes input.now part.now (OkOf program)) }
    ensures checked { IfOk result IsChecked }
    ensures fault { IfFault result (λ fault. PartComes input.now part.now (ErrOf fault)) }
    ensures only { (r : ResultOf TypedRecord FaultRecord) → PartComes input.now part.now r
        → Gives result r }
{
    let tokens = lex(alloc, input, part)?;
    let tree = parse_owned(alloc, tokens)?;
    let program = check(alloc, tree)?;
    match check_rules(&program) {
        Ok(()) => Ok(program),
        Err(fault) => {
            drop(program);
            Err(FrontError::Fault(fault))
        }
    }
}

/// The program of the source part of an input whose parts these are, as `check_source` tells it.
pub fn check_part(alloc: Global, input: &[u8], part: &Split) -> Result<Typed, FrontError>
    requires { IsSplit input.now part.now }
    ensures found { IfOk result (λ program. IsProgram input.now program) }
    ensures checked { IfOk result IsChecked }
    ensures fault { IfFault result (λ fault. IsFirstFault input.now fault) }
    ensures only { (r : ResultOf TypedRecord FaultRecord) → Comes input.now r → Gives result r }
{
    // for the proof: an input has one split
    one_split();
    read_part(alloc, input, part)
}

/// The program of the source part of an input, without its code, or its first fault: of characters, else of the
/// grammar, else of names and types, else of usage, else of the limit on blocks. The script after the source part
/// is not looked at. Whether an input is accepted is so told without any code generation.
pub fn check_source(alloc: Global, input: &[u8]) -> Result<Typed, FrontError>
    requires { length input.now < 2 ^ 32 }
    ensures found { IfOk result (λ program. IsProgram input.now program) }
    ensures checked { IfOk result IsChecked }
    ensures fault { IfFault result (λ fault. IsFirstFault input.now fault) }
    ensures only { (r : ResultOf TypedRecord FaultRecord) → Comes input.now r → Gives result r }
{
    check_part(alloc, input, &split(input))
}

/// The code of a program: its graph, the units of that with their live variables, and those folded.
fn code_of(alloc: Global, program: &Typed) -> Result<Code, NoMemory>
    requires { IsChecked program.now }
    ensures code { IfOk result (IsCodeOf program.now) }
    ensures valid { IfOk result (λ code. valid code ≡ true) }
    ensures means { IfOk result (λ code. Means code program.now) }
{
    let lowered = graph(alloc, program)?;
    let live = live(alloc, &lowered)?;
    let units = normalise(alloc, &lowered, &live)?;
    drop(live);
    drop(lowered);
    let code = fold(alloc, units)?;
    Ok(code)
}

/// The program of the source part of an input whose parts these are, with its trace code, or its first fault.
pub fn compile_part(alloc: Global, input: &[u8], part: &Split) -> Result<Program, FrontError>
    requires { IsSplit input.now part.now }
    ensures found { IfOk result (λ program. IsProgram input.now program.typed) }
    ensures compiled { IfOk result IsCompiled }
    ensures fault { IfFault result (λ fault. IsFirstFault input.now fault) }
    ensures only { (r : ResultOf TypedRecord FaultRecord) → Comes input.now r
        → Gives (typed_of result) r }
{
    match check_part(alloc, input, part) {
        Ok(typed) => match code_of(alloc, &typed) {
            Ok(code) => Ok(Program { typed, code }),
            Err(NoMemory) => {
                drop(typed);
                Err(FrontError::Memory)
            }
        },
        Err(error) => Err(error),
    }
}

/// The program of the source part of an input with its trace code, or its first fault, as `check_source` tells it.
pub fn compile(alloc: Global, input: &[u8]) -> Result<Program, FrontError>
    requires { length input.now < 2 ^ 32 }
    ensures found { IfOk result (λ program. IsProgram input.now program.typed) }
    ensures compiled { IfOk result IsCompiled }
    ensures fault { IfFault result (λ fault. IsFirstFault input.now fault) }
    ensures only { (r : ResultOf TypedRecord FaultRecord) → Comes input.now r
        → Gives (typed_of result) r }
{
    compile_part(alloc, input, &split(input))
}

/// A law: an input has at most one program or one first fault.
pub fn one_answer()
    ensures law { (input : List ℕ) (a b : ResultOf TypedRecord FaultRecord) → Comes input a
        → Comes input b → a ≡ b }
{
    // for the proof: an input has one split, one reading, and one tree or one fault
    one_split();
    ceal_lex::lex::one_reading();
    ceal_grammar::laws::one_tree();
    ceal_grammar::laws::one_fault();
    ceal_grammar::laws::not_both();
}
