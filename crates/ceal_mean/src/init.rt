// What an initialiser makes.

ghost use Rattle.std.specs.Prelude.{◌≡◌, List, Option, map, slice_get, slice_set, unwrap_or, IfOk};
ghost use Rattle.std.specs.Option.{option_map};
ghost use Rattle.ceal_base.specs.Shapes.{default_of_field, kind_of_field, field_kinds, default_block};
ghost use Rattle.ceal_mean.specs.Init.{set_by, set_by_all, made_by, init_block};

use crate::eval::eval;
use ceal_base::access::is_true;
use ceal_base::kind::{FieldKind, Kind, Shape};
use ceal_base::memory::{BlockWords, Memory};
use ceal_base::no_memory::NoMemory;
use ceal_base::typed::{FieldInfo, StructInfo, Typed, TypedFunction, TypedStmt};
use ceal_base::word::Word;
use std::alloc::Global;

fn default_word(kind: FieldKind) -> Word
    ensures { result ≡ default_of_field kind }
{
    match kind {
        FieldKind::Plain(Kind::Int) => Word::Num(0),
        FieldKind::CellInt => Word::Num(0),
        _ => Word::Null,
    }
}

fn default_words(alloc: Global, fields: &[FieldInfo]) -> Result<Vec<Word>, NoMemory>
    ensures { IfOk result
        (λ words. words.items ≡ map default_of_field (map kind_of_field fields.now)) }
{
    let mut words = Vec::new(alloc);
    for f in fields {
        words.push(default_word(f.kind))?;
    }
    Ok(words)
}

fn words_of_struct(
    alloc: Global,
    structs: &[StructInfo],
    number: u32,
) -> Result<Vec<Word>, NoMemory>
    ensures { IfOk result
        (λ words. words.items ≡ map default_of_field (field_kinds (slice_get structs.now number))) }
{
    match structs.get(number as usize) {
        Some(found) => {
            let words = default_words(alloc, found.fields.items())?;
            Ok(words)
        }
        None => Ok(Vec::new(alloc)),
    }
}

fn set_word(words: &mut Vec<Word>, at: u32, word: Word)
    ensures { words.new.items ≡ slice_set words.old.items at word }
{
    let at = at as usize;
    if at < words.len() {
        words[at] = word;
    }
}

/// Sets the words that the statements set, in their order. It recurses as deep as their `if`s are nested.
#[cycle(set)]
#[tactic(auto, using(crate::proofs::InitSteps::init_steps))]
fn set_fields(env: &[Word], memory: &Memory, words: &mut Vec<Word>, stmts: &[TypedStmt])
    ensures { words.new.items ≡ set_by_all env.now memory.now words.old.items stmts.now }
{
    for s in stmts {
        set_field(env, memory, words, s);
    }
}

#[cycle(set)]
#[tactic(auto, using(crate::proofs::InitSteps::init_steps))]
fn set_field(env: &[Word], memory: &Memory, words: &mut Vec<Word>, s: &TypedStmt)
    ensures { words.new.items ≡ set_by env.now memory.now words.old.items s.now }
{
    match s {
        TypedStmt::SetField(_, _, _, field, e) => {
            set_word(words, *field, eval(env, memory, e));
        }
        TypedStmt::If(_, test, first, second) => {
            if is_true(eval(env, memory, test)) {
                set_fields(env, memory, words, first.items());
            } else {
                set_fields(env, memory, words, second.items());
            }
        }
        TypedStmt::Declare(..) => {}
        TypedStmt::Assign(..) => {}
        TypedStmt::Write(..) => {}
        TypedStmt::Call(..) => {}
        TypedStmt::While(..) => {}
        TypedStmt::Return(..) => {}
        TypedStmt::Break(..) => {}
        TypedStmt::Continue(..) => {}
    }
}

fn made_block(
    alloc: Global,
    structs: &[StructInfo],
    function: &TypedFunction,
    args: &[Word],
    memory: &Memory,
) -> Result<BlockWords, NoMemory>
    ensures { IfOk result
        (λ block. block ≡ made_by structs.now (Option.Some function.now) args.now memory.now) }
{
    let number = function.initialiser.unwrap_or(0);
    let mut words = words_of_struct(alloc, structs, number)?;
    set_fields(args, memory, &mut words, function.body.items());
    Ok(BlockWords::new(Shape::Struct(number), words))
}

fn empty_block(alloc: Global, structs: &[StructInfo]) -> Result<BlockWords, NoMemory>
    ensures { IfOk result (λ block. block ≡ default_block structs.now (Shape.Struct 0)) }
{
    let words = words_of_struct(alloc, structs, 0)?;
    Ok(BlockWords::new(Shape::Struct(0), words))
}

/// The block that the initialiser of this number makes of the arguments: its fields at their defaults, and then its
/// body, in which only the arguments are variables.
pub fn init(
    alloc: Global,
    program: &Typed,
    function: u32,
    args: &[Word],
    memory: &Memory,
) -> Result<BlockWords, NoMemory>
    ensures value { IfOk result
        (λ block. block ≡ init_block program.now function args.now memory.now) }
{
    let structs = program.structs.items();
    match program.functions.items().get(function as usize) {
        Some(found) => {
            let block = made_block(alloc, structs, found, args, memory)?;
            Ok(block)
        }
        None => {
            let block = empty_block(alloc, structs)?;
            Ok(block)
        }
    }
}
