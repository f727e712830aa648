// What a new block holds.

ghost use Rattle.std.specs.Prelude.{◌≡◌, Option, slice_get, IfOk};
ghost use Rattle.ceal_code.specs.Init.{set_plain, set_by, set_by_all, arguments, initialised, made_by, made, pointer};
ghost use Rattle.ceal_code.specs.Replay.{shape_of};

use crate::code::Code;
use crate::evaluate::Scope;
use crate::function::{FunctionCode, InitStmt};
use crate::plain_words::PlainWords;
use ceal_base::access::is_true;
use ceal_base::forest::Key;
use ceal_base::kind::{FieldKind, Shape};
use ceal_base::memory::BlockWords;
use ceal_base::no_memory::NoMemory;
use ceal_base::shapes::{default_block, field_kind};
use ceal_base::word::{BlockId, Place, Word};
use std::alloc::Global;

/// Sets the word of a field, if it is a plain one.
fn set_plain_field(block: &mut BlockWords, kind: Option<FieldKind>, field: u32, word: Word)
    ensures { block.new ≡ record block.old { words = set_plain kind block.old.words field word } }
{
    match kind {
        Some(FieldKind::Plain(_)) => block.set(field, word),
        Some(FieldKind::CellInt) => {}
        Some(FieldKind::CellPtr(_)) => {}
        None => {}
    }
}

/// Sets the words that the statements set, in their order. It recurses as deep as their `if`s are nested.
#[cycle(set)]
#[tactic(auto, using(crate::proofs::Equations::InitSteps::init_steps))]
fn set_fields<'a, P: PlainWords>(
    scope: &Scope<'a, P>,
    s: u32,
    block: &mut BlockWords,
    stmts: &[InitStmt],
)
    ensures { block.new ≡ record block.old {
      words = set_by_all scope.now.structs.now
          (P.plain scope.now.plain.now) (arguments scope.now.env.now) s block.old.words stmts.now;
    } }
{
    for stmt in stmts {
        set_field(scope, s, block, stmt);
    }
}

#[cycle(set)]
#[tactic(auto, using(crate::proofs::Equations::InitSteps::init_steps))]
fn set_field<'a, P: PlainWords>(
    scope: &Scope<'a, P>,
    s: u32,
    block: &mut BlockWords,
    stmt: &InitStmt,
)
    ensures { block.new ≡ record block.old {
      words = set_by scope.now.structs.now
          (P.plain scope.now.plain.now) (arguments scope.now.env.now) s block.old.words stmt.now;
    } }
{
    match stmt {
        InitStmt::Set { field, value } => {
            let word = scope.value(value);
            let kind = field_kind(scope.structs, Shape::Struct(s), *field);
            set_plain_field(block, kind, *field, word);
        }
        InitStmt::If { test, yes, no } => {
            if is_true(scope.value(test)) {
                set_fields(scope, s, block, yes.items());
            } else {
                set_fields(scope, s, block, no.items());
            }
        }
    }
}

/// The block that an initialiser of the struct makes.
fn initialised_block<'a, P: PlainWords>(
    alloc: Global,
    scope: &Scope<'a, P>,
    s: u32,
    body: &[InitStmt],
) -> Result<BlockWords, NoMemory>
    ensures { IfOk result (λ block. block ≡ initialised scope.now.structs.now
        (P.plain scope.now.plain.now) s scope.now.env.now body.now) }
{
    let mut block = default_block(alloc, scope.structs, Shape::Struct(s))?;
    set_fields(scope, s, &mut block, body);
    Ok(block)
}

fn made_by_function<P: PlainWords>(
    alloc: Global,
    code: &Code,
    plain: &P,
    function: u32,
    args: &[Word],
) -> Result<BlockWords, NoMemory>
    ensures { IfOk result (λ block. block ≡ made_by code.now.structs
        (P.plain plain.now) args.now (slice_get code.now.functions function)) }
{
    let structs = code.structs.items();
    match code.functions().get(function as usize) {
        None => default_block(alloc, structs, Shape::ModInt),
        Some(found) => match found {
            FunctionCode::Init { shape, body, .. } => {
                let scope = Scope {
                    structs,
                    plain,
                    env: args,
                };
                initialised_block(alloc, &scope, *shape, body.items())
            }
            FunctionCode::Core { .. } => default_block(alloc, structs, Shape::ModInt),
        },
    }
}

/// The block that is made for a key: every field at its default, and then what the initialiser sets.
#[tactic(auto, unfolding(crate::specs::Init::made))]
pub fn make_block<P: PlainWords>(
    alloc: Global,
    code: &Code,
    plain: &P,
    key: &Key,
) -> Result<BlockWords, NoMemory>
    ensures block { IfOk result (λ block. block ≡ made code.now (P.plain plain.now) key.now) }
{
    match key {
        Key::Init { function, args } => {
            made_by_function(alloc, code, plain, *function, args.items())
        }
        Key::ModInt => default_block(alloc, code.structs.items(), Shape::ModInt),
        Key::ModPtr(s) => default_block(alloc, code.structs.items(), Shape::ModPtr(*s)),
    }
}

/// The shape of the block that is made for a key.
pub fn made_shape(code: &Code, key: &Key) -> Shape
    ensures value { result ≡ shape_of code.now key.now }
{
    match key {
        Key::Init { function, .. } => match code.functions().get(*function as usize) {
            None => Shape::ModInt,
            Some(found) => match found {
                FunctionCode::Init { shape, .. } => Shape::Struct(*shape),
                FunctionCode::Core { .. } => Shape::ModInt,
            },
        },
        Key::ModInt => Shape::ModInt,
        Key::ModPtr(s) => Shape::ModPtr(*s),
    }
}

/// What the variable of an allocation gets: the block, or its one modifiable.
pub fn pointer_to(key: &Key, block: BlockId) -> Word
    ensures value { result ≡ pointer key.now block }
{
    match key {
        Key::Init { .. } => Word::Block(block),
        Key::ModInt => Word::At(Place { block, field: 0 }),
        Key::ModPtr(_) => Word::At(Place { block, field: 0 }),
    }
}
