// How many blocks a program may have.

ghost use Rattle.std.specs.Prelude.{◌≡◌, ◌≤◌, ◌+◌, ◌-◌, Some, slice_get, OnOk, IfOk, IfErr};
ghost use Rattle.ceal_flow.specs.Blocks.{size, sizes};
ghost use Rattle.ceal_flow.specs.Lowering.{function_size, function_sizes, places, all_places, places_of};
ghost use Rattle.ceal_flow.specs.Lowering.{function_places};

use ceal_base::fault::Span;
use ceal_base::typed::{TypedFunction, TypedStmt};

/// How many blocks a program has at most.
pub const BLOCK_LIMIT: u32 = 65_535;

/// One block more, which has this place.
fn count_block(count: u32, at: Span) -> Result<u32, Span>
    requires { count ≤ BLOCK_LIMIT }
    ensures more { IfOk result (λ n. n ≡ count + 1) }
    ensures within { IfOk result (λ n. n ≤ BLOCK_LIMIT) }
    ensures past { IfErr result (λ place. place ≡ at) }
    ensures full { IfErr result (λ place. count ≡ BLOCK_LIMIT) }
{
    if count < BLOCK_LIMIT {
        Ok(count + 1)
    } else {
        Err(at)
    }
}

/// The number of blocks with those of a statement, or the place of the first past the limit.
#[cycle(count)]
#[tactic(auto, using(crate::proofs::PlaceSteps::place_steps))]
fn count_stmt(count: u32, s: &TypedStmt) -> Result<u32, Span>
    requires { count ≤ BLOCK_LIMIT }
    ensures more { IfOk result (λ n. n ≡ count + size s.now) }
    ensures within { IfOk result (λ n. n ≤ BLOCK_LIMIT) }
    ensures past { IfErr result (λ at. slice_get (places s.now) (BLOCK_LIMIT - count) ≡ Some at) }
{
    match s {
        TypedStmt::Declare(at, ..) => count_block(count, *at),
        TypedStmt::Assign(at, ..) => count_block(count, *at),
        TypedStmt::SetField(at, ..) => count_block(count, *at),
        TypedStmt::Write(at, ..) => count_block(count, *at),
        TypedStmt::Call(at, ..) => count_block(count, *at),
        TypedStmt::If(at, _, first, second) => {
            let count = count_block(count, *at)?;
            let count = count_stmts(count, first.items())?;
            count_stmts(count, second.items())
        }
        TypedStmt::While(at, _, body) => {
            let count = count_block(count, *at)?;
            count_stmts(count, body.items())
        }
        TypedStmt::Return(_) => Ok(count),
        TypedStmt::Break(_) => Ok(count),
        TypedStmt::Continue(_) => Ok(count),
    }
}

#[cycle(count)]
#[tactic(auto, using(crate::proofs::PlaceSteps::place_steps))]
fn count_stmts(count: u32, stmts: &[TypedStmt]) -> Result<u32, Span>
    requires { count ≤ BLOCK_LIMIT }
    ensures more { IfOk result (λ n. n ≡ count + sizes stmts.now) }
    ensures within { IfOk result (λ n. n ≤ BLOCK_LIMIT) }
    ensures past { IfErr result
        (λ at. slice_get (all_places stmts.now) (BLOCK_LIMIT - count) ≡ Some at) }
{
    let mut total = count;
    for s in stmts {
        total = count_stmt(total, s)?;
    }
    Ok(total)
}

fn count_function(count: u32, function: &TypedFunction) -> Result<u32, Span>
    requires { count ≤ BLOCK_LIMIT }
    ensures more { IfOk result (λ n. n ≡ count + function_size function.now) }
    ensures within { IfOk result (λ n. n ≤ BLOCK_LIMIT) }
    ensures past { IfErr result
        (λ at. slice_get (places_of function.now) (BLOCK_LIMIT - count) ≡ Some at) }
{
    match function.initialiser {
        Some(_) => Ok(count),
        None => {
            let count = count_stmts(count, function.body.items())?;
            let count = count_block(count, function.close)?;
            Ok(count)
        }
    }
}

/// How many blocks the functions have, or the place of the first past the limit.
pub fn count_functions(functions: &[TypedFunction]) -> Result<u32, Span>
    ensures all { IfOk result (λ n. n ≡ function_sizes functions.now) }
    ensures within { IfOk result (λ n. n ≤ BLOCK_LIMIT) }
    ensures past { IfErr result
        (λ at. slice_get (function_places functions.now) BLOCK_LIMIT ≡ Some at) }
{
    let mut total = 0;
    for function in functions {
        total = count_function(total, function)?;
    }
    Ok(total)
}
