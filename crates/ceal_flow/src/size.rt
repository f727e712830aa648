// How many blocks statements have, and where a jump to them leads.

ghost use Rattle.std.specs.Prelude.{◌≡◌, ◌≤◌};
ghost use Rattle.ceal_flow.specs.Blocks.{size, sizes, target, entry};

use crate::exits::Exits;
use crate::limit::BLOCK_LIMIT;
use ceal_base::typed::TypedStmt;

/// How many blocks a statement has. It recurses as deep as statements are nested.
#[cycle(size)]
#[tactic(auto, using(crate::proofs::BlockSteps::size_steps))]
pub fn size_of(s: &TypedStmt) -> u32
    requires { size s.now ≤ BLOCK_LIMIT }
    ensures value { result ≡ size s.now }
{
    match s {
        TypedStmt::Declare(..) => 1,
        TypedStmt::Assign(..) => 1,
        TypedStmt::SetField(..) => 1,
        TypedStmt::Write(..) => 1,
        TypedStmt::Call(..) => 1,
        TypedStmt::If(_, _, first, second) => 1
            + sizes_of(first.items())
            + sizes_of(second.items()),
        TypedStmt::While(_, _, body) => 1 + sizes_of(body.items()),
        TypedStmt::Return(_) => 0,
        TypedStmt::Break(_) => 0,
        TypedStmt::Continue(_) => 0,
    }
}

/// How many they have together.
#[cycle(size)]
#[tactic(auto, using(crate::proofs::BlockSteps::size_steps))]
pub fn sizes_of(stmts: &[TypedStmt]) -> u32
    requires { sizes stmts.now ≤ BLOCK_LIMIT }
    ensures value { result ≡ sizes stmts.now }
{
    let mut total = 0;
    for s in stmts {
        total += size_of(s);
    }
    total
}

fn target_of(s: &TypedStmt, n: u32, exits: Exits) -> u32
    ensures { result ≡ target s.now n exits }
{
    match s {
        TypedStmt::Return(_) => exits.done,
        TypedStmt::Break(_) => exits.behind,
        TypedStmt::Continue(_) => exits.test,
        _ => n,
    }
}

/// Where a jump to statements leads: to block `n`, which is the first statement's, or out by that statement where it is
/// a jump, or to `after` where there is none.
pub fn entry_of(stmts: &[TypedStmt], n: u32, after: u32, exits: Exits) -> u32
    ensures value { result ≡ entry stmts.now n after exits }
{
    match stmts.first() {
        Some(s) => target_of(s, n, exits),
        None => after,
    }
}
