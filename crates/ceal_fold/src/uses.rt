// The variables that a command uses.

ghost use Rattle.std.specs.Prelude.{◌≡◌, ◌||◌, ◌&&◌, ℕ, not, IfOk};
ghost use Rattle.ceal_fold.specs.Folding.{mentions, all_mention, uses, assigns};
ghost use Rattle.ceal_fold.specs.States.{has};

use crate::vars::Vars;
use ceal_base::no_memory::NoMemory;
use ceal_code::command::Cmd;
use ceal_code::expr::{CodeExpr, VarId};

/// Adds the variables that an expression mentions. It recurses as deep as the expression is.
#[tactic(auto, using(crate::proofs::UseSteps::mention_steps))]
fn put_mentions(vars: &mut Vars, e: &CodeExpr) -> Result<(), NoMemory>
    ensures value { IfOk result
        (λ _. (u : ℕ) → has vars.new u ≡ (has vars.old u || mentions e.now u)) }
{
    match e {
        CodeExpr::Num(_) => Ok(()),
        CodeExpr::Null => Ok(()),
        CodeExpr::Var(v) => {
            vars.put(*v)?;
            Ok(())
        }
        CodeExpr::Unary(_, a) => {
            put_mentions(vars, a.get())?;
            Ok(())
        }
        CodeExpr::Binary(_, a, b) => {
            put_mentions(vars, a.get())?;
            put_mentions(vars, b.get())?;
            Ok(())
        }
        CodeExpr::Field(a, _, _) => {
            put_mentions(vars, a.get())?;
            Ok(())
        }
        CodeExpr::Address(a, _, _) => {
            put_mentions(vars, a.get())?;
            Ok(())
        }
    }
}

#[tactic(auto, using(crate::proofs::UseSteps::all_steps))]
fn put_all_mentions(vars: &mut Vars, es: &[CodeExpr]) -> Result<(), NoMemory>
    ensures value { IfOk result
        (λ _. (u : ℕ) → has vars.new u ≡ (has vars.old u || all_mention es.now u)) }
{
    let mut rest = es;
    while let Some((e, more)) = rest.split_first() {
        put_mentions(vars, e)?;
        rest = more;
    }
    Ok(())
}

/// Takes out the variable that a command assigns.
fn clear_assigned(vars: &mut Vars, command: &Cmd)
    ensures value { (u : ℕ) → has vars.new u ≡ (not (assigns command.now u) && has vars.old u) }
{
    match command {
        Cmd::Move { var, .. } => vars.take_out(*var),
        Cmd::Tick => {}
        Cmd::Alloc { var, .. } => vars.take_out(*var),
        Cmd::Modref { var, .. } => vars.take_out(*var),
        Cmd::Write { .. } => {}
        Cmd::If { .. } => {}
        Cmd::Done => {}
        Cmd::Tail { .. } => {}
        Cmd::Read { .. } => {}
        Cmd::Call { .. } => {}
    }
}

/// Adds the variables that a command uses.
#[tactic(auto, using(crate::proofs::UseSteps::or_steps))]
fn put_uses(vars: &mut Vars, command: &Cmd) -> Result<(), NoMemory>
    ensures value { IfOk result
        (λ _. (u : ℕ) → has vars.new u ≡ (has vars.old u || uses command.now u)) }
{
    match command {
        Cmd::Move { value, .. } => {
            put_mentions(vars, value)?;
            Ok(())
        }
        Cmd::Tick => Ok(()),
        Cmd::Alloc { args, .. } => {
            put_all_mentions(vars, args.items())?;
            Ok(())
        }
        Cmd::Modref { .. } => Ok(()),
        Cmd::Write { place, value } => {
            put_mentions(vars, place)?;
            put_mentions(vars, value)?;
            Ok(())
        }
        Cmd::If { test, .. } => {
            put_mentions(vars, test)?;
            Ok(())
        }
        Cmd::Done => Ok(()),
        Cmd::Tail { args, .. } => {
            put_all_mentions(vars, args.items())?;
            Ok(())
        }
        Cmd::Read { place, args, .. } => {
            put_mentions(vars, place)?;
            put_all_mentions(vars, args.items())?;
            Ok(())
        }
        Cmd::Call { args, rest, .. } => {
            put_all_mentions(vars, args.items())?;
            put_all_mentions(vars, rest.items())?;
            Ok(())
        }
    }
}

/// Goes back over a command: from what is used after it to what is used from it on.
pub fn pass_back(vars: &mut Vars, command: &Cmd) -> Result<(), NoMemory>
    ensures value { IfOk result (λ _. (u : ℕ) → has vars.new u
        ≡ (uses command.now u || (not (assigns command.now u) && has vars.old u))) }
{
    clear_assigned(vars, command);
    put_uses(vars, command)?;
    Ok(())
}
