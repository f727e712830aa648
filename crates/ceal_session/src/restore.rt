// Whether a save holds, and the state that continues from it.

ghost use Rattle.std.specs.Prelude.{◌≡◌, ◌≤◌, ◌<◌, ◌^◌, ◌↔◌, true, false, length, IsTrue, IfOk, OnOk, IsErrOf};
ghost use Rattle.std.specs.Prelude.{MatchOption, Some};
ghost use Rattle.std.specs.Option.{IsSomeAnd};
ghost use Rattle.ceal_base.specs.Trace.{steps_in};
ghost use Rattle.ceal_code.specs.Valid.{valid};
ghost use Rattle.ceal_compile.specs.Compiled.{IsCompiled};
ghost use Rattle.ceal_engine.specs.Engine.{trace};
ghost use Rattle.ceal_engine.specs.Repaired.{IsRestored};
ghost use Rattle.ceal_engine.specs.declared.phase.Phase.TheVariants.{Finished};
ghost use Rattle.ceal_session.specs.AfterLine.{IsAllowed};
ghost use Rattle.ceal_session.specs.SessionState.{situation};
ghost use Rattle.ceal_session.specs.InputNames.{AreDistinct};
ghost use Rattle.ceal_session.specs.SessionSave.{SaveHolds, IsResumed};
ghost use Rattle.ceal_traceck.specs.Verdicts.{Means};
ghost use Rattle.ceal_traceck.specs.declared.verdict.Verdict.TheVariants.{Yes};

use crate::journal::Journal;
use crate::session::{LARGEST_FUEL, RestoreError};
use crate::state::{State, memo_seed};
use ceal_base::forest::Item;
use ceal_base::no_memory::NoMemory;
use ceal_base::recorded::Record;
use ceal_base::text::Text;
use ceal_code::code::Code;
use ceal_compile::program::Program;
use ceal_engine::engine::Engine;
use ceal_memo::seed::Seed as MemoSeed;
use ceal_snap::are_names;
use ceal_snap::saved::Saved;
use ceal_traceck::check::check_trace;
use ceal_traceck::laws::one_verdict_law;
use ceal_traceck::verdict::Verdict;
use ceal_types::names::Names;
use ceal_types::numbers::Numbered;
use ceal_types::seed::Seed;
use std::alloc::Global;

/// Whether a run of a session may be allowed this number of steps.
fn is_allowed(fuel: u32) -> bool
    ensures { IsTrue result ↔ IsAllowed fuel }
{
    1 <= fuel && fuel <= LARGEST_FUEL
}

/// The names in a table; none where one occurs twice.
fn table_of(alloc: Global, names: &[Text], seed: Seed) -> Result<Option<Names>, NoMemory>
    ensures { IfOk result
        (λ found. MatchOption found (¬ AreDistinct names.now)
        (λ table. (table ≡ names.now) × AreDistinct names.now)) }
{
    let mut table = Names::seeded(alloc, seed);
    let mut names = names;
    while let Some((name, more)) = names.split_first() {
        if table.has(name) {
            return Ok(None);
        }
        table.add_new(name)?;
        names = more;
    }
    Ok(Some(table))
}

/// Whether the items have no more steps than the fuel allows.
fn has_few_steps(items: &[Item], fuel: u32) -> bool
    ensures { IsTrue result ↔ (steps_in items.now ≤ fuel) }
{
    let mut left = fuel;
    let mut items = items;
    while let Some((item, more)) = items.split_first() {
        if let Item::Step = item {
            if left == 0 {
                return false;
            }
            left -= 1;
        }
        items = more;
    }
    true
}

fn is_yes(verdict: Verdict) -> bool
    ensures { IsTrue result ↔ (verdict ≡ Yes) }
{
    verdict == Verdict::Yes
}

/// Whether the checker says yes to a record.
fn is_accepted(alloc: Global, code: &Code, kept: &Record) -> Result<bool, NoMemory>
    requires valid { valid code.now ≡ true }
    ensures { IfOk result (λ told. IsTrue told ↔ Means code.now kept.now Yes) }
{
    // for the proof: a record has one verdict
    one_verdict_law();
    let verdict = check_trace(alloc, code, kept)?;
    Ok(is_yes(verdict))
}

/// Whether there is a name for each input.
fn is_counted(saved: &Saved) -> bool
    ensures { IsTrue result ↔ (length saved.now.names ≡ length saved.now.kept.inputs) }
{
    saved.items().len() == saved.kept.inputs.items().len()
}

/// The names of a save that holds, in a table; none where it does not hold.
fn names_held(
    alloc: Global,
    code: &Code,
    saved: &Saved,
    seed: Seed,
) -> Result<Option<Names>, NoMemory>
    requires valid { valid code.now ≡ true }
    ensures { IfOk result
        (λ found. MatchOption found (¬ SaveHolds code.now saved.now)
        (λ names. (names ≡ saved.now.names) × SaveHolds code.now saved.now)) }
{
    if !is_allowed(saved.fuel) {
        return Ok(None);
    }
    if !are_names(saved.items()) {
        return Ok(None);
    }
    if !is_counted(saved) {
        return Ok(None);
    }
    if !has_few_steps(saved.kept.forest.items(), saved.fuel) {
        return Ok(None);
    }
    if !is_accepted(alloc, code, &saved.kept)? {
        return Ok(None);
    }
    match table_of(alloc, saved.items(), seed)? {
        None => Ok(None),
        Some(names) => Ok(Some(names)),
    }
}

/// The engine that has run the call of a save that holds. No engine has 2^32 inputs.
fn engine_of(alloc: Global, code: Code, saved: &Saved, seed: MemoSeed) -> Result<Engine, NoMemory>
    requires valid { valid code ≡ true }
    requires holds { SaveHolds code saved.now }
    ensures code { IfOk result (λ e. e.code ≡ code) }
    ensures fuel { IfOk result (λ e. e.fuel ≡ saved.now.fuel) }
    ensures inputs { IfOk result (λ e. e.inputs ≡ saved.now.kept.inputs) }
    ensures call { IfOk result (λ e. e.call ≡ Some
        (record { function = saved.now.kept.function; args = saved.now.kept.args })) }
    ensures phase { IfOk result (λ e. e.phase ≡ Finished) }
    ensures work { IfOk result (λ e. e.work ≡ saved.now.work) }
    ensures forest { IfOk result (λ e. IsSomeAnd (trace e) (IsRestored saved.now.kept.forest)) }
{
    let kept = &saved.kept;
    if kept.inputs.items().len() >= 1 << 32 {
        drop(code);
        return Err(NoMemory);
    }
    Engine::restore(
        alloc,
        code,
        saved.fuel,
        &kept.inputs,
        kept.function,
        kept.args.items(),
        &kept.forest,
        saved.work,
        seed,
    )
}

/// The state that continues from a save that holds.
fn resume(
    alloc: Global,
    program: Program,
    names: Names,
    saved: &Saved,
    seed: MemoSeed,
) -> Result<State, NoMemory>
    requires compiled { IsCompiled program }
    requires names { names ≡ saved.now.names }
    requires holds { SaveHolds program.code saved.now }
    ensures { IfOk result (λ state. IsResumed program saved.now (situation state)) }
{
    let Program { typed, code } = program;
    let program = match Numbered::new(alloc, typed) {
        Ok(program) => program,
        Err(NoMemory) => {
            drop(code);
            return Err(NoMemory);
        }
    };
    let engine = engine_of(alloc, code, saved, seed)?;
    // for the proof: it is an engine, by the clause `whole`
    let _phase = engine.phase();
    let journal = Journal::told(alloc, saved.bound);
    Ok(State::finished(program, names, engine, journal))
}

/// The state that continues from a save, if it holds.
pub fn restored(
    alloc: Global,
    program: Program,
    saved: &Saved,
    seed: Seed,
) -> Result<State, RestoreError>
    requires compiled { IsCompiled program }
    ensures restored { IfOk result (λ state. IsResumed program saved.now (situation state)) }
    ensures holds { OnOk result (SaveHolds program.code saved.now) }
    ensures unsound { IsErrOf result RestoreError.Unsound → ¬ SaveHolds program.code saved.now }
{
    let held = names_held(alloc, &program.code, saved, seed);
    match held {
        Ok(Some(names)) => match resume(alloc, program, names, saved, memo_seed(&seed)) {
            Ok(state) => Ok(state),
            Err(NoMemory) => Err(RestoreError::Memory),
        },
        Ok(None) => {
            drop(program);
            Err(RestoreError::Unsound)
        }
        Err(NoMemory) => {
            drop(program);
            Err(RestoreError::Memory)
        }
    }
}
