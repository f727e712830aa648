// The engine.

ghost use Rattle.std.specs.Prelude.{◌≡◌, ◌∷◌, ℕ, [], ◌++◌, ◌<◌, ◌+◌, ◌^◌, true, Some, None, IfOk, OnOk, OnErr, length};
ghost use Rattle.std.specs.Option.{IsSomeAnd};
ghost use Rattle.ceal_base.specs.Block.{alone};
ghost use Rattle.ceal_base.specs.Fitting.{block_fits, inputs_fit};
ghost use Rattle.ceal_base.specs.declared.word.BlockId.TheVariants.{Input};
ghost use Rattle.ceal_code.specs.Valid.{valid};
ghost use Rattle.ceal_engine.specs.Engine.{InLimits, trace, phase_after_edit, takes, with_base};
ghost use Rattle.ceal_engine.specs.Cost.{CostOfInput, CostOfEdit};
ghost use Rattle.ceal_engine.specs.Partial.{CarriesRepair};
ghost use Rattle.ceal_engine.specs.Repaired.{IsRestorable, IsRestored};
ghost use Rattle.ceal_engine.specs.declared.phase.Phase.TheVariants.{New, Finished};
ghost use Rattle.ceal_theory.specs.Slices.{Repair as RepairOf};

use crate::kept_call::{KeptCall, most_arguments};
use crate::reading::shape;
use crate::run::Run;
use crate::run_error::RunError;
use ceal_base::forest::Forest;
use ceal_base::kind::Shape;
use ceal_base::memory::{BlockWords, Inputs};
use ceal_base::no_memory::NoMemory;
use ceal_base::word::{BlockId, Place, Word};
use ceal_code::code::Code;
use ceal_memo::seed::Seed;
use ceal_repair::room::Room;
use std::alloc::Global;
use std::marker::Model;

mod answers;
mod changes;
mod found;
mod runs;

/// Runs trace code on inputs, and keeps the memory of the run up to date where inputs are edited.
///
/// Contracts see the code and the fuel, the inputs with their present bases, the call, the phase, and the trace of the
/// last run with its nodes and its heap. Of a finished run they also see its memory by block numbers, its steps, its
/// number of core blocks, and the work.
#[derive(Drop)]
pub struct Engine {
    alloc: Global,
    code: Code,
    fuel: u32,
    inputs: Inputs,
    call: KeptCall,
    run: Run,
    room: Room,
    seed: Seed,
}

impl Model for Engine {
    ghost use Rattle.std.specs.Coded.{codes};
    ghost use Rattle.ceal_code.specs.contracts.expr.CodeExpr as expr;
    ghost use Rattle.ceal_code.specs.contracts.function.InitStmt as stmt;
    ghost use Rattle.ceal_engine.specs.Engine.{EngineState};
    ghost use Rattle.ceal_engine.specs.Keeping.{state_of, EngineInvariant};

    ghost Value = { EngineState };

    ghost coded = { Prim.hlevel (codes, expr.the_row.coded, stmt.the_row.coded) };

    ghost view = { λ e. state_of e.code e.fuel e.inputs e.call.call e.run };

    ghost invariant = { λ e. EngineInvariant e.code e.fuel e.inputs e.call e.run };
}

/// Sets the word of a field of an input.
fn set_base(inputs: &mut Inputs, place: Place, value: Word)
    ensures { inputs.new ≡ with_base inputs.old place value }
{
    match place.block {
        BlockId::Input(n) => inputs.set(n, place.field, value),
        BlockId::Core(_) => {}
    }
}

impl Engine {
    /// An engine without inputs. A run may take `fuel` steps. It takes the room for the arguments of a call. Its memo
    /// tables begin with a seed that everybody knows: it is for values that nobody chooses to be slow.
    pub fn new(alloc: Global, code: Code, fuel: u32) -> Result<Engine, NoMemory>
        requires valid { valid code ≡ true }
        requires fuel { InLimits fuel }
        ensures code { IfOk result (λ e. e.code ≡ code) }
        ensures fuel { IfOk result (λ e. e.fuel ≡ fuel) }
        ensures inputs { IfOk result (λ e. e.inputs ≡ []) }
        ensures call { IfOk result (λ e. e.call ≡ None) }
        ensures phase { IfOk result (λ e. e.phase ≡ New) }
        ensures marked { IfOk result (λ e. e.marked ≡ None) }
    {
        let engine = Engine::seeded(alloc, code, fuel, Seed::of(0, 0))?;
        Ok(engine)
    }

    /// The same, where the memo tables begin with a seed, as of the text that values come from. Any seed is right.
    pub fn seeded(alloc: Global, code: Code, fuel: u32, seed: Seed) -> Result<Engine, NoMemory>
        requires valid { valid code ≡ true }
        requires fuel { InLimits fuel }
        ensures code { IfOk result (λ e. e.code ≡ code) }
        ensures fuel { IfOk result (λ e. e.fuel ≡ fuel) }
        ensures inputs { IfOk result (λ e. e.inputs ≡ []) }
        ensures call { IfOk result (λ e. e.call ≡ None) }
        ensures phase { IfOk result (λ e. e.phase ≡ New) }
        ensures marked { IfOk result (λ e. e.marked ≡ None) }
    {
        let call = KeptCall::new(alloc, most_arguments(code.functions()))?;
        Ok(Engine {
            alloc,
            code,
            fuel,
            inputs: Inputs::new(Vec::new(alloc)),
            call,
            run: Run::New,
            room: Room::new(alloc),
            seed,
        })
    }

    /// An engine with a finished run of a call on these inputs, of which so much work is told. The forest is a trace of
    /// the call that is honest on the inputs, so the run from scratch leaves that trace, up to the numbers of its core
    /// blocks; the call is run, and the forest is not looked at.
    pub fn restore(
        alloc: Global,
        code: Code,
        fuel: u32,
        inputs: &Inputs,
        function: u32,
        args: &[Word],
        forest: &Forest,
        work: u32,
        seed: Seed,
    ) -> Result<Engine, NoMemory>
        requires valid { valid code ≡ true }
        requires fuel { InLimits fuel }
        requires few { length inputs.now < 2 ^ 32 }
        requires trace { IsRestorable code fuel inputs.now function args.now forest.now }
        ensures code { IfOk result (λ e. e.code ≡ code) }
        ensures fuel { IfOk result (λ e. e.fuel ≡ fuel) }
        ensures inputs { IfOk result (λ e. e.inputs ≡ inputs.now) }
        ensures call { IfOk result (λ e. e.call
            ≡ Some (record { function = function; args = args.now })) }
        ensures phase { IfOk result (λ e. e.phase ≡ Finished) }
        ensures work { IfOk result (λ e. e.work ≡ work) }
        ensures marked { IfOk result (λ e. e.marked ≡ None) }
        ensures forest { IfOk result (λ e. IsSomeAnd (trace e) (IsRestored forest.now)) }
        ensures differed { IfOk result (λ e. e.differed ≡ 0) }
    {
        let mut engine = Engine::called(alloc, code, fuel, inputs, seed)?;
        match engine.run(function, args) {
            Ok(()) => {
                // for the proof: it is an engine, by the clause `whole`
                let _phase = engine.phase();
                engine.tell(work);
                Ok(engine)
            }
            Err(RunError::Memory) => {
                drop(engine);
                Err(NoMemory)
            }
            Err(RunError::OutOfFuel) => unreachable!(),
        }
    }

    /// An engine that has these inputs, which may name one another, and no run.
    fn called(
        alloc: Global,
        code: Code,
        fuel: u32,
        inputs: &Inputs,
        seed: Seed,
    ) -> Result<Engine, NoMemory>
        requires valid { valid code ≡ true }
        requires fuel { InLimits fuel }
        requires few { length inputs.now < 2 ^ 32 }
        requires fits { inputs_fit code.structs inputs.now ≡ true }
        ensures code { IfOk result (λ e. e.code ≡ code) }
        ensures fuel { IfOk result (λ e. e.fuel ≡ fuel) }
        ensures inputs { IfOk result (λ e. e.inputs ≡ inputs.now) }
        ensures phase { IfOk result (λ e. e.phase ≡ New) }
        ensures marked { IfOk result (λ e. e.marked ≡ None) }
    {
        let call = KeptCall::new(alloc, most_arguments(code.functions()))?;
        let inputs = inputs.copy()?;
        Ok(Engine {
            alloc,
            code,
            fuel,
            inputs,
            call,
            run: Run::New,
            room: Room::new(alloc),
            seed,
        })
    }

    /// Of the finished run so much work is told.
    fn tell(&mut self, work: u32)
        requires { self.old.phase ≡ Finished }
        ensures { self.new ≡ record self.old { work = work } }
    {
        self.run.tell(work);
    }

    /// One input more, with a word for each field. The run, if there is one, is also that on the longer inputs.
    pub fn add_input(&mut self, shape: Shape, words: &[Word]) -> Result<BlockId, NoMemory>
        requires fits { block_fits self.old.code.structs (alone self.old.inputs)
            (record { shape = shape; words = words.now }) ≡ true }
        requires room { length self.old.inputs + 1 < 2 ^ 32 }
        ensures code { self.new.code ≡ self.old.code }
        ensures fuel { self.new.fuel ≡ self.old.fuel }
        ensures call { self.new.call ≡ self.old.call }
        ensures phase { self.new.phase ≡ self.old.phase }
        ensures forest { self.new.forest ≡ self.old.forest }
        ensures nodes { self.new.timeline ≡ self.old.timeline }
        ensures heap { self.new.heap ≡ self.old.heap }
        ensures work { self.new.work ≡ self.old.work }
        ensures carries { OnOk result ((next : ℕ) (r : RepairOf) →
            CarriesRepair self.old next r → CarriesRepair self.new next r) }
        ensures cost { CostOfInput self.old self.new }
        ensures marked { self.new.marked ≡ self.old.marked }
        ensures number { IfOk result (λ id. id ≡ Input (length self.old.inputs)) }
        ensures inputs { OnOk result
            (self.new.inputs ≡ self.old.inputs ++
            record { shape = shape; words = words.now } ∷ []) }
        ensures err { OnErr result (self.new ≡ self.old) }
    {
        let block = BlockWords::new(shape, Vec::from_slice(self.alloc, words)?);
        let at = self.inputs.items().len() as u32;
        self.run.touch(&self.code, at, shape)?;
        self.inputs.push(block)?;
        self.run.add(&self.code, at, shape, words);
        Ok(BlockId::Input(at))
    }

    /// Gives a modifiable of an input another base, which is what it holds when a run begins. A finished run is then
    /// pending.
    pub fn edit(&mut self, place: Place, value: Word) -> Result<(), NoMemory>
        requires { takes self.old place value ≡ true }
        ensures code { self.new.code ≡ self.old.code }
        ensures fuel { self.new.fuel ≡ self.old.fuel }
        ensures call { self.new.call ≡ self.old.call }
        ensures forest { self.new.forest ≡ self.old.forest }
        ensures nodes { self.new.timeline ≡ self.old.timeline }
        ensures heap { self.new.heap ≡ self.old.heap }
        ensures work { self.new.work ≡ self.old.work }
        ensures carries { OnOk result ((next : ℕ) (r : RepairOf) →
            CarriesRepair self.old next r → CarriesRepair self.new next r) }
        ensures cost { CostOfEdit self.old self.new }
        ensures marked { self.new.marked ≡ self.old.marked }
        ensures phase { OnOk result (self.new.phase ≡ phase_after_edit self.old.phase) }
        ensures inputs { OnOk result (self.new.inputs ≡ with_base self.old.inputs place value) }
        ensures err { OnErr result (self.new ≡ self.old) }
    {
        self.run.edit(place, value)?;
        set_base(&mut self.inputs, place, value);
        Ok(())
    }
}
