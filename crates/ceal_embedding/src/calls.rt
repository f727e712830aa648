// The calls of an engine, each after the test of what it requires.

ghost use Rattle.std.specs.Prelude.{◌≡◌, ◌++◌, ◌∷◌, [], true, Some, IsOk, IfOk, IfErr, OnOk, OnErr};
ghost use Rattle.ceal_base.specs.Access.{word_in};
ghost use Rattle.ceal_base.specs.Block.{alone};
ghost use Rattle.ceal_base.specs.Fitting.{kind_at};
ghost use Rattle.ceal_base.specs.declared.word.BlockId.TheVariants.{Input};
ghost use Rattle.ceal_code.specs.Value.{is_cell};
ghost use Rattle.ceal_embedding.specs.Causes.{IsGivenUp};
ghost use Rattle.ceal_embedding.specs.Engines.{KeepsProgram};
ghost use Rattle.ceal_engine.specs.Cost.{IsPaid, revalued};
ghost use Rattle.ceal_engine.specs.Engine.{stored_at, with_base, IsPresent, IsWhole};
ghost use Rattle.ceal_engine.specs.declared.phase.Phase.TheVariants.{Finished};

use crate::trouble::Trouble;
use ceal_base::kind::Shape;
use ceal_base::word::{BlockId, Place, Word};
use ceal_engine::engine::Engine;
use ceal_engine::laws::cost_law;
use ceal_engine::phase::Phase;

/// A field of an input.
pub fn input_field(number: u32, field: u32) -> Place
    ensures place { result ≡ record { block = Input number; field = field } }
{
    Place {
        block: BlockId::Input(number),
        field,
    }
}

/// The modifiable that an input of one modifiable is.
pub fn input(number: u32) -> Place
    ensures place { result ≡ record { block = Input number; field = 0 } }
{
    input_field(number, 0)
}

/// Adds an input, if the engine takes it.
pub fn add(engine: &mut Engine, shape: Shape, words: &[Word]) -> Result<(), Trouble>
    ensures kept { KeepsProgram engine.old engine.new }
    ensures call { engine.new.call ≡ engine.old.call }
    ensures inputs { OnOk result (engine.new.inputs
        ≡ engine.old.inputs ++ record { shape = shape; words = words.now } ∷ []) }
    ensures given_up { OnErr result (engine.new ≡ engine.old) }
{
    if !engine.takes_input(shape, words) {
        return Err(Trouble::Refused);
    }
    engine.add_input(shape, words)?;
    Ok(())
}

/// Runs a core function, if the engine takes the call.
pub fn call(engine: &mut Engine, function: u32, args: &[Word]) -> Result<(), Trouble>
    ensures kept { KeepsProgram engine.old engine.new }
    ensures inputs { engine.new.inputs ≡ engine.old.inputs }
    ensures called { OnOk result
        (engine.new.call ≡ Some (record { function = function; args = args.now })) }
    ensures present { OnOk result (IsPresent engine.new) }
    ensures finished { OnOk result (engine.new.phase ≡ Finished) }
{
    if !engine.takes_call(function, args) {
        return Err(Trouble::Refused);
    }
    engine.run(function, args)?;
    Ok(())
}

/// Gives an input another base, if the engine takes that. A finished run is then pending.
pub fn set(engine: &mut Engine, place: Place, base: Word) -> Result<(), Trouble>
    ensures kept { KeepsProgram engine.old engine.new }
    ensures call { engine.new.call ≡ engine.old.call }
    ensures inputs { OnOk result (engine.new.inputs ≡ with_base engine.old.inputs place base) }
    ensures given_up { OnErr result (engine.new ≡ engine.old) }
{
    if !engine.takes_edit(place, base) {
        return Err(Trouble::Refused);
    }
    engine.edit(place, base)?;
    Ok(())
}

/// Gives an input another base, and brings the run up to date: what the engine has then is the run from scratch on the
/// inputs as they are now. What is done to the trace of a run is paid by the edit, by the work and by the reads that
/// got another value, whatever the size of the trace. An edit that the engine does not take is refused, and the engine
/// stays as it was.
pub fn update(engine: &mut Engine, place: Place, base: Word) -> Result<(), Trouble>
    ensures present { OnOk result (IsPresent engine.new) }
    ensures inputs { OnOk result (engine.new.inputs ≡ with_base engine.old.inputs place base) }
    ensures finished { OnOk result (engine.new.phase ≡ Finished) }
    ensures cost { OnOk result (IsWhole engine.old.phase →
        IsPaid engine.old engine.new 1 engine.new.work (revalued engine.old engine.new)) }
    ensures kept { KeepsProgram engine.old engine.new }
    ensures call { engine.new.call ≡ engine.old.call }
    ensures given_up { IfErr result
        (λ trouble. IsGivenUp trouble engine.old place base engine.new) }
{
    if engine.phase() == Phase::New || !engine.takes_edit(place, base) {
        return Err(Trouble::Refused);
    }
    // for the proof: what an edit and a repair cost is paid
    cost_law();
    engine.edit(place, base)?;
    engine.propagate()?;
    Ok(())
}

/// What a modifiable of an input holds at the end of a finished run.
pub fn content(engine: &Engine, place: Place) -> Result<Word, Trouble>
    ensures value { IfOk result (λ word. word
        ≡ word_in (stored_at engine.now.memory place.block) place.field Word.Null) }
    ensures refused { IfErr result (λ trouble. trouble ≡ Trouble.Refused) }
    ensures sure { engine.now.phase ≡ Finished
        → is_cell (kind_at engine.now.code.structs (alone engine.now.inputs) place) ≡ true
        → IsOk result }
{
    if engine.phase() != Phase::Finished || !engine.has_modifiable(place) {
        return Err(Trouble::Refused);
    }
    Ok(engine.value(place))
}
