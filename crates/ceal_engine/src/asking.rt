// Whether an engine's calls may be made: a test for each of their premises.

ghost use Rattle.std.specs.Prelude.{◌≡◌, ◌<◌, ◌+◌, ◌^◌, true, length, slice_get, IsTrue};
ghost use Rattle.ceal_base.specs.Block.{alone};
ghost use Rattle.ceal_base.specs.Fitting.{block_fits, inputs_fit, kind_at, kind_in};
ghost use Rattle.ceal_code.specs.Fitting.{Fits, args_fit};
ghost use Rattle.ceal_code.specs.Valid.{valid};
ghost use Rattle.ceal_code.specs.Value.{is_cell};
ghost use Rattle.ceal_engine.specs.Engine.{block_in, takes};
ghost use Rattle.ceal_engine.specs.declared.phase.Phase.TheVariants.{New};

use crate::engine::Engine;
use crate::phase::Phase;
use ceal_base::fitting::{field_fits, new_block_fits, place_kind, words_fit};
use ceal_base::kind::{FieldKind, Shape};
use ceal_base::memory::Inputs;
use ceal_base::word::{Place, Word};
use ceal_code::code::Code;
use ceal_code::function::FunctionCode;

/// Whether there is a core function of this number, and the arguments fit it.
fn do_args_fit(code: &Code, function: u32, args: &[Word], inputs: &Inputs) -> bool
    ensures value { result ≡ args_fit code.now.structs (alone inputs.now)
        (slice_get code.now.functions function) args.now }
{
    match code.functions().get(function as usize) {
        None => false,
        Some(FunctionCode::Init { .. }) => false,
        Some(FunctionCode::Core { params, .. }) => {
            words_fit(code.structs.items(), inputs, params.items(), args)
        }
    }
}

/// Whether a kind is that of a modifiable.
fn is_modifiable(kind: Option<FieldKind>) -> bool
    ensures value { result ≡ is_cell kind }
{
    match kind {
        None => false,
        Some(FieldKind::Plain(_)) => false,
        Some(FieldKind::CellInt) => true,
        Some(FieldKind::CellPtr(_)) => true,
    }
}

impl Engine {
    /// Whether `add_input` takes an input of this shape with these words: there is one for each field, each fits, and
    /// there is a number for one input more.
    pub fn takes_input(&self, shape: Shape, words: &[Word]) -> bool
        ensures fits { IsTrue result → block_fits self.now.code.structs (alone self.now.inputs)
            (record { shape = shape; words = words.now }) ≡ true }
        ensures room { IsTrue result → length self.now.inputs + 1 < 2 ^ 32 }
        ensures only { block_fits self.now.code.structs (alone self.now.inputs)
            (record { shape = shape; words = words.now }) ≡ true
            → length self.now.inputs + 1 < 2 ^ 32 → IsTrue result }
    {
        let inputs = self.input_blocks();
        inputs.items().len() < u32::MAX as usize
            && new_block_fits(self.code().structs.items(), inputs, shape, words)
    }

    /// Whether the place is a modifiable of an input. It is one then for `value` too, once a run is finished.
    pub fn has_modifiable(&self, place: Place) -> bool
        ensures value { result
            ≡ is_cell (kind_at self.now.code.structs (alone self.now.inputs) place) }
        ensures there { IsTrue result → is_cell
            (kind_in self.now.code.structs (block_in self.now place.block) place.field) ≡ true }
    {
        let kind = place_kind(self.code().structs.items(), self.input_blocks(), place);
        is_modifiable(kind)
    }

    /// Whether `edit` takes this place and this word: the place is a modifiable of an input, and the word fits it.
    pub fn takes_edit(&self, place: Place, word: Word) -> bool
        ensures value { result ≡ takes self.now place word }
    {
        let inputs = self.input_blocks();
        let structs = self.code().structs.items();
        match place_kind(structs, inputs, place) {
            None => false,
            Some(kind) => is_modifiable(Some(kind)) && field_fits(structs, inputs, kind, word),
        }
    }

    /// Whether `run` takes this call: nothing was called, and the arguments fit a core function of this number.
    pub fn takes_call(&self, function: u32, args: &[Word]) -> bool
        ensures new { IsTrue result → self.now.phase ≡ New }
        ensures fits { IsTrue result → Fits self.now.code self.now.inputs function args.now }
        ensures only { self.now.phase ≡ New
            → Fits self.now.code self.now.inputs function args.now → IsTrue result }
    {
        self.phase() == Phase::New && do_args_fit(self.code(), function, args, self.input_blocks())
    }
}
