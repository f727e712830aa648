// Whether a recorded call may be run.

ghost use Rattle.std.specs.Prelude.{◌≡◌, ◌↔◌, true, IsTrue, slice_get};
ghost use Rattle.std.specs.List.{list_all};
ghost use Rattle.ceal_base.specs.Block.{alone};
ghost use Rattle.ceal_base.specs.Fitting.{block_fits};
ghost use Rattle.ceal_code.specs.Fitting.{args_fit, Fits};
ghost use Rattle.ceal_code.specs.Valid.{valid};
ghost use Rattle.ceal_traceck.specs.Verdicts as spec;
ghost use Rattle.ceal_traceck.specs.Verdicts.{CallFits, has_known_shape};

use ceal_base::fitting::{new_block_fits, words_fit};
use ceal_base::kind::Shape;
use ceal_base::memory::Inputs;
use ceal_base::recorded::Record;
use ceal_base::typed::StructInfo;
use ceal_base::word::Word;
use ceal_code::code::Code;
use ceal_code::function::FunctionCode;

/// Whether each input block fits its shape.
fn all_blocks_fit(code: &Code, inputs: &Inputs) -> bool
    ensures { result
        ≡ list_all (block_fits code.now.structs (alone inputs.now)) inputs.now }
{
    let structs = code.structs.items();
    let mut blocks = inputs.items();
    while let Some((block, more)) = blocks.split_first() {
        if !new_block_fits(structs, inputs, block.shape, block.items()) {
            return false;
        }
        blocks = more;
    }
    true
}

/// Whether the arguments fit a core function of this number.
fn all_args_fit(code: &Code, inputs: &Inputs, function: u32, args: &[Word]) -> bool
    ensures { result ≡ args_fit code.now.structs (alone inputs.now)
        (slice_get code.now.functions function) args.now }
{
    match code.functions().get(function as usize) {
        None => false,
        Some(found) => match found {
            FunctionCode::Core { params, .. } => {
                words_fit(code.structs.items(), inputs, params.items(), args)
            }
            FunctionCode::Init { .. } => false,
        },
    }
}

/// Whether the call may be run on the inputs.
fn may_run(code: &Code, inputs: &Inputs, function: u32, args: &[Word]) -> bool
    requires valid { valid code.now ≡ true }
    ensures value { IsTrue result ↔ Fits code.now inputs.now function args.now }
{
    all_blocks_fit(code, inputs) && all_args_fit(code, inputs, function, args)
}

/// Whether the struct that a shape names, if it names one, is there.
fn is_known(structs: &[StructInfo], shape: Shape) -> bool
    ensures { result ≡ spec.is_known structs.now shape }
{
    match shape {
        Shape::Struct(number) => (number as usize) < structs.len(),
        Shape::ModInt => true,
        Shape::ModPtr(number) => (number as usize) < structs.len(),
    }
}

/// Whether each input block has a known shape.
fn all_shapes_known(code: &Code, inputs: &Inputs) -> bool
    ensures { result ≡ list_all (has_known_shape code.now.structs) inputs.now }
{
    let structs = code.structs.items();
    let mut blocks = inputs.items();
    while let Some((block, more)) = blocks.split_first() {
        if !is_known(structs, block.shape) {
            return false;
        }
        blocks = more;
    }
    true
}

/// Whether the recorded call may be run on the recorded inputs, which have known shapes.
pub fn call_fits(code: &Code, kept: &Record) -> bool
    requires valid { valid code.now ≡ true }
    ensures value { IsTrue result ↔ CallFits code.now kept.now }
{
    all_shapes_known(code, &kept.inputs)
        && may_run(code, &kept.inputs, kept.function, kept.args.items())
}
