// Whether a call may be run.

ghost use Rattle.std.specs.Prelude.{◌≡◌, true, slice_get, IsTrue};
ghost use Rattle.std.specs.List.{list_all};
ghost use Rattle.ceal_base.specs.Block.{alone};
ghost use Rattle.ceal_base.specs.Fitting.{block_fits, inputs_fit};
ghost use Rattle.ceal_code.specs.Fitting.{Fits, args_fit};
ghost use Rattle.ceal_code.specs.Valid.{valid};

use ceal_base::fitting::{new_block_fits, words_fit};
use ceal_base::memory::{BlockWords, Inputs};
use ceal_base::typed::StructInfo;
use ceal_base::word::Word;
use ceal_code::code::Code;
use ceal_code::function::FunctionCode;

fn do_blocks_fit(structs: &[StructInfo], inputs: &Inputs, blocks: &[BlockWords]) -> bool
    ensures { IsTrue result
        → list_all (block_fits structs.now (alone inputs.now)) blocks.now ≡ true }
{
    match blocks.split_first() {
        None => true,
        Some((block, more)) => {
            new_block_fits(structs, inputs, block.shape, block.items())
                && do_blocks_fit(structs, inputs, more)
        }
    }
}

/// Whether each input has words that fit.
pub fn do_inputs_fit(code: &Code, inputs: &Inputs) -> bool
    ensures { IsTrue result → inputs_fit code.now.structs inputs.now ≡ true }
{
    do_blocks_fit(code.structs.items(), inputs, inputs.items())
}

/// Whether the arguments fit a core function.
pub fn do_args_fit(code: &Code, function: u32, args: &[Word], inputs: &Inputs) -> bool
    ensures { IsTrue result
        → args_fit code.now.structs (alone inputs.now)
        (slice_get code.now.functions function) args.now ≡ true }
{
    match code.functions().get(function as usize) {
        None => false,
        Some(found) => match found {
            FunctionCode::Init { .. } => false,
            FunctionCode::Core { params, .. } => {
                words_fit(code.structs.items(), inputs, params.items(), args)
            }
        },
    }
}

/// Whether the call may be run.
pub fn fits(code: &Code, function: u32, args: &[Word], inputs: &Inputs) -> bool
    requires { valid code.now ≡ true }
    ensures { IsTrue result → Fits code.now inputs.now function args.now }
{
    do_inputs_fit(code, inputs) && do_args_fit(code, function, args, inputs)
}
