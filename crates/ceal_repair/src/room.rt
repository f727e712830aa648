// Room for what a repair holds while it is under way.

ghost use Rattle.std.specs.Prelude.{◌≡◌, IfOk};
ghost use Rattle.ceal_code.specs.Stacks.{stack_in};
ghost use Rattle.ceal_code.specs.Step.{Empty, started};

use crate::frame::Frame;
use ceal_base::no_memory::NoMemory;
use ceal_base::word::Word;
use ceal_code::code::Code;
use ceal_code::stack::Stack;
use std::alloc::Global;

/// Room for the units of a repair, for what follows the ends of its reads, and for the arguments of the read that it
/// makes. It is kept from one repair to the next, so that a repair for which it is large enough takes no memory for
/// them.
#[derive(Drop)]
pub struct Room {
    pub(crate) stack: Stack,
    pub(crate) frames: Vec<Frame>,
    pub(crate) args: Vec<Word>,
}

impl Room {
    /// With no unit, and no memory yet.
    pub fn new(alloc: Global) -> Room
        ensures empty { stack_in result.stack ≡ Empty }
    {
        Room {
            stack: Stack::empty(alloc),
            frames: Vec::new(alloc),
            args: Vec::new(alloc),
        }
    }

    /// With the units of a call.
    pub(crate) fn of_call(
        alloc: Global,
        code: &Code,
        function: u32,
        args: &[Word],
    ) -> Result<Room, NoMemory>
        ensures started { IfOk result
            (λ room. stack_in room.stack ≡ started code.now function args.now) }
    {
        let stack = Stack::call(alloc, code, function, args)?;
        Ok(Room {
            stack,
            frames: Vec::new(alloc),
            args: Vec::new(alloc),
        })
    }
}
