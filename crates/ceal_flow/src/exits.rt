// Where the statements lead that are jumps.

ghost use Rattle.std.specs.Prelude.{◌≡◌};
ghost use Rattle.ceal_flow.specs.Blocks.{no_loop, in_loop};

/// The blocks to which `return`, `break` and `continue` lead from a place in a body.
#[derive(Clone, Copy)]
pub struct Exits {
    /// the function's end
    pub done: u32,
    /// what comes after the innermost loop; in no loop it is the function's end
    pub behind: u32,
    /// the test of the innermost loop; in no loop it is the function's end
    pub test: u32,
}

impl Exits {
    /// Those of a body whose end is this block.
    pub fn no_loop(done: u32) -> Exits
        ensures value { result ≡ no_loop done }
    {
        Exits {
            done,
            behind: done,
            test: done,
        }
    }

    /// Those of the body of a loop that is here.
    pub fn in_loop(self, test: u32, behind: u32) -> Exits
        ensures value { result ≡ in_loop self test behind }
    {
        Exits {
            done: self.done,
            behind,
            test,
        }
    }
}
