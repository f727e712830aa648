// The commands of trace code.

ghost use Rattle.std.specs.Prelude.{◌≡◌, ◌<◌, ◌^◌};
ghost use Rattle.ceal_code.specs.Valid.{followers, indices_in};

use crate::expr::{CodeExpr, CodeExprs, VarId};
use ceal_base::forest::UnitId;
use ceal_base::kind::Shape;

/// A command. `Move`, `Tick`, `Alloc`, `Modref` and `Write` are followed by the next index of the unit's body;
/// `Done`, `Tail`, `Read` and `Call` end a path.
#[derive(Drop)]
pub enum Cmd {
    Move {
        var: VarId,
        value: CodeExpr,
    },
    /// a step that does nothing
    Tick,
    /// a new block, made by the initialiser of this number
    Alloc {
        var: VarId,
        function: u32,
        args: CodeExprs,
    },
    /// a new block with one modifiable
    Modref {
        var: VarId,
        shape: Shape,
    },
    Write {
        place: CodeExpr,
        value: CodeExpr,
    },
    /// the two indices in the body at one of which the run continues
    If {
        test: CodeExpr,
        yes: u32,
        no: u32,
    },
    Done,
    Tail {
        unit: UnitId,
        args: CodeExprs,
    },
    /// the unit gets the content as the value of `var`, and the arguments as those of its other parameters
    Read {
        var: VarId,
        place: CodeExpr,
        unit: UnitId,
        args: CodeExprs,
    },
    /// the function's entry unit runs on the arguments, and then the unit on those of `rest`
    Call {
        function: u32,
        args: CodeExprs,
        unit: UnitId,
        rest: CodeExprs,
    },
}

/// The indices of a body at which a run may continue after a command.
#[derive(Clone, Copy)]
pub enum Followers {
    Nowhere,
    One(usize),
    Two(usize, usize),
}

impl Cmd {
    /// Where a run may continue after the command at an index.
    pub fn followers(&self, index: usize) -> Followers
        requires room { index < 2 ^ 63 }
        ensures value { indices_in result ≡ followers self.now index }
    {
        match self {
            Cmd::Move { .. } => Followers::One(index + 1),
            Cmd::Tick => Followers::One(index + 1),
            Cmd::Alloc { .. } => Followers::One(index + 1),
            Cmd::Modref { .. } => Followers::One(index + 1),
            Cmd::Write { .. } => Followers::One(index + 1),
            Cmd::If { yes, no, .. } => Followers::Two(*yes as usize, *no as usize),
            Cmd::Done => Followers::Nowhere,
            Cmd::Tail { .. } => Followers::Nowhere,
            Cmd::Read { .. } => Followers::Nowhere,
            Cmd::Call { .. } => Followers::Nowhere,
        }
    }
}
