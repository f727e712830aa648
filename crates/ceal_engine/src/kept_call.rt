// The call of an engine, with room for its arguments.

ghost use Rattle.std.specs.Prelude.{◌≡◌, ◌≤◌, ℕ, Some, None, length, slice_get, IfOk, IfSome};
ghost use Rattle.std.specs.Option.{option_map};
ghost use Rattle.ceal_engine.specs.Keeping.{argument_count};

use ceal_base::no_memory::NoMemory;
use ceal_base::word::Word;
use ceal_code::function::FunctionCode;
use std::alloc::Global;
use std::marker::Model;

/// A call, or none yet, and room for arguments. Contracts see the call, and how many arguments there is room for.
#[derive(Drop)]
pub struct KeptCall {
    function: Option<u32>,
    args: Vec<Word>,
}

impl Model for KeptCall {
    ghost use Rattle.ceal_engine.specs.Keeping.{Kept, kept_of, EmptyWithout};

    ghost Value = { Kept };

    ghost view = { λ k. kept_of k.function k.args };

    ghost invariant = { λ k. EmptyWithout k.function k.args };
}

impl KeptCall {
    /// No call, and room for `room` arguments.
    pub fn new(alloc: Global, room: usize) -> Result<KeptCall, NoMemory>
        ensures call { IfOk result (λ k. k.call ≡ None) }
        ensures room { IfOk result (λ k. room ≤ k.room) }
    {
        let args = Vec::with_capacity(alloc, room)?;
        Ok(KeptCall {
            function: None,
            args,
        })
    }

    /// Takes the call of this function.
    pub fn set(&mut self, function: u32, args: &[Word])
        requires none { self.old.call ≡ None }
        requires room { length args.now ≤ self.old.room }
        ensures call { self.new.call ≡ Some (record { function = function; args = args.now }) }
        ensures room { self.old.room ≤ self.new.room }
    {
        let _ = self.args.extend_from_slice(args);
        self.function = Some(function);
    }

    /// The number of the function that was called.
    pub fn function(&self) -> Option<u32>
        ensures { result ≡ option_map (λ call. call.function) self.now.call }
    {
        self.function
    }

    /// The arguments of the call.
    pub fn args(&self) -> &[Word]
        ensures value { IfSome self.now.call (λ call. call.args ≡ result.now) }
    {
        self.args.as_slice()
    }
}

/// How many arguments a function takes that may be called.
fn arguments_of(function: &FunctionCode) -> usize
    ensures { result ≡ argument_count (Some function.now) }
{
    match function {
        FunctionCode::Core { params, .. } => params.items().len(),
        FunctionCode::Init { .. } => 0,
    }
}

fn larger(a: usize, b: usize) -> usize
    ensures first { a ≤ result }
    ensures second { b ≤ result }
{
    if a < b { b } else { a }
}

/// How many arguments a call of one of the functions has at most.
pub fn most_arguments(functions: &[FunctionCode]) -> usize
    ensures { (f : ℕ) → argument_count (slice_get functions.now f) ≤ result }
{
    let mut most = 0;
    for function in functions {
        most = larger(most, arguments_of(function));
    }
    most
}
