// The check of a whole program.

ghost use Rattle.std.specs.Prelude.{◌≡◌, ◌↔◌, IsOk};
ghost use Rattle.ceal_base.specs.Faults.{faults_of_each};
ghost use Rattle.ceal_base.specs.Usage.{KeepsUsage};
ghost use Rattle.ceal_usage.specs.Verdict.{verdict};
ghost use Rattle.ceal_usage.specs.Faults.{function_faults, usage_faults};

use crate::bodies::{check_core_body, check_init_body};
use ceal_base::fault::Fault;
use ceal_base::typed::{Typed, TypedFunction};

fn check_function(functions: &[TypedFunction], function: &TypedFunction) -> Result<(), Fault>
    ensures { result ≡ verdict (function_faults functions.now function.now) }
{
    match function.initialiser {
        None => check_core_body(functions, false, function.body.items()),
        Some(_) => check_init_body(function.body.items()),
    }
}

fn check_functions(functions: &[TypedFunction]) -> Result<(), Fault>
    ensures { result ≡ verdict (faults_of_each (function_faults functions.now) functions.now) }
{
    for function in functions {
        check_function(functions, function)?;
    }
    Ok(())
}

/// Whether the program keeps the rules of usage, or the first place where it breaks one: U1 to U6.
pub fn check_usage(program: &Typed) -> Result<(), Fault>
    ensures kept { IsOk result ↔ KeepsUsage program.now }
    ensures first { result ≡ verdict (usage_faults program.now) }
{
    check_functions(program.functions.items())
}
