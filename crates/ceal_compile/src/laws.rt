// The laws of what inputs come to, and of code, each the contract of a function that does nothing.

ghost use Rattle.std.specs.Prelude.{◌≡◌, ◌<◌, ◌^◌, Result as ResultOf, List, ℕ, length};
ghost use Rattle.ceal_base.specs.declared.fault.Fault.{Fault as FaultRecord};
ghost use Rattle.ceal_base.specs.declared.typed.Typed.{Typed as TypedRecord};
ghost use Rattle.ceal_compile.specs.Laws.{CallsLaw, CompiledLaw, OneCodeLaw, SomeCodeLaw, SomeCompiledLaw, StructsLaw};
ghost use Rattle.ceal_compile.specs.Source.{Comes};

/// A law: an input has a program or a first fault, if it is shorter than 2^32 bytes.
pub fn some_answer()
    ensures law { (input : List ℕ) → length input < 2 ^ 32
        → (r : ResultOf TypedRecord FaultRecord) × Comes input r }
{
    ceal_lex::split::some_split();
    ceal_lex::lex::either();
    ceal_grammar::laws::either();
}

/// A law: a program has one code.
pub fn one_code()
    ensures law { OneCodeLaw }
{
    ceal_flow::laws::one_law();
}

/// A law: a program has code.
pub fn some_code()
    ensures law { SomeCodeLaw }
{
    ceal_flow::laws::some_law();
}

/// A law: code has the structs of its program.
pub fn structs_law()
    ensures law { StructsLaw }
{}

/// A law: a call fits the code exactly when it fits the program.
pub fn calls_law()
    ensures law { CallsLaw }
{}

/// A law: an accepted input is compiled. Its program and the code of that are a compiled program, and there is one.
pub fn accepted_is_compiled()
    ensures compiled { CompiledLaw }
    ensures some { SomeCompiledLaw }
{
    ceal_types::laws::typed_law();
    ceal_usage::laws::kept_law();
    ceal_flow::laws::run_law();
    ceal_flow::laws::some_law();
    ceal_norm::laws::valid_law();
    ceal_norm::laws::run_law();
    ceal_fold::laws::valid_law();
    ceal_fold::laws::run_law();
}
