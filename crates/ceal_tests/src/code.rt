// Code that is valid, and code by hand that is not.

use crate::asserts::holds;
use ceal_base::boxed::Boxed;
use ceal_base::copies::copied_structs;
use ceal_base::forest::UnitId;
use ceal_base::items::Items;
use ceal_base::kind::{Kind, Kinds, Shape};
use ceal_base::text::Text;
use ceal_base::typed::StructInfo;
use ceal_code::code::Code;
use ceal_code::command::Cmd;
use ceal_code::expr::{CodeExpr, CodeExprs, VarId};
use ceal_code::function::FunctionCode;
use ceal_code::unit::Unit;
use ceal_code::validate::validate;
use ceal_samples::programs::{INC, MAP, compiled};
use std::alloc::Global;
use std::process::Abort;
use std::test::Fail;

fn variable(n: u32) -> CodeExpr {
    CodeExpr::Var(VarId(n))
}

fn variables<R: Abort>(rt: &R, alloc: Global, numbers: &[u32]) -> CodeExprs {
    let mut list = Items::empty(alloc);
    for n in numbers {
        list.push(variable(*n)).expect(rt, "memory");
    }
    list
}

fn write(place: CodeExpr, value: CodeExpr) -> Cmd {
    Cmd::Write { place, value }
}

fn set(n: u32, value: CodeExpr) -> Cmd {
    Cmd::Move {
        var: VarId(n),
        value,
    }
}

fn branch(yes: u32, no: u32) -> Cmd {
    Cmd::If {
        test: CodeExpr::Num(1),
        yes,
        no,
    }
}

/// Continues in a unit with these variables as arguments.
fn tail<R: Abort>(rt: &R, alloc: Global, unit: u32, args: &[u32]) -> Cmd {
    Cmd::Tail {
        unit: UnitId(unit),
        args: variables(rt, alloc, args),
    }
}

/// Gives v2 a field of the cell to which v1 points.
fn set_field<R: Abort>(rt: &R, alloc: Global, n: u32, field: u32) -> Cmd {
    let cell = Boxed::new(alloc, variable(1)).expect(rt, "memory");
    set(n, CodeExpr::Field(cell, 0, field))
}

/// Makes a block by the function itself.
fn made_by_itself<R: Abort>(rt: &R, alloc: Global) -> Cmd {
    Cmd::Alloc {
        var: VarId(3),
        function: 0,
        args: variables(rt, alloc, &[0, 1]),
    }
}

/// Calls a function that is not there, with a unit that is not there after it.
fn lost_call(alloc: Global) -> Cmd {
    Cmd::Call {
        function: 9,
        args: Items::empty(alloc),
        unit: UnitId(9),
        rest: Items::empty(alloc),
    }
}

fn kinds<R: Abort>(rt: &R, alloc: Global, list: &[Kind]) -> Kinds {
    Kinds::new(Vec::from_slice(alloc, list).expect(rt, "memory"))
}

fn commands<R: Abort, const N: usize>(rt: &R, alloc: Global, commands: [Cmd; N]) -> Vec<Cmd> {
    Vec::from_array(alloc, commands).expect(rt, "memory")
}

/// A unit of the function that takes both parameters.
fn unit<R: Abort>(rt: &R, alloc: Global, body: Vec<Cmd>) -> Unit {
    let params = Vec::from_slice(alloc, &[VarId(0), VarId(1)]).expect(rt, "memory");
    Unit::new(0, params, body)
}

/// `f(mod int *v0, struct cell *v1)`.
fn function<R: Abort>(rt: &R, alloc: Global) -> FunctionCode {
    FunctionCode::Core {
        name: Text::from_slice(alloc, b"f").expect(rt, "memory"),
        entry: UnitId(0),
        params: kinds(rt, alloc, &[Kind::ModInt, Kind::Ptr(0)]),
    }
}

/// Adds the function with variables v2 of type `int` and v3 of type `struct cell *`.
fn push_function<R: Abort>(rt: &R, alloc: Global, code: &mut Code) {
    let function = function(rt, alloc);
    code.push_functions(function).expect(rt, "memory");
    let all = [Kind::ModInt, Kind::Ptr(0), Kind::Int, Kind::Ptr(0)];
    let kinds = kinds(rt, alloc, &all);
    code.push_kinds(kinds).expect(rt, "memory");
}

fn push_unit<R: Abort>(rt: &R, alloc: Global, code: &mut Code, body: Vec<Cmd>) {
    let unit = unit(rt, alloc, body);
    code.push_units(unit).expect(rt, "memory");
}

/// The function with this body in unit 0, where unit 1 is done.
fn code_of<R: Abort>(rt: &R, alloc: Global, structs: &[StructInfo], body: Vec<Cmd>) -> Code {
    let structs = copied_structs(alloc, structs).expect(rt, "memory");
    let none = Vec::new(alloc);
    let mut code = Code::new(structs, Vec::new(alloc), none, Vec::new(alloc));
    push_unit(rt, alloc, &mut code, body);
    push_function(rt, alloc, &mut code);
    let done = commands(rt, alloc, [Cmd::Done]);
    push_unit(rt, alloc, &mut code, done);
    code
}

/// Whether the function is valid with this body.
fn is_valid<R: Abort>(rt: &R, alloc: Global, structs: &[StructInfo], body: Vec<Cmd>) -> bool {
    let code = code_of(rt, alloc, structs, body);
    let ok = validate(alloc, &code).expect(rt, "memory");
    drop(code);
    ok
}

/// Whether it is valid with these commands.
fn are_right<R: Abort, const N: usize>(
    rt: &R,
    alloc: Global,
    structs: &[StructInfo],
    body: [Cmd; N],
) -> bool {
    let body = commands(rt, alloc, body);
    is_valid(rt, alloc, structs, body)
}

fn is_right_alone<R: Abort>(rt: &R, alloc: Global, structs: &[StructInfo], command: Cmd) -> bool {
    are_right(rt, alloc, structs, [command])
}

fn is_right_behind_a_step<R: Abort>(
    rt: &R,
    alloc: Global,
    structs: &[StructInfo],
    command: Cmd,
) -> bool {
    are_right(rt, alloc, structs, [Cmd::Tick, command])
}

/// Whether it is valid with this command before the end.
fn is_right<R: Abort>(rt: &R, alloc: Global, structs: &[StructInfo], command: Cmd) -> bool {
    are_right(rt, alloc, structs, [command, Cmd::Done])
}

fn is_valid_code<R: Abort>(rt: &R, alloc: Global, code: &Code) {
    holds(rt, validate(alloc, code).expect(rt, "memory"));
}

/// The code of a source is valid.
fn compiles_to_valid_code<R: Abort>(rt: &R, alloc: Global, source: &[u8]) -> Result<(), Fail> {
    let program = compiled(alloc, source)?;
    is_valid_code(rt, alloc, &program.code);
    drop(program);
    Ok(())
}

#[test]
fn compiled_code_is_valid(rt: HostRuntime) -> Result<(), Fail> {
    compiles_to_valid_code(&rt, rt.alloc(), INC)?;
    compiles_to_valid_code(&rt, rt.alloc(), MAP)
}

fn writes_and_sets<R: Abort>(rt: &R, alloc: Global, structs: &[StructInfo]) {
    holds(rt, is_right(rt, alloc, structs, Cmd::Tick));
    // a pointer into an int modifiable, and a number through null
    let pointer = write(variable(0), variable(1));
    holds(rt, !is_right(rt, alloc, structs, pointer));
    let through_null = write(CodeExpr::Null, CodeExpr::Num(1));
    holds(rt, is_right(rt, alloc, structs, through_null));
    // a variable without a word, and one that is not there
    let wordless = write(variable(0), variable(2));
    holds(rt, !is_right(rt, alloc, structs, wordless));
    holds(rt, !is_right(rt, alloc, structs, set(4, CodeExpr::Num(1))));
    // a modifiable that a variable cannot point to
    let modifiable = Cmd::Modref {
        var: VarId(2),
        shape: Shape::ModInt,
    };
    holds(rt, !is_right(rt, alloc, structs, modifiable));
}

#[test]
fn one_command(rt: HostRuntime) -> Result<(), Fail> {
    let program = compiled(rt.alloc(), MAP)?;
    writes_and_sets(&rt, rt.alloc(), program.typed.structs.items());
    drop(program);
    Ok(())
}

fn sets_fields<R: Abort>(rt: &R, alloc: Global, structs: &[StructInfo]) {
    let plain = set_field(rt, alloc, 2, 0);
    holds(rt, is_right(rt, alloc, structs, plain));
    // a field that is not there, and a modifiable, which is no plain field
    let lost = set_field(rt, alloc, 2, 2);
    holds(rt, !is_right(rt, alloc, structs, lost));
    let modifiable = set_field(rt, alloc, 3, 1);
    holds(rt, !is_right(rt, alloc, structs, modifiable));
    // an alloc by a core function
    let made = made_by_itself(rt, alloc);
    holds(rt, !is_right(rt, alloc, structs, made));
}

#[test]
fn one_command_with_arguments(rt: HostRuntime) -> Result<(), Fail> {
    let program = compiled(rt.alloc(), MAP)?;
    sets_fields(&rt, rt.alloc(), program.typed.structs.items());
    drop(program);
    Ok(())
}

/// Whether it is valid where v2 is set on one branch, and this is written on the other.
fn is_valid_on_the_other_branch<R: Abort>(
    rt: &R,
    alloc: Global,
    structs: &[StructInfo],
    value: CodeExpr,
) -> bool {
    let body = [
        branch(1, 3),
        set(2, CodeExpr::Num(5)),
        Cmd::Done,
        write(variable(0), value),
        Cmd::Done,
    ];
    are_right(rt, alloc, structs, body)
}

// A variable that is set only on the other branch.
fn sets_on_a_branch<R: Abort>(rt: &R, alloc: Global, structs: &[StructInfo]) {
    let two = CodeExpr::Num(2);
    holds(
        rt,
        !is_valid_on_the_other_branch(rt, alloc, structs, variable(2)),
    );
    holds(rt, is_valid_on_the_other_branch(rt, alloc, structs, two));
}

fn jumps<R: Abort>(rt: &R, alloc: Global, structs: &[StructInfo]) {
    // a jump backwards, an index that is not there, and a command that nothing reaches
    holds(rt, !is_right_alone(rt, alloc, structs, branch(0, 1)));
    holds(rt, !is_right_alone(rt, alloc, structs, Cmd::Tick));
    holds(rt, !are_right(rt, alloc, structs, [Cmd::Done, Cmd::Done]));
    // a command to which two ways lead
    let met = [branch(1, 1), Cmd::Done];
    holds(rt, !are_right(rt, alloc, structs, met));
    // commands that hang on their own jump backwards
    let hanging = [Cmd::Done, lost_call(alloc), branch(1, 2)];
    holds(rt, !are_right(rt, alloc, structs, hanging));
}

#[test]
fn branches(rt: HostRuntime) -> Result<(), Fail> {
    let program = compiled(rt.alloc(), MAP)?;
    sets_on_a_branch(&rt, rt.alloc(), program.typed.structs.items());
    jumps(&rt, rt.alloc(), program.typed.structs.items());
    drop(program);
    Ok(())
}

fn goes_on<R: Abort>(rt: &R, alloc: Global, structs: &[StructInfo]) {
    // before any step, and after one
    let first = tail(rt, alloc, 1, &[0, 1]);
    holds(rt, !is_right_alone(rt, alloc, structs, first));
    let second = tail(rt, alloc, 1, &[0, 1]);
    holds(rt, is_right_behind_a_step(rt, alloc, structs, second));
    // with an argument too few, and to a unit that is not there
    let short = tail(rt, alloc, 1, &[0]);
    holds(rt, !is_right_behind_a_step(rt, alloc, structs, short));
    let lost = tail(rt, alloc, 2, &[]);
    holds(rt, !is_right_behind_a_step(rt, alloc, structs, lost));
}

#[test]
fn tails(rt: HostRuntime) -> Result<(), Fail> {
    let program = compiled(rt.alloc(), MAP)?;
    goes_on(&rt, rt.alloc(), program.typed.structs.items());
    drop(program);
    Ok(())
}

/// Many commands: 65,534 writes and the end.
fn all_commands<R: Abort>(rt: &R, alloc: Global) -> Vec<Cmd> {
    let mut body = Vec::new(alloc);
    for _ in 0..65_534 {
        let command = write(variable(0), CodeExpr::Num(1));
        body.push(command).expect(rt, "memory");
    }
    body.push(Cmd::Done).expect(rt, "memory");
    body
}

fn judges_all_commands<R: Abort>(rt: &R, alloc: Global, structs: &[StructInfo]) {
    let body = all_commands(rt, alloc);
    holds(rt, is_valid(rt, alloc, structs, body));
}

#[test]
fn many_commands(rt: HostRuntime) -> Result<(), Fail> {
    let program = compiled(rt.alloc(), MAP)?;
    judges_all_commands(&rt, rt.alloc(), program.typed.structs.items());
    drop(program);
    Ok(())
}
