// What is asked of a command of a valid unit.

ghost use Rattle.std.specs.Prelude.{◌≡◌, ℕ, Bool, List, Option, false, true, slice_get, length};
ghost use Rattle.ceal_code.specs.Step.{kinds_of};
ghost use Rattle.ceal_code.specs.Valid.{all_fit, params_fit, others, unit_fits, read_fits, entry_fits, call_fits};
ghost use Rattle.ceal_code.specs.Valid.{alloc_fits, modref_fits, place_fits, type_of, is_content, content_fits};
ghost use Rattle.ceal_code.specs.Valid.{write_fits, command_ok};

use crate::code::Code;
use crate::command::Cmd;
use crate::expr::{CodeExpr, VarId};
use crate::function::FunctionCode;
use crate::typing::{ExprType, is_fit, is_fit_maybe, kind_at, type_of_expr};
use ceal_base::forest::UnitId;
use ceal_base::kind::{Kind, Shape};
use ceal_base::typed::StructInfo;

/// Whether there is one argument of the right type for each kind.
#[tactic(auto, using(crate::proofs::Equations::CheckSteps::check_steps))]
pub fn do_all_fit(
    structs: &[StructInfo],
    kinds: &[Kind],
    known: &[bool],
    asked: &[Kind],
    args: &[CodeExpr],
) -> bool
    ensures { result ≡ all_fit structs.now kinds.now known.now asked.now args.now }
{
    let mut asked = asked;
    let mut args = args;
    while let Some((kind, more)) = asked.split_first() {
        match args.split_first() {
            None => return false,
            Some((e, rest)) => {
                if !is_fit(*kind, type_of_expr(structs, kinds, known, e)) {
                    return false;
                }
                asked = more;
                args = rest;
            }
        }
    }
    args.is_empty()
}

/// What the types of arguments depend on: structs, the kinds of a function's variables, and which of these are known.
#[derive(Drop)]
struct Typing<'a> {
    structs: &'a [StructInfo],
    kinds: &'a [Kind],
    known: &'a [bool],
}

/// Where a command is: in a unit of a function of the code, where these variables are known.
#[derive(Drop)]
struct Site<'a> {
    code: &'a Code,
    function: u32,
    known: &'a [bool],
}

/// Whether there is one argument of the right type for each parameter, where `theirs` are the kinds of the
/// variables that the parameters are among.
#[tactic(auto, using(crate::proofs::Equations::CheckSteps::param_steps))]
fn do_params_fit(typing: &Typing<'_>, theirs: &[Kind], params: &[VarId], args: &[CodeExpr]) -> bool
    ensures { result ≡ params_fit typing.now.structs.now typing.now.kinds.now typing.now.known.now
        theirs.now params.now args.now }
{
    let mut params = params;
    let mut args = args;
    while let Some((p, more)) = params.split_first() {
        match args.split_first() {
            None => return false,
            Some((e, rest)) => {
                if !is_fit_maybe(kind_at(theirs, *p), typing.type_of(e)) {
                    return false;
                }
                params = more;
                args = rest;
            }
        }
    }
    args.is_empty()
}

/// The same for the parameters but the variable that a read sets.
#[tactic(auto, using(crate::proofs::Equations::CheckSteps::other_steps))]
fn do_others_fit(typing: &Typing<'_>, v: VarId, params: &[VarId], args: &[CodeExpr]) -> bool
    ensures { result
        ≡ params_fit typing.now.structs.now typing.now.kinds.now typing.now.known.now
        typing.now.kinds.now (others v.0 params.now) args.now }
{
    let mut params = params;
    let mut args = args;
    while let Some((p, more)) = params.split_first() {
        if p.0 == v.0 {
            params = more;
            continue;
        }
        match args.split_first() {
            None => return false,
            Some((e, rest)) => {
                if !is_fit_maybe(kind_at(typing.kinds, *p), typing.type_of(e)) {
                    return false;
                }
                params = more;
                args = rest;
            }
        }
    }
    args.is_empty()
}

impl<'a> Typing<'a> {
    /// The type of an expression.
    fn type_of(&self, e: &CodeExpr) -> Option<ExprType>
        ensures { result
            ≡ type_of self.now.structs.now self.now.kinds.now self.now.known.now e.now }
    {
        type_of_expr(self.structs, self.kinds, self.known, e)
    }
}

impl<'a> Site<'a> {
    fn typing(&self) -> Typing<'a>
        ensures structs { result.structs.now ≡ self.now.code.now.structs }
        ensures kinds { result.kinds.now ≡ kinds_of self.now.code.now self.now.function }
        ensures known { result.known.now ≡ self.now.known.now }
    {
        let code = self.code;
        Typing {
            structs: code.structs.items(),
            kinds: code.kinds_of(self.function),
            known: self.known,
        }
    }
}

fn does_unit_fit(site: &Site<'_>, unit: UnitId, args: &[CodeExpr]) -> bool
    ensures { result ≡ unit_fits site.now.code.now site.now.function site.now.known.now
        (slice_get site.now.code.now.units unit.0) args.now }
{
    match site.code.units().get(unit.0 as usize) {
        None => false,
        Some(unit) => {
            let typing = site.typing();
            unit.function == site.function
                && do_params_fit(&typing, typing.kinds, unit.params(), args)
        }
    }
}

fn does_read_fit(site: &Site<'_>, v: VarId, unit: UnitId, args: &[CodeExpr]) -> bool
    ensures { result ≡ read_fits site.now.code.now site.now.function site.now.known.now v.0
        (slice_get site.now.code.now.units unit.0) args.now }
{
    match site.code.units().get(unit.0 as usize) {
        None => false,
        Some(unit) => {
            unit.function == site.function && do_others_fit(&site.typing(), v, unit.params(), args)
        }
    }
}

fn does_entry_fit(site: &Site<'_>, g: u32, unit: UnitId, args: &[CodeExpr]) -> bool
    ensures { result ≡ entry_fits site.now.code.now site.now.function site.now.known.now g
        (slice_get site.now.code.now.units unit.0) args.now }
{
    match site.code.units().get(unit.0 as usize) {
        None => false,
        Some(unit) => {
            let theirs = site.code.kinds_of(g);
            do_params_fit(&site.typing(), theirs, unit.params(), args)
        }
    }
}

fn does_call_fit(site: &Site<'_>, g: u32, args: &[CodeExpr]) -> bool
    ensures { result ≡ call_fits site.now.code.now site.now.function site.now.known.now g
        (slice_get site.now.code.now.functions g) args.now }
{
    match site.code.functions().get(g as usize) {
        Some(FunctionCode::Core { entry, .. }) => does_entry_fit(site, g, *entry, args),
        Some(FunctionCode::Init { .. }) => false,
        None => false,
    }
}

fn does_alloc_fit(site: &Site<'_>, kind: Option<Kind>, function: u32, args: &[CodeExpr]) -> bool
    ensures { result ≡ alloc_fits site.now.code.now site.now.function site.now.known.now kind
        (slice_get site.now.code.now.functions function) args.now }
{
    match site.code.functions().get(function as usize) {
        Some(FunctionCode::Init { shape, params, .. }) => {
            let Typing {
                structs,
                kinds,
                known,
            } = site.typing();
            is_fit_maybe(kind, Some(ExprType::Of(Kind::Ptr(*shape))))
                && do_all_fit(structs, kinds, known, params.items(), args)
        }
        Some(FunctionCode::Core { .. }) => false,
        None => false,
    }
}

fn does_modref_fit(kind: Option<Kind>, shape: Shape) -> bool
    ensures { result ≡ modref_fits kind shape }
{
    match shape {
        Shape::ModInt => is_fit_maybe(kind, Some(ExprType::Of(Kind::ModInt))),
        Shape::ModPtr(s) => is_fit_maybe(kind, Some(ExprType::Of(Kind::ModPtr(s)))),
        Shape::Struct(_) => false,
    }
}

fn does_place_fit(kind: Option<Kind>, t: Option<ExprType>) -> bool
    ensures { result ≡ place_fits kind t }
{
    match kind {
        Some(Kind::Int) => is_fit(Kind::ModInt, t),
        Some(Kind::Ptr(s)) => is_fit(Kind::ModPtr(s), t),
        Some(Kind::ModInt) => false,
        Some(Kind::ModPtr(_)) => false,
        None => false,
    }
}

fn is_content_kind(kind: Kind) -> bool
    ensures { result ≡ is_content kind }
{
    match kind {
        Kind::Int => true,
        Kind::Ptr(_) => true,
        Kind::ModInt => false,
        Kind::ModPtr(_) => false,
    }
}

/// Whether a value of this type goes into some modifiable.
fn does_content_fit(t: Option<ExprType>) -> bool
    ensures { result ≡ content_fits t }
{
    match t {
        None => false,
        Some(ExprType::AnyPointer) => true,
        Some(ExprType::AnyPlace) => false,
        Some(ExprType::Of(kind)) => is_content_kind(kind),
    }
}

fn does_write_fit(place: Option<ExprType>, t: Option<ExprType>) -> bool
    ensures { result ≡ write_fits place t }
{
    match place {
        Some(ExprType::Of(Kind::ModInt)) => is_fit(Kind::Int, t),
        Some(ExprType::Of(Kind::ModPtr(s))) => is_fit(Kind::Ptr(s), t),
        Some(ExprType::AnyPointer) => does_content_fit(t),
        Some(ExprType::AnyPlace) => does_content_fit(t),
        Some(ExprType::Of(Kind::Int)) => false,
        Some(ExprType::Of(Kind::Ptr(_))) => false,
        None => false,
    }
}

/// Whether a command may be in a unit of the function, where these variables are known; `stepped` says that a command
/// before it takes a step.
pub fn is_command_ok(code: &Code, f: u32, known: &[bool], stepped: bool, command: &Cmd) -> bool
    ensures { result ≡ command_ok code.now f known.now stepped command.now }
{
    let structs = code.structs.items();
    let kinds = code.kinds_of(f);
    let site = Site {
        code,
        function: f,
        known,
    };
    match command {
        Cmd::Move { var, value } => is_fit_maybe(
            kind_at(kinds, *var),
            type_of_expr(structs, kinds, known, value),
        ),
        Cmd::Tick => true,
        Cmd::Alloc {
            var,
            function,
            args,
        } => does_alloc_fit(&site, kind_at(kinds, *var), *function, args.items()),
        Cmd::Modref { var, shape } => does_modref_fit(kind_at(kinds, *var), *shape),
        Cmd::Write { place, value } => does_write_fit(
            type_of_expr(structs, kinds, known, place),
            type_of_expr(structs, kinds, known, value),
        ),
        Cmd::If { test, .. } => is_fit(Kind::Int, type_of_expr(structs, kinds, known, test)),
        Cmd::Done => true,
        Cmd::Tail { unit, args } => { stepped && does_unit_fit(&site, *unit, args.items()) }
        Cmd::Read {
            var,
            place,
            unit,
            args,
        } => {
            does_place_fit(
                kind_at(kinds, *var),
                type_of_expr(structs, kinds, known, place),
            ) && does_read_fit(&site, *var, *unit, args.items())
        }
        Cmd::Call {
            function,
            args,
            unit,
            rest,
        } => {
            does_call_fit(&site, *function, args.items())
                && does_unit_fit(&site, *unit, rest.items())
        }
    }
}
