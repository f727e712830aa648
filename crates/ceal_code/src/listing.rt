// The text of code.

ghost use Rattle.std.specs.Prelude.{◌≡◌, ◌++◌, ◌∷◌, [], ℕ, List, length, replicate, slice_get, IfOk};
ghost use Rattle.ceal_code.specs.Listing.{added, grouped, unit_lines, unit_text_at, units_text, stmt_text, stmts_text};
ghost use Rattle.ceal_code.specs.Listing.{else_text, function_text, functions_text, listing_text};

use crate::branches::{deeper, put_body, put_else};
use crate::code::Code;
use crate::function::{FunctionCode, InitStmt};
use crate::text::{put_expr, put_field, put_indent, put_unit, put_vars};
use crate::unit::Unit;
use ceal_base::items::Items;
use ceal_base::no_memory::NoMemory;
use ceal_base::text::Text;
use ceal_base::typed::StructInfo;
use std::alloc::Global;

/// Adds the lines of a unit of this number.
#[tactic(auto, using(crate::proofs::Equations::TextSteps::joins))]
fn put_unit_lines(
    alloc: Global,
    out: &mut Text,
    code: &Code,
    n: usize,
    unit: &Unit,
) -> Result<(), NoMemory>
    ensures { IfOk result (λ _. out.new ≡ out.old ++ unit_lines code.now n unit.now) }
{
    out.append_str("u")?;
    out.append_number(n)?;
    put_vars(out, unit.params())?;
    out.append_str("\n")?;
    put_body(alloc, out, code, unit.body())?;
    Ok(())
}

fn put_unit_at(alloc: Global, out: &mut Text, code: &Code, n: usize) -> Result<(), NoMemory>
    ensures { IfOk result
        (λ _. out.new
        ≡ out.old ++ unit_text_at code.now n (slice_get code.now.units n)) }
{
    match code.units().get(n) {
        None => Ok(()),
        Some(unit) => {
            put_unit_lines(alloc, out, code, n, unit)?;
            Ok(())
        }
    }
}

/// Adds the lines of the units of these numbers.
#[tactic(auto, using(crate::proofs::Equations::ListingSteps::units_steps))]
fn put_units(alloc: Global, out: &mut Text, code: &Code, ns: &[usize]) -> Result<(), NoMemory>
    ensures { IfOk result (λ _. out.new ≡ out.old ++ units_text code.now ns.now) }
{
    let mut ns = ns;
    while let Some((n, more)) = ns.split_first() {
        put_unit_at(alloc, out, code, *n)?;
        ns = more;
    }
    Ok(())
}

/// The struct that an initialiser fills, among the structs of a program.
#[derive(Drop)]
struct Initialised<'a> {
    alloc: Global,
    structs: &'a [StructInfo],
    shape: u32,
}

/// Adds the lines of a statement of an initialiser.
#[cycle(lines)]
#[tactic(auto, using(crate::proofs::Equations::ListingSteps::stmt_steps))]
fn put_stmt(
    of: &Initialised<'_>,
    out: &mut Text,
    depth: usize,
    stmt: &InitStmt,
) -> Result<(), NoMemory>
    ensures { IfOk result
        (λ _. out.new ≡ out.old ++ stmt_text of.now.structs.now of.now.shape depth stmt.now) }
{
    match stmt {
        InitStmt::Set { field, value } => {
            put_indent(out, depth)?;
            out.append_str("self->")?;
            put_field(out, of.structs, of.shape, *field)?;
            out.append_str(" = ")?;
            put_expr(of.alloc, out, of.structs, value)?;
            out.append_str("\n")?;
            Ok(())
        }
        InitStmt::If { test, yes, no } => {
            put_indent(out, depth)?;
            out.append_str("if ")?;
            put_expr(of.alloc, out, of.structs, test)?;
            out.append_str("\n")?;
            let inside = deeper(depth)?;
            put_stmts(of, out, inside, yes.items())?;
            put_no_part(of, out, depth, no.items())?;
            Ok(())
        }
    }
}

#[cycle(lines)]
#[tactic(auto, using(crate::proofs::Equations::TextSteps::joins))]
fn put_no_part(
    of: &Initialised<'_>,
    out: &mut Text,
    depth: usize,
    stmts: &[InitStmt],
) -> Result<(), NoMemory>
    ensures { IfOk result
        (λ _. out.new ≡ out.old ++ else_text of.now.structs.now of.now.shape depth stmts.now) }
{
    match stmts {
        [] => Ok(()),
        [_, ..] => {
            put_else(out, depth)?;
            let inside = deeper(depth)?;
            put_stmts(of, out, inside, stmts)?;
            Ok(())
        }
    }
}

#[cycle(lines)]
#[tactic(auto, using(crate::proofs::Equations::ListingSteps::stmts_steps))]
fn put_stmts(
    of: &Initialised<'_>,
    out: &mut Text,
    depth: usize,
    stmts: &[InitStmt],
) -> Result<(), NoMemory>
    ensures { IfOk result
        (λ _. out.new ≡ out.old ++ stmts_text of.now.structs.now of.now.shape depth stmts.now) }
{
    for stmt in stmts {
        put_stmt(of, out, depth, stmt)?;
    }
    Ok(())
}

/// Adds the lines of a function, whose units have these numbers.
#[tactic(auto, using(crate::proofs::Equations::TextSteps::joins))]
fn put_function_lines(
    alloc: Global,
    out: &mut Text,
    code: &Code,
    function: &FunctionCode,
    units: &[usize],
) -> Result<(), NoMemory>
    ensures { IfOk result
        (λ _. out.new ≡ out.old ++ function_text code.now function.now units.now) }
{
    match function {
        FunctionCode::Core { name, entry, .. } => {
            out.append_str("fn ")?;
            out.append(name.items())?;
            out.append_str(" ")?;
            put_unit(out, *entry)?;
            out.append_str("\n")?;
            put_units(alloc, out, code, units)?;
            Ok(())
        }
        FunctionCode::Init {
            name,
            shape,
            body,
            ..
        } => {
            out.append_str("init ")?;
            out.append(name.items())?;
            out.append_str("\n")?;
            let of = Initialised {
                alloc,
                structs: code.structs.items(),
                shape: *shape,
            };
            put_stmts(&of, out, 1, body.items())?;
            Ok(())
        }
    }
}

/// Adds the lines of functions, each with the numbers of its units.
#[tactic(auto, using(crate::proofs::Equations::ListingSteps::functions_steps))]
fn put_functions(
    alloc: Global,
    out: &mut Text,
    code: &Code,
    functions: &[FunctionCode],
    groups: &[Items<usize>],
) -> Result<(), NoMemory>
    ensures { IfOk result
        (λ _. out.new ≡ out.old ++ functions_text code.now functions.now groups.now) }
{
    let mut functions = functions;
    let mut groups = groups;
    while let Some((function, more)) = functions.split_first() {
        match groups.split_first() {
            None => return Ok(()),
            Some((units, rest)) => {
                put_function_lines(alloc, out, code, function, units.items())?;
                functions = more;
                groups = rest;
            }
        }
    }
    Ok(())
}

/// Adds a number to one of the lists, if it is there.
fn add_to(groups: &mut Vec<Items<usize>>, f: usize, n: usize) -> Result<(), NoMemory>
    ensures { IfOk result (λ _. groups.new.items ≡ added groups.old.items f n) }
{
    if f < groups.len() {
        let group = &mut groups[f];
        group.push(n)?;
    }
    Ok(())
}

fn no_groups(alloc: Global, n: usize) -> Result<Vec<Items<usize>>, NoMemory>
    ensures { IfOk result (λ groups. groups.items ≡ replicate n []) }
{
    let mut groups = Vec::new(alloc);
    for i in 0..n {
        groups.push(Items::empty(alloc))?;
    }
    Ok(groups)
}

/// The numbers of the units of each function.
#[tactic(auto, using(crate::proofs::Equations::ListingSteps::group_steps))]
fn group_units(alloc: Global, n: usize, units: &[Unit]) -> Result<Vec<Items<usize>>, NoMemory>
    ensures { IfOk result (λ groups. groups.items ≡ grouped (replicate n []) 0 units.now) }
{
    let mut groups = no_groups(alloc, n)?;
    let mut units = units;
    let mut at = 0;
    while let Some((unit, more)) = units.split_first() {
        add_to(&mut groups, unit.function as usize, at)?;
        at += 1;
        units = more;
    }
    Ok(groups)
}

/// The text of code: for each function in text order `fn NAME uK`, with its entry unit, and its units, or
/// `init NAME` and its statements. Lines end with a line feed.
#[tactic(auto, unfolding(crate::specs::Listing::listing_text))]
pub fn listing(alloc: Global, code: &Code) -> Result<Text, NoMemory>
    ensures exact { IfOk result (λ text. text ≡ listing_text code.now) }
{
    let functions = code.functions();
    let groups = group_units(alloc, functions.len(), code.units())?;
    let mut out = Text::empty(alloc);
    put_functions(alloc, &mut out, code, functions, &groups)?;
    Ok(out)
}
