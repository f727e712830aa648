// The lines of a unit's body, by an explicit stack of the branches that are not written yet.

ghost use Rattle.std.specs.Prelude.{◌≡◌, ◌≤◌, ◌<◌, ◌+◌, ◌-◌, ◌++◌, codes, length, slice_get, IfOk};
ghost use Rattle.ceal_code.specs.Branches.{branch_text, branches_text, branch_weights};
ghost use Rattle.ceal_code.specs.Listing.{command_text, line, follows, commands_at, commands};
ghost use Rattle.ceal_code.specs.Parts.{weight};

use crate::code::Code;
use crate::command::{Cmd, Followers};
use crate::text::{put_expr, put_exprs, put_function, put_indent, put_shape, put_unit, put_var};
use ceal_base::no_memory::NoMemory;
use ceal_base::text::Text;
use std::alloc::Global;

/// Adds a command's line, without its indentation and its end.
#[tactic(auto, using(crate::proofs::Equations::TextSteps::joins), unfolding(crate::specs::Listing::command_text))]
fn put_command(alloc: Global, out: &mut Text, code: &Code, command: &Cmd) -> Result<(), NoMemory>
    ensures { IfOk result
        (λ _. out.new ≡ out.old ++ command_text code.now command.now) }
{
    let structs = code.structs.items();
    match command {
        Cmd::Move { var, value } => {
            put_var(out, *var)?;
            out.append_str(" = ")?;
            put_expr(alloc, out, structs, value)?;
            Ok(())
        }
        Cmd::Tick => {
            out.append_str("tick")?;
            Ok(())
        }
        Cmd::Alloc {
            var,
            function,
            args,
        } => {
            put_var(out, *var)?;
            out.append_str(" = alloc ")?;
            put_function(out, code, *function)?;
            put_exprs(alloc, out, structs, args.items())?;
            Ok(())
        }
        Cmd::Modref { var, shape } => {
            put_var(out, *var)?;
            out.append_str(" = modref ")?;
            put_shape(out, structs, *shape)?;
            Ok(())
        }
        Cmd::Write { place, value } => {
            out.append_str("write(")?;
            put_expr(alloc, out, structs, place)?;
            out.append_str(", ")?;
            put_expr(alloc, out, structs, value)?;
            out.append_str(")")?;
            Ok(())
        }
        Cmd::If { test, .. } => {
            out.append_str("if ")?;
            put_expr(alloc, out, structs, test)?;
            Ok(())
        }
        Cmd::Done => {
            out.append_str("done")?;
            Ok(())
        }
        Cmd::Tail { unit, args } => {
            out.append_str("tail ")?;
            put_unit(out, *unit)?;
            put_exprs(alloc, out, structs, args.items())?;
            Ok(())
        }
        Cmd::Read {
            var,
            place,
            unit,
            args,
        } => {
            put_var(out, *var)?;
            out.append_str(" = read(")?;
            put_expr(alloc, out, structs, place)?;
            out.append_str(") ")?;
            put_unit(out, *unit)?;
            put_exprs(alloc, out, structs, args.items())?;
            Ok(())
        }
        Cmd::Call {
            function,
            args,
            unit,
            rest,
        } => {
            out.append_str("call ")?;
            put_function(out, code, *function)?;
            put_exprs(alloc, out, structs, args.items())?;
            out.append_str(" ")?;
            put_unit(out, *unit)?;
            put_exprs(alloc, out, structs, rest.items())?;
            Ok(())
        }
    }
}

/// Adds a command's line.
#[tactic(auto, using(crate::proofs::Equations::TextSteps::joins))]
fn put_line(
    alloc: Global,
    out: &mut Text,
    code: &Code,
    depth: usize,
    command: &Cmd,
) -> Result<(), NoMemory>
    ensures { IfOk result
        (λ _. out.new ≡ out.old ++ line depth (command_text code.now command.now)) }
{
    put_indent(out, depth)?;
    put_command(alloc, out, code, command)?;
    out.append_str("\n")?;
    Ok(())
}

/// Adds a line `else`.
#[tactic(auto, using(crate::proofs::Equations::TextSteps::joins))]
pub fn put_else(out: &mut Text, depth: usize) -> Result<(), NoMemory>
    ensures { IfOk result (λ _. out.new ≡ out.old ++ line depth (codes "else")) }
{
    put_indent(out, depth)?;
    out.append_str("else")?;
    out.append_str("\n")?;
    Ok(())
}

/// One level more; no text is so deep that there is none.
pub fn deeper(depth: usize) -> Result<usize, NoMemory>
    ensures { IfOk result (λ d. d ≡ depth + 1) }
{
    match depth.checked_add(1) {
        None => Err(NoMemory),
        Some(depth) => Ok(depth),
    }
}

/// A branch that is not written yet: the index of its first command, how deep it is, whether it is the no part of a
/// condition at that depth, and how many commands a path of it may have.
#[derive(Drop)]
pub struct Branch {
    pub index: usize,
    pub depth: usize,
    pub is_no: bool,
    pub left: usize,
}

/// A body that is written, with the code that it is a part of.
#[derive(Drop)]
struct Body<'a> {
    alloc: Global,
    code: &'a Code,
    commands: &'a [Cmd],
}

/// Where a path of a body continues: the index of a command, how deep it is, and how many commands the path may have.
#[derive(Clone, Copy)]
struct Point {
    index: usize,
    depth: usize,
    left: usize,
}

#[tactic(auto, using(crate::proofs::Equations::BranchSteps::push_steps))]
fn put_branch(body: &Body<'_>, branches: &mut Vec<Branch>, branch: Branch) -> Result<(), NoMemory>
    ensures text { IfOk result (λ _.
        branches_text body.now.code.now body.now.commands.now branches.new.items
        ≡ branch_text body.now.code.now body.now.commands.now branch
        ++ branches_text body.now.code.now body.now.commands.now branches.old.items) }
    ensures heavier { IfOk result
        (λ _. branch_weights branches.new.items
        ≡ weight branch.left + branch_weights branches.old.items) }
{
    branches.push(branch)?;
    Ok(())
}

fn place(index: usize, depth: usize, left: usize) -> Point
    ensures { result ≡ record { index = index; depth = depth; left = left } }
{
    Point { index, depth, left }
}

/// Puts the branch that continues at an index.
fn put_next(body: &Body<'_>, branches: &mut Vec<Branch>, at: Point) -> Result<(), NoMemory>
    ensures text { IfOk result (λ _.
        branches_text body.now.code.now body.now.commands.now branches.new.items
        ≡ commands body.now.code.now body.now.commands.now at.left at.index at.depth
        ++ branches_text body.now.code.now body.now.commands.now branches.old.items) }
    ensures heavier { IfOk result
        (λ _. branch_weights branches.new.items
        ≡ weight at.left + branch_weights branches.old.items) }
{
    let branch = Branch {
        index: at.index,
        depth: at.depth,
        is_no: false,
        left: at.left,
    };
    put_branch(body, branches, branch)?;
    Ok(())
}

/// Puts the no part of a condition.
fn put_no(body: &Body<'_>, branches: &mut Vec<Branch>, at: Point) -> Result<(), NoMemory>
    ensures text { IfOk result (λ _.
        branches_text body.now.code.now body.now.commands.now branches.new.items
        ≡ (line at.depth (codes "else")
        ++ commands body.now.code.now body.now.commands.now at.left at.index (at.depth + 1))
        ++ branches_text body.now.code.now body.now.commands.now branches.old.items) }
    ensures heavier { IfOk result
        (λ _. branch_weights branches.new.items
        ≡ weight at.left + branch_weights branches.old.items) }
{
    let branch = Branch {
        index: at.index,
        depth: at.depth,
        is_no: true,
        left: at.left,
    };
    put_branch(body, branches, branch)?;
    Ok(())
}

/// Puts what follows a command of a path of at most `left` commands.
#[tactic(auto, using(crate::proofs::Equations::BranchSteps::follow_steps))]
fn put_following(
    body: &Body<'_>,
    branches: &mut Vec<Branch>,
    command: &Cmd,
    at: Point,
) -> Result<(), NoMemory>
    requires some { 0 < at.left }
    requires there { at.index < length body.now.commands.now }
    ensures text { IfOk result (λ _.
        branches_text body.now.code.now body.now.commands.now branches.new.items
        ≡ follows (commands body.now.code.now body.now.commands.now (at.left - 1)) command.now
        at.index at.depth
        ++ branches_text body.now.code.now body.now.commands.now branches.old.items) }
    ensures lighter { IfOk result
        (λ _. branch_weights branches.new.items + 1
        ≤ branch_weights branches.old.items + weight at.left) }
{
    let left = at.left - 1;
    let depth = at.depth;
    match command.followers(at.index) {
        Followers::Nowhere => Ok(()),
        Followers::One(index) => {
            put_next(body, branches, place(index, depth, left))?;
            Ok(())
        }
        Followers::Two(yes, no) => {
            let inside = deeper(depth)?;
            put_no(body, branches, place(no, depth, left))?;
            put_next(body, branches, place(yes, inside, left))?;
            Ok(())
        }
    }
}

/// Adds a command's line, and puts what follows it.
#[tactic(auto, using(crate::proofs::Equations::BranchSteps::at_steps))]
fn write_command(
    body: &Body<'_>,
    out: &mut Text,
    branches: &mut Vec<Branch>,
    command: &Cmd,
    at: Point,
) -> Result<(), NoMemory>
    requires some { 0 < at.left }
    requires there { at.index < length body.now.commands.now }
    ensures text { IfOk result (λ _.
        out.new ++ branches_text body.now.code.now body.now.commands.now branches.new.items
        ≡ out.old ++ ((line at.depth (command_text body.now.code.now command.now)
        ++ follows (commands body.now.code.now body.now.commands.now (at.left - 1)) command.now
        at.index at.depth)
        ++ branches_text body.now.code.now body.now.commands.now branches.old.items)) }
    ensures lighter { IfOk result
        (λ _. branch_weights branches.new.items + 1
        ≤ branch_weights branches.old.items + weight at.left) }
{
    put_line(body.alloc, out, body.code, at.depth, command)?;
    put_following(body, branches, command, at)?;
    Ok(())
}

/// The same for the command at an index, if there is one.
#[tactic(auto, using(crate::proofs::Equations::PathSteps::weight_steps))]
fn write_at(
    body: &Body<'_>,
    out: &mut Text,
    branches: &mut Vec<Branch>,
    at: Point,
) -> Result<(), NoMemory>
    requires some { 0 < at.left }
    ensures text { IfOk result (λ _.
        out.new ++ branches_text body.now.code.now body.now.commands.now branches.new.items
        ≡ out.old ++ (commands_at body.now.code.now
        (commands body.now.code.now body.now.commands.now (at.left - 1))
        (slice_get body.now.commands.now at.index) at.index at.depth
        ++ branches_text body.now.code.now body.now.commands.now branches.old.items)) }
    ensures lighter { IfOk result
        (λ _. branch_weights branches.new.items + 1
        ≤ branch_weights branches.old.items + weight at.left) }
{
    match body.commands.get(at.index) {
        None => Ok(()),
        Some(command) => {
            write_command(body, out, branches, command, at)?;
            Ok(())
        }
    }
}

#[tactic(auto, using(crate::proofs::Equations::BranchSteps::command_steps))]
fn write_commands(
    body: &Body<'_>,
    out: &mut Text,
    branches: &mut Vec<Branch>,
    at: Point,
) -> Result<(), NoMemory>
    ensures text { IfOk result (λ _.
        out.new ++ branches_text body.now.code.now body.now.commands.now branches.new.items
        ≡ out.old ++ (commands body.now.code.now body.now.commands.now at.left at.index at.depth
        ++ branches_text body.now.code.now body.now.commands.now branches.old.items)) }
    ensures lighter { IfOk result
        (λ _. branch_weights branches.new.items + 1
        ≤ branch_weights branches.old.items + weight at.left) }
{
    if at.left == 0 {
        return Ok(());
    }
    write_at(body, out, branches, at)?;
    Ok(())
}

/// Writes the beginning of a branch, and puts what follows it.
#[tactic(auto, using(crate::proofs::Equations::TextSteps::joins))]
fn write_branch(
    body: &Body<'_>,
    out: &mut Text,
    branches: &mut Vec<Branch>,
    branch: Branch,
) -> Result<(), NoMemory>
    ensures text { IfOk result (λ _.
        out.new ++ branches_text body.now.code.now body.now.commands.now branches.new.items
        ≡ out.old ++ (branch_text body.now.code.now body.now.commands.now branch
        ++ branches_text body.now.code.now body.now.commands.now branches.old.items)) }
    ensures lighter { IfOk result
        (λ _. branch_weights branches.new.items + 1
        ≤ branch_weights branches.old.items + weight branch.left) }
{
    let Branch {
        index,
        depth,
        is_no,
        left,
    } = branch;
    if is_no {
        put_else(out, depth)?;
        let inside = deeper(depth)?;
        write_commands(body, out, branches, place(index, inside, left))?;
        Ok(())
    } else {
        write_commands(body, out, branches, place(index, depth, left))?;
        Ok(())
    }
}

/// Adds the lines of a body, indented once.
#[tactic(auto, using(crate::proofs::Equations::BranchSteps::body_steps))]
pub fn put_body(alloc: Global, out: &mut Text, code: &Code, body: &[Cmd]) -> Result<(), NoMemory>
    ensures { IfOk result
        (λ _. out.new ≡ out.old ++ commands code.now body.now (length body.now) 0 1) }
{
    let mut branches = Vec::new(alloc);
    branches.push(Branch {
        index: 0,
        depth: 1,
        is_no: false,
        left: body.len(),
    })?;
    let commands = body;
    let whole = Body {
        alloc,
        code,
        commands,
    };
    while let Some(branch) = branches.pop() {
        write_branch(&whole, out, &mut branches, branch)?;
    }
    Ok(())
}
