// The workload over a list.

ghost use Rattle.std.specs.Prelude.{◌≡◌, ◌++◌, ◌≤◌, IfOk};
ghost use Rattle.ceal_gen.specs.Draws.{next_state, drawn, state_after};
ghost use Rattle.ceal_gen.specs.ListText.{head_of, tail_text, cell_line, cell_lines, list_run, put_in_front};
ghost use Rattle.ceal_gen.specs.ListText.{put_at_end, take_front, list_text};

use crate::draws::Draws;
use crate::names::put_cell_name;
use crate::programs::map_program;
use ceal_base::no_memory::NoMemory;
use ceal_base::text::Text;
use std::alloc::Global;

fn put_tail(out: &mut Text, cell: u64) -> Result<(), NoMemory>
    requires { 1 ≤ cell }
    ensures { IfOk result (λ _. out.new ≡ out.old ++ tail_text cell) }
{
    if cell == 1 {
        out.append_str("null")
    } else {
        put_cell_name(out, cell - 1)
    }
}

#[tactic(auto, unfolding(crate::specs::ListText::cell_line))]
fn put_cell(out: &mut Text, cell: u64, head: u32) -> Result<(), NoMemory>
    requires { 1 ≤ cell }
    ensures { IfOk result (λ _. out.new ≡ out.old ++ cell_line cell head) }
{
    out.append_str("new ")?;
    put_cell_name(out, cell)?;
    out.append_str(" cell ")?;
    out.append_number(head as usize)?;
    out.append_str(" ")?;
    put_tail(out, cell)?;
    out.append_str("\n")
}

// The head of a cell.
fn draw_head(draws: &mut Draws) -> u32
    ensures state { draws.new ≡ next_state draws.old }
    ensures value { result ≡ head_of (drawn draws.new) }
{
    draws.draw() % 1000
}

// Adds the cells from the first on.
fn put_cells(out: &mut Text, size: u32, draws: &mut Draws) -> Result<(), NoMemory>
    ensures lines { IfOk result (λ _. out.new ≡ out.old ++ cell_lines draws.old size) }
    ensures state { IfOk result (λ _. draws.new ≡ state_after draws.old size) }
{
    for before in 0..size {
        let head = draw_head(draws);
        put_cell(out, u64::from(before) + 1, head)?;
    }
    Ok(())
}

// Adds the first run.
fn put_run(out: &mut Text, size: u64) -> Result<(), NoMemory>
    ensures { IfOk result (λ _. out.new ≡ out.old ++ list_run size) }
{
    out.append_str("mod l cell ")?;
    put_cell_name(out, size)?;
    out.append_str("\nmod o cell null\nrun map l o\nsteps\nblocks\n")?;
    Ok(())
}

// Adds the edit that puts a cell in front.
fn put_front(out: &mut Text, size: u64, head: u32) -> Result<(), NoMemory>
    ensures { IfOk result (λ _. out.new ≡ out.old ++ put_in_front size head) }
{
    out.append_str("new y1 cell ")?;
    out.append_number(head as usize)?;
    out.append_str(" ")?;
    put_cell_name(out, size)?;
    out.append_str("\nset l y1\npropagate\nwork\n")?;
    Ok(())
}

// Adds the edit that puts a cell at the end.
fn put_end(out: &mut Text, head: u32) -> Result<(), NoMemory>
    ensures { IfOk result (λ _. out.new ≡ out.old ++ put_at_end head) }
{
    out.append_str("new y2 cell ")?;
    out.append_number(head as usize)?;
    out.append_str(" null\nset c1.tail y2\npropagate\nwork\n")?;
    Ok(())
}

// Adds the edit that takes the cell in front away.
fn put_take(out: &mut Text, size: u64) -> Result<(), NoMemory>
    ensures { IfOk result (λ _. out.new ≡ out.old ++ take_front size) }
{
    out.append_str("set l ")?;
    put_cell_name(out, size)?;
    out.append_str("\npropagate\nwork\nsteps\nblocks\n")?;
    Ok(())
}

/// The text of the workload over a list.
pub fn list(alloc: Global, seed: u32, size: u32) -> Result<Text, NoMemory>
    ensures { IfOk result (λ text. text ≡ list_text seed size) }
{
    let mut draws = Draws::from_seed(seed);
    let mut out = Text::empty(alloc);
    out.append_str(map_program())?;
    out.append_str("%%\n")?;
    put_cells(&mut out, size, &mut draws)?;
    let size = u64::from(size);
    put_run(&mut out, size)?;
    put_front(&mut out, size, draw_head(&mut draws))?;
    put_end(&mut out, draw_head(&mut draws))?;
    put_take(&mut out, size)?;
    Ok(out)
}
