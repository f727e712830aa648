// The names of cells and nodes.

ghost use Rattle.std.specs.Prelude.{◌≡◌, ◌++◌, IfOk};
ghost use Rattle.ceal_gen.specs.Names.{cell_name, node_name};

use ceal_base::no_memory::NoMemory;
use ceal_base::text::Text;

/// Adds the name of a cell.
pub fn put_cell_name(out: &mut Text, cell: u64) -> Result<(), NoMemory>
    ensures { IfOk result (λ _. out.new ≡ out.old ++ cell_name cell) }
{
    out.append_str("c")?;
    out.append_number(cell as usize)
}

/// Adds the name of a node.
pub fn put_node_name(out: &mut Text, node: u64) -> Result<(), NoMemory>
    ensures { IfOk result (λ _. out.new ≡ out.old ++ node_name node) }
{
    out.append_str("n")?;
    out.append_number(node as usize)
}
