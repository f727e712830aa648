// The text of the memory that a block reaches.

ghost use Rattle.std.specs.Prelude.{IsSome, IfOk};
ghost use Rattle.ceal_show.specs.Graph.{IsGraphText};
ghost use Rattle.ceal_show.specs.Shown.{IsWhole};

use crate::lines::put_lines;
use crate::reach::reach;
use crate::view::View;
use ceal_base::no_memory::NoMemory;
use ceal_base::text::Text;
use ceal_base::word::BlockId;
use std::alloc::Global;

/// The text of the memory that a block reaches: a line for each block, breadth first, and the line `end`. The time is
/// about linear in the size of the text, and no path is too long for the host's stack.
pub fn graph_text<V: View>(alloc: Global, view: &V, root: BlockId) -> Result<Text, NoMemory>
    requires whole { IsWhole (V.declared view.now) (V.memory view.now) }
    requires there { IsSome (V.memory view.now root) }
    ensures { IfOk result
        (λ text. IsGraphText (V.declared view.now) (V.memory view.now)
        (V.name view.now) root text) }
{
    let met = reach(alloc, view, root)?;
    let mut out = Text::empty(alloc);
    let written = put_lines(&mut out, view, &met);
    drop(met);
    written?;
    out.append_str("end\n")?;
    Ok(out)
}
