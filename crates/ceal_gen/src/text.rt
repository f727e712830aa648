// The text of a workload.

ghost use Rattle.std.specs.Prelude.{◌≡◌, IfOk};
ghost use Rattle.ceal_gen.specs.Text.{workload_text};

use crate::kind::Workload;
use crate::list::list;
use crate::tree::tree;
use ceal_base::no_memory::NoMemory;
use ceal_base::text::Text;
use std::alloc::Global;

/// The text of a workload, in time linear in its length. `size` is the number of the list's cells, or of the tree's
/// operators, which has one leaf more. Seed and size are not limited here: the words of the command line are.
pub fn workload(alloc: Global, kind: Workload, seed: u32, size: u32) -> Result<Text, NoMemory>
    ensures exact { IfOk result (λ text. text ≡ workload_text kind seed size) }
{
    match kind {
        Workload::List => list(alloc, seed, size),
        Workload::Tree => tree(alloc, seed, size),
    }
}
