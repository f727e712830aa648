// Counting in 32 bits.

ghost use Rattle.std.specs.Prelude.{◌≡◌, ◌+◌, IfOk};

use crate::no_memory::NoMemory;

/// One more than a number. After the largest of 32 bits there is no memory for another one.
pub fn one_more(n: u32) -> Result<u32, NoMemory>
    ensures { IfOk result (λ m. m ≡ n + 1) }
{
    match n.checked_add(1) {
        None => Err(NoMemory),
        Some(m) => Ok(m),
    }
}
