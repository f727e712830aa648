// Numbers of blocks, functions and commands. An overflow is answered by `NoMemory`: there can be no such number of them
// in memory.

ghost use Rattle.std.specs.Prelude.{◌≡◌, ◌≤◌, ◌^◌, ◌+◌, if◌then◌else◌, IfOk, IfErr};

use ceal_base::count;
use ceal_base::no_memory::NoMemory;

/// The number in 32 bits, if it fits.
pub fn number(n: usize) -> Result<u32, NoMemory>
    ensures value { IfOk result (λ k. k ≡ n) }
    ensures full { IfErr result (λ error. 2 ^ 32 ≤ n) }
{
    match u32::try_from(n) {
        Err(_) => Err(NoMemory),
        Ok(k) => Ok(k),
    }
}

/// One more, or not.
pub fn one_more(n: u32, more: bool) -> Result<u32, NoMemory>
    ensures { IfOk result (λ m. m ≡ (if more then n + 1 else n)) }
{
    if more { count::one_more(n) } else { Ok(n) }
}
