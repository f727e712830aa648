// Replies with the name of their session.

ghost use Rattle.std.specs.Prelude.{◌≡◌, ◌++◌, IfOk, OnOk};
ghost use Rattle.ceal_many.specs.Prefixes as prefixes;

use ceal_base::no_memory::NoMemory;
use ceal_base::text::Text;
use std::alloc::Global;

/// Puts the name, `:` and a space, where a line begins.
fn put_prefix(text: &mut Text, name: &[u8], begins: bool) -> Result<(), NoMemory>
    ensures { OnOk result (text.new ≡ text.old ++ prefixes.prefix_if begins name.now) }
{
    if !begins {
        return Ok(());
    }
    text.append(name)?;
    text.append(b": ")
}

/// A reply with the name, `:` and a space before each of its lines.
pub fn prefixed(alloc: Global, name: &[u8], reply: &[u8]) -> Result<Text, NoMemory>
    ensures { IfOk result (λ text. text ≡ prefixes.prefixed name.now reply.now) }
{
    let mut text = Text::empty(alloc);
    let mut begins = true;
    for byte in reply {
        put_prefix(&mut text, name, begins)?;
        text.push(*byte)?;
        begins = *byte == b'\n';
    }
    Ok(text)
}
