// The number of a field, by its name.

ghost use Rattle.std.specs.Prelude.{◌≡◌, position, bytes_eq, IfOk};
ghost use Rattle.ceal_session.specs.Senses.{field_named};

use ceal_base::no_memory::NoMemory;
use ceal_base::text::Text;
use ceal_base::typed::FieldInfo;

/// A place in a list as a number of the program. Places past the numbers are out of memory.
fn number(place: Option<usize>) -> Result<Option<u32>, NoMemory>
    ensures { IfOk result (λ number. number ≡ place) }
{
    match place {
        None => Ok(None),
        Some(place) if place < 4_294_967_296 => Ok(Some(place as u32)),
        Some(_) => Err(NoMemory),
    }
}

fn same(a: &Text, b: &Text) -> bool
    ensures { result ≡ bytes_eq a.now b.now }
{
    a.items() == b.items()
}

fn field_place(fields: &[FieldInfo], name: &Text) -> Option<usize>
    ensures { result ≡ position (λ f. bytes_eq f.name name.now) fields.now }
{
    fields.iter().position(|f| same(&f.name, name))
}

/// The number of a field.
pub fn field_number(fields: &[FieldInfo], name: &Text) -> Result<Option<u32>, NoMemory>
    ensures { IfOk result (λ number. number ≡ field_named fields.now name.now) }
{
    number(field_place(fields, name))
}
