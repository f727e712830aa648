// Which types go together.

ghost use Rattle.std.specs.Prelude.{◌≡◌};
ghost use Rattle.ceal_base.specs.WellTyped.{kind_held};
ghost use Rattle.ceal_base.specs.Kinds as base;
ghost use Rattle.ceal_types.specs.Kinds as spec;

use ceal_base::kind::Kind;

/// Whether two kinds are one.
pub fn same_kind(a: Kind, b: Kind) -> bool
    ensures value { result ≡ base.same_kind a b }
{
    match (a, b) {
        (Kind::Int, Kind::Int) => true,
        (Kind::Ptr(s), Kind::Ptr(t)) => s == t,
        (Kind::ModInt, Kind::ModInt) => true,
        (Kind::ModPtr(s), Kind::ModPtr(t)) => s == t,
        _ => false,
    }
}

fn is_pointer(kind: Kind) -> bool
    ensures { result ≡ base.is_pointer kind }
{
    match kind {
        Kind::Int => false,
        Kind::Ptr(_) => true,
        Kind::ModInt => true,
        Kind::ModPtr(_) => true,
    }
}

/// Whether a value of this type, `null` where it has none, may be used where that type is asked.
pub fn suits(asked: Kind, given: Option<Kind>) -> bool
    ensures value { result ≡ spec.suits asked given }
{
    match given {
        None => is_pointer(asked),
        Some(kind) => same_kind(asked, kind),
    }
}

/// Whether values of these types may be compared.
pub fn comparable(left: Option<Kind>, right: Option<Kind>) -> bool
    ensures value { result ≡ spec.comparable left right }
{
    match (left, right) {
        (None, None) => true,
        (None, Some(kind)) => is_pointer(kind),
        (Some(kind), None) => is_pointer(kind),
        (Some(kind), Some(other)) => same_kind(kind, other),
    }
}

/// What a modifiable holds, given the type of a pointer to it.
pub fn held(place: Option<Kind>) -> Option<Kind>
    ensures value { result ≡ kind_held place }
{
    match place {
        Some(Kind::ModInt) => Some(Kind::Int),
        Some(Kind::ModPtr(s)) => Some(Kind::Ptr(s)),
        Some(Kind::Int) => None,
        Some(Kind::Ptr(_)) => None,
        None => None,
    }
}
