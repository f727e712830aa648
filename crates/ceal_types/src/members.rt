// The fields of structs.

ghost use Rattle.std.specs.Prelude.{◌≡◌, IfOk};
ghost use Rattle.ceal_base.specs.Answers.{Gives};
ghost use Rattle.ceal_types.specs.Tables.{find, value_at};
ghost use Rattle.ceal_types.specs.Tables.{element_name as element_name_of};
ghost use Rattle.ceal_types.specs.Expressions.{expression, member, member_with, field_or_row, field_named};
ghost use Rattle.ceal_types.specs.Expressions.{field_of_struct, field_of, field_at, address_of, address_at, element_of};
ghost use Rattle.ceal_types.specs.Expressions.{element_of_row, pick_of, pick_at};

use crate::kinds::suits;
use crate::program::{Access, Field, Member};
use crate::table::Table;
use ceal_base::boxed::Boxed;
use ceal_base::fault::{Fault, FaultCode, FrontError, Span};
use ceal_base::kind::{FieldKind, Kind};
use ceal_base::no_memory::NoMemory;
use ceal_base::operators::Binary;
use ceal_base::syntax::Ident;
use ceal_base::text::Text;
use ceal_base::typed::{TypedExpr, TypedForm};
use std::alloc::Global;

/// The fault of this code at this place.
pub fn fault(code: FaultCode, span: Span) -> FrontError
    ensures value { result ≡ FrontError.Fault (record { code = code; span = span }) }
{
    FrontError::Fault(Fault { code, span })
}

/// The name of an element of a row.
pub fn element_name(row: &Text, index: usize) -> Result<Text, NoMemory>
    ensures value { IfOk result (λ name. name ≡ element_name_of row.now index) }
{
    let mut name = row.copy()?;
    name.append(b"[")?;
    name.append_number(index)?;
    name.append(b"]")?;
    Ok(name)
}

fn member_at(shape: u32, field: u32, found: &Field) -> Member
    ensures { result ≡ member_with shape field found.now }
{
    Member {
        shape,
        field,
        kind: found.kind,
        row: found.row,
    }
}

/// The first field of the row of this name.
fn find_row(fields: &Table<Field>, shape: u32, name: &Ident) -> Result<Member, FrontError>
    ensures { Gives result
        (field_named name.now shape (find fields.now (element_name_of name.now.text 0))) }
{
    let first = element_name(&name.text, 0)?;
    match fields.find(&first) {
        Some((field, found)) => Ok(member_at(shape, field, found)),
        None => Err(fault(FaultCode::T5, name.span)),
    }
}

fn find_field(fields: &Table<Field>, shape: u32, name: &Ident) -> Result<Member, FrontError>
    ensures { Gives result (field_named name.now shape (field_or_row fields.now name.now.text)) }
{
    match fields.find(&name.text) {
        Some((field, found)) => Ok(member_at(shape, field, found)),
        None => find_row(fields, shape, name),
    }
}

fn find_in_struct(
    structs: &Table<Table<Field>>,
    shape: u32,
    name: &Ident,
) -> Result<Member, FrontError>
    ensures { Gives result (field_of_struct name.now shape (value_at structs.now shape)) }
{
    match structs.at(shape) {
        Some(fields) => find_field(fields, shape, name),
        None => Err(fault(FaultCode::T5, name.span)),
    }
}

/// What `e->name` is.
#[tactic(auto, unfolding(crate::specs::Expressions::member))]
pub fn find_member(
    structs: &Table<Table<Field>>,
    name: &Ident,
    e: &TypedExpr,
) -> Result<Member, FrontError>
    ensures value { Gives result (member structs.now name.now e.now) }
{
    match e.kind {
        Some(Kind::Ptr(shape)) => find_in_struct(structs, shape, name),
        Some(Kind::Int) => Err(fault(FaultCode::T4, e.span)),
        Some(Kind::ModInt) => Err(fault(FaultCode::T4, e.span)),
        Some(Kind::ModPtr(_)) => Err(fault(FaultCode::T4, e.span)),
        None => Err(fault(FaultCode::T4, e.span)),
    }
}

fn plain_field(access: &Access<'_>, e: TypedExpr, member: Member) -> Result<TypedExpr, FrontError>
    ensures { Gives result (field_of access.now.at access.now.name.now e member) }
{
    match member.kind {
        FieldKind::Plain(kind) => {
            let e = Boxed::new(access.alloc, e)?;
            Ok(TypedExpr {
                span: access.at,
                kind: Some(kind),
                form: TypedForm::Field(e, member.shape, member.field),
            })
        }
        FieldKind::CellInt => {
            drop(e);
            Err(fault(FaultCode::T1, access.name.span))
        }
        FieldKind::CellPtr(_) => {
            drop(e);
            Err(fault(FaultCode::T1, access.name.span))
        }
    }
}

/// `e->name`, of a plain field.
#[tactic(auto, unfolding(crate::specs::Expressions::field_at))]
pub fn type_field(
    access: &Access<'_>,
    structs: &Table<Table<Field>>,
    e: TypedExpr,
) -> Result<TypedExpr, FrontError>
    ensures value { Gives result (field_at structs.now access.now.at access.now.name.now e) }
{
    let member = find_member(structs, access.name, &e)?;
    plain_field(access, e, member)
}

fn place(
    access: &Access<'_>,
    kind: Kind,
    e: TypedExpr,
    member: Member,
) -> Result<TypedExpr, NoMemory>
    ensures { IfOk result
        (λ p. p ≡ expression access.now.at (Some kind)
        (TypedForm.Address e member.shape member.field)) }
{
    let e = Boxed::new(access.alloc, e)?;
    Ok(TypedExpr {
        span: access.at,
        kind: Some(kind),
        form: TypedForm::Address(e, member.shape, member.field),
    })
}

fn cell(access: &Access<'_>, e: TypedExpr, member: Member) -> Result<TypedExpr, FrontError>
    ensures { Gives result (address_of access.now.at access.now.name.now e member) }
{
    if member.row != 0 {
        drop(e);
        return Err(fault(FaultCode::T1, access.name.span));
    }
    match member.kind {
        FieldKind::Plain(_) => {
            drop(e);
            Err(fault(FaultCode::T3, access.name.span))
        }
        FieldKind::CellInt => {
            let place = place(access, Kind::ModInt, e, member)?;
            Ok(place)
        }
        FieldKind::CellPtr(s) => {
            let place = place(access, Kind::ModPtr(s), e, member)?;
            Ok(place)
        }
    }
}

/// `&e->name`, of an embedded modifiable.
#[tactic(auto, unfolding(crate::specs::Expressions::address_at))]
pub fn type_address(
    access: &Access<'_>,
    structs: &Table<Table<Field>>,
    e: TypedExpr,
) -> Result<TypedExpr, FrontError>
    ensures value { Gives result (address_at structs.now access.now.at access.now.name.now e) }
{
    let member = find_member(structs, access.name, &e)?;
    cell(access, e, member)
}

/// Both expressions on the heap.
pub fn both(
    alloc: Global,
    first: TypedExpr,
    second: TypedExpr,
) -> Result<(Boxed<TypedExpr>, Boxed<TypedExpr>), NoMemory>
    ensures first { IfOk result (λ both. both.0 ≡ first) }
    ensures second { IfOk result (λ both. both.1 ≡ second) }
{
    match Boxed::new(alloc, first) {
        Ok(first) => {
            let second = Boxed::new(alloc, second)?;
            Ok((first, second))
        }
        Err(NoMemory) => {
            drop(second);
            Err(NoMemory)
        }
    }
}

/// The index after a row's address, and what they make.
fn element(
    access: &Access<'_>,
    kind: Kind,
    place: TypedExpr,
    index: TypedExpr,
    row: u32,
) -> Result<TypedExpr, FrontError>
    ensures { Gives result (element_of access.now.at access.now.name.now kind place index row) }
{
    if !suits(Kind::Int, index.kind) {
        let wrong = index.span;
        drop(place);
        drop(index);
        return Err(fault(FaultCode::T1, wrong));
    }
    let (place, index) = both(access.alloc, place, index)?;
    Ok(TypedExpr {
        span: access.at,
        kind: Some(kind),
        form: TypedForm::Binary(Binary::Pick(row), access.name.span, place, index),
    })
}

fn element_of_row(
    access: &Access<'_>,
    kind: Kind,
    e: TypedExpr,
    index: TypedExpr,
    member: Member,
) -> Result<TypedExpr, FrontError>
    ensures { Gives result (element_of_row access.now.at access.now.name.now kind e index member) }
{
    if member.row == 0 {
        drop(e);
        drop(index);
        return Err(fault(FaultCode::T1, access.name.span));
    }
    let place = place(access, kind, e, member)?;
    element(access, kind, place, index, member.row)
}

fn element_of_member(
    access: &Access<'_>,
    e: TypedExpr,
    index: TypedExpr,
    member: Member,
) -> Result<TypedExpr, FrontError>
    ensures { Gives result (pick_of access.now.at access.now.name.now e index member) }
{
    match member.kind {
        FieldKind::Plain(_) => {
            drop(e);
            drop(index);
            Err(fault(FaultCode::T3, access.name.span))
        }
        FieldKind::CellInt => element_of_row(access, Kind::ModInt, e, index, member),
        FieldKind::CellPtr(s) => { element_of_row(access, Kind::ModPtr(s), e, index, member) }
    }
}

/// `&e->name[index]`, of a row of modifiables.
#[tactic(auto, unfolding(crate::specs::Expressions::pick_at))]
pub fn type_pick(
    access: &Access<'_>,
    structs: &Table<Table<Field>>,
    e: TypedExpr,
    index: TypedExpr,
) -> Result<TypedExpr, FrontError>
    ensures value { Gives result (pick_at structs.now access.now.at access.now.name.now e index) }
{
    let member = find_member(structs, access.name, &e)?;
    element_of_member(access, e, index, member)
}
