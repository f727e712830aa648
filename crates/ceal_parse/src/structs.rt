// Structs. A `take_..` takes one token: it moves the place within the struct, or answers that no program continues this
// way.

ghost use Rattle.std.specs.Prelude.{◌≡◌, ◌≤◌, List, false, true, IfOk};
ghost use Rattle.ceal_base.specs.declared.syntax.Entry.{Entry as EntryOf};
ghost use Rattle.ceal_grammar.specs.Machine.{at_struct, at_member, at_member_end, at_length, at_sized};
ghost use Rattle.ceal_grammar.specs.Machine.{fields_with_member};
ghost use Rattle.ceal_grammar.specs.Machine.{with_member, is_cell, length_of, wants};
ghost use Rattle.ceal_grammar.specs.Trees.{row_form};
ghost use Rattle.ceal_parse.specs.Reading.{is_closed, PlaceFits};

use crate::marks::{is_sign, length, name};
use crate::turn::{no_name, put};
use crate::typing::{start_type, take_type};
use ceal_base::fault::Span;
use ceal_base::items::Items;
use ceal_base::no_memory::NoMemory;
use ceal_base::syntax::{Entry, FieldDecl, Ident, StructDecl, TypeForm};
use ceal_grammar::state::{Layout, State, StructPlace, TypePart, Typing};
use ceal_lex::token::{Sign, Token};
use std::alloc::Global;
use std::mem;

/// The struct continues at this place.
fn stand(place: &mut StructPlace, next: StructPlace) -> bool
    ensures place { place.new ≡ next }
    ensures on { result ≡ true }
{
    put(place, next);
    true
}

fn take_begun(place: &mut StructPlace, token: &mut Token) -> bool
    ensures value { (es : List EntryOf) → wants result (State.Struct es place.new)
        ≡ at_struct es StructPlace.Begun token.old.span token.old.kind }
{
    match name(token) {
        Some(name) => stand(place, StructPlace::Named(name)),
        None => false,
    }
}

fn take_named(alloc: Global, place: &mut StructPlace, name: Ident, token: &Token) -> bool
    ensures value { (es : List EntryOf) → wants result (State.Struct es place.new)
        ≡ at_struct es (StructPlace.Named name) token.now.span token.now.kind }
{
    if is_sign(token, Sign::LeftBrace) {
        let layout = Layout {
            decl: StructDecl {
                name,
                fields: Items::empty(alloc),
            },
            count: 0,
        };
        stand(place, StructPlace::Members(layout))
    } else {
        drop(name);
        false
    }
}

/// A field, or `}`.
fn take_member(place: &mut StructPlace, layout: Layout, token: &Token) -> bool
    ensures value { (es : List EntryOf) → wants result (State.Struct es place.new)
        ≡ at_member es layout token.now.kind }
{
    if is_sign(token, Sign::RightBrace) {
        stand(place, StructPlace::Closed(layout.decl))
    } else {
        match start_type(token) {
            Some(part) => stand(place, StructPlace::Typing(layout, part)),
            None => {
                drop(layout);
                false
            }
        }
    }
}

fn take_typing(place: &mut StructPlace, layout: Layout, part: TypePart, token: &mut Token) -> bool
    ensures value { (es : List EntryOf) → wants result (State.Struct es place.new)
        ≡ at_struct es (StructPlace.Typing layout part) token.old.span token.old.kind }
{
    match take_type(true, part, token) {
        Some(Typing::More(part)) => stand(place, StructPlace::Typing(layout, part)),
        Some(Typing::Named(form, name)) => {
            stand(place, StructPlace::Ends(layout, FieldDecl { form, name }))
        }
        None => {
            drop(layout);
            false
        }
    }
}

/// How many fields there are with a member of this type, where `count` of them come before it.
fn widen(count: u32, form: &TypeForm) -> u32
    requires room { fields_with_member count form.now ≤ 255 }
    ensures value { result ≡ fields_with_member count form.now }
{
    match form {
        TypeForm::CellRow(length) => count + *length,
        TypeForm::CellPtrRow(_, length) => count + *length,
        _ => count + 1,
    }
}

/// The members with this one, which has ended.
fn end_member(layout: Layout, member: FieldDecl) -> Result<Layout, NoMemory>
    requires room { fields_with_member layout.count member.form ≤ 255 }
    ensures value { IfOk result (λ l. l ≡ with_member layout member) }
{
    let mut layout = layout;
    layout.count = widen(layout.count, &member.form);
    layout.decl.fields.push(member)?;
    Ok(layout)
}

/// Whether the member is a modifiable, so that it may be a row of them.
fn may_be_row(member: &FieldDecl) -> bool
    ensures value { result ≡ is_cell member.now.form }
{
    match &member.form {
        TypeForm::CellInt => true,
        TypeForm::CellPtr(_) => true,
        _ => false,
    }
}

/// The token after a member.
fn take_end(
    place: &mut StructPlace,
    layout: Layout,
    member: FieldDecl,
    token: &Token,
) -> Result<bool, NoMemory>
    requires room { fields_with_member layout.count member.form ≤ 255 }
    ensures value { IfOk result (λ on. (es : List EntryOf) → wants on (State.Struct es place.new)
        ≡ at_member_end es layout member token.now.kind) }
{
    if is_sign(token, Sign::Semicolon) {
        let layout = end_member(layout, member)?;
        Ok(stand(place, StructPlace::Members(layout)))
    } else if may_be_row(&member) && is_sign(token, Sign::LeftBracket) {
        Ok(stand(place, StructPlace::Length(layout, member)))
    } else {
        drop(layout);
        drop(member);
        Ok(false)
    }
}

/// The length of a row.
fn take_length(place: &mut StructPlace, layout: Layout, member: FieldDecl, token: &Token) -> bool
    ensures value { (es : List EntryOf) → wants result (State.Struct es place.new)
        ≡ at_length es layout member (length_of token.now.kind) }
{
    match length(token) {
        Some(length) => stand(place, StructPlace::Sized(layout, member, length)),
        None => {
            drop(layout);
            drop(member);
            false
        }
    }
}

/// A row of modifiables of this type.
fn row(form: TypeForm, length: u64) -> TypeForm
    requires small { length ≤ 255 }
    ensures value { result ≡ row_form form length }
{
    match form {
        TypeForm::CellInt => TypeForm::CellRow(length as u32),
        TypeForm::CellPtr(shape) => TypeForm::CellPtrRow(shape, length as u32),
        other => other,
    }
}

/// The `]` after the length of a row.
fn take_sized(
    place: &mut StructPlace,
    layout: Layout,
    member: FieldDecl,
    length: u64,
    token: &Token,
) -> bool
    requires small { length ≤ 255 }
    ensures value { (es : List EntryOf) → wants result (State.Struct es place.new)
        ≡ at_sized es layout member length token.now.kind }
{
    if is_sign(token, Sign::RightBracket) {
        let form = row(member.form, length);
        let name = member.name;
        stand(place, StructPlace::Ends(layout, FieldDecl { form, name }))
    } else {
        drop(layout);
        drop(member);
        false
    }
}

/// The struct of no program, which is left where one was taken away.
fn no_struct(alloc: Global, at: Span) -> StructDecl {
    StructDecl {
        name: no_name(alloc, at),
        fields: Items::empty(alloc),
    }
}

/// The token after a struct, which is put after the entries before it.
pub fn take_closed(
    alloc: Global,
    entries: &mut Items<Entry>,
    shape: &mut StructDecl,
    token: &Token,
) -> Result<bool, NoMemory>
    ensures value { IfOk result (λ on. wants on (State.Top entries.new)
        ≡ at_struct entries.old (StructPlace.Closed shape.old) token.now.span token.now.kind) }
{
    if is_sign(token, Sign::Semicolon) {
        let shape = mem::replace(shape, no_struct(alloc, token.span));
        entries.push(Entry::Struct(shape))?;
        Ok(true)
    } else {
        Ok(false)
    }
}

/// A token within a struct that has not ended.
pub fn take_struct(
    alloc: Global,
    place: &mut StructPlace,
    token: &mut Token,
) -> Result<bool, NoMemory>
    requires open { is_closed place.old ≡ false }
    requires room { PlaceFits place.old }
    ensures value { IfOk result (λ on. (es : List EntryOf) → wants on (State.Struct es place.new)
        ≡ at_struct es place.old token.old.span token.old.kind) }
{
    match mem::replace(place, StructPlace::Begun) {
        StructPlace::Begun => Ok(take_begun(place, token)),
        StructPlace::Named(name) => Ok(take_named(alloc, place, name, token)),
        StructPlace::Members(layout) => Ok(take_member(place, layout, token)),
        StructPlace::Typing(layout, part) => Ok(take_typing(place, layout, part, token)),
        StructPlace::Ends(layout, member) => {
            let on = take_end(place, layout, member, token)?;
            Ok(on)
        }
        StructPlace::Length(layout, member) => Ok(take_length(place, layout, member, token)),
        StructPlace::Sized(layout, member, length) => {
            Ok(take_sized(place, layout, member, length, token))
        }
        StructPlace::Closed(shape) => {
            drop(shape);
            unreachable!()
        }
    }
}
