// Types. A `take_..` takes one token.

ghost use Rattle.std.specs.Prelude.{◌≡◌, false};
ghost use Rattle.ceal_grammar.specs.Machine.{type_begin, type_starts, star_or, at_mod, at_type};

use crate::marks::{is_sign, is_word, name, same_word};
use ceal_base::syntax::{Ident, TypeForm};
use ceal_grammar::state::{TypePart, Typing};
use ceal_lex::token::{Reserved, Sign, Token, TokenKind};

/// The type that the word begins.
pub fn begin_type(word: Reserved) -> Option<TypePart>
    ensures value { result ≡ type_begin word }
{
    if same_word(word, Reserved::Int) {
        Some(TypePart::Done(TypeForm::Int))
    } else if same_word(word, Reserved::Struct) {
        Some(TypePart::Struct)
    } else if same_word(word, Reserved::Mod) {
        Some(TypePart::Mod)
    } else {
        None
    }
}

/// How a type begins with this token, if one does.
pub fn start_type(token: &Token) -> Option<TypePart>
    ensures value { result ≡ type_starts token.now.kind }
{
    match token.kind {
        TokenKind::Reserved(word) => begin_type(word),
        _ => None,
    }
}

/// A type that has ended, and the name after it.
fn named(form: TypeForm, token: &mut Token) -> Option<Typing>
    ensures value { result ≡ at_type false (TypePart.Done form) token.old.span token.old.kind }
{
    match name(token) {
        Some(name) => Some(Typing::Named(form, name)),
        None => {
            drop(form);
            None
        }
    }
}

fn take_mod(token: &Token) -> Option<Typing>
    ensures value { result ≡ at_mod token.now.kind }
{
    if is_word(token, Reserved::Int) {
        Some(Typing::More(TypePart::ModInt))
    } else if is_word(token, Reserved::Struct) {
        Some(Typing::More(TypePart::ModStruct))
    } else {
        None
    }
}

fn take_mod_int(cells: bool, token: &mut Token) -> Option<Typing>
    ensures value { result
        ≡ star_or cells TypeForm.ModInt TypeForm.CellInt token.old.span token.old.kind }
{
    if is_sign(token, Sign::Star) {
        Some(Typing::More(TypePart::Done(TypeForm::ModInt)))
    } else if cells {
        named(TypeForm::CellInt, token)
    } else {
        None
    }
}

fn take_mod_named(cells: bool, shape: Ident, token: &mut Token) -> Option<Typing>
    ensures value { result ≡ star_or cells (TypeForm.ModPtr shape)
        (TypeForm.CellPtr shape) token.old.span token.old.kind }
{
    if is_sign(token, Sign::Star) {
        Some(Typing::More(TypePart::Done(TypeForm::ModPtr(shape))))
    } else if cells {
        named(TypeForm::CellPtr(shape), token)
    } else {
        drop(shape);
        None
    }
}

fn take_struct(token: &mut Token) -> Option<Typing>
    ensures value { result ≡ at_type false TypePart.Struct token.old.span token.old.kind }
{
    match name(token) {
        Some(name) => Some(Typing::More(TypePart::StructNamed(name))),
        None => None,
    }
}

fn take_struct_star(shape: Ident, token: &Token) -> Option<Typing>
    ensures value { result
        ≡ at_type false (TypePart.StructNamed shape) token.now.span token.now.kind }
{
    if is_sign(token, Sign::Star) {
        Some(Typing::More(TypePart::Done(TypeForm::Ptr(shape))))
    } else {
        drop(shape);
        None
    }
}

fn take_mod_struct(token: &mut Token) -> Option<Typing>
    ensures value { result ≡ at_type false TypePart.ModStruct token.old.span token.old.kind }
{
    match name(token) {
        Some(name) => Some(Typing::More(TypePart::ModNamed(name))),
        None => None,
    }
}

/// What one more token makes of a type. `cells`: a modifiable within a struct may be here.
pub fn take_type(cells: bool, part: TypePart, token: &mut Token) -> Option<Typing>
    ensures value { result ≡ at_type cells part token.old.span token.old.kind }
{
    match part {
        TypePart::Struct => take_struct(token),
        TypePart::StructNamed(shape) => take_struct_star(shape, token),
        TypePart::Mod => take_mod(token),
        TypePart::ModInt => take_mod_int(cells, token),
        TypePart::ModStruct => take_mod_struct(token),
        TypePart::ModNamed(shape) => take_mod_named(cells, shape, token),
        TypePart::Done(form) => named(form, token),
    }
}
