// Heads of functions. A `take_..` takes one token: it moves the place within the head, or answers that no program
// continues this way.

ghost use Rattle.std.specs.Prelude.{◌≡◌, List, false, true, IfOk};
ghost use Rattle.ceal_base.specs.declared.syntax.Entry.{Entry as EntryOf};
ghost use Rattle.ceal_grammar.specs.Machine.{at_head, body_of, wants, with_parameter};
ghost use Rattle.ceal_parse.specs.Reading.{is_done, is_named};

use crate::marks::{is_sign, is_word, name};
use crate::turn::{no_name, put};
use crate::typing::{start_type, take_type};
use ceal_base::fault::Span;
use ceal_base::items::Items;
use ceal_base::no_memory::NoMemory;
use ceal_base::syntax::{Entry, FieldDecl, Ident};
use ceal_grammar::stack::Stack;
use ceal_grammar::state::{Head, HeadPlace, Inside, Mode, State, TypePart, Typing};
use ceal_lex::token::{Reserved, Sign, Token};
use std::alloc::Global;
use std::mem;

/// The head of no function, which is left where one was taken away.
pub(crate) fn no_head(alloc: Global, at: Span) -> Head {
    Head {
        initialiser: None,
        name: no_name(alloc, at),
        params: Items::empty(alloc),
    }
}

/// The head continues at this place.
fn stand(place: &mut HeadPlace, next: HeadPlace) -> bool
    ensures place { place.new ≡ next }
    ensures on { result ≡ true }
{
    put(place, next);
    true
}

fn take_ceal(place: &mut HeadPlace, token: &mut Token) -> bool
    ensures value { (es : List EntryOf) → wants result (State.Head es place.new)
        ≡ at_head es HeadPlace.Ceal token.old.span token.old.kind }
{
    match name(token) {
        Some(name) => stand(place, HeadPlace::CealNamed(name)),
        None => false,
    }
}

fn take_ceal_named(alloc: Global, place: &mut HeadPlace, name: Ident, token: &Token) -> bool
    ensures value { (es : List EntryOf) → wants result (State.Head es place.new)
        ≡ at_head es (HeadPlace.CealNamed name) token.now.span token.now.kind }
{
    if is_sign(token, Sign::LeftParenthesis) {
        let head = Head {
            initialiser: None,
            name,
            params: Items::empty(alloc),
        };
        stand(place, HeadPlace::First(head))
    } else {
        drop(name);
        false
    }
}

fn take_init(place: &mut HeadPlace, token: &mut Token) -> bool
    ensures value { (es : List EntryOf) → wants result (State.Head es place.new)
        ≡ at_head es HeadPlace.Init token.old.span token.old.kind }
{
    match name(token) {
        Some(name) => stand(place, HeadPlace::InitNamed(name)),
        None => false,
    }
}

fn take_init_named(place: &mut HeadPlace, name: Ident, token: &Token) -> bool
    ensures value { (es : List EntryOf) → wants result (State.Head es place.new)
        ≡ at_head es (HeadPlace.InitNamed name) token.now.span token.now.kind }
{
    if is_sign(token, Sign::LeftParenthesis) {
        stand(place, HeadPlace::InitOpened(name))
    } else {
        drop(name);
        false
    }
}

fn take_init_opened(place: &mut HeadPlace, name: Ident, token: &Token) -> bool
    ensures value { (es : List EntryOf) → wants result (State.Head es place.new)
        ≡ at_head es (HeadPlace.InitOpened name) token.now.span token.now.kind }
{
    if is_word(token, Reserved::Struct) {
        stand(place, HeadPlace::InitStruct(name))
    } else {
        drop(name);
        false
    }
}

fn take_init_struct(
    alloc: Global,
    place: &mut HeadPlace,
    function: Ident,
    token: &mut Token,
) -> bool
    ensures value { (es : List EntryOf) → wants result (State.Head es place.new)
        ≡ at_head es (HeadPlace.InitStruct function) token.old.span token.old.kind }
{
    match name(token) {
        Some(shape) => {
            let head = Head {
                initialiser: Some(shape),
                name: function,
                params: Items::empty(alloc),
            };
            stand(place, HeadPlace::Shaped(head))
        }
        None => {
            drop(function);
            false
        }
    }
}

fn take_shaped(place: &mut HeadPlace, head: Head, token: &Token) -> bool
    ensures value { (es : List EntryOf) → wants result (State.Head es place.new)
        ≡ at_head es (HeadPlace.Shaped head) token.now.span token.now.kind }
{
    if is_sign(token, Sign::Star) {
        stand(place, HeadPlace::Starred(head))
    } else {
        drop(head);
        false
    }
}

fn take_starred(place: &mut HeadPlace, head: Head, token: &Token) -> bool
    ensures value { (es : List EntryOf) → wants result (State.Head es place.new)
        ≡ at_head es (HeadPlace.Starred head) token.now.span token.now.kind }
{
    if is_word(token, Reserved::Own) {
        stand(place, HeadPlace::Named(head))
    } else {
        drop(head);
        false
    }
}

/// A parameter.
fn take_next(place: &mut HeadPlace, head: Head, token: &Token) -> bool
    ensures value { (es : List EntryOf) → wants result (State.Head es place.new)
        ≡ at_head es (HeadPlace.Next head) token.now.span token.now.kind }
{
    match start_type(token) {
        Some(part) => stand(place, HeadPlace::Typing(head, part)),
        None => {
            drop(head);
            false
        }
    }
}

/// The first parameter, or `)`.
fn take_first(place: &mut HeadPlace, head: Head, token: &Token) -> bool
    ensures value { (es : List EntryOf) → wants result (State.Head es place.new)
        ≡ at_head es (HeadPlace.First head) token.now.span token.now.kind }
{
    if is_sign(token, Sign::RightParenthesis) {
        stand(place, HeadPlace::Done(head))
    } else {
        take_next(place, head, token)
    }
}

fn parameter(head: Head, parameter: FieldDecl) -> Result<Head, NoMemory>
    ensures value { IfOk result (λ h. h ≡ with_parameter head parameter) }
{
    let mut head = head;
    head.params.push(parameter)?;
    Ok(head)
}

fn take_typing(
    place: &mut HeadPlace,
    head: Head,
    part: TypePart,
    token: &mut Token,
) -> Result<bool, NoMemory>
    ensures value { IfOk result (λ on. (es : List EntryOf) → wants on (State.Head es place.new)
        ≡ at_head es (HeadPlace.Typing head part) token.old.span token.old.kind) }
{
    match take_type(false, part, token) {
        Some(Typing::More(part)) => Ok(stand(place, HeadPlace::Typing(head, part))),
        Some(Typing::Named(form, name)) => {
            let head = parameter(head, FieldDecl { form, name })?;
            Ok(stand(place, HeadPlace::Named(head)))
        }
        None => {
            drop(head);
            Ok(false)
        }
    }
}

fn take_named(place: &mut HeadPlace, head: Head, token: &Token) -> bool
    ensures value { (es : List EntryOf) → wants result (State.Head es place.new)
        ≡ at_head es (HeadPlace.Named head) token.now.span token.now.kind }
{
    if is_sign(token, Sign::Comma) {
        stand(place, HeadPlace::Next(head))
    } else if is_sign(token, Sign::RightParenthesis) {
        stand(place, HeadPlace::Done(head))
    } else {
        drop(head);
        false
    }
}

/// The beginning of the function's body.
fn body(alloc: Global, entries: Items<Entry>, head: Head) -> State
    ensures value { result ≡ body_of entries head }
{
    let inside = Inside {
        entries,
        head,
        opened: Stack::new(alloc),
        done: Items::empty(alloc),
        chain: Stack::new(alloc),
        base: 1,
        nesting: 1,
    };
    State::In(inside, Mode::Body)
}

/// The token after the head of a function, the entries before the function given.
pub fn take_done(
    alloc: Global,
    state: &mut State,
    function: (Items<Entry>, Head),
    token: &Token,
) -> bool
    ensures value { wants result state.new
        ≡ at_head function.0 (HeadPlace.Done function.1) token.now.span token.now.kind }
{
    let (entries, head) = function;
    if is_sign(token, Sign::LeftBrace) {
        put(state, body(alloc, entries, head));
        true
    } else {
        drop(entries);
        drop(head);
        false
    }
}

/// A token within the head of a function that has a name.
fn take_rest(alloc: Global, place: &mut HeadPlace, token: &mut Token) -> Result<bool, NoMemory>
    requires named { is_named place.old ≡ true }
    ensures value { IfOk result (λ on. (es : List EntryOf) → wants on (State.Head es place.new)
        ≡ at_head es place.old token.old.span token.old.kind) }
{
    match mem::replace(place, HeadPlace::Ceal) {
        HeadPlace::CealNamed(name) => Ok(take_ceal_named(alloc, place, name, token)),
        HeadPlace::InitNamed(name) => Ok(take_init_named(place, name, token)),
        HeadPlace::InitOpened(name) => Ok(take_init_opened(place, name, token)),
        HeadPlace::InitStruct(name) => Ok(take_init_struct(alloc, place, name, token)),
        HeadPlace::Shaped(head) => Ok(take_shaped(place, head, token)),
        HeadPlace::Starred(head) => Ok(take_starred(place, head, token)),
        HeadPlace::First(head) => Ok(take_first(place, head, token)),
        HeadPlace::Next(head) => Ok(take_next(place, head, token)),
        HeadPlace::Typing(head, part) => {
            let on = take_typing(place, head, part, token)?;
            Ok(on)
        }
        HeadPlace::Named(head) => Ok(take_named(place, head, token)),
        other => {
            drop(other);
            unreachable!()
        }
    }
}

/// A token within the head of a function.
pub fn take_head(alloc: Global, place: &mut HeadPlace, token: &mut Token) -> Result<bool, NoMemory>
    requires open { is_done place.old ≡ false }
    ensures value { IfOk result (λ on. (es : List EntryOf) → wants on (State.Head es place.new)
        ≡ at_head es place.old token.old.span token.old.kind) }
{
    match place {
        HeadPlace::Ceal => Ok(take_ceal(place, token)),
        HeadPlace::Init => Ok(take_init(place, token)),
        _ => {
            let on = take_rest(alloc, place, token)?;
            Ok(on)
        }
    }
}
