// What the limits count, at a state.

ghost use Rattle.std.specs.Prelude.{◌≡◌, ◌<◌, ◌^◌, if◌then◌else◌};
ghost use Rattle.ceal_grammar.specs.Machine.{is_sign as is_sign_kind, making_nesting, mode_nesting, struct_nesting};
ghost use Rattle.ceal_grammar.specs.Machine.{head_nesting, nesting_of, operators_in, operators_of, argument_number};
ghost use Rattle.ceal_grammar.specs.Machine.{argument_begun, place_item, mode_item, length_of, length_item};
ghost use Rattle.ceal_grammar.specs.Machine.{struct_item, head_item, item_of};

use crate::marks::{is_sign, length};
use ceal_grammar::state::{
    HeadPlace, Layout, Making, Mode, Place, Receiver, State, StructPlace, Whole,
};
use ceal_lex::token::{Sign, Token};

fn making(making: &Making, nesting: u64) -> u64
    requires small { nesting < 2 ^ 32 }
    ensures value { result ≡ making_nesting making.now nesting }
{
    match making {
        Making::Opened(_) => nesting + 1,
        _ => nesting,
    }
}

fn mode(mode: &Mode, nesting: u64) -> u64
    requires small { nesting < 2 ^ 32 }
    ensures value { result ≡ mode_nesting mode.now nesting }
{
    match mode {
        Mode::First(_) => nesting + 1,
        Mode::Within(whole, _) => u64::from(whole.nesting),
        Mode::Making(place) => making(place, nesting),
        _ => nesting,
    }
}

fn within_struct(place: &StructPlace) -> u64
    ensures value { result ≡ struct_nesting place.now }
{
    match place {
        StructPlace::Members(_) => 1,
        StructPlace::Typing(_, _) => 1,
        StructPlace::Ends(_, _) => 1,
        StructPlace::Length(_, _) => 2,
        StructPlace::Sized(_, _, _) => 2,
        _ => 0,
    }
}

fn within_head(place: &HeadPlace) -> u64
    ensures value { result ≡ head_nesting place.now }
{
    match place {
        HeadPlace::Ceal => 0,
        HeadPlace::CealNamed(_) => 0,
        HeadPlace::Init => 0,
        HeadPlace::InitNamed(_) => 0,
        HeadPlace::Done(_) => 0,
        _ => 1,
    }
}

/// The nesting.
pub fn nesting(state: &State) -> u64
    ensures value { result ≡ nesting_of state.now }
{
    match state {
        State::Top(_) => 0,
        State::Struct(_, place) => within_struct(place),
        State::Head(_, place) => within_head(place),
        State::In(inside, place) => mode(place, u64::from(inside.nesting)),
        State::Finished(_) => 0,
    }
}

fn mode_operators(mode: &Mode) -> u32
    ensures value { result ≡ operators_in mode.now }
{
    match mode {
        Mode::Within(whole, _) => whole.operators,
        Mode::Path(_, arrows) => *arrows,
        Mode::Reached(_, _, arrows) => *arrows,
        _ => 0,
    }
}

/// The operators of the whole expression so far.
pub fn operators(state: &State) -> u32
    ensures value { result ≡ operators_of state.now }
{
    match state {
        State::In(_, mode) => mode_operators(mode),
        _ => 0,
    }
}

fn argument(receiver: &Receiver) -> usize
    ensures value { result ≡ argument_number receiver.now }
{
    match receiver {
        Receiver::Argument(_, arguments) => arguments.items().len() + 1,
        _ => 0,
    }
}

fn begun_argument(whole: &Whole) -> usize
    ensures value { result ≡ argument_begun whole.now.frames whole.now.receiver }
{
    if whole.frames.is_empty() {
        argument(&whole.receiver)
    } else {
        0
    }
}

fn expression_item(whole: &Whole, place: &Place) -> usize
    ensures value { result ≡ place_item whole.now place.now }
{
    match place {
        Place::Want => begun_argument(whole),
        _ => 0,
    }
}

fn first_item(token: &Token) -> usize
    ensures value { result ≡ (if is_sign_kind Sign.RightParenthesis token.now.kind then 0 else 1) }
{
    if is_sign(token, Sign::RightParenthesis) {
        0
    } else {
        1
    }
}

fn body_item(mode: &Mode, token: &Token) -> usize
    ensures value { result ≡ mode_item mode.now token.now.kind }
{
    match mode {
        Mode::First(_) => first_item(token),
        Mode::Within(whole, place) => expression_item(whole, place),
        _ => 0,
    }
}

fn row_item(layout: &Layout, token: &Token) -> usize
    ensures value { result ≡ length_item layout.now.count (length_of token.now.kind) }
{
    match length(token) {
        Some(length) => layout.count as usize + length as usize,
        None => 0,
    }
}

fn member_item(place: &StructPlace, token: &Token) -> usize
    ensures value { result ≡ struct_item place.now token.now.kind }
{
    match place {
        StructPlace::Members(layout) => {
            if is_sign(token, Sign::RightBrace) {
                0
            } else {
                layout.count as usize + 1
            }
        }
        StructPlace::Length(layout, _) => row_item(layout, token),
        _ => 0,
    }
}

fn parameter_item(place: &HeadPlace, token: &Token) -> usize
    ensures value { result ≡ head_item place.now token.now.kind }
{
    match place {
        HeadPlace::First(_) => first_item(token),
        HeadPlace::Next(head) => head.params.items().len() + 1,
        _ => 0,
    }
}

/// The number of the item of a list that begins with the token, 0 where none begins; at the length of a row the number
/// of its last field.
pub fn item(state: &State, token: &Token) -> usize
    ensures value { result ≡ item_of state.now token.now }
{
    match state {
        State::Top(_) => 0,
        State::Struct(_, place) => member_item(place, token),
        State::Head(_, place) => parameter_item(place, token),
        State::In(_, mode) => body_item(mode, token),
        State::Finished(_) => 0,
    }
}
