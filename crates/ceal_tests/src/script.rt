// The values in a line; lines that are read and lines that are not are rows.

use crate::asserts::{equal, holds, same_items};
use ceal_base::text::Text;
use ceal_script::command::{Command, PlaceWord, ValueWord};
use ceal_script::line::read_line;
use std::process::Abort;

/// The values are a number and the field of a place.
fn are_both<R: Abort>(rt: &R, values: &[ValueWord]) {
    match values {
        [ValueWord::Num(number), ValueWord::At(place)] => {
            equal(rt, *number, -7);
            same_items(rt, place.name.items(), b"b");
            holds(rt, place.field.is_some());
        }
        _ => panic!(rt; "other values"),
    }
}

fn runs_with_both<R: Abort>(rt: &R, command: &Command) {
    match command {
        Command::Run { args, .. } => are_both(rt, args.items()),
        _ => panic!(rt; "no run"),
    }
}

#[test]
fn reads_values(rt: HostRuntime) {
    let command = read_line(rt.alloc(), b"run f -007 b.f").expect(&rt, "a command");
    runs_with_both(&rt, &command);
    drop(command);
}

fn is_the_field<R: Abort>(rt: &R, field: Option<&Text>) {
    match field {
        Some(field) => same_items(rt, field.items(), b"s[2]"),
        None => panic!(rt; "no field"),
    }
}

fn is_the_element<R: Abort>(rt: &R, place: &PlaceWord) {
    same_items(rt, place.name.items(), b"r");
    is_the_field(rt, place.field.as_ref());
}

fn sets_the_element<R: Abort>(rt: &R, command: &Command) {
    match command {
        Command::Set { place, value } => {
            is_the_element(rt, place);
            holds(rt, *value == ValueWord::Num(5));
        }
        _ => panic!(rt; "no set"),
    }
}

#[test]
fn reads_element(rt: HostRuntime) {
    let command = read_line(rt.alloc(), b"set r.s[2] 5").expect(&rt, "a command");
    sets_the_element(&rt, &command);
    drop(command);
}
