// The parser: a program that is being read.

ghost use Rattle.std.specs.Prelude.{◌≡◌, ◌≤◌, [], true, false, IfOk, MatchResult, Ok};
ghost use Rattle.ceal_base.specs.Answers.{Fails};
ghost use Rattle.ceal_grammar.specs.Judged.{next_state, within_limits, entries_of, code_at};
ghost use Rattle.ceal_grammar.specs.Machine.{at_part, at_top, nesting_of, operators_of, step, wants};
ghost use Rattle.ceal_parse.specs.Reading.{cut_at, is_inside, Fits};

use crate::body::take_mode;
use crate::head::{no_head, take_done, take_head};
use crate::limits::{item, nesting, operators};
use crate::marks::same_word;
use crate::structs::{take_closed, take_struct};
use crate::turn::{Turn, put};
use ceal_base::fault::{Fault, FaultCode, FrontError, Span};
use ceal_base::items::Items;
use ceal_base::no_memory::NoMemory;
use ceal_base::syntax::Entry;
use ceal_grammar::state::{HeadPlace, State, StructPlace};
use ceal_lex::token::{Reserved, Token, TokenKind};
use std::alloc::Global;
use std::mem;

/// The reading continues at this state.
fn stand(state: &mut State, next: State) -> bool
    ensures state { state.new ≡ next }
    ensures on { result ≡ true }
{
    put(state, next);
    true
}

fn take_part(state: &mut State, entries: Items<Entry>, word: Reserved) -> bool
    ensures value { wants result state.new ≡ at_part entries word }
{
    if same_word(word, Reserved::Struct) {
        stand(state, State::Struct(entries, StructPlace::Begun))
    } else if same_word(word, Reserved::Ceal) {
        stand(state, State::Head(entries, HeadPlace::Ceal))
    } else if same_word(word, Reserved::Init) {
        stand(state, State::Head(entries, HeadPlace::Init))
    } else {
        drop(entries);
        false
    }
}

/// The beginning of an entry, or the end of the program.
fn take_top(state: &mut State, entries: Items<Entry>, token: &Token) -> bool
    ensures value { wants result state.new ≡ at_top entries token.now.kind }
{
    match token.kind {
        TokenKind::End => stand(state, State::Finished(entries)),
        TokenKind::Reserved(word) => take_part(state, entries, word),
        _ => {
            drop(entries);
            false
        }
    }
}

/// The fault at a token with which no program continues.
fn code(token: &Token) -> FaultCode
    ensures value { result ≡ code_at token.now.kind }
{
    match token.kind {
        TokenKind::End => FaultCode::S5,
        TokenKind::Cut => FaultCode::S5,
        _ => FaultCode::S3,
    }
}

fn fault(code: FaultCode, at: Span) -> FrontError
    ensures value { result ≡ FrontError.Fault (record { code = code; span = at }) }
{
    FrontError::Fault(Fault { code, span: at })
}

/// The reading is after these entries.
#[inline(never)]
fn stand_after(state: &mut State, entries: Items<Entry>)
    ensures value { state.new ≡ State.Top entries }
{
    *state = State::Top(entries);
}

/// A program that is being read, token by token. After an error nothing is said of the state of the reading.
#[derive(Drop)]
pub struct Parser {
    alloc: Global,
    state: State,
}

impl Parser {
    /// Nothing was read.
    pub fn new(alloc: Global) -> Parser
        ensures value { result.state ≡ State.Top [] }
    {
        Parser {
            alloc,
            state: State::Top(Items::empty(alloc)),
        }
    }

    /// A token within no body: whether a program continues this way.
    #[inline(never)]
    fn step_outside(&mut self, token: &mut Token) -> Result<bool, NoMemory>
        requires outside { is_inside self.old.state ≡ false }
        requires room { Fits self.old.state }
        ensures value { IfOk result
            (λ on. wants on self.new.state ≡ step self.old.state token.old) }
    {
        let alloc = self.alloc;
        match &mut self.state {
            State::Top(entries) => {
                let entries = mem::replace(entries, Items::empty(alloc));
                Ok(take_top(&mut self.state, entries, token))
            }
            State::Struct(entries, place) => match place {
                StructPlace::Closed(shape) => {
                    let on = take_closed(alloc, entries, shape, token)?;
                    if on {
                        let entries = mem::replace(entries, Items::empty(alloc));
                        stand_after(&mut self.state, entries);
                        Ok(true)
                    } else {
                        Ok(false)
                    }
                }
                _ => {
                    let on = take_struct(alloc, place, token)?;
                    Ok(on)
                }
            },
            State::Head(entries, place) => match place {
                HeadPlace::Done(head) => {
                    let entries = mem::replace(entries, Items::empty(alloc));
                    let head = mem::replace(head, no_head(alloc, token.span));
                    Ok(take_done(alloc, &mut self.state, (entries, head), token))
                }
                _ => {
                    let on = take_head(alloc, place, token)?;
                    Ok(on)
                }
            },
            State::In(_, _) => unreachable!(),
            State::Finished(_) => Ok(false),
        }
    }

    /// Takes a token: whether a program continues this way.
    fn step(&mut self, token: &mut Token) -> Result<bool, NoMemory>
        requires shallow { nesting_of self.old.state ≤ 64 }
        requires few { operators_of self.old.state ≤ 255 }
        requires room { Fits self.old.state }
        ensures value { IfOk result
            (λ on. wants on self.new.state ≡ step self.old.state token.old) }
    {
        let alloc = self.alloc;
        match &mut self.state {
            State::In(inside, mode) => match take_mode(alloc, inside, mode, token)? {
                Turn::Refused => Ok(false),
                Turn::On => Ok(true),
                Turn::Closed => {
                    let entries = mem::replace(&mut inside.entries, Items::empty(alloc));
                    stand_after(&mut self.state, entries);
                    Ok(true)
                }
            },
            _ => {
                let on = self.step_outside(token)?;
                Ok(on)
            }
        }
    }

    /// Whether the token at this place, which was taken last and begins the item of this number, keeps the limits.
    fn test(&self, item: usize, at: Span) -> Result<(), FrontError>
        ensures value { MatchResult result
            (λ _. within_limits item (cut_at at) self.now.state ≡ Ok self.now.state)
            (λ error. Fails error (within_limits item (cut_at at) self.now.state)) }
    {
        if nesting(&self.state) >= 65 {
            Err(fault(FaultCode::S4, at))
        } else if item >= 256 {
            Err(fault(FaultCode::S6, at))
        } else if operators(&self.state) >= 256 {
            Err(fault(FaultCode::S6, at))
        } else {
            Ok(())
        }
    }

    /// Takes a token, or answers the fault at it.
    pub fn advance(&mut self, token: &mut Token) -> Result<(), FrontError>
        requires shallow { nesting_of self.old.state ≤ 64 }
        requires few { operators_of self.old.state ≤ 255 }
        requires room { Fits self.old.state }
        ensures value { MatchResult result
            (λ _. next_state self.old.state token.old (step self.old.state token.old)
            ≡ Ok self.new.state)
            (λ error. Fails error
            (next_state self.old.state token.old (step self.old.state token.old))) }
    {
        let at = token.span;
        let item = item(&self.state, token);
        let code = code(token);
        match self.step(token) {
            Ok(true) => {
                self.test(item, at)?;
                Ok(())
            }
            Ok(false) => Err(fault(code, at)),
            Err(NoMemory) => Err(FrontError::Memory),
        }
    }

    /// The entries of a finished program, taken out of the parser.
    pub fn take_entries(&mut self) -> Option<Items<Entry>>
        ensures value { result ≡ entries_of self.old.state }
    {
        let alloc = self.alloc;
        match &mut self.state {
            State::Finished(entries) => Some(mem::replace(entries, Items::empty(alloc))),
            _ => None,
        }
    }
}
