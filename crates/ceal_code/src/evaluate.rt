// The values of the expressions of trace code.

ghost use Rattle.std.specs.Prelude.{◌≡◌, ◌≤◌, is_some, true, Option, IfOk, IfSome, OnOk};
ghost use Rattle.std.specs.Prelude.{vec_len, vec_capacity};
ghost use Rattle.ceal_base.specs.Access.{place_in};
ghost use Rattle.ceal_base.specs.Operators.{number_of, truth, quotient, remainder, numbers_value, binary_value};
ghost use Rattle.ceal_base.specs.declared.kind.Shape.TheVariants.{Struct};
ghost use Rattle.ceal_code.specs.Init.{arguments};
ghost use Rattle.ceal_code.specs.PlainWords.{block_word};
ghost use Rattle.ceal_code.specs.Arithmetic.{IsArithmetic};
ghost use Rattle.ceal_code.specs.Value.{field_kind, is_cell, pointed, field_value, address_value, expr_value, values};

use crate::expr::CodeExpr;
use crate::plain_words::PlainWords;
use ceal_base::kind::{FieldKind, Shape};
use ceal_base::no_memory::NoMemory;
use ceal_base::operators::{Binary, apply_binary, apply_unary, number};
use ceal_base::shapes::field_kind as kind_of_field;
use ceal_base::typed::StructInfo;
use ceal_base::word::{Place, Word};
use ceal_base::words::Words;
use std::alloc::Global;

/// What an expression is evaluated in: structs, plain words, and the words of the variables, null where there is none.
#[derive(Drop)]
pub struct Scope<'a, P> {
    pub structs: &'a [StructInfo],
    pub plain: &'a P,
    pub env: &'a [Word],
}

/// Whether the field is a modifiable.
pub fn is_modifiable(kind: Option<FieldKind>) -> bool
    ensures value { result ≡ is_cell kind }
{
    match kind {
        None => false,
        Some(FieldKind::Plain(_)) => false,
        Some(FieldKind::CellInt) => true,
        Some(FieldKind::CellPtr(_)) => true,
    }
}

/// Whether the word points to a block of the struct.
fn points_to<P: PlainWords>(plain: &P, s: u32, word: Word) -> bool
    ensures { result ≡ is_some (pointed (P.plain plain.now) s word) }
{
    match word {
        Word::Block(id) => match plain.shape(id) {
            None => false,
            Some(shape) => shape.is_of_struct(s),
        },
        Word::Num(_) => false,
        Word::Null => false,
        Word::At(_) => false,
    }
}

/// The word of a field of the block of the struct that the word points to.
fn stored_word<P: PlainWords>(plain: &P, s: u32, word: Word, field: u32) -> Option<Word>
    ensures { result ≡ block_word (pointed (P.plain plain.now) s word) field }
{
    if !points_to(plain, s, word) {
        return None;
    }
    match word {
        Word::Block(id) => plain.word(id, field),
        Word::Num(_) => None,
        Word::Null => None,
        Word::At(_) => None,
    }
}

fn place_word(word: Word, field: u32) -> Word
    ensures { result ≡ place_in word field }
{
    match word {
        Word::Block(block) => Word::At(Place { block, field }),
        Word::Num(_) => Word::Null,
        Word::Null => Word::Null,
        Word::At(_) => Word::Null,
    }
}

fn truth_number(holds: bool) -> i64
    ensures { result ≡ number_of (truth holds) }
{
    if holds { 1 } else { 0 }
}

fn quotient_of(x: i64, y: i64) -> i64
    ensures { result ≡ quotient x y }
{
    if y == 0 { 0 } else { x.wrapping_div(y) }
}

fn remainder_of(x: i64, y: i64) -> i64
    ensures { result ≡ remainder x y }
{
    if y == 0 { x } else { x.wrapping_rem(y) }
}

/// Whether the operator looks only at the numbers of its words, and gives a number.
#[tactic(auto, using(crate::proofs::Equations::ValueSteps::arithmetic_steps))]
fn is_arithmetic(op: Binary) -> bool
    ensures { result ≡ true → IsArithmetic op }
{
    match op {
        Binary::Add => true,
        Binary::Sub => true,
        Binary::Mul => true,
        Binary::Div => true,
        Binary::Rem => true,
        Binary::Less => true,
        Binary::LessEq => true,
        Binary::More => true,
        Binary::MoreEq => true,
        Binary::Same => false,
        Binary::Differ => false,
        Binary::And => true,
        Binary::Or => true,
        Binary::Pick(_) => false,
    }
}

/// The number that an operator gives of two numbers.
fn arithmetic(op: Binary, x: i64, y: i64) -> i64
    ensures { result ≡ number_of (numbers_value op x y) }
{
    match op {
        Binary::Add => x.wrapping_add(y),
        Binary::Sub => x.wrapping_sub(y),
        Binary::Mul => x.wrapping_mul(y),
        Binary::Div => quotient_of(x, y),
        Binary::Rem => remainder_of(x, y),
        Binary::Less => truth_number(x < y),
        Binary::LessEq => truth_number(x <= y),
        Binary::More => truth_number(x > y),
        Binary::MoreEq => truth_number(x >= y),
        Binary::Same => truth_number(x == y),
        Binary::Differ => truth_number(x != y),
        Binary::And => truth_number(x != 0 && y != 0),
        Binary::Or => truth_number(x != 0 || y != 0),
        Binary::Pick(_) => 0,
    }
}

/// What an operator gives of two words; those that are not arithmetic are done at once.
fn apply(op: Binary, a: Word, b: Word) -> Word
    ensures { result ≡ binary_value op a b }
{
    match op {
        Binary::Same => Word::Num(truth_number(a == b)),
        Binary::Differ => Word::Num(truth_number(a != b)),
        _ => apply_binary(op, a, b),
    }
}

/// The word of a variable; one that was not set is null.
#[tactic(auto, unfolding(crate::specs::Init::arguments))]
fn variable(env: &[Word], v: u32) -> Word
    ensures { result ≡ arguments env.now v }
{
    match env.get(v as usize) {
        None => Word::Null,
        Some(word) => *word,
    }
}

impl<'a, P: PlainWords> Scope<'a, P> {
    /// The word of a plain field.
    fn field(&self, word: Word, s: u32, field: u32) -> Word
        ensures { result
            ≡ field_value self.now.structs.now (P.plain self.now.plain.now) word s field }
    {
        match kind_of_field(self.structs, Shape::Struct(s), field) {
            Some(FieldKind::Plain(kind)) => match stored_word(self.plain, s, word, field) {
                None => kind.default_word(),
                Some(word) => word,
            },
            Some(FieldKind::CellInt) => Word::Num(0),
            Some(FieldKind::CellPtr(_)) => Word::Null,
            None => Word::Null,
        }
    }

    /// The place of an embedded modifiable.
    fn address(&self, word: Word, s: u32, field: u32) -> Word
        ensures { result
            ≡ address_value self.now.structs.now (P.plain self.now.plain.now) word s field }
    {
        let is_cell = is_modifiable(kind_of_field(self.structs, Shape::Struct(s), field));
        if is_cell && points_to(self.plain, s, word) {
            place_word(word, field)
        } else {
            Word::Null
        }
    }

    /// What an expression without parts gives, and None of any other.
    #[tactic(auto, using(crate::proofs::Equations::ValueSteps::value_steps))]
    fn leaf(&self, e: &CodeExpr) -> Option<Word>
        ensures { IfSome result (λ word. word ≡ expr_value self.now.structs.now
            (P.plain self.now.plain.now) (arguments self.now.env.now) e.now) }
    {
        match e {
            CodeExpr::Num(n) => Some(Word::Num(*n)),
            CodeExpr::Null => Some(Word::Null),
            CodeExpr::Var(v) => Some(variable(self.env, v.0)),
            CodeExpr::Unary(_, _) => None,
            CodeExpr::Binary(_, _, _) => None,
            CodeExpr::Field(_, _, _) => None,
            CodeExpr::Address(_, _, _) => None,
        }
    }

    /// What an expression gives. Most have no parts, and are read at once. It recurses as deep as the expression is.
    #[cycle(value)]
    pub fn value(&self, e: &CodeExpr) -> Word
        ensures value { result ≡ expr_value self.now.structs.now
            (P.plain self.now.plain.now) (arguments self.now.env.now) e.now }
    {
        match self.leaf(e) {
            Some(word) => word,
            None => self.whole(e),
        }
    }

    /// The same, part by part.
    #[cycle(value)]
    #[inline(never)]
    #[tactic(auto, using(crate::proofs::Equations::ValueSteps::value_steps))]
    fn whole(&self, e: &CodeExpr) -> Word
        ensures { result ≡ expr_value self.now.structs.now
            (P.plain self.now.plain.now) (arguments self.now.env.now) e.now }
    {
        match e {
            CodeExpr::Num(n) => Word::Num(*n),
            CodeExpr::Null => Word::Null,
            CodeExpr::Var(v) => variable(self.env, v.0),
            CodeExpr::Unary(op, a) => apply_unary(*op, self.value(a.get())),
            CodeExpr::Binary(op, a, b) => {
                if is_arithmetic(*op) {
                    let x = self.number(a.get());
                    let y = self.number(b.get());
                    return Word::Num(arithmetic(*op, x, y));
                }
                let left = self.value(a.get());
                let right = self.value(b.get());
                apply(*op, left, right)
            }
            CodeExpr::Field(a, s, field) => {
                let base = self.value(a.get());
                self.field(base, *s, *field)
            }
            CodeExpr::Address(a, s, field) => {
                let base = self.value(a.get());
                self.address(base, *s, *field)
            }
        }
    }

    /// The number of an expression without parts, and None of any other.
    #[tactic(auto, using(crate::proofs::Equations::ValueSteps::value_steps))]
    fn leaf_number(&self, e: &CodeExpr) -> Option<i64>
        ensures { IfSome result (λ n. n ≡ number_of (expr_value self.now.structs.now
            (P.plain self.now.plain.now) (arguments self.now.env.now) e.now)) }
    {
        match e {
            CodeExpr::Num(n) => Some(*n),
            CodeExpr::Null => Some(0),
            CodeExpr::Var(v) => Some(number(variable(self.env, v.0))),
            CodeExpr::Unary(_, _) => None,
            CodeExpr::Binary(_, _, _) => None,
            CodeExpr::Field(_, _, _) => None,
            CodeExpr::Address(_, _, _) => None,
        }
    }

    /// The number that an expression gives, and 0 where it gives another word: no word is made on the way.
    #[cycle(value)]
    pub fn number(&self, e: &CodeExpr) -> i64
        ensures number { result ≡ number_of (expr_value self.now.structs.now
            (P.plain self.now.plain.now) (arguments self.now.env.now) e.now) }
    {
        match self.leaf_number(e) {
            Some(n) => n,
            None => self.whole_number(e),
        }
    }

    /// The same, from the numbers of its parts where it looks at nothing else.
    #[cycle(value)]
    #[inline(never)]
    fn whole_number(&self, e: &CodeExpr) -> i64
        ensures { result ≡ number_of (expr_value self.now.structs.now
            (P.plain self.now.plain.now) (arguments self.now.env.now) e.now) }
    {
        if let CodeExpr::Binary(op, a, b) = e {
            if is_arithmetic(*op) {
                let x = self.number(a.get());
                let y = self.number(b.get());
                return arithmetic(*op, x, y);
            }
            let left = self.value(a.get());
            let right = self.value(b.get());
            return number(apply(*op, left, right));
        }
        number(self.whole(e))
    }

    /// What each of the expressions gives.
    #[tactic(auto, using(crate::proofs::Equations::ValueSteps::values_steps))]
    pub fn values(&self, alloc: Global, es: &[CodeExpr]) -> Result<Words, NoMemory>
        ensures value { IfOk result (λ words. words ≡ values self.now.structs.now
            (P.plain self.now.plain.now) (arguments self.now.env.now) es.now) }
    {
        match es {
            [] => Ok(Words::empty(alloc)),
            [one] => Words::from_slice(alloc, &[self.value(one)]),
            [one, two] => Words::from_slice(alloc, &[self.value(one), self.value(two)]),
            _ => self.many_values(alloc, es),
        }
    }

    /// The same, one by one.
    #[tactic(auto, using(crate::proofs::Equations::ValueSteps::values_steps))]
    fn many_values(&self, alloc: Global, es: &[CodeExpr]) -> Result<Words, NoMemory>
        ensures { IfOk result (λ words. words ≡ values self.now.structs.now
            (P.plain self.now.plain.now) (arguments self.now.env.now) es.now) }
    {
        let mut words = Words::empty(alloc);
        for e in es {
            words.push(self.value(e))?;
        }
        Ok(words)
    }

    /// Puts what each of the expressions gives in place of these words.
    #[tactic(auto, using(crate::proofs::Equations::ValueSteps::values_steps))]
    pub fn evaluate(&self, es: &[CodeExpr], words: &mut Vec<Word>) -> Result<(), NoMemory>
        ensures values { OnOk result (words.new.items ≡ values self.now.structs.now
            (P.plain self.now.plain.now) (arguments self.now.env.now) es.now) }
    {
        words.clear();
        have_room(words, es.len())?;
        for e in es {
            words.push_reserved(self.value(e));
        }
        Ok(())
    }
}

/// Sees that there is room for `count` words.
#[inline(always)]
pub(crate) fn have_room(words: &mut Vec<Word>, count: usize) -> Result<(), NoMemory>
    ensures same { words.new.items ≡ words.old.items }
    ensures len { vec_len words.new ≡ vec_len words.old }
    ensures room { OnOk result (count ≤ vec_capacity words.new) }
{
    if words.capacity() < count {
        words.reserve(count)?;
    }
    Ok(())
}
