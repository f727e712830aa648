// The words of variables, and those with which units begin.

ghost use Rattle.std.specs.Prelude.{◌≡◌, ◌+◌, ◌<◌, ◌≤◌, ◌==◌, length, min, slice_get, unwrap_or, Some, if◌then◌else◌};
ghost use Rattle.std.specs.Prelude.{IfOk, OnOk};
ghost use Rattle.ceal_base.specs.declared.word.Word.{Word};
ghost use Rattle.ceal_code.specs.Init.{arguments};
ghost use Rattle.ceal_code.specs.Step.{bound, chosen, woven};
ghost use Rattle.ceal_code.specs.Value.{set, values};
ghost use Rattle.ceal_code.specs.Weaving.{one_other, others};

use crate::evaluate::{Scope, have_room};
use crate::expr::{CodeExpr, VarId};
use crate::plain_words::PlainWords;
use ceal_base::no_memory::NoMemory;
use ceal_base::word::Word;
use std::alloc::Global;

/// Adds nulls, up to the word of this variable, for which room is made at once.
#[inline(never)]
fn lengthen(env: &mut Vec<Word>, v: u32) -> Result<(), NoMemory>
    ensures there { OnOk result (v < length env.new.items) }
    ensures same { OnOk result (arguments env.new.items ≡ arguments env.old.items) }
{
    let count = v as usize + 1;
    have_room(env, count)?;
    while env.len() < count {
        env.push_reserved(Word::Null);
    }
    Ok(())
}

/// Sees that the variable has a word, which is null where it had none.
fn make_room(env: &mut Vec<Word>, v: u32) -> Result<(), NoMemory>
    ensures there { OnOk result (v < length env.new.items) }
    ensures same { OnOk result (arguments env.new.items ≡ arguments env.old.items) }
{
    if (v as usize) < env.len() {
        return Ok(());
    }
    lengthen(env, v)
}

/// Gives a variable a word where there is one.
fn set_there(env: &mut Vec<Word>, at: usize, word: Word)
    requires { at < length env.old.items }
    ensures { arguments env.new.items ≡ set (arguments env.old.items) at word }
{
    env[at] = word;
}

/// Gives a variable a word.
pub fn set_variable(env: &mut Vec<Word>, v: u32, word: Word) -> Result<(), NoMemory>
    ensures set { OnOk result (arguments env.new.items ≡ set (arguments env.old.items) v word) }
{
    make_room(env, v)?;
    set_there(env, v as usize, word);
    Ok(())
}

fn param_at(params: &[VarId], i: usize) -> VarId
    requires { i < length params.now }
    ensures { slice_get params.now i ≡ Some result }
{
    params[i]
}

fn argument_at(words: &[Word], i: usize) -> Word
    requires { i < length words.now }
    ensures { slice_get words.now i ≡ Some result }
{
    words[i]
}

fn expr_at(es: &[CodeExpr], i: usize) -> &CodeExpr
    requires { i < length es.now }
    ensures { slice_get es.now i ≡ Some result.now }
{
    &es[i]
}

fn smaller(a: usize, b: usize) -> usize
    ensures { result ≡ min a b }
{
    if a < b { a } else { b }
}

/// The words of parameters, in place of those that there are.
#[tactic(auto, using(crate::proofs::Equations::StackSteps::bind_steps))]
pub fn bind(env: &mut Vec<Word>, params: &[VarId], words: &[Word]) -> Result<(), NoMemory>
    ensures bound { OnOk result (arguments env.new.items ≡ bound params.now words.now) }
{
    env.clear();
    let mut i = smaller(params.len(), words.len());
    while i > 0 {
        i -= 1;
        let p = param_at(params, i);
        let word = argument_at(words, i);
        set_variable(env, p.0, word)?;
    }
    Ok(())
}

/// The same, where the words are what the expressions give.
#[tactic(auto, using(crate::proofs::Equations::StackSteps::bind_steps))]
pub fn bind_values<P: PlainWords>(
    scope: &Scope<'_, P>,
    env: &mut Vec<Word>,
    params: &[VarId],
    es: &[CodeExpr],
) -> Result<(), NoMemory>
    ensures bound { OnOk result (arguments env.new.items ≡ bound params.now
        (values scope.now.structs.now (P.plain scope.now.plain.now)
        (arguments scope.now.env.now) es.now)) }
{
    env.clear();
    let mut i = smaller(params.len(), es.len());
    while i > 0 {
        i -= 1;
        let p = param_at(params, i);
        let word = scope.value(expr_at(es, i));
        set_variable(env, p.0, word)?;
    }
    Ok(())
}

fn argument(args: &[Word], p: VarId) -> Word
    ensures { result ≡ unwrap_or (slice_get args.now p.0) Word.Null }
{
    match args.get(p.0 as usize) {
        None => Word::Null,
        Some(word) => *word,
    }
}

/// The words of those parameters of a function that its entry unit has.
#[tactic(auto, using(crate::proofs::Equations::StackSteps::choose_steps))]
pub fn choose(alloc: Global, params: &[VarId], args: &[Word]) -> Result<Vec<Word>, NoMemory>
    ensures chosen { IfOk result (λ words. words.items ≡ chosen params.now args.now) }
{
    let mut words = Vec::new(alloc);
    let mut params = params;
    while let Some((p, more)) = params.split_first() {
        words.push(argument(args, *p))?;
        params = more;
    }
    Ok(words)
}

fn other(p: VarId, v: u32) -> usize
    ensures value { result ≡ one_other v p }
    ensures small { result ≤ 1 }
{
    if p.0 == v { 0 } else { 1 }
}

/// How many of the parameters are not the variable.
fn count_others(params: &[VarId], v: u32) -> usize
    ensures { result ≡ others v params.now }
{
    let mut count = 0;
    for i in 0..params.len() {
        let p = param_at(params, i);
        let one = other(p, v);
        count += one;
    }
    count
}

/// The value for the variable, and the argument at an index for any other parameter.
fn given_word(p: VarId, v: u32, value: Word, args: &[Word], at: usize) -> Word
    ensures { result ≡ (if p.0 == v then value else unwrap_or (slice_get args.now at) Word.Null) }
{
    if p.0 == v {
        return value;
    }
    match args.get(at) {
        None => Word::Null,
        Some(word) => *word,
    }
}

/// The words of the parameters of a unit that continues after a read, in place of those that there are. The last ones
/// come first, as the last variable makes room for all.
pub fn bind_given(
    env: &mut Vec<Word>,
    params: &[VarId],
    v: u32,
    value: Word,
    args: &[Word],
) -> Result<(), NoMemory>
    ensures bound { OnOk result
        (arguments env.new.items ≡ bound params.now (woven params.now v value args.now)) }
{
    env.clear();
    let mut at = count_others(params, v);
    let mut i = params.len();
    while i > 0 {
        i -= 1;
        let p = param_at(params, i);
        let one = other(p, v);
        at -= one;
        let word = given_word(p, v, value, args, at);
        set_variable(env, p.0, word)?;
    }
    Ok(())
}
