// Printed programs: where there are parentheses, how an else part of one `if` is printed, and that what is printed
// reads back.

ghost use Rattle.ceal_print.specs.Print.{IsParsed};

use crate::asserts::{holds, same_items};
use ceal_base::syntax::Tree;
use ceal_base::text::Text;
use ceal_lex::lex::lex;
use ceal_lex::split::split;
use ceal_parse::parse::parse;
use ceal_print::print::print_tree;
use ceal_samples::programs::eval;
use std::alloc::Global;
use std::process::Abort;

/// The tree of an input of at most 4,194,304 bytes.
fn tree_of<R: Abort>(rt: &R, alloc: Global, input: &[u8]) -> Tree
    ensures parsed { IsParsed result }
{
    holds(rt, input.len() <= 4_194_304);
    let part = split(input);
    let tokens = lex(alloc, input, &part).expect(rt, "tokens");
    let tree = parse(alloc, &tokens).expect(rt, "a tree");
    drop(tokens);
    tree
}

/// The printed program of an input, and a line `%%`.
fn printed<R: Abort>(rt: &R, alloc: Global, input: &[u8]) -> Text {
    let tree = tree_of(rt, alloc, input);
    let mut text = print_tree(alloc, &tree).expect(rt, "memory");
    drop(tree);
    text.append(b"%%\n").expect(rt, "memory");
    text
}

const PARENTHESES: &[u8] = b"
ceal f(int a) {
  a = (((a - (1)) - (2 - a)));
  if (a) { return; } else { if (!(a)) { } }
}
%%
";

const PRINTED: &[u8] = b"ceal f ( int a ) {
a = a - 1 - ( 2 - a ) ;
if ( a ) {
return ;
}
else if ( ! a ) {
}
}
%%
";

#[test]
fn parentheses_stand_where_they_are_needed(rt: HostRuntime) {
    let text = printed(&rt, rt.alloc(), PARENTHESES);
    same_items(&rt, text.items(), PRINTED);
    drop(text);
}

#[test]
fn a_printed_program_reads_back(rt: HostRuntime) {
    let source = eval(rt.alloc()).expect(&rt, "memory");
    let first = printed(&rt, rt.alloc(), source.items());
    drop(source);
    let second = printed(&rt, rt.alloc(), first.items());
    holds(&rt, second.same_as(&first));
    drop(second);
    drop(first);
}
