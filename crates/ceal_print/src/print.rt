// The text of a tree.

ghost use Rattle.std.specs.Prelude.{◌≡◌, IfOk};
ghost use Rattle.ceal_print.specs.Print.{IsParsed, ReadsBack};
ghost use Rattle.ceal_print.specs.PrintWords.{texts, tree_kinds};

use crate::entries::put_entries;
use ceal_base::no_memory::NoMemory;
use ceal_base::syntax::Tree;
use ceal_base::text::Text;
use std::alloc::Global;

fn tree_text(alloc: Global, tree: &Tree) -> Result<Text, NoMemory>
    ensures { IfOk result (λ text. text ≡ texts (tree_kinds tree.now)) }
{
    let mut out = Text::empty(alloc);
    put_entries(&mut out, tree.entries.items())?;
    Ok(out)
}

/// A text of the tree: the tokens follow one another with a space or a line feed after each, a statement, a
/// field or a brace ends a line, and there are parentheses only where the levels of the operators ask for them. An else
/// part of one `if` is printed as `else if`. The recursion is as deep as the nesting of the text and the operators of
/// one expression, so at most 64 statements and 256 expressions deep.
#[tactic(auto, using(crate::proofs::PrintBack::reads_back))]
pub fn print_tree(alloc: Global, tree: &Tree) -> Result<Text, NoMemory>
    requires parsed { IsParsed tree.now }
    ensures back { IfOk result (λ text. ReadsBack text tree.now) }
    ensures layout { IfOk result (λ text. text ≡ texts (tree_kinds tree.now)) }
{
    let text = tree_text(alloc, tree)?;
    Ok(text)
}
