// Tokens into the tree of a program.

ghost use Rattle.std.specs.Prelude.{[], IfOk, Ok, Err};
ghost use Rattle.ceal_base.specs.declared.fault.Fault.{Fault as FaultRecord};
ghost use Rattle.ceal_base.specs.declared.syntax.Tree.{Tree as TreeRecord};
ghost use Rattle.ceal_base.specs.Answers.{Gives, IfFault};
ghost use Rattle.ceal_lex.specs.Tokens.{IsEnded};
ghost use Rattle.ceal_grammar.specs.Faults.{Accepts, IsFirstFault};
ghost use Rattle.ceal_grammar.specs.Judged.{tree_or_fault};
ghost use Rattle.ceal_grammar.specs.declared.state.State.TheVariants.{Top};

use crate::copies::copied_tokens;
use crate::parser::Parser;
use ceal_base::fault::{Fault, FaultCode, FrontError, Span};
use ceal_base::no_memory::NoMemory;
use ceal_base::syntax::Tree;
use ceal_grammar::laws::judges;
use ceal_lex::token::{Token, Tokens};
use std::alloc::Global;

/// What a reading of the tokens comes to.
fn read(alloc: Global, tokens: &mut [Token]) -> Result<Tree, FrontError>
    ensures value { Gives result (tree_or_fault (Top []) tokens.old) }
{
    let mut parser = Parser::new(alloc);
    for token in tokens.iter_mut() {
        match parser.advance(token) {
            Ok(()) => {}
            Err(error) => {
                drop(parser);
                return Err(error);
            }
        }
    }
    let entries = parser.take_entries();
    drop(parser);
    match entries {
        Some(entries) => Ok(Tree { entries }),
        None => Err(FrontError::Fault(Fault {
            code: FaultCode::S5,
            span: Span { from: 0, to: 0 },
        })),
    }
}

/// The tree of a program's tokens, whose last is `End` or `Cut`, or the first of the faults S3 to S6. S3 is at a token
/// with which no program continues, S4 where the nesting becomes 65, S5 at `End` where no program ends there and at
/// `Cut`. S6 is at the item 256 of a list, at the length of a row with which a struct has more than 255 fields, and at
/// the operator 256 of a whole expression. The span is that of the token.
///
/// The time is linear in the tokens. The stack does not grow with their number: an expression's operators take their
/// operands one in another, so 255 calls deep at most, and a statement ends at most 64 `if`s. A tree is dropped and
/// copied by recursion, which the nesting of 64 and the 255 operators of an expression bound.
pub fn parse(alloc: Global, tokens: &Tokens) -> Result<Tree, FrontError>
    requires ended { IsEnded tokens.now }
    ensures found { IfOk result (λ tree. Accepts tokens.now tree) }
    ensures all { (tree : TreeRecord) → Accepts tokens.now tree → Gives result (Ok tree) }
    ensures fault { IfFault result (λ fault. IsFirstFault tokens.now fault) }
    ensures only { (fault : FaultRecord) → IsFirstFault tokens.now fault
        → Gives result (Err fault) }
{
    match copied_tokens(alloc, tokens.items()) {
        Ok(own) => parse_owned(alloc, own),
        Err(NoMemory) => Err(FrontError::Memory),
    }
}

/// As `parse`, of tokens that are not needed any more: their names go into the tree and are not copied.
pub fn parse_owned(alloc: Global, tokens: Tokens) -> Result<Tree, FrontError>
    requires ended { IsEnded tokens }
    ensures found { IfOk result (λ tree. Accepts tokens tree) }
    ensures all { (tree : TreeRecord) → Accepts tokens tree → Gives result (Ok tree) }
    ensures fault { IfFault result (λ fault. IsFirstFault tokens fault) }
    ensures only { (fault : FaultRecord) → IsFirstFault tokens fault
        → Gives result (Err fault) }
{
    judges();
    let mut tokens = tokens.into_vec();
    let tree = read(alloc, tokens.as_mut_slice());
    drop(tokens);
    tree
}
