// The laws of the grammar.

ghost use Rattle.std.specs.Prelude.{◌≡◌, ◌⊎◌, List, [], Ok, Err};
ghost use Rattle.ceal_base.specs.declared.fault.Fault.{Fault};
ghost use Rattle.ceal_base.specs.declared.syntax.Tree.{Tree};
ghost use Rattle.ceal_lex.specs.Tokens.{IsEnded};
ghost use Rattle.ceal_lex.specs.declared.token.Token.{Token};
ghost use Rattle.ceal_grammar.specs.declared.state.State.TheVariants.{Top};
ghost use Rattle.ceal_grammar.specs.Faults.{Accepts, IsFirstFault};
ghost use Rattle.ceal_grammar.specs.Judged.{tree_or_fault};

/// A law: tokens are those of one tree at most.
pub fn one_tree()
    ensures law { (ts : List Token) (a b : Tree) → Accepts ts a → Accepts ts b → a ≡ b }
{}

/// A law: tokens have one first fault at most.
pub fn one_fault()
    ensures law { (ts : List Token) (f g : Fault) → IsFirstFault ts f → IsFirstFault ts g → f ≡ g }
{}

/// A law: tokens that are those of a program within the limits have no fault.
pub fn not_both()
    ensures law { (ts : List Token) (tree : Tree) (f : Fault) → Accepts ts tree → IsFirstFault ts f
        → ⊥ }
{}

/// A law: tokens whose last is `End` or `Cut` are those of a program within the limits, or have a first fault.
pub fn either()
    ensures law { (ts : List Token) → IsEnded ts
        → ((tree : Tree) × Accepts ts tree) ⊎ ((f : Fault) × IsFirstFault ts f) }
{}

/// A law: the result of the reading is the tree of the tokens, where they have one, and else their first fault.
pub fn judges()
    ensures accepted { (ts : List Token) (tree : Tree) → tree_or_fault (Top []) ts ≡ Ok tree
        → Accepts ts tree }
    ensures complete { (ts : List Token) (tree : Tree) → Accepts ts tree
        → tree_or_fault (Top []) ts ≡ Ok tree }
    ensures faulty { (ts : List Token) (f : Fault) → IsEnded ts → tree_or_fault (Top []) ts ≡ Err f
        → IsFirstFault ts f }
    ensures first { (ts : List Token) (f : Fault) → IsFirstFault ts f
        → tree_or_fault (Top []) ts ≡ Err f }
{}
