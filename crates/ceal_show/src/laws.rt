// The laws of graph texts.

ghost use Rattle.std.specs.Prelude.{◌≡◌, ℕ, List, IsTrue, IsSome};
ghost use Rattle.ceal_base.specs.Block.{Blocks, block_at};
ghost use Rattle.ceal_base.specs.Fitting.{memory_fits};
ghost use Rattle.ceal_base.specs.declared.typed.StructInfo.{StructInfo};
ghost use Rattle.ceal_base.specs.declared.word.BlockId.{BlockId};
ghost use Rattle.ceal_show.specs.Graph.{IsGraphText};
ghost use Rattle.ceal_show.specs.Renaming.{IsRenaming};
ghost use Rattle.ceal_show.specs.Shown.{Shown, IsWhole};

/// A law: a memory has one text from a block.
pub fn one_text()
    ensures law { (structs : List StructInfo) (memory : Shown) (name : ℕ → List ℕ) (root : BlockId)
        (text other : List ℕ)
        → IsGraphText structs memory name root text → IsGraphText structs memory name root other
        → text ≡ other }
{}

/// A law: a memory whose words fit is whole.
pub fn fitting_is_whole()
    ensures law { (structs : List StructInfo) (m : Blocks) → IsTrue (memory_fits structs m)
        → IsWhole structs (block_at m) }
{}

/// A law: the text says nothing of the numbers that core blocks have inside.
pub fn same_text()
    ensures law { (structs : List StructInfo) (name : ℕ → List ℕ) (rename : BlockId → BlockId)
        (from to : Shown) (root : BlockId) (text : List ℕ)
        → IsRenaming rename from to → IsWhole structs from → IsSome (from root)
        → IsGraphText structs from name root text → IsGraphText structs to name (rename root) text }
{}

/// A law: a whole memory has a text from each of its blocks.
pub fn some_text()
    ensures law { (structs : List StructInfo) (m : Blocks) (name : ℕ → List ℕ) (root : BlockId)
        → IsWhole structs (block_at m) → IsSome (block_at m root)
        → (text : List ℕ) × IsGraphText structs (block_at m) name root text }
{}
