// The graph of a finished run.

ghost use Rattle.std.specs.Prelude.{◌≡◌, Some, IsSome, IfOk, slice_get};
ghost use Rattle.ceal_base.specs.Shapes.{kinds_of_shape};
ghost use Rattle.ceal_base.specs.declared.word.BlockId.TheVariants.{Input};
ghost use Rattle.ceal_engine.specs.Engine.{is_plain as plain};
ghost use Rattle.ceal_session.specs.Shown.{shown_blocks, label};
ghost use Rattle.ceal_show.specs.Graph.{IsGraphText};
ghost use Rattle.ceal_show.specs.Shown.{IsWhole, shape_at, word_at};

use ceal_base::kind::{FieldKind, Shape};
use ceal_base::no_memory::NoMemory;
use ceal_base::shapes::field_kind;
use ceal_base::text::Text;
use ceal_base::typed::Structs;
use ceal_base::word::{BlockId, Place, Word};
use ceal_code::laws::progress_law;
use ceal_engine::engine::Engine;
use ceal_show::graph::graph_text;
use ceal_show::laws::fitting_is_whole;
use ceal_show::view::View;
use ceal_types::names::Names;
use std::alloc::Global;

/// An engine with the names of its inputs; `none` stands for a name that is not there.
#[derive(Clone, Copy)]
struct Scene<'a> {
    engine: &'a Engine,
    names: &'a Names,
    none: &'a Text,
}

/// The shape of a block of the run.
fn block_shape(engine: &Engine, block: BlockId) -> Shape
    requires { IsSome (shown_blocks engine.now block) }
    ensures { shape_at (shown_blocks engine.now) block ≡ Some result }
{
    // for the proof: the memory of a run fits its types
    progress_law();
    // for the proof: it is an engine, by the clause `whole`
    let _phase = engine.phase();
    engine.shape(block)
}

fn kind_of(engine: &Engine, shape: Shape, field: u32) -> Option<FieldKind>
    ensures { result ≡ slice_get (kinds_of_shape engine.now.code.structs shape) field }
{
    field_kind(engine.code().structs.items(), shape, field)
}

fn is_plain(kind: Option<FieldKind>) -> bool
    ensures { result ≡ plain kind }
{
    match kind {
        Some(FieldKind::Plain(_)) => true,
        Some(FieldKind::CellInt) => false,
        Some(FieldKind::CellPtr(_)) => false,
        None => false,
    }
}

/// The word of a field of the run: a plain field never changes, and a modifiable has a content.
fn field_word(engine: &Engine, block: BlockId, field: u32) -> Word
    requires { IsSome (word_at (shown_blocks engine.now) block field) }
    ensures { word_at (shown_blocks engine.now) block field ≡ Some result }
{
    // for the proof: the memory of a run fits its types, so each of its blocks is whole
    progress_law();
    fitting_is_whole();
    // for the proof: it is an engine, by the clause `whole`
    let _phase = engine.phase();
    let shape = engine.shape(block);
    if is_plain(kind_of(engine, shape, field)) {
        engine.field(block, field)
    } else {
        engine.value(Place { block, field })
    }
}

impl<'a> View for Scene<'a> {
    ghost use Rattle.std.specs.Prelude.{slice_get, unwrap_or};
    ghost use Rattle.ceal_session.specs.Shown.{shown_blocks};

    ghost memory = { λ v. shown_blocks v.engine.now };

    ghost name = { λ v n. unwrap_or (slice_get v.names.now n) v.none.now };

    ghost declared = { λ v. v.engine.now.code.structs };

    fn shape(&self, block: BlockId) -> Shape {
        block_shape(self.engine, block)
    }

    fn word(&self, block: BlockId, field: u32) -> Word {
        field_word(self.engine, block, field)
    }

    fn label(&self, input: u32) -> &Text {
        match self.names.at(input) {
            Some(name) => name,
            None => self.none,
        }
    }

    fn structs(&self) -> &Structs {
        &self.engine.code().structs
    }
}

/// The graph from an input, of an engine that has a finished run.
pub fn graph(alloc: Global, engine: &Engine, names: &Names, input: u32) -> Result<Text, NoMemory>
    requires whole { IsWhole engine.now.code.structs (shown_blocks engine.now) }
    requires there { IsSome (shown_blocks engine.now (Input input)) }
    ensures { IfOk result
        (λ text. IsGraphText engine.now.code.structs (shown_blocks engine.now) (label names.now)
        (Input input) text) }
{
    let scene = Scene {
        engine,
        names,
        none: &Text::empty(alloc),
    };
    graph_text(alloc, &scene, BlockId::Input(input))
}
