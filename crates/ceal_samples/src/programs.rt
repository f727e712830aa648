// The programs of the tests, and what the compiler makes of them.

ghost use Rattle.std.specs.Prelude.{◌≡◌, ◌++◌, true, IfOk, codes};
ghost use Rattle.ceal_base.specs.WellTyped.{WellTyped};
ghost use Rattle.ceal_code.specs.Valid.{valid};
ghost use Rattle.ceal_gen.specs.Programs.{eval_program};

use ceal_base::no_memory::NoMemory;
use ceal_base::text::Text;
use ceal_base::typed::Typed;
use ceal_compile::compile::{check_source, compile};
use ceal_compile::program::Program;
use ceal_gen::programs;
use std::alloc::Global;
use std::test::Fail;

/// Writes the number after that of the first modifiable into the second.
pub const INC: &[u8] = b"
ceal inc(mod int *a, mod int *b) {
  int x = read(a);
  write(b, x + 1);
}
%%
";

/// Counts down, and then writes 7.
pub const LOOP: &[u8] = b"
ceal loop(mod int *a, mod int *o) {
  int n = read(a);
  while (n != 0) { n = n - 1; }
  write(o, 7);
}
%%
";

/// Calls itself as often as the number says.
pub const DEEP: &[u8] = b"
ceal d(int n, mod int *o) { if (n > 0) { d(n - 1, o); } write(o, n); }
%%
";

/// The image of a list, each cell made from its old cell.
pub const MAP: &[u8] = b"
struct cell { int head; mod struct cell tail; };
init mk(struct cell *self, struct cell *from) { self->head = from->head * 10; }
ceal map(mod struct cell *from, mod struct cell *to) {
  struct cell *c = read(from);
  if (c != null) {
    struct cell *d = alloc cell mk(c);
    write(to, d);
    map(&c->tail, &d->tail);
  } else {
    write(to, null);
  }
}
%%
";

/// The image of a list, each cell made from the number in its old cell.
pub const MAP_NUMBERS: &[u8] = b"
struct cell { int head; mod struct cell tail; };
init mkv(struct cell *self, int h) { self->head = h; }
ceal mapv(mod struct cell *from, mod struct cell *to) {
  struct cell *c = read(from);
  if (c != null) {
    struct cell *d = alloc cell mkv(c->head);
    write(to, d);
    mapv(&c->tail, &d->tail);
  } else {
    write(to, null);
  }
}
%%
";

/// Writes 1, and 2 over it where `p` is not 0, and then what is there.
pub const CONDITIONAL: &[u8] = b"
ceal cond(mod int *p, mod int *d) {
  int c = read(p);
  if (c != 0) { write(d, 2); }
}
ceal top(mod int *p, mod int *d, mod int *e) {
  write(d, 1);
  cond(p, d);
  int x = read(d);
  write(e, x);
}
%%
";

/// Makes a box for the number 1 or 2, and then writes the number in it.
pub const BOX: &[u8] = b"
struct box { int v; };
init mk(struct box *self, int v) { self->v = v; }
ceal make(mod int *a, int k, mod struct box *m) {
  int x = read(a);
  if (x == k) {
    struct box *b = alloc box mk(x);
    write(m, b);
  }
}
ceal look(mod struct box *m, mod int *o) {
  struct box *b = read(m);
  write(o, b->v);
}
ceal top(mod int *a, mod struct box *m, mod int *o) {
  make(a, 1, m);
  make(a, 2, m);
  look(m, o);
}
%%
";

/// The value of a tree of operators: the program of a workload, and a line `%%`.
pub fn eval(alloc: Global) -> Result<Text, NoMemory>
    ensures text { IfOk result (λ text. text ≡ eval_program ++ codes "%%\n") }
{
    let mut text = Text::empty(alloc);
    text.append_str(programs::eval_program())?;
    text.append_str("%%\n")?;
    Ok(text)
}

/// The program of a source that is not longer than an input may be, and that has no fault.
pub fn compiled(alloc: Global, source: &[u8]) -> Result<Program, Fail>
    ensures valid { IfOk result (λ program. valid program.code ≡ true) }
{
    if source.len() > 4_194_304 {
        return Err(Fail::from("too long a source"));
    }
    let program = compile(alloc, source)?;
    Ok(program)
}

/// The program of such a source, without its code.
pub fn checked(alloc: Global, source: &[u8]) -> Result<Typed, Fail>
    ensures typed { IfOk result WellTyped }
{
    if source.len() > 4_194_304 {
        return Err(Fail::from("too long a source"));
    }
    let program = check_source(alloc, source)?;
    Ok(program)
}
