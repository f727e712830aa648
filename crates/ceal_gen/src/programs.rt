// The programs that the workloads run.

ghost use Rattle.std.specs.Prelude.{◌≡◌};
ghost use Rattle.ceal_gen.specs.Programs.{map_program as map_text, eval_program as eval_text};

/// The program of a list: each element times ten.
#[tactic(auto, unfolding(crate::specs::Programs::map_program))]
pub fn map_program() -> &'static str
    ensures { result.now ≡ map_text }
{
    "struct cell { int head; mod struct cell tail; };
init mk(struct cell *self, struct cell *from) { self->head = from->head * 10; }
ceal map(mod struct cell *from, mod struct cell *to) {
  struct cell *c = read(from);
  if (c != null) {
    struct cell *d = alloc cell mk(c);
    write(to, d);
    map(&c->tail, &d->tail);
  } else {
    write(to, null);
  }
}
"
}

/// The program of a tree: its value.
#[tactic(auto, unfolding(crate::specs::Programs::eval_program))]
pub fn eval_program() -> &'static str
    ensures { result.now ≡ eval_text }
{
    "struct node { int op; mod int leaf; mod struct node left; mod struct node right; };
ceal eval(mod struct node *root, mod int *res) {
  struct node *t = read(root);
  if (t == null) { write(res, 0); return; }
  if (t->op == 0) {
    int v = read(&t->leaf);
    write(res, v);
    return;
  }
  mod int *a = modref int();
  mod int *b = modref int();
  eval(&t->left, a);
  eval(&t->right, b);
  int x = read(a);
  int y = read(b);
  int r = 0;
  if (t->op == 1) { r = x + y; }
  else if (t->op == 2) { r = x - y; }
  else if (t->op == 3) { r = x * y; }
  else if (t->op == 4) { r = x / y; }
  else { r = x % y; }
  write(res, r);
}
"
}
