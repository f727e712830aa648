// The values of writes, told by a trace.

ghost use Rattle.ceal_repair.specs.Lists.{told_in};

use ceal_base::word::Word;
use ceal_mods::written::Written;
use ceal_order::stamp::Stamp;
use ceal_trace::trace::Trace;

/// A trace, which tells the values of its writes.
#[derive(Clone, Copy)]
pub struct WrittenIn<'a> {
    pub trace: &'a Trace,
}

impl<'a> Written for WrittenIn<'a> {
    ghost tells = { λ w. told_in w.trace.now.nodes };

    #[inline]
    fn written_at(&self, write: Stamp) -> Word {
        self.trace.written_at(write)
    }
}
