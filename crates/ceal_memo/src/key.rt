// What a read is found again by.

use ceal_base::forest::UnitId;
use ceal_base::word::{Place, Word};
use std::marker::Model;

/// What a read is found again by: the place that was read, and its closure, which is the unit that continues, the
/// variable that takes the value, and the arguments, which stay where they are. The value that was read is no part of
/// it. Contracts see a key as its parts.
#[derive(Drop)]
pub struct ReadKey<'a> {
    pub place: Place,
    pub unit: UnitId,
    pub var: u32,
    pub args: &'a [Word],
}

impl<'a> Model for ReadKey<'a> {
    ghost use Rattle.ceal_memo.specs.Keys.{ReadKey};

    ghost Value = { ReadKey };

    ghost view = { λ k. record {
      place = k.place;
      unit = k.unit;
      var = k.var;
      args = k.args.now;
    } };
}
