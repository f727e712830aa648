// What C keeps of a session.

ghost use Rattle.std.specs.Prelude.{◌≡◌, Option, Some, None, MatchOption};
ghost use Rattle.std.specs.Coded.{coded_option};
ghost use Rattle.ceal_c.specs.contracts.open.Open.{the_row as OpenRow};

use crate::loose::Loose;
use crate::open::Open;
use std::alloc::Global;
use std::marker::Model;
use std::mem::replace;
use std::ptr::null_mut;

/// A session that C keeps: the pointer to it, or null where it is closed.
#[repr(C)]
#[derive(Drop)]
pub struct Ceal {
    at: *mut u8,
    ghost kept: { Option OpenRow.Denot } by { coded_option OpenRow.coded },
}

impl Model for Ceal {
    ghost use Rattle.ceal_c.specs.Owned.{owned};
    ghost use Rattle.ceal_c.specs.contracts.open.Open.{the_row as OpenRow};

    ghost also_owns = { λ c. owned OpenRow c.at c.kept };
}

impl Ceal {
    // No session.
    fn closed() -> Ceal
        ensures { result.kept ≡ None }
    {
        Ceal { at: null_mut() }
    }

    // A session, by its pointer.
    fn of(loose: Loose<Open, Global>) -> Ceal
        ensures { result.kept ≡ Some loose.value }
    {
        let Loose { at, alloc: _ } = loose;
        Ceal { at: at as *mut u8 }
    }

    // The session, if there is one.
    fn into_loose(self, alloc: Global) -> Option<Loose<Open, Global>>
        ensures { MatchOption result (self.kept ≡ None) (λ l. self.kept ≡ Some l.value) }
    {
        let Ceal { at } = self;
        if at.is_null() {
            None
        } else {
            Some(Loose {
                at: at as *mut Open,
                alloc,
            })
        }
    }

    /// Takes the session out, if there is one.
    pub fn take(&mut self, alloc: Global) -> Option<Box<Open, Global>>
        ensures taken { MatchOption result (self.old.kept ≡ None)
            (λ b. self.old.kept ≡ Some b.value) }
        ensures left { self.new.kept ≡ None }
    {
        let kept = replace(self, Ceal::closed());
        match kept.into_loose(alloc) {
            Some(loose) => Some(loose.into_box()),
            None => None,
        }
    }

    /// Puts a session in.
    pub fn put(&mut self, session: Box<Open, Global>)
        requires closed { self.old.kept ≡ None }
        ensures put { self.new.kept ≡ Some session.value }
    {
        *self = Ceal::of(Loose::of(session));
    }
}
