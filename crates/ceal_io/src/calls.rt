// The calls of a stream in memory, some of which fail.

ghost use Rattle.std.specs.Prelude.{◌≡◌, ◌≤◌};
ghost use Rattle.ceal_io.specs.Calls.{has_number, next_fails, after_call};

use std::marker::Model;

/// The numbers, from 1, of the calls that fail, how many calls were made, and how many failed.
#[derive(Drop)]
pub struct Calls {
    fails: Vec<u32>,
    made: u32,
    faults: u64,
}

impl Model for Calls {
    ghost use Rattle.ceal_io.specs.Calls.{Calls as CallsValue};

    ghost Value = { CallsValue };

    ghost view = { λ c. record { fails = c.fails.items; made = c.made; faults = c.faults } };
}

impl Calls {
    /// No call yet.
    pub fn new(fails: Vec<u32>) -> Calls
        ensures { result ≡ record { fails = fails.items; made = 0; faults = 0 } }
    {
        Calls {
            fails,
            made: 0,
            faults: 0,
        }
    }

    /// Counts one more call, and says whether it fails.
    pub fn next_fails(&mut self) -> bool
        ensures answer { result ≡ next_fails self.old }
        ensures counted { self.new ≡ after_call self.old }
        ensures later { self.old.faults ≤ self.new.faults }
    {
        self.made = self.made.saturating_add(1);
        let fails = has_number(&self.fails, self.made);
        if fails {
            self.faults = self.faults.saturating_add(1);
        }
        fails
    }
}

#[tactic(auto, unfolding(crate::specs::Calls::has_number))]
fn has_number(numbers: &[u32], number: u32) -> bool
    ensures { result ≡ has_number numbers.now number }
{
    numbers.contains(&number)
}
