//! Records by number, each once.

ghost use Rattle.std.specs.Prelude.{◌≡◌, ◌↔◌, [], Err, OnOk, OnErr};
ghost use Rattle.rg_monitor.specs.Gathered.{WasTaken, with_entry, Gives};

use crate::record::Record;
use std::alloc::Global;
use std::collections::BTreeMap;
use std::marker::Model;

/// Why a record isn't taken.
#[derive(Clone, Copy, PartialEq, Eq, Debug)]
pub enum Untaken {
    /// A record of this number was taken before.
    Stranger,
    /// Memory was refused.
    Memory,
}

/// Takes records in any order and gives them in the order of their numbers: 1, 2, 3 and on, each once.
#[derive(Drop)]
pub struct Gather {
    given: u64,
    waiting: BTreeMap<u64, Record>,
}

impl Model for Gather {
    ghost use Rattle.rg_monitor.specs.Gathered.{Gathered, UnderNumbers};

    ghost Value = { Gathered };

    ghost view = { λ g. record { given = g.given; waiting = g.waiting.entries } };

    ghost invariant = { λ g. UnderNumbers g.waiting.entries };
}

impl Gather {
    /// No record was taken. It takes no memory.
    pub fn new(alloc: Global) -> Gather
        ensures { result ≡ record { given = 0; waiting = [] } }
    {
        Gather {
            given: 0,
            waiting: BTreeMap::new(alloc),
        }
    }

    /// Takes a record.
    ///
    /// Refused, and then unchanged: `Stranger` exactly where a record of its number was taken before; else `Memory` where
    /// memory was refused. A record of number 0 is taken, once, and never given.
    pub fn take(&mut self, step: Record) -> Result<(), Untaken>
        ensures ok { OnOk result (self.new ≡ with_entry self.old step) }
        ensures stranger { (result ≡ Err Untaken.Stranger) ↔ WasTaken self.old step.number }
        ensures err { OnErr result (self.new ≡ self.old) }
    {
        let number = step.number();
        if 0 < number && number <= self.given || self.waiting.contains_key(&number) {
            return Err(Untaken::Stranger);
        }
        match self.waiting.insert(number, step) {
            Ok(_) => Ok(()),
            Err(_) => Err(Untaken::Memory),
        }
    }

    /// The record of the next number, 1 at first, exactly where it was taken. It takes no memory.
    pub fn ready(&mut self) -> Option<Record>
        ensures { Gives self.old result self.new }
    {
        let next = self.given.checked_add(1)?;
        let found = self.waiting.remove(&next)?;
        self.given = next;
        Some(found)
    }
}
