//! Events done again.

ghost use Rattle.std.specs.Prelude.{◌≡◌, ◌≤◌, IsTrue, IsFalse, length, map, take};
ghost use Rattle.rg_machine.specs.Machine.{Configuration};
ghost use Rattle.rg_machine.specs.Replay.{happening, EventFits, EventsFit, Leads, Replays, CannotGoOn};

use crate::config::{Config, Stepped};
use crate::event::Event;

impl<'e> Config<'e> {
    /// Lets one event happen, if it can.
    fn happen(&mut self, event: &Event) -> bool
        requires { EventFits self.old event.now }
        ensures done { IsTrue result → Leads self.old (happening event.now) self.new }
        ensures refused { IsFalse result → (d : Configuration) → Leads self.old (happening event.now) d → ⊥ }
        ensures same { IsFalse result → self.new ≡ self.old }
    {
        match event {
            Event::Part(part) => match self.step(*part) {
                Stepped::Did => true,
                Stepped::Blocked => false,
                Stepped::Ended => false,
            },
            Event::Environment(state) => self.change(state),
        }
    }

    /// Lets events happen in order, up to the first that can't, and gives how many did. It takes no memory.
    pub fn replay(&mut self, events: &[Event]) -> usize
        requires { EventsFit self.old events.now }
        ensures count { result ≤ length events.now }
        // The first of them happened, and led to what is left.
        ensures done { Replays self.old (map happening (take result events.now)) self.new }
        // The one after them can't.
        ensures longest { CannotGoOn self.new (map happening events.now) result }
    {
        for (done, event) in events.iter().enumerate() {
            if !self.happen(event) {
                return done;
            }
        }
        events.len()
    }
}
