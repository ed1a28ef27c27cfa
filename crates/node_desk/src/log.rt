ghost use Rattle.std.specs.Prelude.{◌≡◌, ◌+◌, ◌<◌, ◌≤◌, ◌++◌, ◌∷◌, [], OnOk, OnErr};

use crate::event::Event;
use std::alloc::Global;
use std::marker::Model;
use term_values::OutOfMemory;

/// The events of a node, the oldest first. Contracts see the list, and how many more need no
/// memory.
#[derive(Drop)]
pub struct Log {
    events: Vec<Event>,
}

impl Model for Log {
    ghost use Rattle.std.specs.Prelude.{◌-◌, vec_len, vec_capacity};
    ghost use Rattle.node_desk.specs.Events.{Logged};
    ghost use Rattle.term_values.specs.Codes.{coded_tree};
    ghost use Rattle.std.specs.Coded.{codes};

    ghost Value = { Logged };

    ghost coded = { Prim.hlevel (codes, coded_tree) };

    ghost view = { λ l. record { events = l.events.items; room = vec_capacity l.events - vec_len l.events } };
}

impl Log {
    /// No events. Takes no memory.
    pub(crate) fn new(alloc: Global) -> Log
        ensures empty { result.events ≡ [] }
    {
        Log {
            events: Vec::new(alloc),
        }
    }

    /// The events, the oldest first. Takes no memory.
    pub fn list(&self) -> &[Event]
        ensures value { result.now ≡ self.now.events }
    {
        self.events.as_slice()
    }

    /// Takes the memory of so many further events.
    pub(crate) fn reserve(&mut self, more: usize) -> Result<(), OutOfMemory>
        ensures room { OnOk result (more ≤ self.new.room) }
        ensures grows { self.old.room ≤ self.new.room }
        ensures kept { self.new.events ≡ self.old.events }
        ensures less { OnErr result (self.new ≡ self.old) }
    {
        self.events.reserve(more)
    }

    /// Adds an event.
    pub(crate) fn push(&mut self, event: Event)
        requires { 0 < self.old.room }
        ensures added { self.new.events ≡ self.old.events ++ event ∷ [] }
        ensures room { self.old.room ≡ self.new.room + 1 }
    {
        self.events.push_reserved(event);
    }
}
