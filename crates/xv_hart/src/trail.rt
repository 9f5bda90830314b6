//! The registers with which the hart's steps began, in room that is made once.
ghost use Rattle.std.specs.Prelude.{◌≡◌, ◌<◌, ◌≤◌, [], ◌∷◌, ◌++◌, length, IfOk};

use crate::regs::Regs;
use std::alloc::Global;
use std::marker::Model;
use std::slice::from_ref;
use xv_base::NoMemory;

/// Registers, one entry for each step; none without room.
#[derive(Drop)]
pub(crate) struct Trail {
    entries: Option<Vec<Regs>>,
    room: usize,
}

impl Model for Trail {
    ghost use Rattle.std.specs.Prelude.{◌≤◌, length};
    ghost use Rattle.xv_hart.specs.Trail.{TrailState, entries_of, capacity_of};

    ghost Value = { TrailState };

    ghost view = { λ t. record { entries = entries_of t.entries; room = t.room } };

    ghost invariant = { λ t.
        (length (entries_of t.entries) ≤ t.room) × (t.room ≤ capacity_of t.entries) };
}

impl Trail {
    ghost use Rattle.xv_hart.specs.Trail.{no_trail};

    /// No entry, and room for none.
    pub fn none() -> Trail
        ensures { result ≡ no_trail }
    {
        Trail {
            entries: None,
            room: 0,
        }
    }

    /// No entry, and room for so many.
    pub fn with_room(alloc: Global, room: usize) -> Result<Trail, NoMemory>
        ensures { IfOk result (λ trail. trail ≡ record { entries = []; room = room }) }
    {
        match Vec::with_capacity(alloc, room) {
            Ok(entries) => Ok(Trail {
                entries: Some(entries),
                room,
            }),
            Err(_) => Err(NoMemory),
        }
    }

    /// How many entries there is room for.
    pub fn room(&self) -> usize
        ensures room { result ≡ self.now.room }
        ensures within { length self.now.entries ≤ self.now.room }
    {
        self.room
    }

    /// The entries, the oldest first.
    pub fn entries(&self) -> &[Regs]
        ensures { result.now ≡ self.now.entries }
    {
        match &self.entries {
            Some(entries) => entries.as_slice(),
            None => &[],
        }
    }

    /// Takes all entries out.
    pub fn clear(&mut self)
        ensures { self.new ≡ record self.old { entries = [] } }
    {
        if let Some(entries) = &mut self.entries {
            entries.clear();
        }
    }

    /// Appends an entry.
    pub fn push(&mut self, regs: &Regs)
        requires { length self.old.entries < self.old.room }
        ensures { self.new ≡ record self.old { entries = self.old.entries ++ regs.now ∷ [] } }
    {
        if let Some(entries) = &mut self.entries {
            // copied straight to its place, and not by value
            let _ = entries.extend_from_slice(from_ref(regs));
        }
    }
}
