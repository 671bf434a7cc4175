// Lists of a bounded length, whose memory is fixed.
ghost use Rattle.std.specs.Prelude.{◌≡◌, ◌≤◌, List, [], ◌∷◌, ◌++◌, IfOk, vec_len, vec_capacity};
ghost use Rattle.job.specs.Kept.{kept, Keeps};

use std::alloc::{AllocError, Global};
use std::marker::Model;

// All memory is reserved when the list is made, so that to add an item cannot fail. What has no room is dropped; the vectors of
// a library or a store never meet that, so they are none of these. A line is too long for an array on the stack.
#[derive(Drop)]
pub struct Reserved<T, const ROOM: usize> {
    items: Vec<T>,
}

// Clauses see the items.
impl<T, const ROOM: usize> Model for Reserved<T, ROOM> {
    ghost Value = { List T };

    ghost view = { λ r. r.items.items };

    ghost invariant = { λ r. (ROOM ≤ vec_capacity r.items) × (vec_len r.items ≤ ROOM) };
}

impl<T: Drop, const ROOM: usize> Reserved<T, ROOM> {
    pub fn new(heap: Global) -> Result<Self, AllocError>
        ensures { IfOk result (λ r. r ≡ []) }
    {
        let items = Vec::with_capacity(heap, ROOM)?;
        Ok(Reserved { items })
    }

    // Adds an item behind the others, or drops it where there is no room.
    pub fn push(&mut self, item: T)
        ensures items { self.new ≡ kept ROOM self.old item }
        ensures whole { (added : List T) → Keeps ROOM self.old added → Keeps ROOM self.new (added ++ item ∷ []) }
    {
        if self.items.len() < ROOM {
            self.items.push_reserved(item);
        }
    }

    pub fn as_slice(&self) -> &[T]
        ensures { result.now ≡ self.now }
    {
        self.items.as_slice()
    }

    pub fn clear(&mut self)
        ensures { self.new ≡ [] }
    {
        self.items.clear();
    }
}
