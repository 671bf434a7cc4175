// The operations of a store of slips.
ghost use Rattle.std.specs.Prelude.{◌≡◌, ◌<◌, vec_len, IfSome};
ghost use Rattle.store.specs.Model.{Made};
ghost use Rattle.slips.specs.Chains.{slot_at};
ghost use Rattle.slips.specs.Counted.{sizes_bounded, records_whole, cells_whole};
ghost use Rattle.slips.specs.SlipsModel.{slips_model};

use crate::chains::{blank, follow, relink};
use crate::slips::Slips;
use crate::slot::Slot;
use std::alloc::Global;
use std::mem;
use store::head::{Head, entry_of};
use store::made::{NotMade, check_sizes};
use store::traits::Store;
use values::value::Value;

impl<const RECORDS: usize, const CELLS: usize> Slips<RECORDS, CELLS> {
    // An empty store. No later call allocates.
    pub fn new(heap: Global) -> Result<Self, NotMade>
        ensures { Made slips_model RECORDS CELLS result }
    {
        check_sizes(RECORDS, CELLS)?;
        let heads = Vec::with_capacity(heap, RECORDS)?;
        let mut slots = vec![in heap; Slot {
            value: Value::Null,
            next: 0
        }; CELLS]?;
        relink(&mut slots);
        Ok(Slips {
            heads,
            slots,
            free: 0,
            records_left: RECORDS,
            cells_left: CELLS,
        })
    }

    // The slot of a cell; none if there is no such record or cell.
    fn place_of(&self, record: u16, cell: usize) -> Option<usize>
        ensures is { result ≡ slot_at self.now.slots.items self.now.heads.items «record» cell }
        ensures there { IfSome result (λ at. at < vec_len self.now.slots) }
    {
        let head = entry_of(&self.heads, record)?;
        if head.count <= cell {
            return None;
        }
        Some(follow(&self.slots, head.first, cell))
    }
}

impl<const RECORDS: usize, const CELLS: usize> Store for Slips<RECORDS, CELLS> {
    const R: usize = RECORDS;

    const C: usize = CELLS;

    ghost R = { RECORDS };

    ghost C = { CELLS };

    ghost model = { slips_model };

    ghost sizes = { λ s. sizes_bounded s };

    ghost records = { λ s. records_whole s };

    ghost cells = { λ s. cells_whole s };

    fn clear(&mut self) {
        relink(&mut self.slots);
        self.heads.clear();
        self.free = 0;
        self.records_left = Self::R;
        self.cells_left = Self::C;
    }

    // The front of the free chain becomes the chain of the new record.
    fn create(&mut self, class: u16, cells: usize) -> Option<u16> {
        if self.records_left == 0 || self.cells_left < cells {
            return None;
        }
        let first = self.free;
        self.free = blank(&mut self.slots, first, cells);
        self.heads.push_reserved(Head {
            class,
            first,
            count: cells,
        });
        self.records_left -= 1;
        self.cells_left -= cells;
        Some((Self::R - self.records_left) as u16)
    }

    fn class_of(&self, record: u16) -> Option<u16> {
        entry_of(&self.heads, record).map(|head| head.class)
    }

    fn read(&self, record: u16, cell: usize) -> Option<Value> {
        Some(self.slots[self.place_of(record, cell)?].value)
    }

    fn write(&mut self, record: u16, cell: usize, value: Value) -> Option<Value> {
        let at = self.place_of(record, cell)?;
        Some(mem::replace(&mut self.slots[at].value, value))
    }
}
