// The operations of a store of rows.
ghost use Rattle.std.specs.Prelude.{◌≡◌, ◌+◌, ◌≤◌, ◌++◌, replicate, None, vec_len, vec_capacity, MatchOption};
ghost use Rattle.values.specs.declared.value.Value.TheVariants.{Null};
ghost use Rattle.store.specs.Model.{Made, cell_at};
ghost use Rattle.rows.specs.Meaning.{meaning, Lies};
ghost use Rattle.rows.specs.Counted.{records_counted, cells_counted};

use super::held::Rows;
use std::alloc::Global;
use std::mem;
use store::head::{Head, entry_of};
use store::made::{NotMade, check_sizes};
use store::traits::Store;
use values::value::Value;

impl<const RECORDS: usize, const CELLS: usize> Rows<RECORDS, CELLS> {
    // An empty store, with all its memory.
    pub fn new(heap: Global) -> Result<Self, NotMade>
        ensures { Made meaning RECORDS CELLS result }
    {
        check_sizes(RECORDS, CELLS)?;
        let heads = Vec::with_capacity(heap, RECORDS)?;
        let cells = Vec::with_capacity(heap, CELLS)?;
        Ok(Rows {
            heads,
            cells,
            records_left: RECORDS,
            cells_left: CELLS,
        })
    }

    // Where a cell is in the sequence of all cells; none if there is no such record or cell.
    fn place_of(&self, record: u16, cell: usize) -> Option<usize>
        ensures { MatchOption result (cell_at (meaning self.now) «record» cell ≡ None) (λ p. Lies self.now «record» cell p) }
    {
        let head = entry_of(&self.heads, record)?;
        if cell >= usize::from(head.count) {
            return None;
        }
        Some(usize::from(head.first) + cell)
    }
}

// What the two stores share stands in crate `store`; what is left alike here and in `slips` are the trait's own signatures.
impl<const RECORDS: usize, const CELLS: usize> Store for Rows<RECORDS, CELLS> {
    const R: usize = RECORDS;

    const C: usize = CELLS;

    ghost R = { RECORDS };

    ghost C = { CELLS };

    ghost model = { meaning };

    ghost sizes = { λ s. (s.least, s.most, s.widest) };

    ghost records = { λ s. records_counted s };

    ghost cells = { λ s. cells_counted s };

    fn clear(&mut self) {
        self.heads.clear();
        self.cells.clear();
        self.records_left = Self::R;
        self.cells_left = Self::C;
    }

    fn create(&mut self, class: u16, cells: usize) -> Option<u16> {
        if self.records_left == 0 || self.cells_left < cells {
            return None;
        }
        let first = self.cells.len() as u16;
        self.heads.push_reserved(Head {
            class,
            first,
            count: cells as u16,
        });
        add_nulls(&mut self.cells, cells);
        self.records_left -= 1;
        self.cells_left -= cells;
        Some((Self::R - self.records_left) as u16)
    }

    fn class_of(&self, record: u16) -> Option<u16> {
        entry_of(&self.heads, record).map(|head| head.class)
    }

    fn read(&self, record: u16, cell: usize) -> Option<Value> {
        Some(self.cells[self.place_of(record, cell)?])
    }

    fn write(&mut self, record: u16, cell: usize, value: Value) -> Option<Value> {
        let place = self.place_of(record, cell)?;
        Some(mem::replace(&mut self.cells[place], value))
    }
}

// Appends `count` nulls. A loop, since with `resize_with` a create takes half as long again, and no operation of a store
// may be more than a tenth slower than with the older form (bench/stores).
fn add_nulls(cells: &mut Vec<Value>, count: usize)
    requires { vec_len cells.old + count ≤ vec_capacity cells.old }
    ensures items { cells.new.items ≡ cells.old.items ++ replicate count Null }
    ensures len { vec_len cells.new ≡ vec_len cells.old + count }
    ensures cap { vec_capacity cells.new ≡ vec_capacity cells.old }
{
    for _ in 0..count {
        cells.push_reserved(Value::Null);
    }
}
