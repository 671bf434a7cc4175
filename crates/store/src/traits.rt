// The interface of a record store.
ghost use Rattle.std.specs.Prelude.{◌≡◌, ℕ, ◌+◌, ◌≤◌, length};
ghost use Rattle.store.specs.Model.{Records, cleared, Created, class_at, cell_at, with_cell, cells_used};

use values::value::Value;

// A store of at most R records with at most C cells in all. Records have numbers from 1, cells from 0.
pub trait Store {
    const R: usize;

    const C: usize;

    // both for clauses
    ghost R: { ℕ };

    ghost C: { ℕ };

    // what a store means
    ghost model: { Self → Records };

    // Forgets all records.
    fn clear(&mut self)
        ensures { model self.new ≡ cleared R C };

    // A new record of that class with `cells` nulls, by its number; none if no record or too few cells are left.
    fn create(&mut self, class: u16, cells: usize) -> Option<u16>
        ensures { Created (model self.old) class cells result (model self.new) };

    // The class of a record; none if there is no such record.
    fn class_of(&self, record: u16) -> Option<u16>
        ensures { result ≡ class_at (model self.now) «record» };

    // What a cell holds; none if there is no such record or cell.
    fn read(&self, record: u16, cell: usize) -> Option<Value>
        ensures { result ≡ cell_at (model self.now) «record» cell };

    // Writes one cell and answers what it held; none if there is no such record or cell.
    fn write(&mut self, record: u16, cell: usize, value: Value) -> Option<Value>
        ensures before { result ≡ cell_at (model self.old) «record» cell }
        ensures after { model self.new ≡ with_cell (model self.old) «record» cell value };

    ghost sizes: { (s : Self) → (1 ≤ R) × (R ≤ 1000) × (C ≤ 2000) };

    ghost records: { (s : Self) → length (model s).records + (model s).records_left ≡ R };

    ghost cells: { (s : Self) → cells_used (model s).records + (model s).cells_left ≡ C };
}
