// The store: a fixed number of slots, all of them in the chains of the records or in the free chain.
ghost use Rattle.std.specs.Prelude.{◌≡◌, ◌+◌, ◌≤◌, true, vec_len, vec_capacity};
ghost use Rattle.slips.specs.Chains.{linked, counts};
ghost use Rattle.store.specs.Model.{allowed};

use crate::slot::Slot;
use store::head::Head;

// Its facts are ghost fields and not the invariant of a `Model`: the laws of `Store` hold of each value, and `Records`
// alone does not say that it is whole.
#[derive(Drop)]
pub struct Slips<const RECORDS: usize, const CELLS: usize> {
    pub(crate) heads: Vec<Head<usize>>,
    pub(crate) slots: Vec<Slot>,
    // where the free chain begins
    pub(crate) free: usize,
    // how many records are left; beside the length of `heads`, since it is what the meaning of a store counts
    pub(crate) records_left: usize,
    // how many slots the free chain has
    pub(crate) cells_left: usize,
    ghost sizes: { allowed RECORDS CELLS ≡ true },
    ghost head_room: { RECORDS ≤ vec_capacity heads },
    ghost filled: { vec_len slots ≡ CELLS },
    ghost records_kept: { vec_len heads + records_left ≡ RECORDS },
    ghost cells_kept: { counts heads.items + cells_left ≡ CELLS },
    ghost chains: { linked slots.items heads.items free cells_left ≡ true },
}
