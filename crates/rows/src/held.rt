// What a store of rows holds.
ghost use Rattle.std.specs.Prelude.{◌≡◌, ◌+◌, ◌≤◌, true, vec_len, vec_capacity};
ghost use Rattle.rows.specs.Tiles.{tiles};

use store::head::Head;
use values::value::Value;

// The memory is reserved when the store is made, so no later call wants any. Its facts are ghost fields and not the
// invariant of a `Model`: the laws of `Store` hold of each value, and `Records` alone does not say that it is whole.
#[derive(Drop)]
pub struct Rows<const RECORDS: usize, const CELLS: usize> {
    pub(crate) heads: Vec<Head<u16>>,
    pub(crate) cells: Vec<Value>,
    // what is left, beside what the Vecs hold: these are what the meaning of a store counts
    pub(crate) records_left: usize,
    pub(crate) cells_left: usize,
    ghost least: { 1 ≤ RECORDS },
    ghost most: { RECORDS ≤ 1000 },
    ghost widest: { CELLS ≤ 2000 },
    ghost head_room: { RECORDS ≤ vec_capacity heads },
    ghost cell_room: { CELLS ≤ vec_capacity cells },
    ghost records_kept: { vec_len heads + records_left ≡ RECORDS },
    ghost cells_kept: { vec_len cells + cells_left ≡ CELLS },
    ghost tiled: { tiles heads.items 0 (vec_len cells) ≡ true },
}
