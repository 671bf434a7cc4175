// The parts of the store.
use values::value::Value;

// A cell, and the slot of the next one.
#[derive(Clone, Copy)]
pub struct Slot {
    pub value: Value,
    pub next: usize,
}
