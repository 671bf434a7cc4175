// What a cell, a variable or an operand holds, and what stands in the lists that a run reads and writes.

#[derive(Clone, Copy)]
pub enum Value {
    Null,
    Int(i32),
    Float(f64),
    Boolean(bool),
    // a record, by its number
    Record(u16),
    // a text, by its number
    Text(u16),
}

// An item of an input or output list.
#[derive(Clone, Copy)]
pub enum Item {
    Value(Value),
    LineEnd,
}
