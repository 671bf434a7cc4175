// What a name stands for in an expression: its nature and its type.
use values::types::Type;

#[derive(Clone, Copy)]
pub enum Visibility {
    Public,
    Protected,
}

// The types of a method's parameters, in order. The places behind them are void. An array with its count: an ArrayVec is not
// Copy, and definitions are copied out of the lists. That the count is at most 8 is no ghost field, since `signature` of the
// specs makes a Signature of any list of types, of which that does not hold.
#[derive(Clone, Copy, PartialEq, Eq)]
pub struct Signature {
    pub count: usize,
    pub types: [Type; 8],
}

#[derive(Clone, Copy)]
pub enum Nature {
    Param,
    Var,
    Method(Signature),
    // the class that declares it, by number, and its cell in every record of that class
    Field {
        visibility: Visibility,
        class: u8,
        cell: usize,
    },
}

#[derive(Clone, Copy)]
pub struct Definition {
    pub nature: Nature,
    pub of: Type,
}
