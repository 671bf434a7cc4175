// The members that classes declare, and where each class has its own.
ghost use Rattle.library.specs.Members.{called};

use super::definition::Definition;
use names::Named;

#[derive(Clone, Copy)]
pub struct Member {
    pub name: u16,
    pub definition: Definition,
    // its declaration among the nodes kept; Object's equals has none
    pub node: Option<usize>,
}

impl Named for Member {
    ghost symbol = { called };

    fn name(&self) -> u16 {
        self.name
    }
}

// Where the members that a class declares begin and end among all members, and how many cells its records have.
#[derive(Clone, Copy, Default)]
pub struct Layout {
    pub first: usize,
    pub end: usize,
    pub cells: usize,
}
