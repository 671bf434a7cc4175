// Classes, by number.
use names::Named;

// A class: its name, its number, and the number of its super-class, which only Object lacks.
#[derive(Clone, Copy)]
pub struct Class {
    pub name: u16,
    pub number: u8,
    pub parent: Option<u8>,
}

impl Named for Class {
    ghost symbol = { λ c. c.name };

    fn name(&self) -> u16 {
        self.name
    }
}
