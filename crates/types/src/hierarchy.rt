// Classes in the order of their numbers, which the relations on types are asked of.
ghost use Rattle.types.specs.Classes.{Ordered};

use super::class::Class;

// Each class stands at its number and behind its super-class; Object comes first.
#[derive(Clone, Copy)]
pub struct Hierarchy<'a> {
    pub classes: &'a [Class],
    pub ghost ordered: { Ordered classes.now },
}
