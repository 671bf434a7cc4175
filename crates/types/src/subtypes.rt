// Which type lies under which, and what may be assigned or converted.
ghost use Rattle.std.specs.Prelude.{◌≡◌, Decides};
ghost use Rattle.values.specs.declared.types.«Type».TheVariants.{Class as ClassType};
ghost use Rattle.types.specs.Classes.{class_at};
ghost use Rattle.types.specs.Subtypes.{Subtype, Assignable, Castable, Laws};

use super::class::Class;
use super::hierarchy::Hierarchy;
use values::types::Type;

// The number of a class's super-class, if it has one.
pub fn parent_of(classes: &[Class], class: u8) -> Option<u8>
    ensures { result ≡ (class_at classes.now class).parent }
{
    classes
        .get(usize::from(class))
        .and_then(|class| class.parent)
}

impl Hierarchy<'_> {
    // Whether a class is `upper` or lies under it: climbs from class to super-class while the number is higher.
    // A loop, since `any` wants an iterator that is known to end, which `successors` is not.
    fn is_subclass(self, lower: u8, upper: u8) -> bool
        ensures { Decides result (Subtype self.entry.classes.now (ClassType lower) (ClassType upper)) }
    {
        let mut class = lower;
        while class > upper {
            let Some(parent) = parent_of(self.classes, class) else {
                return false;
            };
            class = parent;
        }
        class == upper
    }

    // Whether `lower` is `upper` or lies under it.
    #[tactic(auto, using(crate::proofs::Growing::laws))]
    pub fn is_subtype(self, lower: Type, upper: Type) -> bool
        ensures answer { Decides result (Subtype self.entry.classes.now lower upper) }
        ensures laws { Laws self.entry.classes.now }
    {
        match (lower, upper) {
            (Type::Class(below), Type::Class(above)) => self.is_subclass(below, above),
            (Type::Null, Type::Class(above)) => usize::from(above) < self.classes.len(),
            _ => lower == upper,
        }
    }

    // Whether a value may be assigned where a type is declared.
    pub fn is_assignable(self, declared: Type, value: Type) -> bool
        ensures { Decides result (Assignable self.entry.classes.now declared value) }
    {
        declared == Type::Float && value == Type::Int || self.is_subtype(value, declared)
    }

    // Whether a value of one type may be converted to another.
    pub fn is_castable(self, from: Type, to: Type) -> bool
        ensures { Decides result (Castable self.entry.classes.now from to) }
    {
        from != Type::Void && (self.is_assignable(from, to) || self.is_assignable(to, from))
    }
}
