// What a name stands for: a type, or a member of a class.
ghost use Rattle.std.specs.Prelude.{◌≡◌, ℕ, ◌<◌, ◌≤◌, length, Some, MatchOption, ◌≢◌};
ghost use Rattle.values.specs.declared.types.«Type».TheVariants.{Class as ClassType};
ghost use Rattle.std.specs.List.{between};
ghost use Rattle.library.specs.Members.{layout_at, own, Placed};
ghost use Rattle.library.specs.Contents.{contents};
ghost use Rattle.library.specs.Environments.{type_env, environment};

use super::held::Library;
use super::member::{Layout, Member};
use names::{Named, find};
use types::class::Class;
use types::hierarchy::Hierarchy;
use types::subtypes::parent_of;
use values::types::Type;

// The name of a type that is no class. One generic entry for this and for what is in view would name the value of neither.
#[derive(Clone, Copy)]
pub struct TypeName {
    pub name: u16,
    pub of: Type,
}

impl Named for TypeName {
    ghost symbol = { λ t. t.name };

    fn name(&self) -> u16 {
        self.name
    }
}

const BASIC: [TypeName; 4] = [
    TypeName {
        name: 1,
        of: Type::Void,
    },
    TypeName {
        name: 2,
        of: Type::Boolean,
    },
    TypeName {
        name: 3,
        of: Type::Float,
    },
    TypeName {
        name: 4,
        of: Type::Int,
    },
];

impl Library {
    // The classes, in the order of their numbers.
    pub fn classes(&self) -> &[Class]
        ensures { result.now ≡ (contents self.now).classes }
    {
        self.classes.as_slice()
    }

    // The classes, with the relations on types that they give.
    pub fn hierarchy(&self) -> Hierarchy<'_>
        ensures { result.classes.now ≡ (contents self.now).classes }
    {
        Hierarchy {
            classes: self.classes(),
        }
    }

    // The type that a name stands for.
    #[tactic(auto, unfolding(crate::specs::Environments::type_env))]
    pub fn type_named(&self, name: u16) -> Option<Type>
        ensures { result ≡ type_env (contents self.now).classes name }
    {
        let basic = find(&BASIC, name).map(|basic| basic.of);
        basic.or_else(|| find(self.classes(), name).map(|class| Type::Class(class.number)))
    }

    // The class that a name stands for, by number.
    pub fn class_named(&self, name: u16) -> Option<u8>
        ensures { MatchOption result ((j : ℕ) → type_env (contents self.now).classes name ≢ Some (ClassType j)) (λ j. (type_env (contents self.now).classes name ≡ Some (ClassType j)) × (j < length (contents self.now).classes)) }
    {
        match self.type_named(name)? {
            Type::Class(number) => Some(number),
            _ => None,
        }
    }

    // How many members there are, of all classes.
    pub fn member_count(&self) -> usize
        ensures { result ≡ length (contents self.now).members }
    {
        self.members.len()
    }

    // The members from `first` on, up to `end`.
    pub fn members_between(&self, first: usize, end: usize) -> &[Member]
        requires forward { first ≤ end }
        requires within { end ≤ length (contents self.now).members }
        ensures { result.now ≡ between first end (contents self.now).members }
    {
        &self.members.as_slice()[first..end]
    }

    // Where a class has its members; a number that is no class has none.
    fn layout(&self, class: u8) -> Layout
        ensures value { result ≡ layout_at (contents self.now).layouts class }
        ensures placed { Placed result (length (contents self.now).members) }
    {
        self.layouts
            .get(usize::from(class))
            .copied()
            .unwrap_or_default()
    }

    // The members that a class declares itself.
    fn own_members(&self, class: u8) -> &[Member]
        ensures { result.now ≡ own (contents self.now).layouts (contents self.now).members class }
    {
        let layout = self.layout(class);
        self.members_between(layout.first, layout.end)
    }

    // How many cells the records of a class have.
    pub fn cells(&self, class: u8) -> usize
        ensures value { result ≡ (layout_at (contents self.now).layouts class).cells }
        ensures bound { result ≤ length (contents self.now).members }
    {
        self.layout(class).cells
    }

    // The member that a name stands for in a class: its own, or else what its super-class has.
    pub fn member_named(&self, class: u8, name: u16) -> Option<Member>
        ensures { result ≡ environment (contents self.now) class name }
    {
        // a climb with a measure: the iterator `successors` has no end that a proof knows
        let mut at = class;
        loop {
            if let Some(member) = find(self.own_members(at), name) {
                return Some(member);
            }
            at = parent_of(self.classes(), at)?;
        }
    }
}
