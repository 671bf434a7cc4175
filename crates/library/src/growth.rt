// How a library is made and grows.
ghost use Rattle.std.specs.Prelude.{◌≡◌, ◌+◌, ◌<◌, ◌≤◌, [], ◌∷◌, length, IfOk, slice_set};
ghost use Rattle.library.specs.Contents.{contents, predefined, with_nodes, with_class, more_members, with_layout, with_attributes};

use super::attribute::Attribute;
use super::definition::{Definition, Nature, Signature};
use super::held::Library;
use super::member::{Layout, Member};
use std::alloc::{AllocError, Global};
use table::kinds::Node;
use types::class::Class;
use values::types::Type;

// At most so many classes, Object counted, and so many nodes of all batches together, where `table` counts those of one batch.
// Each member has a node of its own, but Object's equals.
pub const MOST_CLASSES: usize = 32;

pub const MOST_NODES: usize = 1024;

const MOST_MEMBERS: usize = 1025;

// The symbols of what no batch declares: the class Object and its method equals.
const OBJECT: u16 = 5;

const EQUALS: u16 = 6;

impl Library {
    // A library that holds only Object. No later call allocates.
    pub fn new(heap: Global) -> Result<Self, AllocError>
        ensures { IfOk result (λ l. contents l ≡ predefined) }
    {
        let mut classes = Vec::with_capacity(heap, MOST_CLASSES)?;
        let mut layouts = Vec::with_capacity(heap, MOST_CLASSES)?;
        let mut members = Vec::with_capacity(heap, MOST_MEMBERS)?;
        let nodes = Vec::with_capacity(heap, MOST_NODES)?;
        let attributes = Vec::with_capacity(heap, MOST_NODES)?;
        classes.push_reserved(Class {
            name: OBJECT,
            number: 0,
            parent: None,
        });
        layouts.push_reserved(Layout {
            first: 0,
            end: 1,
            cells: 0,
        });
        members.push_reserved(Member {
            name: EQUALS,
            definition: Definition {
                nature: Nature::Method(Signature::empty().with(Type::Class(0))),
                of: Type::Boolean,
            },
            node: None,
        });
        Ok(Library {
            classes,
            layouts,
            members,
            nodes,
            attributes,
        })
    }

    // Keeps the nodes of a batch, none of them with an attribute yet. There is room for them, so neither call allocates or fails.
    pub fn keep_nodes(&mut self, batch: &[Node])
        requires { length (contents self.old).nodes + length batch.now ≤ 1024 }
        ensures { contents self.new ≡ with_nodes (contents self.old) batch.now }
    {
        self.nodes.extend_from_slice(batch).unwrap();
        self.attributes.resize(self.nodes.len(), None).unwrap();
    }

    // Adds a class under the class `parent`. It has no members yet.
    pub fn add_class(&mut self, name: u16, parent: u8)
        requires room { length (contents self.old).classes < 32 }
        requires parent { parent < length (contents self.old).classes }
        ensures { contents self.new ≡ with_class (contents self.old) name parent }
    {
        let number = self.classes.len() as u8;
        let end = self.members.len();
        self.classes.push_reserved(Class {
            name,
            number,
            parent: Some(parent),
        });
        self.layouts.push_reserved(Layout {
            first: end,
            end,
            cells: 0,
        });
    }

    // Adds a member, of a class that is not finished yet.
    pub fn add_member(&mut self, member: Member)
        requires { length (contents self.old).members < length (contents self.old).nodes + 1 }
        ensures { contents self.new ≡ more_members (contents self.old) (member ∷ []) }
    {
        self.members.push_reserved(member);
    }

    // Gives a class the members from `first` on, and its records their number of cells.
    pub fn finish_class(&mut self, class: u8, first: usize, cells: usize)
        requires class { class < length (contents self.old).classes }
        requires first { first ≤ length (contents self.old).members }
        requires cells { cells ≤ length (contents self.old).members }
        ensures { contents self.new ≡ with_layout (contents self.old) class first cells }
    {
        let end = self.members.len();
        self.layouts[usize::from(class)] = Layout { first, end, cells };
    }

    // Gives a node an attribute, or none.
    pub fn note(&mut self, place: usize, attribute: Option<Attribute>)
        requires { place < length (contents self.old).nodes }
        ensures { contents self.new ≡ with_attributes (contents self.old) (slice_set (contents self.old).attributes place attribute) }
    {
        self.attributes[place] = attribute;
    }
}
