// What a library holds. Its memory is reserved when it is made, so no later call wants any.
ghost use Rattle.std.specs.Prelude.{◌≡◌, ℕ, ◌+◌, ◌≤◌, vec_len, vec_capacity};
ghost use Rattle.types.specs.Classes.{Ordered};
ghost use Rattle.library.specs.Members.{layout_at, Placed};

use super::attribute::Attribute;
use super::member::{Layout, Member};
use table::kinds::Node;
use types::class::Class;

// A class has one place among `classes` and `layouts`, a node one among `nodes` and `attributes`: apart, since a Hierarchy and
// the functions of `table` take slices of classes and of nodes alone. Clauses see a library by `contents`, and no Model stands in
// its place, since callers also need the facts below, which a Model would hide.
#[derive(Drop)]
pub struct Library {
    pub(crate) classes: Vec<Class>,
    pub(crate) layouts: Vec<Layout>,
    pub(crate) members: Vec<Member>,
    pub(crate) nodes: Vec<Node>,
    pub(crate) attributes: Vec<Option<Attribute>>,
    ghost ordered: { Ordered classes.items },
    ghost laid: { vec_len layouts ≡ vec_len classes },
    ghost placed: { (k : ℕ) → Placed (layout_at layouts.items k) (vec_len members) },
    ghost noted: { vec_len attributes ≡ vec_len nodes },
    ghost few_classes: { vec_len classes ≤ 32 },
    ghost few_members: { vec_len members ≤ vec_len nodes + 1 },
    ghost few_nodes: { vec_len nodes ≤ 1024 },
    ghost class_room: { 32 ≤ vec_capacity classes },
    ghost layout_room: { 32 ≤ vec_capacity layouts },
    ghost member_room: { 1025 ≤ vec_capacity members },
    ghost node_room: { 1024 ≤ vec_capacity nodes },
    ghost attribute_room: { 1024 ≤ vec_capacity attributes },
}
