// The check of a batch's shape: every node of the table in order, and the first faulty position reported.
ghost use Rattle.std.specs.Prelude.{◌≡◌, ◌+◌, ◌<◌, ◌≤◌, length, Decides, MatchOption, MatchResult};
ghost use Rattle.table.specs.Cases.{SmallestBatch};
ghost use Rattle.table.specs.Kinds.{number_of};
ghost use Rattle.table.specs.View.{past};
ghost use Rattle.table.specs.Shape.{refusal, place_of, Child, Follow, Elements, Listing, Laid, Placed, Formed, Refused, Settled, node_at, end_of};

use super::kinds::{Class, Kind, Listed, Node};
use super::open::OpenParts;

// A batch has at most this many nodes.
pub const MOST_NODES: usize = 1024;

// Why a batch has no shape; a fault names the first faulty position.
#[derive(Clone, Copy)]
pub enum ShapeFault {
    // no nodes, or more than 1,024
    Length,
    // its kind, its size, its children or the length of the list that it is
    Layout { at: usize },
    Word { at: usize },
    Depth { at: usize },
}

impl ShapeFault {
    // the number by which C and jobs tell the refusal
    pub fn number(self) -> u8
        ensures { result ≡ refusal self }
    {
        match self {
            ShapeFault::Length => 1,
            ShapeFault::Layout { .. } => 2,
            ShapeFault::Word { .. } => 3,
            ShapeFault::Depth { .. } => 4,
        }
    }

    // the first faulty position, where the fault has one
    pub fn at(self) -> Option<usize>
        ensures { result ≡ place_of self }
    {
        match self {
            ShapeFault::Length => None,
            ShapeFault::Layout { at } | ShapeFault::Word { at } | ShapeFault::Depth { at } => Some(
                at,
            ),
        }
    }
}

// The position behind the part of the node at `p`.
pub fn end_of(nodes: &[Node], p: usize) -> usize
    requires { p < length nodes.now }
    ensures { result ≡ end_of nodes.now p }
{
    p + usize::from(nodes[p].size)
}

// The part of a table before a position.
#[derive(Clone, Copy)]
pub(super) struct Front<'a> {
    pub nodes: &'a [Node],
    pub end: usize,
    pub ghost within: { end ≤ length nodes.now },
}

impl<'a> Front<'a> {
    // The position behind the child at `q`, if a node of that class stands there whose part lies in front of the end.
    fn child_end(self, class: Class, q: usize) -> Option<usize>
        ensures { MatchOption result (Child self.entry.nodes.now self.entry.end class q → ⊥) (λ x. Child self.entry.nodes.now self.entry.end class q × (x ≡ end_of self.entry.nodes.now q)) }
    {
        if q >= self.end {
            return None;
        }
        let next = end_of(self.nodes, q);
        (q < next && next <= self.end && class.admits(self.nodes[q])).then_some(next)
    }

    // Whether children of these classes follow one another from `first` on, and the last ends at the end.
    fn follow(self, classes: &[Class], first: usize) -> bool
        ensures { Decides result (Follow self.entry.nodes.now self.entry.end classes.now first) }
    {
        classes
            .iter()
            .try_fold(first, |q, class| self.child_end(*class, q))
            .is_some_and(|q| q == self.end)
    }

    // Whether at most `most` children of one class follow one another from `first` on, and the last ends at the end. A loop, since it
    // may end before the last turn with either answer.
    fn elements(self, element: Class, most: usize, first: usize) -> bool
        ensures { Decides result (Elements self.entry.nodes.now self.entry.end element most first) }
    {
        let mut q = first;
        for _ in 0..most {
            if q == self.end {
                return true;
            }
            let Some(next) = self.child_end(element, q) else {
                return false;
            };
            q = next;
        }
        q == self.end
    }

    // Whether the elements that a List with that word may hold follow one another from `first` to the end.
    fn is_list(self, word: u64, first: usize) -> bool
        ensures { Decides result (Listing self.entry.nodes.now word first self.entry.end) }
    {
        let Ok(list) = Listed::try_from(word) else {
            return false;
        };
        let row = list.row();
        self.elements(row.element, row.most, first)
    }

    // The position behind the part at `q`, if `q` lies before the end.
    pub(super) fn past(self, q: usize) -> usize
        ensures { result ≡ past self.entry.nodes.now self.entry.end q }
    {
        if q < self.end {
            end_of(self.nodes, q)
        } else {
            q
        }
    }
}

// Whether the children that nodes of its kind allow fill the part of the node at `p`.
fn is_laid(nodes: &[Node], p: usize, kind: Kind) -> bool
    requires within { p < length nodes.now }
    requires kind { number_of kind ≡ (node_at nodes.now p).kind }
    ensures { Decides result (Laid nodes.now p) }
{
    let end = end_of(nodes, p);
    if end > nodes.len() {
        return false;
    }
    let front = Front { nodes, end };
    match kind {
        Kind::List => front.is_list(nodes[p].word, p + 1),
        _ => front.follow(kind.row().children, p + 1),
    }
}

// The kind of the node at `p`, if it has one and is laid out as that kind allows; position 0 is a Program whose
// part is the whole table.
fn placed_kind(nodes: &[Node], p: usize) -> Option<Kind>
    requires { p < length nodes.now }
    ensures { MatchOption result (Placed nodes.now p → ⊥) (λ k. Placed nodes.now p × (number_of k ≡ (node_at nodes.now p).kind)) }
{
    let kind = Kind::try_from(nodes[p].kind).ok()?;
    if p == 0 && (kind != Kind::Program || end_of(nodes, p) != nodes.len()) {
        return None;
    }
    is_laid(nodes, p, kind).then_some(kind)
}

// Checks the shape of a batch: every position in order, up to the first faulty one.
#[tactic(auto, using(crate::proofs::Verdict::settled))]
pub fn check_shape(nodes: &[Node]) -> Result<(), ShapeFault>
    ensures verdict { MatchResult result (λ _. Formed nodes.now) (λ f. Refused nodes.now f) }
    ensures settled { Settled nodes.now }
{
    if !(1..=MOST_NODES).contains(&nodes.len()) {
        return Err(ShapeFault::Length);
    }
    let mut parts = OpenParts::new();
    for (at, node) in nodes.iter().enumerate() {
        let kind = placed_kind(nodes, at).ok_or(ShapeFault::Layout { at })?;
        if !kind.row().word.allows(node.word) {
            return Err(ShapeFault::Word { at });
        }
        parts.enter(nodes, at)?;
    }
    Ok(())
}

// What the definitions say of the smallest batch.
pub fn smallest_batch()
    ensures { SmallestBatch }
{}
