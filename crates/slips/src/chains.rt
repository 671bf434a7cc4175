// Walks along chains of slots. Slots are linked by index and not by `Box`, since a store's memory is fixed when it is made.
ghost use Rattle.std.specs.Prelude.{◌≡◌, true};
ghost use Rattle.slips.specs.Chains.{after, chain, within, nulled, InOrder};

use crate::slot::Slot;
use values::value::Value;

// The slot that `links` links lead to from the slot `first`.
pub fn follow(slots: &[Slot], first: usize, links: usize) -> usize
    requires { within slots.now (chain slots.now links first) ≡ true }
    ensures { result ≡ after slots.now links first }
{
    let mut at = first;
    for _ in 0..links {
        at = slots[at].next;
    }
    at
}

// Puts nulls into a chain of `count` slots from `first` on, and answers where its last link leads.
pub fn blank(slots: &mut [Slot], first: usize, count: usize) -> usize
    requires { within slots.old (chain slots.old count first) ≡ true }
    ensures end { result ≡ after slots.old count first }
    ensures nulls { slots.new ≡ nulled slots.old (chain slots.old count first) }
{
    let mut next = first;
    for _ in 0..count {
        slots[next].value = Value::Null;
        next = slots[next].next;
    }
    next
}

// Links all slots into one chain, in their order.
pub fn relink(slots: &mut [Slot])
    ensures { InOrder slots.new }
{
    for (i, slot) in slots.iter_mut().enumerate() {
        slot.next = i + 1;
    }
}
