// What stores of several kinds keep of each record.
ghost use Rattle.std.specs.Prelude.{◌≡◌};
ghost use Rattle.store.specs.Numbers.{by_number};

// A record: its class, where its cells begin and how many they are.
#[derive(Clone, Copy)]
pub struct Head<I> {
    pub class: u16,
    pub first: I,
    pub count: I,
}

// The entry of a record by its number, from 1; none if there is no such record.
pub fn entry_of<H: Copy>(entries: &[H], record: u16) -> Option<H>
    ensures { result ≡ by_number entries.now «record» }
{
    entries.get(usize::from(record).wrapping_sub(1)).copied()
}
