// Look-ups over a list in which two entries have one name.
use super::{Named, find, find_stacked, first_shared};

#[derive(Clone, Copy, PartialEq, Eq, Debug)]
struct Definition {
    symbol: u16,
    value: u8,
}

impl Named for Definition {
    ghost symbol = { λ e. e.symbol };

    fn name(&self) -> u16 {
        self.symbol
    }
}

fn entry(symbol: u16, value: u8) -> Definition {
    Definition { symbol, value }
}

#[test]
fn first_of_two(rt: HostRuntime) {
    let entries = [entry(7, 1), entry(8, 2), entry(7, 3)];
    assert_eq!(rt; find(&entries, 7), Some(entry(7, 1)));
    assert_eq!(rt; find(&entries, 8), Some(entry(8, 2)));
    assert_eq!(rt; find(&entries, 9), None);
}

#[test]
fn upper_hides_lower(rt: HostRuntime) {
    let upper = [entry(7, 1)];
    let lower = [entry(7, 2), entry(8, 3)];
    assert_eq!(rt; find_stacked(&upper, &lower, 7), Some(entry(7, 1)));
    assert_eq!(rt; find_stacked(&upper, &lower, 8), Some(entry(8, 3)));
}

#[test]
fn shared(rt: HostRuntime) {
    let entries = [entry(7, 1), entry(8, 2), entry(9, 3)];
    assert_eq!(rt;
        first_shared(&entries, &[entry(9, 0), entry(8, 0)]),
        Some(entry(8, 2))
    );
    assert_eq!(rt; first_shared(&entries, &[entry(6, 0)]), None);
}
