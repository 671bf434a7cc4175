// Sequences of changes to a store, and what holds after any of them.
ghost use Rattle.std.specs.Prelude.{◌≡◌};
ghost use Rattle.store.specs.History.{changed, played, Balance, Balances};
ghost use Rattle.store.specs.Model.{cleared};

use super::traits::Store;
use values::value::Value;

// A change is data and no closure, since the theorem is about lists of changes.
#[derive(Clone, Copy)]
pub enum Change {
    Create {
        class: u16,
        cells: u16,
    },
    Write {
        record: u16,
        cell: u16,
        value: Value,
    },
}

// Makes one change, or none where the store refuses it.
fn apply<S: Store>(store: &mut S, change: Change)
    ensures { S.model store.new ≡ changed (S.model store.old) change }
{
    match change {
        Change::Create { class, cells } => {
            let _ = store.create(class, usize::from(cells));
        }
        Change::Write {
            record,
            cell,
            value,
        } => {
            let _ = store.write(record, usize::from(cell), value);
        }
    }
}

// Clears a store and makes the changes one by one. After any changes to any store, the records and the records left
// are R together, and the cells used and the cells left are C.
pub fn replay<S: Store>(store: &mut S, changes: &[Change])
    ensures after { S.model store.new ≡ played (cleared S.R S.C) changes.now }
    ensures balance { Balance S.R S.C (S.model store.new) }
    ensures always { Balances S.R S.C }
{
    store.clear();
    for change in changes {
        apply(store, *change);
    }
}
