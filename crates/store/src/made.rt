// Why a store could not be made.
ghost use Rattle.std.specs.Prelude.{◌≡◌, true, false, Some, MatchResult};
ghost use Rattle.store.specs.Model.{allowed};
ghost use Rattle.store.specs.Texts.{text_of};
ghost use Rattle.store.specs.declared.made.NotMade.TheVariants.{Memory, Sizes};

use std::alloc::AllocError;
use std::error::Error;
use std::fmt;

pub const MOST_RECORDS: usize = 1000;

pub const MOST_CELLS: usize = 2000;

#[derive(Clone, Copy, Debug)]
pub enum NotMade {
    // a store has at least one record, and at most `MOST_RECORDS` and `MOST_CELLS`
    Sizes,
    Memory,
}

impl fmt::Display for NotMade {
    ghost output = { λ e. Some (text_of e) };

    fn fmt<W: fmt::Write>(&self, f: &mut fmt::Formatter<W>) -> fmt::Result {
        match self {
            Self::Sizes => f.write_str("no such sizes"),
            Self::Memory => f.write_str("no memory"),
        }
    }
}

impl Error for NotMade {}

impl From<AllocError> for NotMade {
    ghost from_gives = { λ _ r. r ≡ Memory };

    fn from(_: AllocError) -> NotMade {
        NotMade::Memory
    }
}

// Refuses sizes that no store may have.
pub fn check_sizes(records: usize, cells: usize) -> Result<(), NotMade>
    ensures { MatchResult result (λ _. allowed records cells ≡ true) (λ e. (e ≡ Sizes) × (allowed records cells ≡ false)) }
{
    if records < 1 || records > MOST_RECORDS || cells > MOST_CELLS {
        return Err(NotMade::Sizes);
    }
    Ok(())
}
