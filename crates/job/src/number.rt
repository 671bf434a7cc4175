// Numbers as a job writes them: decimal digits and nothing else.
ghost use Rattle.std.specs.Prelude.{◌≡◌, ◌≤◌, ◌^◌, MatchOption};
ghost use Rattle.job.specs.Numbers.{plain, number_after, Fits, Reads};

use super::wrong::Wrong;

// The number that a word writes, if it fits its type and 64 bits. Zeros in front change nothing.
pub fn decimal<T: TryFrom<u128>>(word: &[u8]) -> Result<T, Wrong>
where
    T::Error: Drop,
    ensures { Reads (Fits T.try_from_gives) word.now result }
{
    if !is_plain(word) {
        return Err(Wrong::NotANumber);
    }
    let number = number_of(word).ok_or(Wrong::NumberTooLarge)?;
    T::try_from(u128::from(number)).map_err(|_| Wrong::NumberTooLarge)
}

// Whether a word is made of digits, and of at least one.
fn is_plain(word: &[u8]) -> bool
    ensures { result ≡ plain word.now }
{
    !word.is_empty() && word.iter().all(u8::is_ascii_digit)
}

// The number that digits write, if it has 64 bits. Digit by digit, since with std's `parse`, which reads a `str`, a job of
// nodes takes a fifth longer (docs/DECISIONS.md).
fn number_of(digits: &[u8]) -> Option<u64>
    ensures { MatchOption result (2 ^ 64 ≤ number_after 0 digits.now) (λ n. n ≡ number_after 0 digits.now) }
{
    digits.iter().try_fold(0, |number: u64, digit| {
        number
            .checked_mul(10)?
            .checked_add(u64::from(digit.saturating_sub(b'0')))
    })
}
