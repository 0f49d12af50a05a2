//! Digits gathered from the left into a coefficient of at most 18 digits.
ghost use Rattle.std.specs.Prelude.{◌≡◌, ◌+◌, ◌*◌, ◌<◌, ◌≤◌, length};
ghost use Rattle.std.specs.Str.Parse.{digits_value_after};
ghost use Rattle.decimal.specs.Gather.{amount, Gathered};

use crate::coefficient::Coefficient;
use crate::digits::Digits;

/// One more than the greatest number of 18 digits.
const LIMIT: u64 = 1_000_000_000_000_000_000;

impl Coefficient {
    /// The number with one more digit behind it, if it still has at most 18 digits in front of its zeros.
    fn push(self, digit: u8) -> Option<Coefficient>
        requires digit { digit < 10 }
        requires room { self.zeros < 255 }
        ensures { Gathered (amount self * 10 + digit) (self.zeros + 1) result }
    {
        let zeros = self.zeros + 1;
        if digit == 0 {
            // No `..self`: there is none for a struct with ghost fields.
            return Some(Coefficient {
                digits: self.digits,
                zeros,
            });
        }
        let digit = u64::from(digit);
        if self.digits == 0 {
            return Some(Coefficient {
                digits: digit,
                zeros: 0,
            });
        }
        if zeros > 18 {
            return None;
        }
        let front = self.digits.checked_mul(10u64.pow(u32::from(zeros)))?;
        if front >= LIMIT - digit {
            return None;
        }
        Some(Coefficient {
            digits: front + digit,
            zeros: 0,
        })
    }

    /// The number with more digits behind it, if it still has at most 18 digits in front of its zeros.
    pub(crate) fn append(self, digits: Digits<'_>) -> Option<Coefficient>
        requires { self.zeros + length digits.bytes.now ≤ 255 }
        ensures { let ds = digits.entry.bytes.now in Gathered (digits_value_after 10 (amount self) ds) (self.zeros + length ds) result }
    {
        let mut number = self;
        for digit in digits.bytes {
            number = number.push(*digit - b'0')?;
        }
        Some(number)
    }
}
