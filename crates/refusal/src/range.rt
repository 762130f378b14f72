//! Numbers that have to lie in a range.
ghost use Rattle.std.specs.Prelude.{◌≡◌, Some};
ghost use Rattle.refusal.specs.Codes.{range_code};
ghost use Rattle.refusal.specs.Ranges.{in_range, count_in};
ghost use Rattle.refusal.specs.Texts.{refusal_text};

use super::{Refusal, RefusalCode, Rule};
use std::fmt;

/// Why a number is refused: 4, at its place.
#[derive(Clone, Copy, PartialEq, Eq, Debug)]
pub struct OutOfRange {
    pub place: u32,
}

impl Refusal for OutOfRange {
    ghost code = { range_code };

    fn number(&self) -> u32 {
        Rule::Range.number()
    }

    fn place(&self) -> u32 {
        self.place
    }
}

impl fmt::Display for OutOfRange {
    ghost output = { λ fault. Some (refusal_text (range_code fault)) };

    fn fmt<W: fmt::Write>(&self, f: &mut fmt::Formatter<W>) -> fmt::Result {
        RefusalCode::of(self).fmt(f)
    }
}

/// The number, which stands at that place, if it lies in `least..=most`.
pub fn in_range(n: i32, least: i32, most: i32, place: u32) -> Result<i32, OutOfRange>
    ensures { result ≡ in_range n least most place }
{
    if !(least..=most).contains(&n) {
        return Err(OutOfRange { place });
    }
    Ok(n)
}

/// The same of a number that counts: its size, if the number lies in `least..=most`.
pub fn count_in(n: i32, least: i32, most: i32, place: u32) -> Result<u32, OutOfRange>
    ensures { result ≡ count_in n least most place }
{
    Ok(in_range(n, least, most, place)?.unsigned_abs())
}
