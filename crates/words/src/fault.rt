//! Why a word is refused.
ghost use Rattle.std.specs.Prelude.{◌≡◌, Some};
ghost use Rattle.refusal.specs.Texts.{refusal_text};
ghost use Rattle.words.specs.Codes.{word_code, place_as_u32};

use refusal::{Refusal, RefusalCode, Rule};
use std::fmt;

/// Why a word is refused. Its place is counted in words from 0, at the first word of its part.
#[derive(Clone, Copy, PartialEq, Eq, Debug)]
pub enum WordFault {
    /// 1: under four bytes remain.
    Short { place: usize },
    /// 2: its kind is not due.
    Kind { place: usize },
    /// 3: a bit is set that has no name.
    Unnamed { place: usize },
    /// 4: the number is outside its range.
    Range { place: usize },
    /// 5: the number is no row of the table of directions that moves.
    Row { place: usize },
}

/// The greatest place that a refusal names.
const GREATEST_PLACE: u32 = u32::MAX;

/// A place in 32 bits: one past the greatest of them counts as that.
pub fn place_as_u32(place: usize) -> u32
    ensures { result ≡ place_as_u32 place }
{
    u32::try_from(place).unwrap_or(GREATEST_PLACE)
}

impl Refusal for WordFault {
    ghost code = { word_code };

    fn number(&self) -> u32 {
        match self {
            WordFault::Short { .. } => Rule::Short.number(),
            WordFault::Kind { .. } => Rule::Kind.number(),
            WordFault::Unnamed { .. } => Rule::Unnamed.number(),
            WordFault::Range { .. } => Rule::Range.number(),
            WordFault::Row { .. } => Rule::Row.number(),
        }
    }

    fn place(&self) -> u32 {
        match self {
            WordFault::Short { place }
            | WordFault::Kind { place }
            | WordFault::Unnamed { place }
            | WordFault::Range { place }
            | WordFault::Row { place } => place_as_u32(*place),
        }
    }
}

impl fmt::Display for WordFault {
    ghost output = { λ fault. Some (refusal_text (word_code fault)) };

    fn fmt<W: fmt::Write>(&self, f: &mut fmt::Formatter<W>) -> fmt::Result {
        RefusalCode::of(self).fmt(f)
    }
}
