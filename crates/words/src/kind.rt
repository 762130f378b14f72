//! The kinds of words.
ghost use Rattle.std.specs.Prelude.{◌≡◌, Some};
ghost use Rattle.refusal.specs.Texts.{refusal_text};
ghost use Rattle.words.specs.Codes.{kind_code};
ghost use Rattle.words.specs.Kinds.{kind_number, Names};
ghost use Rattle.words.specs.Words.{kind_word};

use refusal::{Refusal, RefusalCode, Rule};
use std::fmt;

/// What a word is. Its number stands in the word's bits 31..28.
#[derive(Clone, Copy, PartialEq, Eq, Debug)]
pub enum Kind {
    /// The start of a scene: how many words come after it.
    Scene = 1,
    /// A number of 16 bits, in two's complement.
    Number = 2,
    /// A node, a ball: its centre and its radius follow.
    Ball = 3,
    /// A node, a box: its lower and its upper corner follow.
    Block = 4,
    /// A node: what unites the last two that stand.
    Unite = 5,
    /// A node: what is common to the last two that stand.
    Meet = 6,
    /// A node: the last that stands, shifted. The offset follows.
    Shift = 7,
    /// A node: the last that stands, thickened. The thickness follows.
    Thicken = 8,
    /// The start of a surface: its width and its depth.
    Surface = 9,
    /// The start of an image: its width and its height.
    Image = 10,
    /// A pixel whose ray touches: the depth, and how many probes it took.
    Hit = 11,
    /// A pixel whose ray touches nothing: how many probes it took.
    Miss = 12,
    /// The start of a job.
    Job = 13,
    /// A refused input: the part, the number of the rule and the place.
    Refusal = 14,
}

/// Why a number is refused as a kind: 2, since it names none that is due.
#[derive(Clone, Copy, PartialEq, Eq, Debug)]
pub struct UnknownKind(pub u32);

impl Refusal for UnknownKind {
    ghost code = { kind_code };

    fn number(&self) -> u32 {
        Rule::Kind.number()
    }

    fn place(&self) -> u32 {
        0
    }
}

impl fmt::Display for UnknownKind {
    ghost output = { λ fault. Some (refusal_text (kind_code fault)) };

    fn fmt<W: fmt::Write>(&self, f: &mut fmt::Formatter<W>) -> fmt::Result {
        RefusalCode::of(self).fmt(f)
    }
}

/// How many words there are of a kind: bits 31..28 of a word are its kind's number, and the other
/// 28 are its rest.
pub(crate) const WORDS_OF_A_KIND: u32 = 0x1000_0000;

/// What the first of two numbers is multiplied by in a word: it has bits 27..16, the second 15..0.
pub const FIRST_OF_TWO: u32 = 0x1_0000;

impl Kind {
    /// The number of the kind.
    pub fn number(self) -> u32
        ensures { result ≡ kind_number self }
    {
        self as u32
    }

    /// The word of this kind whose other bits are the low 28 of `rest`.
    pub fn word(self, rest: u32) -> u32
        ensures { result ≡ kind_word self rest }
    {
        self.number() * WORDS_OF_A_KIND + rest % WORDS_OF_A_KIND
    }
}

impl TryFrom<u32> for Kind {
    type Error = UnknownKind;

    ghost try_from_gives = { Names };

    fn try_from(n: u32) -> Result<Kind, UnknownKind> {
        match n {
            1 => Ok(Kind::Scene),
            2 => Ok(Kind::Number),
            3 => Ok(Kind::Ball),
            4 => Ok(Kind::Block),
            5 => Ok(Kind::Unite),
            6 => Ok(Kind::Meet),
            7 => Ok(Kind::Shift),
            8 => Ok(Kind::Thicken),
            9 => Ok(Kind::Surface),
            10 => Ok(Kind::Image),
            11 => Ok(Kind::Hit),
            12 => Ok(Kind::Miss),
            13 => Ok(Kind::Job),
            14 => Ok(Kind::Refusal),
            _ => Err(UnknownKind(n)),
        }
    }
}
