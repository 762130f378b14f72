//! How the kit refuses: by the number of a rule, and a place.
#![tactic(auto)]

ghost use Rattle.std.specs.Prelude.{◌≡◌, ℕ};
ghost use Rattle.refusal.specs.Numbers.{rule_number};
ghost use Rattle.refusal.specs.Sentences.{rule_sentence};
ghost use Rattle.refusal.specs.Texts.{rule_of, EachIsFound};

mod code;
mod range;

pub use code::RefusalCode;
pub use range::{OutOfRange, count_in, in_range};

/// The rules that an input or a call may break, by their numbers.
#[derive(Clone, Copy, PartialEq, Eq, Debug)]
pub enum Rule {
    /// Under four bytes remain where a word is due.
    Short = 1,
    /// A word's kind is not due there.
    Kind = 2,
    /// A bit that has no name is set.
    Unnamed = 3,
    /// A number is outside its range.
    Range = 4,
    /// A number is no row of the table of directions that moves.
    Row = 5,
    /// A box's lower corner is above its upper one on an axis.
    Corners = 6,
    /// A scene's start counts too few words, or too many.
    Count = 7,
    /// A node is one more than a scene may have.
    Full = 8,
    /// Fewer nodes stand than a node takes.
    TooFew = 9,
    /// A node that is to be thickened is not exact.
    Inexact = 10,
    /// A shift passes the reach of what it shifts.
    PastReach = 11,
    /// A node's numbers pass the count; or a scene ends, and it is not one node alone that stands.
    Unfinished = 12,
    /// The width or the depth of a surface is out of range.
    Size = 13,
    /// Bytes are left after the last part.
    Left = 14,
    /// There is a guard, and the scene is not exact.
    Guard = 15,
    /// A solid does not answer on all of the working range.
    Shallow = 16,
    /// A point is beyond a solid's reach.
    BeyondReach = 17,
    /// What is lent to read into or to work on is too short.
    Buffer = 18,
    /// A view has no such pixel.
    NoPixel = 19,
    /// A pixel still marches.
    StillMarching = 20,
    /// What is lent to write into is too short.
    NoRoom = 21,
}

/// The rules, in the order of their numbers.
const RULES: [Rule; 21] = [
    Rule::Short,
    Rule::Kind,
    Rule::Unnamed,
    Rule::Range,
    Rule::Row,
    Rule::Corners,
    Rule::Count,
    Rule::Full,
    Rule::TooFew,
    Rule::Inexact,
    Rule::PastReach,
    Rule::Unfinished,
    Rule::Size,
    Rule::Left,
    Rule::Guard,
    Rule::Shallow,
    Rule::BeyondReach,
    Rule::Buffer,
    Rule::NoPixel,
    Rule::StillMarching,
    Rule::NoRoom,
];

impl Rule {
    /// The rule of that number. Each rule has one of its own.
    #[tactic(auto, using(crate::proofs::Found::found))]
    pub(crate) fn of(number: u32) -> Option<Rule>
        ensures value { result ≡ rule_of number }
        ensures each { EachIsFound }
    {
        RULES.iter().copied().find(|rule| rule.number() == number)
    }

    /// The number by which a refused call names the rule.
    pub fn number(self) -> u32
        ensures { result ≡ rule_number self }
    {
        self as u32
    }

    /// What a breach of the rule is, in plain words.
    pub fn sentence(self) -> &'static str
        ensures { result.now ≡ rule_sentence self }
    {
        match self {
            Rule::Short => "the input ends where a word is due",
            Rule::Kind => "no word of this kind is due here",
            Rule::Unnamed => "a bit is set that has no name",
            Rule::Range => "a number is outside its range",
            Rule::Row => "a number names no direction",
            Rule::Corners => "the box's lower corner is above its upper one on an axis",
            Rule::Count => "the scene's count of words is outside 1 to 1,792",
            Rule::Full => "the scene has 256 nodes already",
            Rule::TooFew => "fewer nodes stand than this node takes",
            Rule::Inexact => "the node to be thickened is not exact",
            Rule::PastReach => "the shift passes the reach of what it shifts",
            Rule::Unfinished => "the scene does not end as one whole node",
            Rule::Size => "the surface's width or depth is outside 1 to 64",
            Rule::Left => "bytes are left after the surface",
            Rule::Guard => "the scene is not exact, which a guard needs",
            Rule::Shallow => "the solid's reach is under 32,767",
            Rule::BeyondReach => "the point is beyond the solid's reach",
            Rule::Buffer => "too few records or heights are lent",
            Rule::NoPixel => "the view has no such pixel",
            Rule::StillMarching => "a pixel still marches",
            Rule::NoRoom => "too few bytes are lent to write into",
        }
    }
}

/// What a refused call answers. Every enum of faults gives, for each of its cases, the number
/// of the rule that was broken and the place of the input that broke it; `code` is that pair.
/// A place counts words or numbers of the input; where there is nothing to count it is 0.
pub trait Refusal {
    ghost code: { Self → ℕ × ℕ };

    /// The number of the rule that was broken.
    fn number(&self) -> u32
        ensures { result ≡ (code self.now).0 };

    /// The place of the input that broke it.
    fn place(&self) -> u32
        ensures { result ≡ (code self.now).1 };
}
