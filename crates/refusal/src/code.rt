//! A refusal by its number and place.
ghost use Rattle.std.specs.Prelude.{◌≡◌, Some};
ghost use Rattle.refusal.specs.Codes.{pair};
ghost use Rattle.refusal.specs.Texts.{rule_of, sentence_in, refusal_text};

use super::{Refusal, Rule};
use std::fmt;

/// The number of the rule that was broken, and the place that broke it.
#[derive(Clone, Copy, PartialEq, Eq, Debug)]
pub struct RefusalCode {
    pub number: u32,
    pub place: u32,
}

impl RefusalCode {
    /// The number and the place of a fault.
    pub fn of<F: Refusal>(fault: &F) -> RefusalCode
        ensures { pair result ≡ F.code fault.now }
    {
        RefusalCode {
            number: fault.number(),
            place: fault.place(),
        }
    }

    /// What the rule of that number says; there may be none.
    fn sentence(&self) -> &'static str
        ensures { result.now ≡ sentence_in (rule_of self.now.number) }
    {
        match Rule::of(self.number) {
            Some(rule) => rule.sentence(),
            None => "there is no such rule",
        }
    }
}

impl fmt::Display for RefusalCode {
    ghost output = { λ code. Some (refusal_text (pair code)) };

    #[tactic(auto, unfolding(crate::specs::Texts::refusal_text))]
    fn fmt<W: fmt::Write>(&self, f: &mut fmt::Formatter<W>) -> fmt::Result {
        let RefusalCode { number, place } = *self;
        let sentence = self.sentence();
        write!(f, "refused by {number} at place {place}: {sentence}")
    }
}
