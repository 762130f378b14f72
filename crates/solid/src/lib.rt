//! What a solid is, for all that is built on solids: a set of members among the points of the
//! lattice, known only by the clearances that it answers.
#![tactic(auto)]

ghost use Rattle.std.specs.Prelude.{◌≡◌, ℕ, ◌≤◌, IsTrue, Some};
ghost use Rattle.refusal.specs.Texts.{refusal_text};
ghost use Rattle.solid.specs.Body.{Body, Lawful};
ghost use Rattle.solid.specs.Answer.{answer, answer_up_to, check_asked};
ghost use Rattle.solid.specs.Codes.{question_code};

use lattice::Point;
use refusal::{Refusal, RefusalCode, Rule};
use std::fmt;

/// Why a question is refused.
#[derive(Clone, Copy, PartialEq, Eq, Debug)]
pub enum QuestionFault {
    /// 17: a coordinate of the point is above the reach, in size.
    BeyondReach,
}

impl Refusal for QuestionFault {
    ghost code = { question_code };

    fn number(&self) -> u32 {
        match self {
            QuestionFault::BeyondReach => Rule::BeyondReach.number(),
        }
    }

    fn place(&self) -> u32 {
        0
    }
}

impl fmt::Display for QuestionFault {
    ghost output = { λ fault. Some (refusal_text (question_code fault)) };

    fn fmt<W: fmt::Write>(&self, f: &mut fmt::Formatter<W>) -> fmt::Result {
        RefusalCode::of(self).fmt(f)
    }
}

/// Checks that a solid of that reach may be asked at the point.
pub fn check_asked(reach: u32, p: Point) -> Result<(), QuestionFault>
    ensures { result ≡ check_asked reach p }
{
    if !p.within(reach) {
        return Err(QuestionFault::BeyondReach);
    }
    Ok(())
}

/// No solid's reach is above this: it is one of the laws.
pub const MOST_REACH: u32 = 1_048_576;

/// No clearance is above this: it is one of the laws. A question up to it is one with no limit.
pub const MOST_CLEARANCE: u32 = 2_097_151;

/// A solid. `body` is what it means, and `lawful` is its law: the body keeps the laws.
pub trait Solid {
    ghost body: { Self → Body };

    /// Questions are answered at the points whose coordinates are at most this, in size.
    fn reach(&self) -> u32
        ensures { result ≡ (body self.now).reach };

    /// No member is nearer to the point than this, and it is 0 exactly at members.
    fn clearance(&self, p: Point) -> Result<u32, QuestionFault>
        ensures { result ≡ answer (body self.now) p };

    /// The clearance, or `most` where that is smaller. A solid that can see sooner that its
    /// clearance is at least `most` gives this a body of its own.
    fn clearance_up_to(&self, p: Point, most: u32) -> Result<u32, QuestionFault>
        ensures { result ≡ answer_up_to most (body self.now) p }
    {
        Ok(most.min(self.clearance(p)?))
    }

    ghost lawful: { (s : Self) → Lawful (body s) };
}

/// An exact solid: some member lies at exactly the clearance. The law stands with the others, for
/// bodies that are marked; this says that the body is.
pub trait Exact: Solid {
    fn exactly(&self)
        ensures { IsTrue (Self.Solid.body self.now).exact };
}

/// A solid that is lent is one.
impl<'a, S: Solid> Solid for &'a S {
    ghost body = { λ s. S.Solid.body s.now };

    ghost lawful = { λ s. S.Solid.lawful s.now };

    fn reach(&self) -> u32 {
        (**self).reach()
    }

    fn clearance(&self, p: Point) -> Result<u32, QuestionFault> {
        (**self).clearance(p)
    }

    fn clearance_up_to(&self, p: Point, most: u32) -> Result<u32, QuestionFault> {
        (**self).clearance_up_to(p, most)
    }
}

impl<'a, S: Exact> Exact for &'a S {
    fn exactly(&self) {
        (**self).exactly();
    }
}
