//! Why an input is refused, and why the call is.
ghost use Rattle.std.specs.Prelude.{◌≡◌, ℕ, Some};
ghost use Rattle.refusal.specs.Texts.{refusal_text};
ghost use Rattle.render.specs.Render.{refusal_of};
ghost use Rattle.render.specs.Codes.{input_code, input_refusal, render_code};
ghost use Rattle.render.specs.declared.fault.InputFault.TheVariants.{Job, Scene, Surface, Shallow};

use march::StepFault;
use readers::{JobFault, SceneFault, SurfaceReadFault};
use refusal::{Refusal, RefusalCode, Rule};
use std::fmt;
use words::Kind;

/// Why an input is refused: in one of its parts, or as a whole.
#[derive(Clone, Copy, PartialEq, Eq, Debug)]
pub enum InputFault {
    Job(JobFault),
    Scene(SceneFault),
    Surface(SurfaceReadFault),
    /// 14: bytes are left.
    Left,
    /// 15: the guard is above 0, and the scene is not exact.
    Inexact,
    /// 16: the pile's reach is under 32,767.
    Shallow,
}

/// The parts of an input, by their numbers.
const JOB_PART: u32 = 1;

const SCENE_PART: u32 = 2;

const SURFACE_PART: u32 = 3;

const WHOLE_PART: u32 = 4;

/// Bits 27..24 of a refusal are the part, 23..16 the number, 15..0 the place.
const PARTS: u32 = 0x100_0000;

const NUMBERS: u32 = 0x1_0000;

/// A place past this is written as this.
const MOST_PLACE: u32 = 0xffff;

impl InputFault {
    /// The part that is refused, by its number.
    pub fn part(&self) -> u32
        ensures { result ≡ (input_code self.now).0 }
    {
        match self {
            InputFault::Job(_) => JOB_PART,
            InputFault::Scene(_) => SCENE_PART,
            InputFault::Surface(_) => SURFACE_PART,
            InputFault::Left | InputFault::Inexact | InputFault::Shallow => WHOLE_PART,
        }
    }

    /// The word of the refusal: its part, its number and its place.
    pub(crate) fn word(&self) -> u32
        ensures { result ≡ refusal_of self.now }
    {
        let place = self.place().min(MOST_PLACE);
        Kind::Refusal.word(self.part() * PARTS + self.number() * NUMBERS + place)
    }
}

impl Refusal for InputFault {
    ghost code = { input_refusal };

    fn number(&self) -> u32 {
        match self {
            InputFault::Job(fault) => fault.number(),
            InputFault::Scene(fault) => fault.number(),
            InputFault::Surface(fault) => fault.number(),
            InputFault::Left => Rule::Left.number(),
            InputFault::Inexact => Rule::Guard.number(),
            InputFault::Shallow => Rule::Shallow.number(),
        }
    }

    fn place(&self) -> u32 {
        match self {
            InputFault::Job(fault) => fault.place(),
            InputFault::Scene(fault) => fault.place(),
            InputFault::Surface(fault) => fault.place(),
            _ => 0,
        }
    }
}

impl fmt::Display for InputFault {
    ghost output = { λ fault. Some (refusal_text (input_refusal fault)) };

    fn fmt<W: fmt::Write>(&self, f: &mut fmt::Formatter<W>) -> fmt::Result {
        RefusalCode::of(self).fmt(f)
    }
}

impl From<JobFault> for InputFault {
    ghost from_gives = { λ e r. r ≡ Job e };

    fn from(fault: JobFault) -> InputFault {
        InputFault::Job(fault)
    }
}

impl From<SceneFault> for InputFault {
    ghost from_gives = { λ e r. r ≡ Scene e };

    fn from(fault: SceneFault) -> InputFault {
        InputFault::Scene(fault)
    }
}

impl From<SurfaceReadFault> for InputFault {
    ghost from_gives = { λ e r. r ≡ Surface e };

    fn from(fault: SurfaceReadFault) -> InputFault {
        InputFault::Surface(fault)
    }
}

impl From<StepFault> for InputFault {
    ghost from_gives = { λ _ r. r ≡ Shallow };

    fn from(_fault: StepFault) -> InputFault {
        InputFault::Shallow
    }
}

/// Why the call is refused, whatever the input.
#[derive(Clone, Copy, PartialEq, Eq, Debug)]
pub enum RenderFault {
    /// 18: there are under 4,096 records.
    Records,
    /// 21: there are under 16,392 bytes to write into.
    Room,
}

impl Refusal for RenderFault {
    ghost code = { render_code };

    fn number(&self) -> u32 {
        match self {
            RenderFault::Records => Rule::Buffer.number(),
            RenderFault::Room => Rule::NoRoom.number(),
        }
    }

    fn place(&self) -> u32 {
        0
    }
}

impl fmt::Display for RenderFault {
    ghost output = { λ fault. Some (refusal_text (render_code fault)) };

    fn fmt<W: fmt::Write>(&self, f: &mut fmt::Formatter<W>) -> fmt::Result {
        RefusalCode::of(self).fmt(f)
    }
}
