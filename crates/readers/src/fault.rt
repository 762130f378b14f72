//! Why a job, a scene or a surface is refused.
ghost use Rattle.std.specs.Prelude.{◌≡◌, Some};
ghost use Rattle.refusal.specs.Texts.{refusal_text};
ghost use Rattle.words.specs.Codes.{place_as_u32};
ghost use Rattle.readers.specs.Codes.{job_code, scene_code, surface_read_code, surface_read_fault};
ghost use Rattle.readers.specs.declared.fault.JobFault.TheVariants.{Word as JobWord};
ghost use Rattle.readers.specs.declared.fault.SceneFault.TheVariants.{Word as SceneWord};
ghost use Rattle.readers.specs.declared.fault.SurfaceReadFault.TheVariants.{Word as SurfaceWord};

use leaves::SurfaceFault;
use refusal::{Refusal, RefusalCode, Rule};
use scene::DraftFault;
use std::fmt;
use words::{WordFault, place_as_u32};

/// Why a job is refused.
#[derive(Clone, Copy, PartialEq, Eq, Debug)]
pub enum JobFault {
    /// One of its words is refused.
    Word(WordFault),
    /// 6: the clip box's lower corner is above its upper one on an axis.
    Corners,
}

/// The place of the clip box's first number.
const CLIP_PLACE: u32 = 14;

impl Refusal for JobFault {
    ghost code = { job_code };

    fn number(&self) -> u32 {
        match self {
            JobFault::Word(fault) => fault.number(),
            JobFault::Corners => Rule::Corners.number(),
        }
    }

    fn place(&self) -> u32 {
        match self {
            JobFault::Word(fault) => fault.place(),
            JobFault::Corners => CLIP_PLACE,
        }
    }
}

impl fmt::Display for JobFault {
    ghost output = { λ fault. Some (refusal_text (job_code fault)) };

    fn fmt<W: fmt::Write>(&self, f: &mut fmt::Formatter<W>) -> fmt::Result {
        RefusalCode::of(self).fmt(f)
    }
}

impl From<WordFault> for JobFault {
    ghost from_gives = { λ e r. r ≡ JobWord e };

    fn from(fault: WordFault) -> JobFault {
        JobFault::Word(fault)
    }
}

/// Why a scene is refused.
#[derive(Clone, Copy, PartialEq, Eq, Debug)]
pub enum SceneFault {
    /// One of its words is refused.
    Word(WordFault),
    /// 7: the start word counts fewer than 1 or more than 1792 words.
    Count,
    /// 12: the numbers of the node at this place pass the count.
    Numbers { place: usize },
    /// The node at this place is not laid down; or, at the last word's place, it is not one node
    /// alone that stands.
    Node { fault: DraftFault, place: usize },
}

impl Refusal for SceneFault {
    ghost code = { scene_code };

    fn number(&self) -> u32 {
        match self {
            SceneFault::Word(fault) => fault.number(),
            SceneFault::Count => Rule::Count.number(),
            SceneFault::Numbers { .. } => Rule::Unfinished.number(),
            SceneFault::Node { fault, .. } => fault.number(),
        }
    }

    fn place(&self) -> u32 {
        match self {
            SceneFault::Word(fault) => fault.place(),
            SceneFault::Count => 0,
            SceneFault::Numbers { place } | SceneFault::Node { place, .. } => place_as_u32(*place),
        }
    }
}

impl fmt::Display for SceneFault {
    ghost output = { λ fault. Some (refusal_text (scene_code fault)) };

    fn fmt<W: fmt::Write>(&self, f: &mut fmt::Formatter<W>) -> fmt::Result {
        RefusalCode::of(self).fmt(f)
    }
}

impl From<WordFault> for SceneFault {
    ghost from_gives = { λ e r. r ≡ SceneWord e };

    fn from(fault: WordFault) -> SceneFault {
        SceneFault::Word(fault)
    }
}

/// Why a surface is refused.
#[derive(Clone, Copy, PartialEq, Eq, Debug)]
pub enum SurfaceReadFault {
    /// One of its words is refused.
    Word(WordFault),
    /// 13: width or depth is outside 1..64.
    Size,
    /// 18: the caller's buffer has room for fewer heights than there are columns.
    Buffer,
}

impl Refusal for SurfaceReadFault {
    ghost code = { surface_read_code };

    fn number(&self) -> u32 {
        match self {
            SurfaceReadFault::Word(fault) => fault.number(),
            SurfaceReadFault::Size => Rule::Size.number(),
            SurfaceReadFault::Buffer => Rule::Buffer.number(),
        }
    }

    fn place(&self) -> u32 {
        match self {
            SurfaceReadFault::Word(fault) => fault.place(),
            SurfaceReadFault::Size | SurfaceReadFault::Buffer => 0,
        }
    }
}

impl fmt::Display for SurfaceReadFault {
    ghost output = { λ fault. Some (refusal_text (surface_read_code fault)) };

    fn fmt<W: fmt::Write>(&self, f: &mut fmt::Formatter<W>) -> fmt::Result {
        RefusalCode::of(self).fmt(f)
    }
}

impl From<SurfaceFault> for SurfaceReadFault {
    ghost from_gives = { λ e r. r ≡ surface_read_fault e };

    fn from(fault: SurfaceFault) -> SurfaceReadFault {
        match fault {
            SurfaceFault::Size => SurfaceReadFault::Size,
            SurfaceFault::Buffer => SurfaceReadFault::Buffer,
        }
    }
}

impl From<WordFault> for SurfaceReadFault {
    ghost from_gives = { λ e r. r ≡ SurfaceWord e };

    fn from(fault: WordFault) -> SurfaceReadFault {
        SurfaceReadFault::Word(fault)
    }
}
