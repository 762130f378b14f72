//! Why a scene is refused.
ghost use Rattle.std.specs.Prelude.{◌≡◌, Some};
ghost use Rattle.refusal.specs.Texts.{refusal_text};
ghost use Rattle.scene.specs.Codes.{draft_code, exact_code};
ghost use Rattle.scene.specs.declared.fault.DraftFault.TheVariants.{Leaf, Layer};

use layers::LayerFault;
use leaves::LeafFault;
use refusal::{Refusal, RefusalCode, Rule};
use std::fmt;

/// Why a node is not laid down, or a draft is no scene.
#[derive(Clone, Copy, PartialEq, Eq, Debug)]
pub enum DraftFault {
    /// 8: there is no room for one node more.
    Full,
    /// 9: fewer nodes stand than it takes.
    TooFew,
    /// 10: a node that is to be thickened is not exact.
    Inexact,
    /// 12: it is not one node alone that stands.
    Unfinished,
    /// The numbers of a ball or a box are refused.
    Leaf(LeafFault),
    /// The numbers of a shift or of a thickening are.
    Layer(LayerFault),
}

impl Refusal for DraftFault {
    ghost code = { draft_code };

    fn number(&self) -> u32 {
        match self {
            DraftFault::Full => Rule::Full.number(),
            DraftFault::TooFew => Rule::TooFew.number(),
            DraftFault::Inexact => Rule::Inexact.number(),
            DraftFault::Unfinished => Rule::Unfinished.number(),
            DraftFault::Leaf(fault) => fault.number(),
            DraftFault::Layer(fault) => fault.number(),
        }
    }

    fn place(&self) -> u32 {
        match self {
            DraftFault::Leaf(fault) => fault.place(),
            DraftFault::Layer(fault) => fault.place(),
            _ => 0,
        }
    }
}

impl fmt::Display for DraftFault {
    ghost output = { λ fault. Some (refusal_text (draft_code fault)) };

    fn fmt<W: fmt::Write>(&self, f: &mut fmt::Formatter<W>) -> fmt::Result {
        RefusalCode::of(self).fmt(f)
    }
}

impl From<LeafFault> for DraftFault {
    ghost from_gives = { λ e r. r ≡ Leaf e };

    fn from(fault: LeafFault) -> DraftFault {
        DraftFault::Leaf(fault)
    }
}

impl From<LayerFault> for DraftFault {
    ghost from_gives = { λ e r. r ≡ Layer e };

    fn from(fault: LayerFault) -> DraftFault {
        DraftFault::Layer(fault)
    }
}

/// Why an exact scene is not filled.
#[derive(Clone, Copy, PartialEq, Eq, Debug)]
pub enum ExactFault {
    /// 15: the scene that was to be thickened is not exact.
    Inexact,
}

impl Refusal for ExactFault {
    ghost code = { exact_code };

    fn number(&self) -> u32 {
        match self {
            ExactFault::Inexact => Rule::Guard.number(),
        }
    }

    fn place(&self) -> u32 {
        0
    }
}

impl fmt::Display for ExactFault {
    ghost output = { λ fault. Some (refusal_text (exact_code fault)) };

    fn fmt<W: fmt::Write>(&self, f: &mut fmt::Formatter<W>) -> fmt::Result {
        RefusalCode::of(self).fmt(f)
    }
}
