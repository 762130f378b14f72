//! The nodes of a scene.
ghost use Rattle.std.specs.Prelude.{◌≡◌, min};
ghost use Rattle.scene.specs.Summaries.{summary_of, joined_summary};

use crate::bound::Bound;
use lattice::Point;
use leaves::{AxisBox, Ball, LeafPoint};
use solid::Exact;

/// How two bodies that stand become one.
#[derive(Clone, Copy)]
pub enum Join {
    Unite,
    Meet,
}

/// A node that takes no others.
#[derive(Clone, Copy)]
pub enum Leaf {
    Ball(Ball),
    Block(AxisBox),
}

/// A node of a scene. Those that take others take the last ones that stand.
#[derive(Clone, Copy)]
pub enum Node {
    Joined(Join),
    Leaf(Leaf),
    Shift(Point),
    Thicken(u32),
}

/// What has to be known of a body that stands.
#[derive(Clone, Copy)]
pub struct Summary {
    pub reach: u32,
    pub exact: bool,
}

impl Summary {
    /// The summary of an exact solid.
    pub(crate) fn of<S: Exact>(solid: &S) -> Summary
        ensures { result ≡ summary_of (S.Solid.body solid.now) }
    {
        solid.exactly();
        Summary {
            reach: solid.reach(),
            exact: true,
        }
    }
}

impl Leaf {
    ghost use Rattle.scene.specs.Standing.{leaf_body};
    ghost use Rattle.scene.specs.Bounds.{IsBound};

    /// The clearance, or `most` where that is smaller.
    #[inline(always)]
    pub(crate) fn clear_up_to(&self, p: LeafPoint, most: u32) -> u32
        ensures { result ≡ min most ((leaf_body self.now).clear p.at) }
    {
        match self {
            Leaf::Ball(ball) => ball.clear_up_to(p, most),
            Leaf::Block(block) => block.clear_up_to(p, most),
        }
    }

    /// A box about it.
    pub(crate) fn bound(&self) -> Bound
        ensures { IsBound result (leaf_body self.now) }
    {
        match self {
            Leaf::Ball(ball) => Bound::about_ball(ball),
            Leaf::Block(block) => Bound::about_box(block),
        }
    }
}

impl Join {
    /// The summary of what the two become, by theirs. What two have in common is not exact.
    pub(crate) fn summary(self, left: Summary, right: Summary) -> Summary
        ensures { result ≡ joined_summary self left right }
    {
        Summary {
            reach: left.reach.min(right.reach),
            exact: match self {
                Join::Unite => left.exact && right.exact,
                Join::Meet => false,
            },
        }
    }
}
