//! A scene that is being built.
ghost use Rattle.std.specs.Prelude.{◌≡◌, ◌+◌, ◌<◌, ◌≤◌, IsTrue, List, [], ◌∷◌, map, length, drop};
ghost use Rattle.piles.specs.Layers.{unite, meet};
ghost use Rattle.scene.specs.Standing.{join_of, with_node, can_take, last_is_exact};
ghost use Rattle.scene.specs.Laid.{ball_on, box_on, two_on, shift_on, thicken_on};
ghost use Rattle.scene.specs.Summaries.{summary_of, AreSummaries};
ghost use Rattle.scene.specs.Summaries.{last_summary, last_two_summaries, only_summary};
ghost use Rattle.scene.specs.Tables.{table_count, bodies_of};

use crate::fault::DraftFault;
use crate::node::{Join, Leaf, Node, Summary};
use crate::stack::Stack;
use crate::table::{MOST_NODES, Table};
use lattice::Point;
use layers::{check_offset, check_thickness};
use leaves::{AxisBox, Ball};

/// A scene that is being built: its nodes so far, and a summary of each body that stands. Each call
/// lays down one node, or refuses and changes nothing. The checks come in this order: room for the
/// node, the nodes that it takes, whether one to be thickened is exact, its numbers one by one, and
/// last a box's corners or the reach that a shift must not pass.
#[derive(Drop)]
pub struct Draft {
    pub(crate) table: Table,
    summaries: Stack<Summary, MOST_NODES>,
    ghost summaries_in_range: { summaries.height ≤ table_count table },
    ghost are_summaries: { AreSummaries (bodies_of table) summaries.items summaries.height },
}

/// What fills the room in which no body is summed up.
const BLANK: Summary = Summary {
    reach: 0,
    exact: false,
};

impl Draft {
    ghost use Rattle.scene.specs.States.{state, room_answer, lay_outcome};

    /// A draft of no nodes.
    pub fn new() -> Draft
        ensures { state result ≡ (0, []) }
    {
        Draft {
            table: Table::new(),
            summaries: Stack::new(BLANK),
        }
    }

    /// How many nodes are laid down.
    pub fn nodes(&self) -> usize
        ensures { result ≡ (state self.now).0 }
    {
        self.table.count()
    }

    /// How many of them stand.
    pub fn standing(&self) -> usize
        ensures { result ≡ length (state self.now).1 }
    {
        self.summaries.height
    }

    /// Does a node stand, and is the last that does exact?
    pub fn last_is_exact(&self) -> bool
        ensures { result ≡ last_is_exact (state self.now).1 }
    {
        self.last().is_ok_and(|last| last.exact)
    }

    /// Checks that there is room for one node more.
    pub fn check_room(&self) -> Result<(), DraftFault>
        ensures { result ≡ room_answer (state self.now).0 }
    {
        if self.nodes() >= MOST_NODES {
            return Err(DraftFault::Full);
        }
        Ok(())
    }

    /// The last that stands.
    fn last(&self) -> Result<Summary, DraftFault>
        ensures { result ≡ last_summary (state self.now).1 }
    {
        let [.., last] = self.summaries.as_slice() else {
            return Err(DraftFault::TooFew);
        };
        Ok(*last)
    }

    /// The last two that stand, first the one that was laid down earlier.
    fn last_two(&self) -> Result<(Summary, Summary), DraftFault>
        ensures { result ≡ last_two_summaries (state self.now).1 }
    {
        let [.., left, right] = self.summaries.as_slice() else {
            return Err(DraftFault::TooFew);
        };
        Ok((*left, *right))
    }

    /// The one node that stands.
    pub(crate) fn only(&self) -> Result<Summary, DraftFault>
        ensures { result ≡ only_summary (state self.now).1 }
    {
        let [one] = self.summaries.as_slice() else {
            return Err(DraftFault::Unfinished);
        };
        Ok(*one)
    }

    /// Lays down a node that takes so many, and of which this is the summary.
    fn put(&mut self, node: Node, taken: usize, summary: Summary)
        requires room { (state self.old).0 < MOST_NODES }
        requires fit { IsTrue (can_take node (state self.old).1) }
        requires enough { taken ≤ length (state self.old).1 }
        requires summary_fits { map summary_of (with_node node (state self.old).1) ≡
            summary ∷ map summary_of (drop taken (state self.old).1) }
        ensures { state self.new ≡ ((state self.old).0 + 1, with_node node (state self.old).1) }
    {
        self.summaries.take_off(taken);
        self.summaries.push(summary);
        self.table.push(node);
    }

    /// Lays down a ball. The centre's coordinates are numbers 1 to 3, the radius is number 4.
    pub fn ball(&mut self, centre: Point, radius: i32) -> Result<(), DraftFault>
        ensures { (result, state self.new) ≡
            lay_outcome (ball_on centre radius) (state self.old) }
    {
        self.check_room()?;
        let ball = Ball::new(centre, radius)?;
        self.put(Node::Leaf(Leaf::Ball(ball)), 0, Summary::of(&ball));
        Ok(())
    }

    /// Lays down a box. The corners' coordinates are numbers 1 to 3 and 4 to 6.
    pub fn block(&mut self, lo: Point, hi: Point) -> Result<(), DraftFault>
        ensures { (result, state self.new) ≡ lay_outcome (box_on lo hi) (state self.old) }
    {
        self.check_room()?;
        let block = AxisBox::new(lo, hi)?;
        self.put(Node::Leaf(Leaf::Block(block)), 0, Summary::of(&block));
        Ok(())
    }

    /// Unites the last two that stand.
    pub fn unite(&mut self) -> Result<(), DraftFault>
        ensures { (result, state self.new) ≡ lay_outcome (two_on unite) (state self.old) }
    {
        self.join(Join::Unite)
    }

    /// Lets the last two that stand meet.
    pub fn meet(&mut self) -> Result<(), DraftFault>
        ensures { (result, state self.new) ≡ lay_outcome (two_on meet) (state self.old) }
    {
        self.join(Join::Meet)
    }

    /// Joins the last two that stand.
    fn join(&mut self, join: Join) -> Result<(), DraftFault>
        ensures { (result, state self.new) ≡
            lay_outcome (two_on (join_of join)) (state self.old) }
    {
        self.check_room()?;
        let (left, right) = self.last_two()?;
        self.put(Node::Joined(join), 2, join.summary(left, right));
        Ok(())
    }

    /// Shifts the last that stands. The offset's parts are numbers 1 to 3.
    pub fn shift(&mut self, by: Point) -> Result<(), DraftFault>
        ensures { (result, state self.new) ≡ lay_outcome (shift_on by) (state self.old) }
    {
        self.check_room()?;
        let last = self.last()?;
        check_offset(last.reach, by)?;
        let moved = Summary {
            reach: last.reach - by.norm(),
            exact: last.exact,
        };
        self.put(Node::Shift(by), 1, moved);
        Ok(())
    }

    /// Thickens the last that stands. The distance is number 1.
    pub fn thicken(&mut self, by: i32) -> Result<(), DraftFault>
        ensures { (result, state self.new) ≡ lay_outcome (thicken_on by) (state self.old) }
    {
        self.check_room()?;
        let last = self.last()?;
        if !last.exact {
            return Err(DraftFault::Inexact);
        }
        let by = check_thickness(by)?;
        self.put(Node::Thicken(by), 1, last);
        Ok(())
    }
}
