//! A scene, which is a solid.
ghost use Rattle.std.specs.Prelude.{◌≡◌, IsTrue, OnErr};
ghost use Rattle.piles.specs.Leaves.{ball};
ghost use Rattle.scene.specs.Standing.{origin, has_one};
ghost use Rattle.scene.specs.States.{state};
ghost use Rattle.scene.specs.Tables.{bodies_of, table_body, ArePartsOf, AreBoundsOf};

use crate::draft::Draft;
use crate::fault::DraftFault;
use crate::node::{Leaf, Node, Summary};
use crate::parts::Parts;
use crate::table::Table;
use lattice::Point;
use leaves::{Ball, LeafPoint};
use solid::{MOST_CLEARANCE, QuestionFault, Solid, check_asked};

/// A scene: the body that stands last once all nodes of its table are laid down. It is exact where
/// every node in it is.
#[derive(Clone, Copy)]
pub struct Scene {
    table: Table,
    parts: Parts,
    summary: Summary,
    ghost one_stands: { IsTrue (has_one (bodies_of table)) },
    ghost reach_of_body: { summary.reach ≡ (table_body table).reach },
    ghost exact_of_body: { summary.exact ≡ (table_body table).exact },
    ghost are_parts: { ArePartsOf table parts.row },
    ghost are_bounds: { AreBoundsOf table parts.row parts.bounds },
}

impl Scene {
    ghost use Rattle.scene.specs.Scenes.{scene_body, fill_outcome};

    /// The point at the origin, a ball of radius 0.
    pub fn new() -> Scene
        ensures { scene_body result ≡ ball origin 0 }
    {
        let point = Ball::new(Point { x: 0, y: 0, z: 0 }, 0).unwrap();
        let mut table = Table::new();
        table.push(Node::Leaf(Leaf::Ball(point)));
        Scene {
            table,
            parts: Parts::of(&table),
            summary: Summary::of(&point),
        }
    }

    /// Becomes the scene of a draft in which one node alone stands. From another it is refused with
    /// 12 and stays what it was.
    pub fn fill(&mut self, draft: &Draft) -> Result<(), DraftFault>
        ensures value { (result, scene_body self.new) ≡
            fill_outcome (state draft.now).1 (scene_body self.old) }
        ensures same { OnErr result (self.new ≡ self.old) }
    {
        let summary = draft.only()?;
        self.table = draft.table;
        self.parts = Parts::of(&draft.table);
        self.summary = summary;
        Ok(())
    }

    /// Is every node of the scene exact?
    pub fn is_exact(&self) -> bool
        ensures { result ≡ (scene_body self.now).exact }
    {
        self.summary.exact
    }
}

impl Solid for Scene {
    ghost use Rattle.scene.specs.Scenes.{scene_body, scene_lawful};

    ghost body = { scene_body };

    ghost lawful = { scene_lawful };

    fn reach(&self) -> u32 {
        self.summary.reach
    }

    fn clearance(&self, p: Point) -> Result<u32, QuestionFault> {
        self.clearance_up_to(p, MOST_CLEARANCE)
    }

    fn clearance_up_to(&self, p: Point, most: u32) -> Result<u32, QuestionFault> {
        check_asked(self.reach(), p)?;
        Ok(self.parts.ask(&self.table, LeafPoint { at: p }, most))
    }
}
