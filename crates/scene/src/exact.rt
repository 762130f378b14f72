//! A scene that is exact, so that it can be thickened.
ghost use Rattle.std.specs.Prelude.{◌≡◌, IsTrue, OnErr};
ghost use Rattle.piles.specs.Leaves.{ball};
ghost use Rattle.scene.specs.Standing.{origin};
ghost use Rattle.scene.specs.Scenes.{scene_body, scene_lawful};

use crate::fault::ExactFault;
use crate::scene::Scene;
use lattice::Point;
use solid::{Exact, QuestionFault, Solid};

/// A scene of which every node is exact.
#[derive(Clone, Copy)]
pub struct ExactScene {
    scene: Scene,
    ghost is_exact: { IsTrue (scene_body scene).exact },
}

impl ExactScene {
    ghost use Rattle.scene.specs.Exacts.{exact_scene_body, exact_fill_outcome};

    /// The point at the origin, a ball of radius 0.
    pub fn new() -> ExactScene
        ensures { exact_scene_body result ≡ ball origin 0 }
    {
        ExactScene {
            scene: Scene::new(),
        }
    }

    /// Becomes that scene where it is exact. Another is refused with 15, and this one stays what it
    /// was.
    pub fn fill(&mut self, scene: &Scene) -> Result<(), ExactFault>
        ensures value { (result, exact_scene_body self.new) ≡
            exact_fill_outcome (scene_body scene.now) (exact_scene_body self.old) }
        ensures same { OnErr result (self.new ≡ self.old) }
    {
        if !scene.is_exact() {
            return Err(ExactFault::Inexact);
        }
        *self = ExactScene { scene: *scene };
        Ok(())
    }
}

impl Solid for ExactScene {
    ghost use Rattle.scene.specs.Exacts.{exact_scene_body};

    ghost body = { exact_scene_body };

    ghost lawful = { λ e. scene_lawful e.scene };

    fn reach(&self) -> u32 {
        self.scene.reach()
    }

    fn clearance(&self, p: Point) -> Result<u32, QuestionFault> {
        self.scene.clearance(p)
    }

    fn clearance_up_to(&self, p: Point, most: u32) -> Result<u32, QuestionFault> {
        self.scene.clearance_up_to(p, most)
    }
}

impl Exact for ExactScene {
    fn exactly(&self) {}
}
