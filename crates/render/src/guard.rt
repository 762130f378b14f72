//! The guard of a job: how thick the scene is made.
ghost use Rattle.std.specs.Prelude.{◌≡◌, ◌≤◌, ◌||◌, ◌==◌, unsigned_abs, IsTrue};
ghost use Rattle.piles.specs.Layers.{thicken};
ghost use Rattle.piles.specs.declared.TheConstants.{MOST_THICKNESS};
ghost use Rattle.scene.specs.Scenes.{scene_body};
ghost use Rattle.scene.specs.Exacts.{exact_scene_body};

use layers::Thicken;
use scene::{ExactScene, Scene};

/// Only an exact scene has a guard above 0.
pub(super) fn may_be_guarded(scene: &Scene, guard: u32) -> bool
    ensures { result ≡ (guard == 0 || (scene_body scene.now).exact) }
{
    guard == 0 || scene.is_exact()
}

/// An exact scene, thickened.
pub(super) fn thickened(scene: &Scene, guard: u32) -> Thicken<ExactScene>
    requires exact { IsTrue (scene_body scene.now).exact }
    requires guard_in_range { guard ≤ unsigned_abs MOST_THICKNESS }
    ensures { thicken result.by (exact_scene_body result.below)
        ≡ thicken guard (scene_body scene.now) }
{
    let mut exact = ExactScene::new();
    exact.fill(scene).unwrap();
    Thicken::new(exact, guard as i32).unwrap()
}
