//! What is done to pixels that lie in a row.
ghost use Rattle.std.specs.Prelude.{◌≡◌, ◌-◌, ◌≤◌, length, replicate, IsTrue};
ghost use Rattle.march.specs.Lent.{lent_body};
ghost use Rattle.march.specs.View.{clear_along};
ghost use Rattle.march.specs.March.{new_pixel, is_sane, marches, settle};
ghost use Rattle.march.specs.declared.view.TheConstants.{MOST_PIXELS};
ghost use Rattle.plate_log.specs.Sweep.{are_sane, count_marching, sweep};
ghost use Rattle.plate_log.specs.Log.{area, clear_on_ray};

use march::{Deep, Pixel, Ray, View};
use solid::Solid;

pub(crate) fn is_marching(pixel: Pixel) -> bool
    ensures { result ≡ marches pixel }
{
    matches!(pixel, Pixel::Marching { .. })
}

/// How many of the pixels march.
pub(crate) fn count_marching(pixels: &[Pixel]) -> u32
    requires { length pixels.now ≤ MOST_PIXELS }
    ensures { result ≡ count_marching pixels.now }
{
    pixels
        .iter()
        .map(|pixel| u32::from(is_marching(*pixel)))
        .sum()
}

/// Makes the pixels those of new rays.
pub(crate) fn renew(pixels: &mut [Pixel])
    ensures { pixels.new ≡ replicate (length pixels.old) new_pixel }
{
    pixels.fill(Pixel::Marching { t: 0, probes: 0 });
}

/// Steps a pixel along its ray until it settles or the budget is spent. How much was spent.
pub(crate) fn settle<S: Solid>(pixel: &mut Pixel, ray: Ray, solid: &Deep<'_, S>, budget: u32) -> u32
    requires sane { IsTrue (is_sane ray.far pixel.old) }
    ensures value { pixel.new ≡
        (settle (clear_along (lent_body solid.now) ray) ray.far budget pixel.old).0 }
    ensures spent { result ≡ budget
        - (settle (clear_along (lent_body solid.now) ray) ray.far budget pixel.old).1 }
    ensures sane { IsTrue (is_sane ray.far pixel.new) }
{
    for spent in 0..budget {
        if !is_marching(*pixel) {
            return spent;
        }
        *pixel = pixel.stepped(&ray, solid);
    }
    budget
}

/// Steps the pixels row by row, each until it settles, and stops the moment the budget is spent.
/// How much was spent.
pub(crate) fn sweep_all<S: Solid>(
    pixels: &mut [Pixel],
    view: View,
    solid: &Deep<'_, S>,
    budget: u32,
) -> u32
    requires all { length pixels.old ≡ area view }
    requires sane { IsTrue (are_sane view.far pixels.old) }
    ensures value { pixels.new ≡
        (sweep (clear_on_ray view (lent_body solid.now)) view.far
        budget 0 pixels.old).0 }
    ensures spent { result ≡ budget
        - (sweep (clear_on_ray view (lent_body solid.now)) view.far
        budget 0 pixels.old).1 }
    ensures sane { IsTrue (are_sane view.far pixels.new) }
{
    let width = view.width() as usize;
    let mut spent = 0;
    // Rows, columns and steps: a spent budget stops all three.
    'sweep: for j in 0..view.height() {
        let from = j as usize * width;
        for (i, pixel) in pixels[from..from + width].iter_mut().enumerate() {
            let ray = view.ray_of(i as u32, j).unwrap();
            while is_marching(*pixel) {
                if spent == budget {
                    break 'sweep;
                }
                *pixel = pixel.stepped(&ray, solid);
                spent += 1;
            }
        }
    }
    spent
}
