//! Pixels as the words of an image.
ghost use Rattle.std.specs.Prelude.{◌≡◌, ◌≤◌, ◌++◌, length, drop, unsigned_abs, IsTrue};
ghost use Rattle.march.specs.March.{is_sane};
ghost use Rattle.march.specs.declared.view.TheConstants.{MOST_FAR, MOST_PIXELS};
ghost use Rattle.plate_log.specs.Sweep.{are_sane};
ghost use Rattle.plate_log.specs.Image.{pixel_word, image, image_size};

use march::{Pixel, View};
use plate_log::HEAD;
use words::{FIRST_OF_TWO, Kind, put};

/// A pixel as a word of an image, where it has settled.
fn word_of(pixel: Pixel) -> u32
    requires { IsTrue (is_sane (unsigned_abs MOST_FAR) pixel) }
    ensures { result ≡ pixel_word pixel }
{
    match pixel {
        Pixel::Marching { .. } => 0,
        Pixel::Hit { depth, probes } => Kind::Hit.word(depth * FIRST_OF_TWO + probes),
        Pixel::Miss { probes } => Kind::Miss.word(probes),
    }
}

/// Writes the image: its start, far, and a word for each pixel.
pub(crate) fn put_image(pixels: &[Pixel], view: View, out: &mut [u8])
    requires few { length pixels.now ≤ MOST_PIXELS }
    requires room { image_size (length pixels.now) ≤ length out.old }
    requires sane { IsTrue (are_sane view.far pixels.now) }
    ensures { out.new ≡ image view pixels.now ++ drop (image_size (length pixels.now)) out.old }
{
    let start = Kind::Image.word(view.width() * FIRST_OF_TWO + view.height());
    put(out, 0, start).unwrap();
    put(out, 1, Kind::Number.word(view.far())).unwrap();
    for (k, pixel) in pixels.iter().enumerate() {
        put(out, HEAD + k, word_of(*pixel)).unwrap();
    }
}
