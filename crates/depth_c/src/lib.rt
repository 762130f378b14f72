//! The whole call, exported for a program in another language, which lends no records.
#![tactic(auto)]

ghost use Rattle.std.specs.Prelude.{◌≡◌};
ghost use Rattle.depth_c.specs.Exported.{depth_render};

use march::Pixel;
use render::{MOST_PIXELS, render};

/// What is answered where nothing is written. C has no `Result`: a length of 0, which no answer
/// has, stands for a refused call.
const NOTHING: usize = 0;

/// Reads a model, writes its depth image or the word of its refusal in front of the bytes, and
/// answers how many bytes it wrote. It wants 16,392 bytes; of fewer it writes none, and answers 0.
#[unsafe(no_mangle)]
pub extern "C" fn depth_render(input: &[u8], out: &mut [u8]) -> usize
    ensures { (result, out.new) ≡ depth_render input.now out.old }
{
    let mut records = [Pixel::Miss { probes: 0 }; MOST_PIXELS];
    render(input, &mut records, out).unwrap_or(NOTHING)
}
