//! One call from the bytes of a model to the bytes of its depth image.
#![tactic(auto)]

ghost use Rattle.std.specs.Prelude.{◌≡◌, ◌≤◌, length, IfOk, OnOk};
ghost use Rattle.leaves.specs.declared.surface.TheConstants.{MOST_COLUMNS};
ghost use Rattle.scene.specs.Scenes.{scene_body};
ghost use Rattle.render.specs.declared.TheConstants.{MOST_BYTES};
ghost use Rattle.render.specs.Models.{unchecked_model};
ghost use Rattle.render.specs.Render.{rendering};
ghost use Rattle.render.specs.Laws.{ShowsInput, Files};
ghost use Rattle.render.specs.Steps.{model_in};

use buffers::Buffers;
use leaves::SurfaceSize;
use march::Pixel;
use plate_log::HEAD;
use readers::{Job, read_job, read_scene, read_surface};
use scene::Scene;
use words::{Reader, WORD};

mod buffers;
mod fault;
mod guard;

pub use fault::{InputFault, RenderFault};
/// The most pixels that a view has, and so the records that the call wants.
pub use march::MOST_PIXELS;
pub use readers::JOB_WORDS;

/// The bytes of an image of so many pixels, and so those that the call wants: two words in front,
/// then one a pixel, each of four bytes.
pub const MOST_BYTES: usize = WORD * (HEAD + MOST_PIXELS);

/// No lawful input has more bytes: a job, a scene of 1,792 words after its first, and a surface of
/// 4,096 heights after its own.
pub const MOST_INPUT: usize = 23_640;

/// Reads job, scene and surface, joined, after which no byte is left.
fn read_parts(
    input: &[u8],
    scene: &mut Scene,
    heights: &mut [i16],
) -> Result<(Job, SurfaceSize), InputFault>
    requires { length heights.old ≡ MOST_COLUMNS }
    ensures { model_in result (scene_body scene.new) heights.new ≡ unchecked_model input.now }
{
    let mut from = Reader::new(input);
    let job = read_job(&mut from)?;
    read_scene(&mut from, scene)?;
    let size = read_surface(&mut from, heights)?;
    if !from.at_end() {
        return Err(InputFault::Left);
    }
    Ok((job, size))
}

/// Reads a model and writes its depth image, or the one word that says why the input is refused,
/// and answers how many bytes it wrote. Whatever the input, it wants 4,096 records, else it is
/// refused with 18, and then 16,392 bytes, else with 21; refused, it leaves records and bytes as
/// they were.
pub fn render(input: &[u8], records: &mut [Pixel], out: &mut [u8]) -> Result<usize, RenderFault>
    ensures value { (result, records.new, out.new) ≡ rendering input.now records.old out.old }
    ensures contact { OnOk result (ShowsInput input.now out.new) }
    ensures most { IfOk result (λ n. n ≤ MOST_BYTES) }
    ensures files { OnOk result Files }
{
    if records.len() < MOST_PIXELS {
        return Err(RenderFault::Records);
    }
    if out.len() < MOST_BYTES {
        return Err(RenderFault::Room);
    }
    let mut buffers = Buffers { records, out };
    Ok(buffers.answer(input))
}
