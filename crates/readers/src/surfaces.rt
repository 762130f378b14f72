//! The reader of a surface.
ghost use Rattle.std.specs.Prelude.{◌≡◌, ◌+◌, ◌≤◌, length, IfOk, OnErr, OnOk};
ghost use Rattle.leaves.specs.Surface.{all_columns};
ghost use Rattle.words.specs.Cursor.{text, place, bytes_left, Moved, Begun};
ghost use Rattle.words.specs.Reading.{answer_with};
ghost use Rattle.readers.specs.Surfaces.{size_of, heights_at, surface_of, put_into};
ghost use Rattle.readers.specs.SurfacesBack.{SurfacesReadBack};

use crate::fault::SurfaceReadFault;
use leaves::{MOST_COLUMNS, SurfaceSize};
use words::{FIRST_OF_TWO, Kind, Reader, WordFault};

/// Reads the start word.
#[tactic(auto, using(crate::proofs::SurfaceTurns::few), unfolding(crate::specs::Surfaces::size_of))]
fn size(from: &mut Reader<'_>, room: usize) -> Result<SurfaceSize, SurfaceReadFault>
    requires { place from.old ≡ 0 }
    ensures value { result ≡ size_of (text from.old) room }
    ensures moved { OnOk result (Moved result 1 from.old from.new) }
    ensures few { IfOk result (λ s. all_columns s ≤ MOST_COLUMNS) }
    ensures fits { IfOk result (λ s. all_columns s ≤ room) }
{
    let sides = from.rest_of(Kind::Surface)?;
    let width = (sides / FIRST_OF_TWO) as i32;
    let depth = (sides % FIRST_OF_TWO) as i32;
    Ok(SurfaceSize::for_room(width, depth, room)?)
}

/// Reads the heights of the columns of a sheet.
fn heights(from: &mut Reader<'_>, sheet: &mut [i16]) -> Result<(), WordFault>
    ensures value { answer_with result sheet.new
        ≡ heights_at (text from.old) (place from.old) (length sheet.old) }
    ensures text { text from.new ≡ text from.old }
    ensures moved { OnOk result (place from.new ≡ place from.old + length sheet.old) }
{
    for height in sheet.iter_mut() {
        *height = from.number()?;
    }
    Ok(())
}

/// Reads a surface, which begins at the word that is due, and puts its heights into the caller's
/// buffer, one row along x after another; those past the last column are left. A refused surface
/// leaves the reader and the heights as they were. Every surface is read back from its words.
#[tactic(auto, using(crate::proofs::SurfacesBack::surfaces_back), unfolding(crate::specs::Surfaces::surface_of))]
pub fn read_surface(
    from: &mut Reader<'_>,
    buffer: &mut [i16],
) -> Result<SurfaceSize, SurfaceReadFault>
    ensures value { (result, buffer.new)
        ≡ put_into buffer.old (surface_of (bytes_left from.old) (length buffer.old)) }
    ensures read { IfOk result (λ s. Begun (1 + all_columns s) from.old from.new) }
    ensures same { OnErr result (from.new ≡ from.old) }
    ensures back { SurfacesReadBack }
{
    // By a copy, so that a refused surface leaves the reader where it was.
    let mut ahead = *from;
    ahead.next_part();
    let size = size(&mut ahead, buffer.len())?;
    let columns = size.columns();
    // A sheet of its own, on no heap, so that a refused surface writes no height.
    let mut sheet = [0; MOST_COLUMNS];
    heights(&mut ahead, &mut sheet[..columns])?;
    buffer[..columns].copy_from_slice(&sheet[..columns]);
    *from = ahead;
    Ok(size)
}
