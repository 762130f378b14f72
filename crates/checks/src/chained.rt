//! One plate, swept over two solids of two types: what the calls promise, put together.
ghost use Rattle.std.specs.Prelude.{◌≡◌, length, IfOk};
ghost use Rattle.march.specs.Checks.{view_answer};
ghost use Rattle.checks.specs.Chained.{call_refusal, opened_view, first_refusal};
ghost use Rattle.checks.specs.Chained.{ViewPicture, RecordsAfter};

use march::{Pixel, ViewNumbers};
use plate::{Plate, PlateFault};
use solid::Solid;

/// Sweeps over one solid and then over another, and reads a pixel. The first of these calls that is
/// refused ends it, with its fault.
pub fn two_sweeps<A: Solid, B: Solid>(
    records: &mut [Pixel],
    numbers: ViewNumbers,
    a: &A,
    b: &B,
    m: u32,
    n: u32,
    i: u32,
    j: u32,
) -> Result<Pixel, PlateFault>
    ensures refused { let opened = opened_view (view_answer numbers) (length records.old) in
        call_refusal result ≡ first_refusal opened (A.body a.now) (B.body b.now) i j }
    ensures picture { IfOk result (ViewPicture numbers (A.body a.now) (B.body b.now) m n i j) }
    ensures records { let opened = opened_view (view_answer numbers) (length records.old) in
        RecordsAfter opened (A.body a.now) (B.body b.now) m n records.old records.new }
{
    let mut plate = Plate::new(records);
    plate.open(numbers)?;
    let _ = plate.sweep(a, m)?;
    let _ = plate.sweep(b, n)?;
    plate.read(i, j)
}
