//! The reader of a job.
ghost use Rattle.std.specs.Prelude.{◌≡◌, OnErr, OnOk};
ghost use Rattle.lattice.specs.Space.{ordered};
ghost use Rattle.words.specs.Cursor.{text, place, bytes_left, Moved, Begun};
ghost use Rattle.march.specs.Checks.{origin_place};
ghost use Rattle.readers.specs.Jobs.{guard_place, rows_at, sizes_at, view_at, pile_at, job_of, numbers_in};
ghost use Rattle.readers.specs.declared.job.TheConstants.{JOB_WORDS};
ghost use Rattle.readers.specs.JobsBack.{JobsReadBack};

use crate::fault::JobFault;
use crate::job::Job;
use lattice::{LEAST_COORDINATE, MOST_COORDINATE, MOST_OFFSET, Point, ordered};
use leaves::AxisBox;
use march::{LEAST_SIDE, MOST_FAR, MOST_SIDE, ViewNumbers};
use piles::{LEAST_THICKNESS, MOST_THICKNESS};
use words::{Kind, Reader, WordFault};

/// Reads the numbers of the view.
#[tactic(auto, unfolding(crate::specs::Jobs::view_at, crate::specs::Jobs::rows_at, crate::specs::Jobs::sizes_at))]
fn view(from: &mut Reader<'_>) -> Result<ViewNumbers, WordFault>
    requires { place from.old ≡ origin_place }
    ensures value { result ≡ view_at (text from.old) }
    ensures moved { OnOk result (Moved result 9 from.old from.new) }
{
    Ok(ViewNumbers {
        origin: from.point(LEAST_COORDINATE, MOST_COORDINATE)?,
        ray: from.row()?,
        across: from.row()?,
        down: from.row()?,
        width: from.number_in(LEAST_SIDE, MOST_SIDE)?,
        height: from.number_in(LEAST_SIDE, MOST_SIDE)?,
        far: from.number_in(0, MOST_FAR)?,
    })
}

/// Reads the numbers of the pile: the guard, the surface's shift, the clip box's corners.
#[tactic(auto, unfolding(crate::specs::Jobs::pile_at))]
fn pile(from: &mut Reader<'_>) -> Result<(i32, Point, Point, Point), WordFault>
    requires { place from.old ≡ guard_place }
    ensures value { result ≡ pile_at (text from.old) }
    ensures moved { OnOk result (Moved result 10 from.old from.new) }
{
    let guard = from.number_in(LEAST_THICKNESS, MOST_THICKNESS)?;
    let shift = from.point(-MOST_OFFSET, MOST_OFFSET)?;
    let lo = from.point(LEAST_COORDINATE, MOST_COORDINATE)?;
    let hi = from.point(LEAST_COORDINATE, MOST_COORDINATE)?;
    Ok((guard, shift, lo, hi))
}

/// Reads a job, which begins at the word that is due. A refused one leaves the reader as it was.
/// Every job is read back from its words.
#[tactic(auto, unfolding(crate::specs::Jobs::job_of))]
pub fn read_job(from: &mut Reader<'_>) -> Result<Job, JobFault>
    ensures value { numbers_in result ≡ job_of (bytes_left from.old) }
    ensures read { OnOk result (Begun JOB_WORDS from.old from.new) }
    ensures same { OnErr result (from.new ≡ from.old) }
    ensures back { JobsReadBack }
{
    // By a copy, so that a refused job leaves the reader where it was.
    let mut ahead = *from;
    ahead.next_part();
    ahead.bare_of(Kind::Job)?;
    let view = view(&mut ahead)?;
    let (guard, shift, lo, hi) = pile(&mut ahead)?;
    if !ordered(lo, hi) {
        return Err(JobFault::Corners);
    }
    *from = ahead;
    Ok(Job {
        view,
        guard: guard.unsigned_abs(),
        shift,
        clip: AxisBox { lo, hi },
    })
}
