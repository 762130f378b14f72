//! The surface: columns that stand side by side on a sheet.
ghost use Rattle.std.specs.Prelude.{◌≡◌, ◌≤◌, length, unsigned_abs, Ok};
ghost use Rattle.std.specs.Result.{result_map_both};
ghost use Rattle.refusal.specs.Checks.{unless};
ghost use Rattle.piles.specs.Leaves.{last_column, greatest, off_bounding_block};
ghost use Rattle.piles.proofs.Surfaces.{surface_lawful};
ghost use Rattle.leaves.specs.declared.fault.SurfaceFault.TheVariants.{Size};
ghost use Rattle.leaves.specs.declared.surface.TheConstants.{LONGEST_SIDE};
ghost use Rattle.leaves.specs.Surface.{width_columns, depth_columns, all_columns, is_side, IsSide};
ghost use Rattle.leaves.specs.Surface.{size_made, sheet_made, surface_body};

use super::axis::outside;
use super::fault::SurfaceFault;
use super::leaf_point::{LEAF_REACH, LeafPoint};
use lattice::Point;
use solid::{QuestionFault, Solid};

/// How many columns a side of a sheet may have.
pub const SHORTEST_SIDE: i32 = 1;

pub const LONGEST_SIDE: i32 = 64;

/// The most columns that a sheet has.
pub const MOST_COLUMNS: usize = 4096;

/// A width or a depth that lies in its range.
fn side(n: i32) -> Result<u32, SurfaceFault>
    ensures { result ≡ unless (is_side n) Size (Ok (unsigned_abs n)) }
{
    if !(SHORTEST_SIDE..=LONGEST_SIDE).contains(&n) {
        return Err(SurfaceFault::Size);
    }
    Ok(n.unsigned_abs())
}

/// The columns of a surface: `width` of them along x, `depth` along y, each in 1..=64.
#[derive(Clone, Copy, PartialEq, Eq, Debug)]
pub struct SurfaceSize {
    width: u32,
    depth: u32,
}

impl SurfaceSize {
    /// The size of those sides. Refused with 13 outside 1..=64, then with 18 where there is room
    /// for fewer heights than columns.
    pub fn for_room(width: i32, depth: i32, room: usize) -> Result<SurfaceSize, SurfaceFault>
        ensures { result ≡ size_made width depth room }
    {
        let size = SurfaceSize {
            width: side(width)?,
            depth: side(depth)?,
        };
        if room < size.columns() {
            return Err(SurfaceFault::Buffer);
        }
        Ok(size)
    }

    /// How many columns stand side by side along x.
    pub fn width(self) -> u32
        ensures { result ≡ width_columns self }
    {
        self.width
    }

    /// How many stand along y.
    pub fn depth(self) -> u32
        ensures { result ≡ depth_columns self }
    {
        self.depth
    }

    /// How many columns the surface has.
    pub fn columns(self) -> usize
        ensures { result ≡ all_columns self }
    {
        self.width as usize * self.depth as usize
    }
}

/// What a surface is made of, which was checked: a size, and a height for each column, x fastest.
/// The heights are the caller's.
#[derive(Clone, Copy)]
pub struct Sheet<'a> {
    pub size: SurfaceSize,
    pub heights: &'a [i16],
    ghost width_in_range: { IsSide (width_columns size) },
    ghost depth_in_range: { IsSide (depth_columns size) },
    ghost a_height_each: { length heights.now ≡ all_columns size },
}

impl<'a> Sheet<'a> {
    /// The sheet of that width and depth over the first heights, one for each column, whatever they
    /// are. Refused with 13 where a side is outside 1..=64, then with 18 for fewer heights than
    /// columns.
    pub fn check(width: i32, depth: i32, heights: &'a [i16]) -> Result<Sheet<'a>, SurfaceFault>
        ensures { result_map_both (λ (s : Sheet). (s.size, s.heights.now)) (λ e. e) result
            ≡ sheet_made width depth heights.now }
    {
        let size = SurfaceSize::for_room(width, depth, heights.len())?;
        Ok(Sheet {
            size,
            heights: &heights[..size.columns()],
        })
    }

    /// The greatest height.
    fn greatest(&self) -> i16
        ensures { result ≡ greatest (all_columns self.now.size) self.now.heights.now }
    {
        let mut top = i16::MIN;
        for height in self.heights {
            top = top.max(*height);
        }
        top
    }
}

/// The last column along a side.
fn last(side: u32) -> i32
    requires { side ≤ unsigned_abs LONGEST_SIDE }
    ensures { result ≡ last_column side }
{
    side as i32 - 1
}

/// A sheet of columns, each solid from its height down without end.
#[derive(Clone, Copy)]
pub struct Surface<'a> {
    sheet: Sheet<'a>,
    top: i16,
    ghost top_is_greatest: { top ≡ greatest (all_columns sheet.size) sheet.heights.now },
}

impl<'a> Surface<'a> {
    ghost use Rattle.leaves.specs.Sheet.{sheet_of, top_of};

    /// The surface of a sheet. Its H is the greatest height.
    pub fn new(sheet: Sheet<'a>) -> Surface<'a>
        ensures body { ⟦<Surface<'a> as Solid>⟧.body result
            ≡ surface_body sheet.entry.size sheet.entry.heights.now }
        ensures sheet { sheet_of result ≡ sheet.entry }
        ensures top { top_of result
            ≡ greatest (all_columns sheet.entry.size) sheet.entry.heights.now }
    {
        let top = sheet.greatest();
        Surface { sheet, top }
    }

    /// Is the point a member: on the sheet, and no higher than the column there?
    fn in_column(&self, p: Point) -> bool
        ensures { result
            ≡ (surface_body self.now.sheet.size self.now.sheet.heights.now).member p }
    {
        let size = self.sheet.size;
        if !(0..=last(size.width)).contains(&p.x) {
            return false;
        }
        if !(0..=last(size.depth)).contains(&p.y) {
            return false;
        }
        let column = p.y as usize * size.width as usize + p.x as usize;
        p.z <= self.sheet.heights[column] as i32
    }

    /// How far the point lies off the block that bounds the columns.
    fn off_bounding_block(&self, p: LeafPoint) -> u32
        ensures { let size = self.now.sheet.size in
            result ≡ off_bounding_block (width_columns size) (depth_columns size) self.now.top p.at }
    {
        let x = outside(0, last(self.sheet.size.width), p.at.x);
        let y = outside(0, last(self.sheet.size.depth), p.at.y);
        let z = p.at.z - self.top as i32;
        x.max(y.max(z)).max(0) as u32
    }
}

/// What is no member has at least this clearance.
const LEAST_STRIDE: u32 = 1;

impl<'a> Solid for Surface<'a> {
    ghost body = { λ s. surface_body s.sheet.size s.sheet.heights.now };

    ghost lawful = { λ s. surface_lawful
        (width_columns s.sheet.size) (depth_columns s.sheet.size) s.sheet.heights.now };

    fn reach(&self) -> u32 {
        LEAF_REACH
    }

    fn clearance(&self, p: Point) -> Result<u32, QuestionFault> {
        let p = LeafPoint::new(p)?;
        if self.in_column(p.at) {
            return Ok(0);
        }
        Ok(self.off_bounding_block(p).max(LEAST_STRIDE))
    }
}
