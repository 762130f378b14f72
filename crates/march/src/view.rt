//! A view: where the rays of a picture start, and where they go.
ghost use Rattle.std.specs.Prelude.{◌≡◌, ◌*◌, ◌<◌, ◌≤◌, unsigned_abs};
ghost use Rattle.std.specs.Result.{result_map_both};
ghost use Rattle.lattice.specs.declared.TheConstants.{LEAST_COORDINATE};
ghost use Rattle.march.specs.declared.view.TheConstants.{MOST_SIDE, MOST_FAR};

use crate::along::along;
use crate::fault::{PixelFault, ViewFault};
use crate::ray::Ray;
use lattice::{Direction, LEAST_COORDINATE, MOST_COORDINATE, Point};
use refusal::{count_in, in_range};

/// The fewest pixels of a side of a picture.
pub const LEAST_SIDE: i32 = 1;

/// The most pixels of a side.
pub const MOST_SIDE: i32 = 64;

/// The farthest that a ray goes.
pub const MOST_FAR: i32 = 4095;

/// The most pixels that a view has.
pub const MOST_PIXELS: usize = 4096;

/// The places of a view's numbers, as a job has them: the origin's three parts come first.
const ORIGIN_PLACE: u32 = 1;

const RAY_PLACE: u32 = 4;

const ACROSS_PLACE: u32 = 5;

const DOWN_PLACE: u32 = 6;

const WIDTH_PLACE: u32 = 7;

const HEIGHT_PLACE: u32 = 8;

const FAR_PLACE: u32 = 9;

/// The numbers of a view, as a job has them; any numbers at all.
#[derive(Clone, Copy)]
pub struct ViewNumbers {
    pub origin: Point,
    /// Rows of the table of directions.
    pub ray: i32,
    pub across: i32,
    pub down: i32,
    pub width: i32,
    pub height: i32,
    pub far: i32,
}

impl ViewNumbers {
    ghost use Rattle.march.specs.Checks.{coordinate_answer, origin_answer, sizes_answer};
    ghost use Rattle.march.specs.Checks.{three_ways, ways_answer};

    /// A part of the origin.
    #[tactic(auto, unfolding(crate::specs::Checks::coordinate_answer))]
    fn coordinate(n: i32, place: u32) -> Result<i32, ViewFault>
        ensures { result ≡ coordinate_answer n place }
    {
        Ok(in_range(n, LEAST_COORDINATE, MOST_COORDINATE, place)?)
    }

    /// The origin, whose parts stand at places 1 to 3.
    #[tactic(auto, unfolding(crate::specs::Checks::origin_answer))]
    fn origin(self) -> Result<Point, ViewFault>
        ensures { result ≡ origin_answer self }
    {
        let x = ViewNumbers::coordinate(self.origin.x, ORIGIN_PLACE)?;
        let y = ViewNumbers::coordinate(self.origin.y, ORIGIN_PLACE + 1)?;
        let z = ViewNumbers::coordinate(self.origin.z, ORIGIN_PLACE + 2)?;
        Ok(Point { x, y, z })
    }

    /// The directions of the three rows.
    #[tactic(auto, unfolding(crate::specs::Checks::ways_answer))]
    fn directions(self) -> Result<(Direction, Direction, Direction), ViewFault>
        ensures { result_map_both three_ways (λ f. f) result ≡ ways_answer self }
    {
        let ray = Direction::of_row(self.ray, RAY_PLACE)?;
        let across = Direction::of_row(self.across, ACROSS_PLACE)?;
        let down = Direction::of_row(self.down, DOWN_PLACE)?;
        Ok((ray, across, down))
    }

    /// The width, the height and the far.
    #[tactic(auto, unfolding(crate::specs::Checks::sizes_answer))]
    fn sizes(self) -> Result<(u32, u32, u32), ViewFault>
        ensures { result ≡ sizes_answer self }
    {
        let width = count_in(self.width, LEAST_SIDE, MOST_SIDE, WIDTH_PLACE)?;
        let height = count_in(self.height, LEAST_SIDE, MOST_SIDE, HEIGHT_PLACE)?;
        let far = count_in(self.far, 0, MOST_FAR, FAR_PLACE)?;
        Ok((width, height, far))
    }
}

/// A view whose numbers are in range, or the blank one: no other is made. Pixel (i, j) starts at
/// origin + i across + j down; its ray is the points start + t ray, for t = 0..far. Every such
/// point lies in the working range.
#[derive(Clone, Copy)]
pub struct View {
    origin: Point,
    ray: Direction,
    across: Direction,
    down: Direction,
    width: u32,
    height: u32,
    far: u32,
    ghost x_in_range: { unsigned_abs origin.x ≤ unsigned_abs LEAST_COORDINATE },
    ghost y_in_range: { unsigned_abs origin.y ≤ unsigned_abs LEAST_COORDINATE },
    ghost z_in_range: { unsigned_abs origin.z ≤ unsigned_abs LEAST_COORDINATE },
    ghost width_in_range: { width ≤ unsigned_abs MOST_SIDE },
    ghost height_in_range: { height ≤ unsigned_abs MOST_SIDE },
    ghost far_in_range: { far ≤ unsigned_abs MOST_FAR },
}

impl View {
    ghost use Rattle.march.specs.Checks.{view_answer, plain_view, plain_view_in, blank_view};
    ghost use Rattle.march.specs.View.{start, has_pixel, place_answer};
    ghost use Rattle.march.specs.View.{ray_parts_in, ray_parts_answer};

    /// The view of these numbers, or the first fault among them.
    pub fn new(numbers: ViewNumbers) -> Result<View, ViewFault>
        ensures { plain_view_in result ≡ view_answer numbers }
    {
        let origin = numbers.origin()?;
        let (ray, across, down) = numbers.directions()?;
        let (width, height, far) = numbers.sizes()?;
        Ok(View {
            origin,
            ray,
            across,
            down,
            width,
            height,
            far,
        })
    }

    /// The view of no pixels, which no numbers give: its width, height and far are 0.
    pub fn blank() -> View
        ensures { plain_view result ≡ blank_view }
    {
        View {
            origin: Point { x: 0, y: 0, z: 0 },
            ray: Direction { x: 0, y: 0, z: 1 },
            across: Direction { x: 1, y: 0, z: 0 },
            down: Direction { x: 0, y: 1, z: 0 },
            width: 0,
            height: 0,
            far: 0,
        }
    }

    /// How many pixels a row has.
    pub fn width(&self) -> u32
        ensures { result ≡ (plain_view self.now).width }
    {
        self.width
    }

    /// How many rows of pixels it has.
    pub fn height(&self) -> u32
        ensures { result ≡ (plain_view self.now).height }
    {
        self.height
    }

    /// How far its rays go.
    pub fn far(&self) -> u32
        ensures { result ≡ (plain_view self.now).far }
    {
        self.far
    }

    /// How many pixels the view has.
    pub fn pixels(&self) -> usize
        ensures { result ≡ (plain_view self.now).width * (plain_view self.now).height }
    {
        self.width as usize * self.height as usize
    }

    /// Has the view a pixel (i, j)?
    fn has(&self, i: u32, j: u32) -> bool
        ensures { result ≡ has_pixel self.now i j }
    {
        i < self.width && j < self.height
    }

    /// The place of pixel (i, j), row by row; refused, with 19, where the view has no such pixel.
    pub fn place_of(&self, i: u32, j: u32) -> Result<usize, PixelFault>
        ensures { result ≡ place_answer self.now i j }
    {
        if !self.has(i, j) {
            return Err(PixelFault::NoPixel);
        }
        Ok(j as usize * self.width as usize + i as usize)
    }

    /// Where the ray of pixel (i, j) starts.
    fn start_of(&self, i: u32, j: u32) -> Point
        requires { (i < self.now.width) × (j < self.now.height) }
        ensures { result ≡ start self.now i j }
    {
        along(along(self.origin, i, self.across), j, self.down)
    }

    /// The ray of pixel (i, j); refused, with 19, where the view has no such pixel.
    pub fn ray_of(&self, i: u32, j: u32) -> Result<Ray, PixelFault>
        ensures { ray_parts_in result ≡ ray_parts_answer self.now i j }
    {
        if !self.has(i, j) {
            return Err(PixelFault::NoPixel);
        }
        Ok(Ray {
            start: self.start_of(i, j),
            toward: self.ray,
            far: self.far,
        })
    }
}
