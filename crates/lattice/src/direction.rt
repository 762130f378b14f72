//! The directions of the lattice, as a table.
ghost use Rattle.std.specs.Prelude.{◌≡◌, ℕ, ◌+◌, ◌<◌, ◌≤◌, ◌≢◌, unsigned_abs, Some};
ghost use Rattle.std.specs.Result.{result_map_both};
ghost use Rattle.refusal.specs.Texts.{refusal_text};

use refusal::{Refusal, RefusalCode, Rule};
use std::fmt;

/// A way to one of a point's 26 neighbours.
#[derive(Clone, Copy)]
pub struct Direction {
    pub x: i32,
    pub y: i32,
    pub z: i32,
    ghost x_in_range: { unsigned_abs x ≤ 1 },
    ghost y_in_range: { unsigned_abs y ≤ 1 },
    ghost z_in_range: { unsigned_abs z ≤ 1 },
    ghost moves: { 1 ≤ unsigned_abs x + unsigned_abs y + unsigned_abs z },
}

/// How many rows the table of directions has.
const ROWS: usize = 27;

/// Row 9a + 3b + c, with a, b and c in 0..2, is (a - 1, b - 1, c - 1).
const DIRECTIONS: [(i32, i32, i32); ROWS] = [
    (-1, -1, -1),
    (-1, -1, 0),
    (-1, -1, 1),
    (-1, 0, -1),
    (-1, 0, 0),
    (-1, 0, 1),
    (-1, 1, -1),
    (-1, 1, 0),
    (-1, 1, 1),
    (0, -1, -1),
    (0, -1, 0),
    (0, -1, 1),
    (0, 0, -1),
    (0, 0, 0),
    (0, 0, 1),
    (0, 1, -1),
    (0, 1, 0),
    (0, 1, 1),
    (1, -1, -1),
    (1, -1, 0),
    (1, -1, 1),
    (1, 0, -1),
    (1, 0, 0),
    (1, 0, 1),
    (1, 1, -1),
    (1, 1, 0),
    (1, 1, 1),
];

/// The row that does not move.
const STILL: usize = 13;

impl Direction {
    ghost use Rattle.lattice.specs.declared.direction.TheConstants.{ROWS, STILL};
    ghost use Rattle.lattice.specs.Rows.{triple, way, row_answer, TableRule};

    fn triple(k: usize) -> (i32, i32, i32)
        requires { k < ROWS }
        ensures { result ≡ triple k }
    {
        DIRECTIONS[k]
    }

    fn way(k: usize) -> Direction
        requires { (k < ROWS) × (k ≢ STILL) }
        ensures { way result ≡ triple k }
    {
        let (x, y, z) = Direction::triple(k);
        Direction { x, y, z }
    }

    /// The direction of the row that the number at this place names. Refused, with 5 at that place,
    /// outside 0..=26, and at 13, which does not move.
    pub fn of_row(n: i32, place: u32) -> Result<Direction, NoRow>
        ensures value { result_map_both way (λ e. e) result ≡ row_answer n place }
        ensures rule { TableRule }
    {
        match usize::try_from(n) {
            Ok(k) if k < DIRECTIONS.len() && k != STILL => Ok(Direction::way(k)),
            _ => Err(NoRow { place }),
        }
    }
}

/// Why a number is refused: 5, at its place.
#[derive(Clone, Copy, PartialEq, Eq, Debug)]
pub struct NoRow {
    pub place: u32,
}

impl Refusal for NoRow {
    ghost use Rattle.lattice.specs.Rows.{row_code};

    ghost code = { row_code };

    fn number(&self) -> u32 {
        Rule::Row.number()
    }

    fn place(&self) -> u32 {
        self.place
    }
}

impl fmt::Display for NoRow {
    ghost use Rattle.lattice.specs.Rows.{row_code};

    ghost output = { λ fault. Some (refusal_text (row_code fault)) };

    fn fmt<W: fmt::Write>(&self, f: &mut fmt::Formatter<W>) -> fmt::Result {
        RefusalCode::of(self).fmt(f)
    }
}
