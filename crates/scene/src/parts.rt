//! The parts of a scene: the bodies that the unions at its top unite.
ghost use Rattle.std.specs.Prelude.{◌≡◌, ℕ, ◌*◌, ◌+◌, ◌<◌, ◌≤◌, min, slice_index_or, IsTrue, take};
ghost use Rattle.std.specs.List.Sorted.{IsPermutation};
ghost use Rattle.lattice.specs.Space.{In};
ghost use Rattle.scene.specs.declared.table.TheConstants.{MOST_NODES};
ghost use Rattle.scene.specs.Standing.{has_one};
ghost use Rattle.scene.specs.Tables.{body_at, bodies_of, table_body, ArePartsOf, AreBoundsOf};

use crate::bound::Bound;
use crate::search::Search;
use crate::stack::Stack;
use crate::table::{MOST_NODES, Table};
use leaves::LeafPoint;

/// A part: the body that stands last once the first `end` nodes of the table are laid down.
#[derive(Clone, Copy)]
pub struct Part {
    pub(crate) end: u16,
    /// The number of the cell in which it lies, by which parts are sorted.
    pub(crate) cell_number: u32,
}

/// So many parts make a group.
pub const GROUP: usize = 8;

/// How many groups the most parts make.
const MOST_GROUPS: usize = MOST_NODES / GROUP;

/// The parts of a scene, each beside near ones, and a bound about each group of them. Of a group
/// that lies too far no part is asked.
#[derive(Clone, Copy)]
pub struct Parts {
    row: Stack<Part, MOST_NODES>,
    bounds: [Bound; MOST_GROUPS],
    ghost count_in_range: { row.height ≤ MOST_NODES },
}

impl Parts {
    /// The parts of the body that stands last in a table.
    pub(crate) fn of(table: &Table) -> Parts
        requires { IsTrue (has_one (bodies_of table.now)) }
        ensures parts { ArePartsOf table.now result.row }
        ensures bounds { AreBoundsOf table.now result.row result.bounds }
    {
        let mut row = Search::parts_of(table);
        arrange(&mut row);
        let bounds = bounds_of(table, &row);
        Parts { row, bounds }
    }

    /// The clearance of the whole, or `most` where that is smaller.
    pub(crate) fn ask(&self, table: &Table, p: LeafPoint, most: u32) -> u32
        requires parts { ArePartsOf table.now self.now.row }
        requires bounds { AreBoundsOf table.now self.now.row self.now.bounds }
        requires near { In (table_body table.now).reach p.at }
        ensures { result ≡ min most ((table_body table.now).clear p.at) }
    {
        let mut clear = most;
        for group in 0..self.row.height.div_ceil(GROUP) {
            if self.bounds[group].off(p) < clear {
                clear = self.ask_group(table, group, p, clear);
            }
        }
        clear
    }

    /// The smallest clearance of the parts of a group, or `most` where that is smaller.
    #[inline(always)]
    fn ask_group(&self, table: &Table, group: usize, p: LeafPoint, most: u32) -> u32
        requires room { group * GROUP ≤ self.now.row.height }
        requires parts { ArePartsOf table.now self.now.row }
        requires near { In (table_body table.now).reach p.at }
        ensures most { result ≤ most }
        ensures whole { min most ((table_body table.now).clear p.at) ≤ result }
        ensures each { (i : ℕ) (d : Part) → group * GROUP ≤ i →
            i < group * GROUP + GROUP → i < self.now.row.height →
            result ≤ (body_at table.now (slice_index_or self.now.row.items i d).end).clear p.at }
    {
        let first = group * GROUP;
        let mut clear = most;
        for i in first..(first + GROUP).min(self.row.height) {
            clear = table.ask_part(self.row.items[i].end as usize, p, clear);
        }
        clear
    }
}

/// Brings parts that lie near one another together.
fn arrange(row: &mut Stack<Part, MOST_NODES>)
    requires { row.old.height ≤ MOST_NODES }
    ensures count { row.new.height ≡ row.old.height }
    ensures parts { IsPermutation (take row.old.height row.old.items)
        (take row.old.height row.new.items) }
{
    let count = row.height;
    row.items[..count].sort_unstable_by_key(|part| part.cell_number);
}

/// A bound about each group of a row of parts.
fn bounds_of(table: &Table, row: &Stack<Part, MOST_NODES>) -> [Bound; MOST_GROUPS]
    requires room { row.now.height ≤ MOST_NODES }
    requires parts { ArePartsOf table.now row.now }
    ensures { AreBoundsOf table.now row.now result }
{
    let mut bounds = [Bound::nothing(); MOST_GROUPS];
    for i in 0..row.height {
        let bound = table.bound_of(row.items[i].end as usize);
        bounds[i / GROUP] = bounds[i / GROUP].with(bound);
    }
    bounds
}
