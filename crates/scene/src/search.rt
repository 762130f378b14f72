//! How the parts of a scene are found.
ghost use Rattle.std.specs.Prelude.{◌≡◌, ◌-◌, ◌≤◌, false, true, replicate, slice_set, IsTrue};
ghost use Rattle.scene.specs.Standing.{has_one};
ghost use Rattle.scene.specs.Tables.{table_count, bodies_of, ArePartsOf};

use crate::parts::Part;
use crate::stack::Stack;
use crate::table::{MOST_NODES, Table};

/// A table has so many ends, one before its first node.
const MOST_ENDS: usize = MOST_NODES + 1;

/// A search for the parts: those that are found, and at which ends of the table the body that
/// stands last is still to be looked at.
#[derive(Drop)]
pub(crate) struct Search {
    open_ends: [bool; MOST_ENDS],
    row: Stack<Part, MOST_NODES>,
}

impl Search {
    ghost use Rattle.scene.specs.Searches.{IsSearchOf};

    /// A search of which nothing is found, and so many nodes' end is open.
    fn new(count: usize) -> Search
        requires { count ≤ MOST_NODES }
        ensures opened { result.open_ends ≡ slice_set (replicate MOST_ENDS false) count true }
        ensures none { result.row.height ≡ 0 }
    {
        let mut open_ends = [false; MOST_ENDS];
        open_ends[count] = true;
        Search {
            open_ends,
            row: Stack::new(Part {
                end: 0,
                cell_number: 0,
            }),
        }
    }

    /// The parts of the body that stands last in a table.
    pub(crate) fn parts_of(table: &Table) -> Stack<Part, MOST_NODES>
        requires { IsTrue (has_one (bodies_of table.now)) }
        ensures room { result.height ≤ MOST_NODES }
        ensures parts { ArePartsOf table.now result }
    {
        let count = table.count();
        let mut search = Search::new(count);
        for k in (0..count).rev() {
            search.look(table, k + 1);
        }
        search.row
    }

    /// Looks at the body that stands last at an end: it is a part, or what it unites is open.
    fn look(&mut self, table: &Table, end: usize)
        requires laid { (1 ≤ end) × (end ≤ table_count table.now) }
        requires search { IsSearchOf table.now self.old end }
        ensures { IsSearchOf table.now self.new (end - 1) }
    {
        if !self.open_ends[end] {
            return;
        }
        match table.united_at(end) {
            Some(left) => {
                self.open_ends[end - 1] = true;
                self.open_ends[left] = true;
            }
            None => self.row.push(Part {
                end: end as u16,
                cell_number: table.bound_of(end).cell_number(),
            }),
        }
    }
}
