//! Checks: worked numbers, calls that are chained, and piles with every layer.
#![tactic(auto)]

ghost use Rattle.std.specs.Prelude.{◌≡◌, length};
ghost use Rattle.checks.specs.Worked.{table, Worked};

pub mod chained;
pub mod empty;
#[cfg(test)]
mod logs;
#[cfg(test)]
mod pictures;
pub mod pile;
#[cfg(test)]
mod reach;
#[cfg(test)]
mod shifts;
#[cfg(test)]
mod views;

/// How many worked numbers stand in the table.
const ROWS: usize = 13;

/// How many worked numbers stand in the table; all of them are what the definitions give.
pub fn worked_numbers() -> usize
    ensures count { result ≡ length table }
    ensures right { Worked }
{
    ROWS
}
