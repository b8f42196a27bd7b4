//! The settings that are numbers.
ghost use Rattle.std.specs.Prelude.{◌≡◌, ◌≤◌, pos};
ghost use Rattle.toml.specs.View.{table_view};
ghost use Rattle.op_text.specs.Found.{IsFound};
ghost use Rattle.op_setup.specs.Settings.{HasNumber, SetsTickMs, SetsTrimEvery, SetsTurns};

use crate::config::{MOST_TICK_MS, MOST_TRIM_EVERY, MOST_TURNS};
use crate::toml_keys::values::integer_at;
use toml::Table;

/// The milliseconds between two ticks.
pub fn tick_ms(table: &Table) -> Option<u64>
    ensures { IsFound (SetsTickMs (table_view table.now)) result }
{
    number_at(table, "tick_ms", MOST_TICK_MS)
}

/// The turns of the serving loop.
pub fn turns(table: &Table) -> Option<u64>
    ensures { IsFound (SetsTurns (table_view table.now)) result }
{
    number_at(table, "turns", MOST_TURNS)
}

/// At how many untrimmed entries a leader trims by itself: never where the key is absent. None where what
/// stands there is no such number.
pub fn trim_every(table: &Table) -> Option<Option<u64>>
    ensures { IsFound (SetsTrimEvery (table_view table.now)) result }
{
    match table.get("trim_every") {
        Some(_) => match number_at(table, "trim_every", MOST_TRIM_EVERY) {
            Some(n) => Some(Some(n)),
            None => None,
        },
        None => Some(None),
    }
}

/// The number from 1 to `most` at a key.
fn number_at(table: &Table, key: &str, most: u64) -> Option<u64>
    ensures { IsFound (HasNumber (table_view table.now) key.now most) result }
{
    match integer_at(table, key) {
        Some(n) => in_range(n, most),
        None => None,
    }
}

/// The integer, if it is from 1 to `most`.
fn in_range(n: i64, most: u64) -> Option<u64>
    ensures { IsFound (λ m. (n ≡ pos m) × (1 ≤ m) × (m ≤ most)) result }
{
    if n < 1 {
        return None;
    }
    let n = n as u64;
    if n <= most { Some(n) } else { None }
}
