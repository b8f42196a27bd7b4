//! The members of the first configuration.
ghost use Rattle.std.specs.Prelude.{◌≡◌, ◌≤◌, ◌<◌, map, pos, IfOk};
ghost use Rattle.toml.specs.Data.{integer};
ghost use Rattle.toml.specs.View.{table_view, view};
ghost use Rattle.op_types.specs.Limits.{greatest_pid};
ghost use Rattle.op_types.specs.Ranges.{MembersInRange};
ghost use Rattle.op_text.specs.Found.{IsFound};
ghost use Rattle.op_setup.specs.Settings.{SetsMembers, id_data};

use crate::toml_keys::values::array_at;
use op_types::{GREATEST_PID, MOST_MEMBERS, Members, NoMemory, Pid};
use toml::{Table, Value};

/// The members of the first configuration.
pub fn members(table: &Table) -> Result<Option<Members>, NoMemory>
    ensures { IfOk result (IsFound (SetsMembers (table_view table.now))) }
{
    match array_at(table, "members") {
        Some(values) => rising_ids(values.as_slice()),
        None => Ok(None),
    }
}

/// The ids of these values, if they are the members of some configuration.
fn rising_ids(values: &[Value]) -> Result<Option<Members>, NoMemory>
    ensures { IfOk result (IsFound (λ ids. (map view values.now ≡ map id_data ids) × MembersInRange ids)) }
{
    if values.is_empty() || values.len() > MOST_MEMBERS {
        return Ok(None);
    }
    let mut ids = Members::new();
    let mut last = 0;
    for value in values {
        let Some(id) = id_above(last, value) else {
            return Ok(None);
        };
        ids.push(id)?;
        last = id;
    }
    Ok(Some(ids))
}

/// The id of a value, if it is greater than `low`.
pub fn id_above(low: Pid, value: &Value) -> Option<Pid>
    ensures { IsFound (λ id. (view value.now ≡ integer (pos id)) × (low < id) × (id ≤ greatest_pid)) result }
{
    let n = value.as_integer()?;
    if n <= i64::from(low) || n > i64::from(GREATEST_PID) {
        return None;
    }
    Some(n as Pid)
}
