//! Whether the disks are mirrored.
ghost use Rattle.toml.specs.View.{table_view};
ghost use Rattle.op_text.specs.Found.{IsFound};
ghost use Rattle.op_setup.specs.Settings.{SetsMirror};

use toml::Table;

/// Whether the disks are mirrored: they aren't where the key is absent.
pub fn is_mirrored(table: &Table) -> Option<bool>
    ensures { IsFound (SetsMirror (table_view table.now)) result }
{
    match table.get("mirror") {
        Some(value) => value.as_bool(),
        None => Some(false),
    }
}
