//! The value at a key, by its type.
ghost use Rattle.std.specs.Prelude.{◌≡◌, option_map, option_and_then};
ghost use Rattle.toml.specs.Data.{as_integer, as_array, as_table, get_member};
ghost use Rattle.toml.specs.View.{array_view, table_view};

use toml::Table;
use toml::value::Array;

/// The integer at a key.
pub fn integer_at(table: &Table, key: &str) -> Option<i64>
    ensures { result ≡ option_and_then as_integer (get_member key.now (table_view table.now)) }
{
    match table.get(key) {
        Some(value) => value.as_integer(),
        None => None,
    }
}

/// The array at a key.
pub fn array_at<'a>(table: &'a Table, key: &str) -> Option<&'a Array>
    ensures { option_map (λ a. array_view a.now) result
        ≡ option_and_then as_array (get_member key.now (table_view table.now)) }
{
    match table.get(key) {
        Some(value) => value.as_array(),
        None => None,
    }
}

/// The table at a key.
pub fn table_at<'a>(table: &'a Table, key: &str) -> Option<&'a Table>
    ensures { option_map (λ t. table_view t.now) result
        ≡ option_and_then as_table (get_member key.now (table_view table.now)) }
{
    match table.get(key) {
        Some(value) => value.as_table(),
        None => None,
    }
}
