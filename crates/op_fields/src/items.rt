ghost use Rattle.std.specs.Prelude.{ℕ, List};
ghost use Rattle.op_fields.specs.Form.{items_read};
ghost use Rattle.op_fields.specs.Taken.{GivesVec};
ghost use Rattle.op_fields.specs.Items.{Reader, ReadsItems, read_by};

use crate::fail::TakeFail;
use std::alloc::Global;

/// So many items from byte offset `first` on, and the offset after them. `item` reads the one at an offset,
/// by the key of the one before it (0 for the first), and gives it, its own key, and the offset after it.
pub fn items_at<T: Drop, F: Fn(usize, u64) -> Result<(T, u64, usize), TakeFail>>(
    alloc: Global,
    count: u64,
    first: usize,
    item: F,
) -> Result<(Vec<T>, usize), TakeFail>
    requires { F.IsAlwaysCallable item }
    ensures { (read : Reader T) (key : T → ℕ) (bytes : List ℕ) → ReadsItems (F.post item) read key bytes →
        GivesVec result (items_read (read_by read) key count 0 bytes first) }
{
    let mut items = Vec::new(alloc);
    let mut low = 0;
    let mut at = first;
    'items: for _ in 0..count {
        let (value, own, next) = item(at, low)?;
        items.push(value)?;
        low = own;
        at = next;
    }
    Ok((items, at))
}
