//! How large values are let go: each by one call. Where a function lets one go by itself, its proof has the
//! drop of each part of it anew, at each exit.
ghost use Rattle.std.specs.Prelude.{◌≡◌};

use op_types::NoMemory;

/// Lets go of a value.
pub fn let_go<T: Drop>(_value: T) {}

/// Lets go of what is held, since no memory was found.
pub fn starved<T: Drop>(_held: T) -> NoMemory {
    NoMemory
}

/// Puts a value in the place of another one, which is let go.
pub fn put<T: Drop>(place: &mut T, value: T)
    ensures { place.new ≡ value }
{
    *place = value;
}
