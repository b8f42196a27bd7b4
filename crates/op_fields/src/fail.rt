ghost use Rattle.std.specs.Prelude.{◌≡◌};
ghost use Rattle.op_fields.specs.declared.fail.TakeFail.TheVariants as fails;

use std::alloc::{AllocError as NoMemory, AllocFailed};

/// Too few bytes remain for the field at byte offset `at`.
#[derive(Clone, Copy, Debug, PartialEq, Eq)]
pub struct Short {
    /// The field's byte offset.
    pub at: usize,
}

/// Why no value was read.
#[derive(Clone, Copy, Debug, PartialEq, Eq)]
pub enum TakeFail {
    /// The first field, from the left, that is short or out of range begins at byte offset `at`.
    Bad { at: usize },
    /// There was no memory for the value.
    NoMemory,
}

impl From<Short> for TakeFail {
    ghost from_gives = { λ s e. e ≡ fails.Bad s.at };

    fn from(short: Short) -> TakeFail {
        TakeFail::Bad { at: short.at }
    }
}

impl From<NoMemory> for TakeFail {
    ghost from_gives = { λ _ e. e ≡ fails.NoMemory };

    fn from(_e: NoMemory) -> TakeFail {
        TakeFail::NoMemory
    }
}

impl<T: Drop> From<AllocFailed<T>> for TakeFail {
    ghost from_gives = { λ _ e. e ≡ fails.NoMemory };

    fn from(_e: AllocFailed<T>) -> TakeFail {
        TakeFail::NoMemory
    }
}
