//! Why a text gives no settings.
ghost use Rattle.std.specs.Prelude.{◌≡◌};
ghost use Rattle.op_setup.specs.declared.settings_fail.SettingsFail.TheVariants.{NoMemory as Starved};

use crate::config_cause::ConfigCause;
use op_types::NoMemory;

/// Why a text gives no settings.
#[derive(Clone, Copy, Debug, PartialEq, Eq)]
pub enum SettingsFail {
    /// The text is wrong; the cause is the first that applies.
    BadConfig {
        /// What is wrong with it.
        cause: ConfigCause,
    },
    /// The allocator has no memory.
    NoMemory,
}

impl From<NoMemory> for SettingsFail {
    ghost from_gives = { λ _ fail. fail ≡ Starved };

    fn from(_error: NoMemory) -> SettingsFail {
        SettingsFail::NoMemory
    }
}
