//! What the words of the command line ask, and what a text of settings sets.
#![tactic(auto)]

mod addresses;
mod arguments;
mod cluster_name;
mod commands;
mod config;
mod config_cause;
mod fail;
mod identity;
mod laws;
mod member_ids;
mod operations;
mod reading;
mod requests;
mod settings_fail;
mod tasks;
mod toml_keys;

pub use addresses::addr;
pub use cluster_name::{ClusterName, MOST_NAME_BYTES};
pub use config::{KEYS, MOST_PEERS, MOST_TICK_MS, MOST_TURNS, Peers, Settings};
pub use config_cause::ConfigCause;
pub use fail::TaskFail;
pub use identity::{BEGUN_LINE, Identity, identity_of, identity_text};
pub use laws::{identities_are_unambiguous, settings_are_unambiguous, words_are_unambiguous};
pub use reading::task;
pub use settings_fail::SettingsFail;
pub use tasks::{MOST_EVENTS, MOST_ROUNDS, Task};
pub use toml_keys::settings;
