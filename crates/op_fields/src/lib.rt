//! Numbers and counted bytes, big-endian, and the formats made of them.
#![tactic(auto)]

mod fail;
mod items;
mod laws;
mod put;
mod read;
mod take;

pub use fail::{Short, TakeFail};
pub use items::items_at;
pub use laws::{counted_bytes, counted_reads, number_reads, numbers};
pub use put::{put_counted, put_u8, put_u16, put_u32, put_u64};
pub use read::{bytes_after_u8, bytes_after_u16, bytes_after_u64, u8_in, u16_in, u32_in, u64_in};
pub use std::alloc::AllocError as NoMemory;
pub use take::{take_counted, take_u8, take_u16, take_u32, take_u64};
