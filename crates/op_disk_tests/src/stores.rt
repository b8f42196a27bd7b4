//! Stores over disks in memory: what an opening finds, and what it leaves.
ghost use Rattle.op_record.specs.Ranges.{DurableInRange};

use crate::areas::{Pair, Parts};
use op_memory::MemDisk;
use op_store::{Returned, Store, StoreFail};
use op_types::Durable;
use std::alloc::{AllocError, Global};

/// What an opening finds.
#[derive(Clone, Copy, PartialEq, Eq)]
pub enum Finds {
    /// No area: the first one is begun.
    Nothing,
    /// The fresh state, which an opening before began.
    Fresh,
    /// A member's part, of which so many entries are decided.
    Decided(u64),
    /// It is refused.
    Refused(StoreFail),
}

/// A disk with these parts.
fn disk(alloc: Global, parts: Parts) -> Result<MemDisk, AllocError> {
    let mut bytes = Vec::new(alloc);
    for part in parts {
        bytes.extend_from_slice(part)?;
    }
    MemDisk::new(alloc, bytes)
}

/// Two disks with these parts.
pub fn disks(alloc: Global, pair: &Pair) -> Result<(MemDisk, MemDisk), AllocError> {
    Ok((disk(alloc, pair.0)?, disk(alloc, pair.1)?))
}

/// What a store is begun with: there is no part.
fn fresh() -> Durable
    ensures { DurableInRange result }
{
    Durable {
        part: None,
        closed: None,
        joining: None,
    }
}

/// What was found.
fn found(durable: &Durable, is_new: bool) -> Finds {
    match &durable.part {
        Some(part) => Finds::Decided(part.decided),
        None if is_new => Finds::Nothing,
        None => Finds::Fresh,
    }
}

/// What an opening of these disks finds, and the disks then.
pub fn opened(alloc: Global, disks: (MemDisk, MemDisk)) -> (Finds, MemDisk, MemDisk) {
    match Store::open(alloc, fresh(), disks.0, disks.1) {
        Ok((store, durable, is_new)) => {
            let (first, second) = store.into_disks();
            (found(&durable, is_new), first, second)
        }
        Err(returned) => {
            let Returned {
                cause,
                first,
                second,
            } = returned;
            (Finds::Refused(cause), first, second)
        }
    }
}

/// Whether a disk has these parts, one after the other.
pub fn has(disk: &MemDisk, parts: Parts) -> bool {
    let mut at = 0;
    for part in parts {
        if !disk.bytes().get(at..).unwrap_or(&[]).starts_with(part) {
            return false;
        }
        at = part.len().saturating_add(at);
    }
    disk.bytes().len() == at
}
