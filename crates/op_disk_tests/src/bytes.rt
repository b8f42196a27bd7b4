//! With ample memory what is read of bytes is written in them again: so a body that always answers want of
//! memory fails here. What the bytes of each format say is shown of its definition.

use std::alloc::Global;
use std::test::Fail;

/// The entry `put 7 1 a x`, and the request for it.
const ONE_PUT: [u8; 23] = [
    1, 0, 0, 0, 0, 0, 0, 0, 7, 0, 0, 0, 0, 0, 0, 0, 1, 1, 1, b'a', 0, 1, b'x',
];

/// The entry `many 7 1 del a`.
const ONE_MANY: [u8; 22] = [
    1, 0, 0, 0, 0, 0, 0, 0, 7, 0, 0, 0, 0, 0, 0, 0, 1, 5, 1, 2, 1, b'a',
];

/// The entry `forget 7 1 8`.
const ONE_FORGET: [u8; 26] = [
    1, 0, 0, 0, 0, 0, 0, 0, 7, 0, 0, 0, 0, 0, 0, 0, 1, 6, 0, 0, 0, 0, 0, 0, 0, 8,
];

/// The record of a batch that decides one entry.
const STEP: [u8; 11] = [2, 1, 5, 0, 0, 0, 0, 0, 0, 0, 1];

/// Whether an entry is read of these bytes, and written in them.
fn keeps_an_entry(alloc: Global, bytes: &[u8]) -> bool {
    match &op_entry::take(alloc, bytes) {
        Ok((entry, _)) => {
            let mut out = Vec::new(alloc);
            op_entry::put(&mut out, entry).is_ok() && out.as_slice() == bytes
        }
        Err(_) => false,
    }
}

/// The same of a record.
fn keeps_a_record(alloc: Global, bytes: &[u8]) -> bool {
    match &op_record::take(alloc, bytes) {
        Ok(record) => {
            let mut out = Vec::new(alloc);
            op_record::put(&mut out, record).is_ok() && out.as_slice() == bytes
        }
        Err(_) => false,
    }
}

#[test]
fn what_is_read_is_written_again(rt: HostRuntime) -> Result<(), Fail> {
    let entries: [&[u8]; 3] = [&ONE_PUT, &ONE_MANY, &ONE_FORGET];
    for entry in entries {
        assert!(rt; keeps_an_entry(rt.alloc(), entry));
    }
    assert!(rt; keeps_a_record(rt.alloc(), &STEP));
    Ok(())
}
