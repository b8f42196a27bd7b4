//! The base of what a step trims.
ghost use Rattle.std.specs.Prelude.{◌≡◌, Some, IfOk, OnOk, IfSome};
ghost use Rattle.op_spec.specs.Service.{base_bytes};
ghost use Rattle.op_kv.specs.Bases.{IsBase};
ghost use Rattle.op_protocol.specs.Bases.{service_at};
ghost use Rattle.op_protocol.specs.Rows.{based, based_batch};
ghost use Rattle.op_chain.specs.Trimming.{is_trim, trims};

use op_deciding::service_at;
use op_types::{Batch, Blob, Change, NoMemory, Part};
use std::alloc::Global;
use std::mem;

/// Gives a batch the bases of what it trims of a part. One that trims nothing is left as it is.
pub(crate) fn add_bases(
    alloc: Global,
    part: &Option<Part>,
    batch: &mut Batch,
) -> Result<(), NoMemory>
    requires { IfSome part.now (λ p. IsBase p.base) }
    ensures { OnOk result (batch.new ≡ based_batch part.now batch.old) }
{
    if let Some(part) = part {
        if trims(batch.as_slice()) {
            *batch = based(alloc, part, mem::replace(batch, Batch::new(alloc)))?;
        }
    }
    Ok(())
}

/// Whether a batch trims something.
fn trims(batch: &[Change]) -> bool
    ensures { result ≡ trims batch.now }
{
    match batch {
        [] => false,
        [first, rest @ ..] => is_trim(first) || trims(rest),
    }
}

/// Whether a change trims something.
fn is_trim(change: &Change) -> bool
    ensures { result ≡ is_trim change.now }
{
    match change {
        Change::Trim(_, _) => true,
        _ => false,
    }
}

/// A batch with the base of what it trims.
#[inline(never)]
fn based(alloc: Global, part: &Part, batch: Batch) -> Result<Batch, NoMemory>
    requires { IsBase part.now.base }
    ensures { IfOk result (λ b. b ≡ based_batch (Some part.now) batch) }
{
    let mut all = Batch::new(alloc);
    'changes: for change in batch.into_vec() {
        all.push(with_base(alloc, part, change)?)?;
    }
    Ok(all)
}

/// A change, with the base of what it trims.
fn with_base(alloc: Global, part: &Part, change: Change) -> Result<Change, NoMemory>
    requires { IsBase part.now.base }
    ensures { IfOk result (λ c. c ≡ based part.now change) }
{
    match change {
        Change::Trim(at, _) => Ok(Change::Trim(at, base_at(alloc, part, at)?)),
        change => Ok(change),
    }
}

/// The service's state at a position of a part's log that isn't trimmed, as bytes.
fn base_at(alloc: Global, part: &Part, at: u64) -> Result<Blob, NoMemory>
    requires { IsBase part.now.base }
    ensures { IfOk result (λ bytes. bytes ≡ base_bytes (service_at part.now at)) }
{
    service_at(alloc, part, at)?.base_bytes(alloc)
}
