//! Entries that stand in two lists, as those of one.
ghost use Rattle.std.specs.Prelude.{◌≡◌, ◌++◌, All, OnOk, OnErr};
ghost use Rattle.std.specs.List.{flat_map};
ghost use Rattle.op_fields.specs.Prefixes.{KeepsPrefix};
ghost use Rattle.op_types.specs.Ranges.{EntriesInRange, EntryInRange};
ghost use Rattle.op_types.specs.Limits.{positions_end};
ghost use Rattle.op_entry.specs.Forms.{entry, entries};

use op_entry::put;
use op_fields::{NoMemory, put_u64};
use op_types::Entry;

/// Appends entries, and others behind them, after the count of all. Without memory a part of them may be
/// appended.
#[tactic(auto, using(op_fields::proofs::Prefixes::kept_through))]
pub fn put_joined(out: &mut Vec<u8>, first: &[Entry], second: &[Entry]) -> Result<(), NoMemory>
    requires { EntriesInRange positions_end (first.now ++ second.now) }
    ensures ok { OnOk result (out.new.items ≡ out.old.items ++ entries.text (first.now ++ second.now)) }
    ensures err { OnErr result (KeepsPrefix out.old.items out.new.items) }
{
    put_u64(out, (first.len() + second.len()) as u64)?;
    put_each(out, first)?;
    put_each(out, second)
}

/// Appends entries without their count. Without memory a part of them may be appended.
fn put_each(out: &mut Vec<u8>, es: &[Entry]) -> Result<(), NoMemory>
    requires { All EntryInRange es.now }
    ensures ok { OnOk result (out.new.items ≡ out.old.items ++ flat_map entry.text es.now) }
    ensures err { OnErr result (KeepsPrefix out.old.items out.new.items) }
{
    'entries: for e in es {
        put(out, e)?;
    }
    Ok(())
}
