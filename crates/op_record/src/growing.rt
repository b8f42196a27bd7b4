//! The body of the record of several steps, which grows by the changes of one after the other.
ghost use Rattle.std.specs.Prelude.{◌≡◌, ◌≤◌, ◌<◌, ◌+◌, ◌++◌, ℕ, List, [], length, All, OnOk, OnErr};
ghost use Rattle.std.specs.List.{flat_map};
ghost use Rattle.op_fields.specs.Prefixes.{KeepsPrefix};
ghost use Rattle.op_record.specs.Forms.{change, step_text};
ghost use Rattle.op_record.specs.Ranges.{ChangeInRange};
ghost use Rattle.op_types.specs.declared.changes.Change.{Change};

use crate::batch::put_change;
use crate::body::STEP;
use op_fields::NoMemory;
use op_types::Batch;

/// Begins the body of the record of a step, with no change yet. Without memory nothing is appended.
#[tactic(auto, unfolding(op_fields::specs::Form::encoded))]
pub fn begin_step(out: &mut Vec<u8>) -> Result<(), NoMemory>
    ensures ok { OnOk result (out.new.items ≡ out.old.items ++ step_text 0 []) }
    ensures err { OnErr result (out.new.items ≡ out.old.items) }
{
    out.extend_from_slice(&[STEP, 0])?;
    Ok(())
}

/// Appends changes to such a body, whose count is still to be set. Without memory a part of them may be
/// appended.
#[tactic(auto, using(op_fields::proofs::Prefixes::kept_through))]
pub fn put_changes(out: &mut Vec<u8>, changes: &Batch) -> Result<(), NoMemory>
    requires { All ChangeInRange changes.now }
    ensures ok { OnOk result (out.new.items ≡ out.old.items ++ flat_map change.text changes.now) }
    ensures err { OnErr result (KeepsPrefix out.old.items out.new.items) }
{
    'changes: for c in changes.as_slice() {
        put_change(out, c)?;
    }
    Ok(())
}

/// Sets the count of the changes of such a body, which begins at this place.
pub fn set_count(bytes: &mut [u8], at: usize, count: u8)
    requires { at + 1 < length bytes.old }
    ensures { (space : List ℕ) (changes : List Change) → length space ≡ at →
        bytes.old ≡ space ++ step_text 0 changes → bytes.new ≡ space ++ step_text count changes }
{
    bytes[at + 1] = count;
}
