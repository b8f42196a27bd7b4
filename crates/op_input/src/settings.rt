ghost use Rattle.std.specs.Prelude.{◌+◌, IfOk, IfErr, IsErrOf};
ghost use Rattle.op_outside.specs.Causes.{RisesWith};
ghost use Rattle.op_outside.specs.Streams.{TakesAtMost};
ghost use Rattle.op_input.specs.Inputs.{IsConfigured, IsMisconfigured, input_limit};

use crate::reading::read_input;
use op_outside::Source;
use op_setup::{Settings, SettingsFail, settings};
use op_status::Status;
use op_types::Pid;
use std::alloc::Global;

/// Settings that were read.
#[derive(Drop)]
pub struct Configured {
    /// The text that sets them, which is the whole input.
    pub text: Vec<u8>,
    /// What it sets.
    pub settings: Settings,
}

/// The settings that the input holds, for the node of this id or for a cluster. The status tells why there
/// are none: they are wrong, or the input could not be read.
pub fn read_settings<S: Source>(
    alloc: Global,
    input: &mut S,
    id: Option<Pid>,
) -> Result<Configured, Status>
    ensures configured { IfOk result (λ c.
        IsConfigured (S.left input.old) (S.left input.new) id c.text.items c.settings) }
    ensures refused { IfErr result (IsMisconfigured (S.left input.old) id
        (S.fault_count input.old) (S.fault_count input.new)) }
    ensures most { TakesAtMost (input_limit + 1) (S.left input.old) (S.left input.new) }
    ensures count { RisesWith (IsErrOf result Status.ReadFault)
        (S.fault_count input.old) (S.fault_count input.new) }
{
    let text = read_input(alloc, input)?;
    match settings(alloc, &text, id) {
        Ok(settings) => Ok(Configured { text, settings }),
        Err(SettingsFail::BadConfig { cause }) => Err(Status::BadConfig { cause }),
        Err(SettingsFail::NoMemory) => Err(Status::NoMemory),
    }
}
