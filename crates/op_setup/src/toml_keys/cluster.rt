//! The name of the cluster.
ghost use Rattle.std.specs.Prelude.{◌≡◌, IfOk};
ghost use Rattle.toml.specs.Data.{string};
ghost use Rattle.toml.specs.View.{table_view, view};
ghost use Rattle.op_text.specs.Found.{IsFound};
ghost use Rattle.op_setup.specs.Identities.{IsClusterName};
ghost use Rattle.op_setup.specs.Settings.{SetsCluster};

use crate::cluster_name::is_cluster_name;
use op_types::{Blob, NoMemory};
use std::alloc::Global;
use toml::{Table, Value};

/// The name of the cluster: it has none where the key is absent. None where what stands there is no name.
pub fn cluster(alloc: Global, table: &Table) -> Result<Option<Option<Blob>>, NoMemory>
    ensures { IfOk result (IsFound (SetsCluster (table_view table.now))) }
{
    let Some(value) = table.get("cluster") else {
        return Ok(Some(None));
    };
    let Some(name) = name(alloc, value)? else {
        return Ok(None);
    };
    Ok(Some(Some(name)))
}

/// The name that a value is.
fn name(alloc: Global, value: &Value) -> Result<Option<Blob>, NoMemory>
    ensures { IfOk result (IsFound (λ name. (view value.now ≡ string name) × IsClusterName name)) }
{
    let Some(text) = value.as_str() else {
        return Ok(None);
    };
    let bytes = text.as_bytes();
    if !is_cluster_name(bytes) {
        return Ok(None);
    }
    Ok(Some(Blob::from_slice(alloc, bytes)?))
}
