ghost use Rattle.std.specs.Prelude.{◌≡◌};
ghost use Rattle.op_cluster.specs.declared.cluster_fail.ClusterFail.TheVariants as fails;

use op_outside::{ChildFail, WriteFail};

/// Why a cluster was given up. Nothing is called after what failed.
#[derive(Clone, Copy, Debug, PartialEq, Eq)]
pub enum ClusterFail {
    /// A child couldn't be started, or its end couldn't be waited for. Those that were started run on.
    ChildFault,
    /// A write of a line failed. The children that haven't ended run on.
    WriteFault,
}

impl From<ChildFail> for ClusterFail {
    ghost from_gives = { λ _ e. e ≡ fails.ChildFault };

    fn from(_e: ChildFail) -> ClusterFail {
        ClusterFail::ChildFault
    }
}

impl From<WriteFail> for ClusterFail {
    ghost from_gives = { λ _ e. e ≡ fails.WriteFault };

    fn from(_e: WriteFail) -> ClusterFail {
        ClusterFail::WriteFault
    }
}
