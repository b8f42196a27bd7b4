ghost use Rattle.std.specs.Prelude.{◌≡◌};

use crate::reading::Besides;
use op_chain::ReadyPlan;
use op_types::Batch;

/// What a step is to do, with all its room made: it can be adopted, or dropped.
pub struct ServerPlan {
    /// The step without its reads.
    pub(crate) chain: ReadyPlan,
    /// What comes of the reads.
    pub(crate) reading: Besides,
}

/// Letting go of it is one call for whoever holds it.
impl Drop for ServerPlan {
    fn drop(self) {
        let ServerPlan {
            chain: _,
            reading: _,
        } = self;
    }
}

impl ServerPlan {
    /// The step without its reads, and what comes of the reads.
    pub(crate) fn into_parts(self) -> (ReadyPlan, Besides)
        ensures chain { result.0 ≡ self.chain }
        ensures reading { result.1 ≡ self.reading }
    {
        let ServerPlan { chain, reading } = self;
        (chain, reading)
    }

    /// What is to be stored before the plan is adopted.
    pub fn batch(&self) -> &Batch
        ensures { result.now ≡ self.now.chain.plan.batch }
    {
        self.chain.batch()
    }

    /// What was to be stored by a plan that is dropped.
    pub fn into_batch(self) -> Batch
        ensures { result ≡ self.chain.plan.batch }
    {
        let (chain, _) = self.into_parts();
        chain.into_batch()
    }
}
