//! A case of a job.

use crate::item::Refusal;
use crate::plan::Plan;
use pz_base::text::Text;

/// A session of a job: its name, and what is needed to play it, or why it is refused.
pub struct Case {
    pub name: Text,
    pub plan: Result<Plan, Refusal>,
}

/// Written out, so that dropping one is a single call everywhere.
impl Drop for Case {
    fn drop(self) {
        let Case { name, plan } = self;
        drop(name);
        drop(plan);
    }
}
