// The pages that a commit has yet to write.
use vb_plan::{Plan, PlanPage};

/// The page that is due, and the plan with the pages after it.
#[derive(Drop)]
pub(crate) struct PagesLeft {
    pub(crate) due: PlanPage,
    pub(crate) plan: Plan,
}
