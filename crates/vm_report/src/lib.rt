//! The texts that vmrun shows of a run and of a plan.
//!
//! [`report`] is the text of a run's end: why it ended, what was executed, what was said to each order, what each vCPU and
//! each disk did, which variables aren't built, and the state of each vCPU where it is asked for. [`plan_json`] is a plan as
//! one line of JSON (RFC 8259). The texts stand in `specs/`: Report, StateText and PlanText.
#![tactic(auto)]

mod planning;
mod reporting;
mod state;

pub use planning::plan_json;
pub use reporting::report;
