//! The runner of a vCPU: an actor that takes turns at the board and runs instructions outside it.
//!
//! A [`Runner`] has copies of the pages of code, with the version at which each was read, and decodes each instruction once. In
//! its turn it first brings back what it ran ahead, as one Slice, where each page that it looked at has kept its version; then
//! it adds the first lawful entry of its list; then it renews its copies and takes its vCPU's context, where the vCPU runs on.
//! Outside its turn it runs as many local instructions as its grant and its copies allow. A runner that fits the run, whose
//! copies and whose context are the run's, fits it after its turn, after its work outside, and after entries of other passes.
//! So it can take its turns at a turnstile (`vm_turn`), where others add entries between them.
#![tactic(auto)]

mod choosing;
mod copies;
mod going;
mod law;
mod out;
mod runner;

pub use copies::Copies;
pub use law::{new_runners_fit, others_keep_runners, runners_run_ahead};
pub use out::Out;
pub use runner::Runner;
