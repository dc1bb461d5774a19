//! The worked journals of docs/FORMATS.md, replayed, and the text of a plan.
//!
//! Test functions for `vm_journal` on the whole machine, and for `vm_report`. They stand here since a crate with test functions
//! is proved twice.
#![tactic(auto)]

#[cfg(test)]
mod journals;
#[cfg(test)]
mod starts;
#[cfg(test)]
mod vm_journal_calls;
#[cfg(test)]
mod vm_report_calls;
