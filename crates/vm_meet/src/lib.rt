//! One rendezvous: every vCPU that is named takes one turn, and the last one closes it.
//!
//! A meeting names the vCPUs that are to come, who opened it, and which of them are done. At most one is open. Its type
//! keeps that somebody is named, that only named ones are done, and that somebody is still missing; so an open meeting
//! always waits for a turn, and it closes with the last one.
//!
//! It follows `vm_smp_rendezvous`, `vm_handle_rendezvous` and the sets `rendezvous_req_cpus` and `rendezvous_done_cpus`
//! of FreeBSD's sys/amd64/vmm/vmm.c.
#![tactic(auto)]

mod meeting;
mod rendezvous;

pub use meeting::Meeting;
pub use rendezvous::{Meet, UnderWay};
