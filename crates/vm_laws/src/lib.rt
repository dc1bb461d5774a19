//! Laws of the whole machine: what holds of every history of entries, whatever order its passes came in.
//!
//! Each law is the contract of a function that does nothing; its statement stands in `specs/`. No state is stuck (`Stuck`);
//! after the end each entry brings Close nearer (`Ending`), and before it control comes to the end (`Waiting`); vectors
//! balance (`Vectors`); a rendezvous excludes (`Meetings`); requests are done once (`Requests`); where a machine is saved
//! everything is at rest (`Cuts`); what a pass owns no other pass changes (`Owned`); timers run down (`Timers`). What holds of one history is one record (`Laws`).
#![tactic(auto)]

mod law;

pub use law::{
    control_picks_the_end, cuts_are_at_rest, disks_change_by_hold, each_entry_brings_close,
    early_entries_run_out, finished_requests_are_whole, firings_post, images_are_owned, laws_hold,
    meetings_exclude, no_state_is_stuck, one_shots_fire_once, others_leave_the_end,
    pages_have_versions, requests_are_done_once, saved_machines_go_on, sound_states_go_on,
    timers_run_down, units_are_counted, vcpus_are_owned, vectors_balance,
};
