//! What holds of every history of the machine, and of every state that a run can reach.
ghost use Rattle.vm_laws.specs.Cuts.{CutsAreAtRest, SavedMachinesGoOn};
ghost use Rattle.vm_laws.specs.Ending.{EachEntryBringsClose};
ghost use Rattle.vm_laws.specs.Laws.{LawsHold};
ghost use Rattle.vm_laws.specs.Meetings.{MeetingsExclude};
ghost use Rattle.vm_laws.specs.Owned.{ImagesAreOwned, PagesHaveVersions, VcpusAreOwned};
ghost use Rattle.vm_laws.specs.Requests.{DisksChangeByHold, FinishedRequestsAreWhole, RequestsAreDoneOnce, UnitsAreCounted};
ghost use Rattle.vm_laws.specs.Stuck.{NoStateIsStuck, SoundStatesGoOn};
ghost use Rattle.vm_laws.specs.Timers.{FiringsPost, OneShotsFireOnce, TimersRunDown};
ghost use Rattle.vm_laws.specs.Vectors.{VectorsBalance};
ghost use Rattle.vm_laws.specs.Waiting.{ControlPicksTheEnd, EarlyEntriesRunOut, OthersLeaveTheEnd};

/// A run that isn't closed can go on.
pub fn sound_states_go_on()
    ensures { SoundStatesGoOn }
{}

/// After each legal history from a sound start a run that isn't closed can go on.
pub fn no_state_is_stuck()
    ensures { NoStateIsStuck }
{}

/// Once a run has ended each lawful entry brings Close nearer.
pub fn each_entry_brings_close()
    ensures { EachEntryBringsClose }
{}

/// Once 40,000,000 entries stand, control picks an entry that brings the end nearer, a Tick, or the end.
pub fn control_picks_the_end()
    ensures { ControlPicksTheEnd }
{}

/// What control adds before the end brings it nearer.
pub fn early_entries_run_out()
    ensures { EarlyEntriesRunOut }
{}

/// No entry of another pass takes the end further away.
pub fn others_leave_the_end()
    ensures { OthersLeaveTheEnd }
{}

/// Each vector that a local APIC accepts is serviced once, or is requested still.
pub fn vectors_balance()
    ensures { VectorsBalance }
{}

/// A rendezvous excludes: each named vCPU takes its turn once, and executes nothing from then until the last one did.
pub fn meetings_exclude()
    ensures { MeetingsExclude }
{}

/// Where a machine is saved everything is at rest.
pub fn cuts_are_at_rest()
    ensures { CutsAreAtRest }
{}

/// A run on a saved machine begins with exactly that machine.
pub fn saved_machines_go_on()
    ensures { SavedMachinesGoOn }
{}

/// Disks as the guest sees them change by Hold of a write alone.
pub fn disks_change_by_hold()
    ensures { DisksChangeByHold }
{}

/// A request that is finished and neither failed nor was dropped was moved whole.
pub fn finished_requests_are_whole()
    ensures { FinishedRequestsAreWhole }
{}

/// Each block request is completed once, or was cancelled untouched, or is unfinished still.
pub fn requests_are_done_once()
    ensures { RequestsAreDoneOnce }
{}

/// So many units of an unfinished request are moved as entries moved one.
pub fn units_are_counted()
    ensures { UnitsAreCounted }
{}

/// While a pass has a vCPU, entries of other passes leave it.
pub fn vcpus_are_owned()
    ensures { VcpusAreOwned }
{}

/// While a pass holds the image of a disk, entries of other passes leave it, the disk and the request.
pub fn images_are_owned()
    ensures { ImagesAreOwned }
{}

/// A page of the code that has the same version at two places of a history has the same bytes.
pub fn pages_have_versions()
    ensures { PagesHaveVersions }
{}

/// A timer fires at the first Tick that reaches what is left of it.
pub fn timers_run_down()
    ensures { TimersRunDown }
{}

/// One that fires once fires once each time that it is armed.
pub fn one_shots_fire_once()
    ensures { OneShotsFireOnce }
{}

/// A firing requests the timer's vector, where a post of it is accepted.
pub fn firings_post()
    ensures { FiringsPost }
{}

/// All the laws of a history hold of each one that is legal and begins at a sound start.
pub fn laws_hold()
    ensures { LawsHold }
{}
