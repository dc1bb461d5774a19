//! When control fits.
ghost use Rattle.vm_control.specs.Others.{EntriesKeepControl, NewControlFits};

/// Control that fits the run still fits it after any entry.
pub fn entries_keep_control()
    ensures { EntriesKeepControl }
{}

/// New control fits every run.
pub fn new_control_fits()
    ensures { NewControlFits }
{}
