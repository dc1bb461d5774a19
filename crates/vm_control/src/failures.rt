//! The event sources of control: one, of failures of its work outside, which is enabled from the first one on.
ghost use Rattle.std.specs.Prelude.{◌≡◌, true, false};
ghost use Rattle.vm_event.specs.Events.{is_enabled, is_there};

use vm_event::Events;

/// The source of failures, which is the first.
const FAILURE: u8 = 0;

/// The sources of a control without failures.
pub(crate) fn none_yet() -> Events
    ensures there { is_there result 0 ≡ true }
    ensures none { is_enabled result 0 ≡ false }
{
    let mut events = Events::new();
    let added = events.add(FAILURE).is_ok();
    prove!(added);
    events
}

/// Notes a failure.
pub(crate) fn note(events: &mut Events)
    requires { is_there events.old 0 ≡ true }
    ensures there { is_there events.new 0 ≡ true }
    ensures noted { is_enabled events.new 0 ≡ true }
{
    events.enable(FAILURE);
}

/// Whether there was one.
pub(crate) fn any(events: &Events) -> bool
    ensures { result ≡ is_enabled events.now 0 }
{
    events.is_enabled(FAILURE)
}
