use std::process::Abort;
use vm_event::{Events, EventsFull};

/// A call, and what it gives.
#[derive(Drop)]
enum Step {
    Add(u8, Result<u8, EventsFull>),
    Has(u8, bool),
    Enable(u8),
    Disable(u8),
    IsEnabled(u8, bool),
    Remove(u8),
    Kind(u8, u8),
}

/// Enables or disables a source, where there is one.
fn switch(events: &mut Events, id: u8, on: bool) -> bool {
    if !events.has(id) {
        return false;
    }
    if on {
        events.enable(id);
    } else {
        events.disable(id);
    }
    true
}

fn remove(events: &mut Events, id: u8) -> bool {
    if !events.has(id) {
        return false;
    }
    events.remove(id);
    true
}

fn holds(events: &mut Events, step: &Step) -> bool {
    match step {
        Step::Add(kind, want) => events.add(*kind) == *want,
        Step::Has(id, want) => events.has(*id) == *want && events.get(*id).is_some() == *want,
        Step::Enable(id) => switch(events, *id, true),
        Step::Disable(id) => switch(events, *id, false),
        Step::IsEnabled(id, want) => events.is_enabled(*id) == *want,
        Step::Remove(id) => remove(events, *id),
        Step::Kind(id, want) => events.has(*id) && events.kind(*id) == *want,
    }
}

fn run(rt: &impl Abort, events: &mut Events, steps: &[Step]) {
    for (k, step) in steps.iter().enumerate() {
        assert!(rt; holds(events, step), "step {k}");
    }
}

/// How many sources are told, and the first three places where they are.
fn told(events: &Events, raised: &[u8]) -> (u8, [u8; 3]) {
    let mut out = [0xEE; 32];
    let count = events.ready(raised, &mut out);
    (count, [out[0], out[1], out[2]])
}

// Ids come lowest first.
const ADDED: [Step; 8] = [
    Step::Add(7, Ok(0)),
    Step::Add(8, Ok(1)),
    Step::Add(9, Ok(2)),
    Step::Has(0, true),
    Step::Has(1, true),
    Step::Has(2, true),
    Step::Has(3, false),
    Step::IsEnabled(0, false),
];

const ENABLED: [Step; 3] = [Step::Enable(0), Step::Has(2, true), Step::Enable(2)];

const REMOVED: [Step; 9] = [
    Step::Kind(2, 9),
    Step::Disable(2),
    Step::Has(0, true),
    Step::IsEnabled(0, true),
    Step::IsEnabled(2, false),
    Step::Remove(0),
    Step::Has(0, false),
    Step::Has(1, true),
    Step::Add(5, Ok(0)),
];

// A source is told once it is enabled and raised, each once and by ascending id.
#[test]
fn sources_in_order(rt: HostRuntime) {
    let mut events = Events::new();
    run(&rt, &mut events, &ADDED);
    assert!(rt; told(&events, &[0, 1, 2]).0 == 0);
    run(&rt, &mut events, &ENABLED);
    assert!(rt; told(&events, &[2, 5, 0, 2, 1, 255]) == (2, [0, 2, 0xEE]));
    run(&rt, &mut events, &REMOVED);
}

#[test]
fn no_more_than_32_sources(rt: HostRuntime) {
    let mut events = Events::new();
    for id in 0..32 {
        assert_eq!(rt; events.add(id), Ok(id));
    }
    assert!(rt; events.is_full());
    assert_eq!(rt; events.add(1), Err(EventsFull));
}
