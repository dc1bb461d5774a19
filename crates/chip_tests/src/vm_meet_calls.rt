use vm_law::{CpuSet, MeetKind};
use vm_meet::Meet;

// Two vCPUs, each about to change the interrupt routing: the first opens a meeting of both, the second can't; each takes
// one turn, and the second turn closes it.
#[test]
fn two_vcpus_meet(rt: HostRuntime) {
    let mut both = CpuSet::empty();
    both.insert(0);
    both.insert(1);
    assert!(rt; !both.is_same(&CpuSet::empty()));
    let mut meet = Meet::none();
    assert!(rt; meet.current().is_none() && !meet.names(0) && !meet.started_by(1));
    let opened = meet.start(MeetKind::Routing, 1, both.copy());
    assert!(rt; opened.is_ok() && meet.is_open() && meet.started_by(1));
    assert!(rt; meet.names(1) && meet.awaits(1) && !meet.names(2) && !meet.awaits(16));
    match meet.start(MeetKind::Sample, 2, both.copy()) {
        Ok(()) => assert!(rt; false, "a meeting was open"),
        Err(refused) => {
            assert_eq!(rt; refused.meeting.kind, MeetKind::Routing);
            assert!(rt; refused.meeting.by == 1 && refused.meeting.named.is_same(&both));
            assert!(rt; refused.meeting.names(0) && refused.meeting.awaits(0));
        }
    }
    if meet.awaits(0) {
        assert!(rt; !meet.turn(0));
    }
    assert!(rt; meet.names(0) && !meet.awaits(0) && meet.copy().awaits(1));
    if meet.awaits(1) {
        assert!(rt; meet.turn(1));
    }
    assert!(rt; !meet.is_open());
}
