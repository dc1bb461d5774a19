use vm_law::Owned;
use vm_stage::{Refused, StageCell, To};

// A pass takes an idle vCPU, runs it and gives it back; another pass moves nothing of it: where to, by whom, and the stage
// that refuses it.
const MOVES: [(To, u16, Option<Owned>); 9] = [
    (To::Running, 3, Some(Owned::Idle)),
    (To::Frozen, 3, None),
    (To::Frozen, 3, Some(Owned::Frozen(3))),
    (To::Idle, 0, Some(Owned::Frozen(3))),
    (To::Running, 3, None),
    (To::Sleeping, 3, Some(Owned::Running(3))),
    (To::Frozen, 3, None),
    (To::Idle, 3, None),
    (To::Frozen, 0, None),
];

#[test]
fn a_vcpu_changes_hands(rt: HostRuntime) {
    let mut cell = StageCell::idle();
    for (k, (to, by, want)) in MOVES.iter().enumerate() {
        let refused = cell.shift(*to, *by).err().map(|r: Refused| r.from);
        assert!(rt; refused == *want, "move {k}");
        let kept = cell.copy().now();
        assert!(rt; want.is_none() || *want == Some(kept), "kept at {k}");
    }
    assert!(rt; cell.now() == Owned::Frozen(0));
}
