use vm_timer::{Callouts, each_fires_once};

// A periodic timer with 10 left and a span of 100 fires once in a tick of 1,024 and then has 100 - 1,014 mod 100 = 86
// left. Of two that fire in one tick, the one with less left comes first.
#[test]
fn timers_in_order(rt: HostRuntime) {
    let mut timers = Callouts::new();
    timers.is_small();
    each_fires_once();
    let mut spans = [0; 16];
    spans[2] = 100;
    timers.arm(2, 10);
    timers.arm(7, 5000);
    let fired = timers.tick(1024, &spans);
    assert_eq!(rt; fired.len(), 1);
    assert_eq!(rt; fired.at(0), 2);
    assert_eq!(rt;
        (timers.left(2), timers.left(7), timers.left(0)),
        (86, 3976, 0)
    );
    timers.disarm(2);
    timers.disarm(7);
    assert!(rt; timers.copy().tick(9, &spans).is_empty());
    timers.arm(0, 5);
    timers.arm(1, 3);
    timers.arm(9, 3);
    timers.arm(15, 6);
    let fired = timers.tick(5, &spans);
    assert_eq!(rt; fired.as_slice(), [1, 9, 0].as_slice());
    assert_eq!(rt; (timers.left(0), timers.left(1), timers.left(9)), (0, 0, 0));
    assert_eq!(rt; timers.left(15), 1);
}
