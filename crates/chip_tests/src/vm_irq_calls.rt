use vm_irq::targets;
use vm_law::{Dest, Message, Mode};

#[test]
fn destinations(rt: HostRuntime) {
    let cases = [
        (Dest::One(2), 4, 0b0100),
        (Dest::One(0), 1, 0b0001),
        (Dest::One(4), 4, 0),
        (Dest::One(255), 16, 0),
        (Dest::All, 4, 0b1111),
        (Dest::All, 16, 0xFFFF),
        (Dest::AllBut(1), 4, 0b1101),
        (Dest::AllBut(9), 2, 0b11),
        (Dest::Nobody, 4, 0),
    ];
    for (dest, cpus, want) in cases {
        let message = Message {
            vector: 0x40,
            mode: Mode::Fixed,
            dest,
        };
        let set = targets(&message, cpus);
        for cpu in 0..16 {
            assert_eq!(rt;
                set.has(cpu),
                want >> cpu & 1 == 1,
                "vCPU {cpu} of {cpus}, {want}"
            );
        }
    }
}
