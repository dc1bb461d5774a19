use vm_bus::{Area, area_at, port};

/// Code and RAM of the rows.
const CODE: u64 = 0x2000;

const RAM: u64 = 0x10_0000;

const TOP: u64 = u64::MAX;

/// An address, a length, and what stands there.
type Row = (u64, u64, Area);

fn all_hold(rows: &[Row], code: u64, ram: u64) -> bool {
    rows.iter().all(|(addr, len, want)| area_at(*addr, *len, code, ram) == *want)
}

/// RAM and its code part, and what isn't there.
const MEMORY: [Row; 14] = [
    (0, 1, Area::Code),
    (0x1FFF, 1, Area::Code),
    (0x1FFF, 2, Area::Code),
    (0x1FF9, 8, Area::Code),
    (0x2000, 1, Area::Ram),
    (0x1FFF, 0, Area::Ram),
    (0, 0x10_0000, Area::Code),
    (0x2000, 0xF_E000, Area::Ram),
    (0x2000, 0xF_E001, Area::Nothing),
    (0xF_FFFF, 1, Area::Ram),
    (0xF_FFFC, 4, Area::Ram),
    (0xF_FFFD, 4, Area::Nothing),
    (0x10_0000, 1, Area::Nothing),
    (0xCFFF_FFFF, 1, Area::Nothing),
];

/// Each window, its ends, and ranges across them.
const WINDOWS: [Row; 20] = [
    (0xFEE0_0000, 4, Area::Lapic(0)),
    (0xFEE0_0FFC, 4, Area::Lapic(0xFFC)),
    (0xFEE0_0FFD, 4, Area::Split),
    (0xFEDF_FFFD, 4, Area::Split),
    (0xFEE0_0000, 0x1000, Area::Lapic(0)),
    (0xFEE0_0000, 0x1001, Area::Split),
    (0xFEE0_0080, 0, Area::Lapic(0x80)),
    (0xFEE0_1000, 4, Area::Nothing),
    (0xFEC0_0010, 4, Area::Ioapic(0x10)),
    (0xFEC0_0FFF, 1, Area::Ioapic(0xFFF)),
    (0xFEC0_0FFF, 2, Area::Split),
    (0xFEBF_FFFF, 1, Area::Nothing),
    (0xD000_0000, 4, Area::Disk(0, 0)),
    (0xD000_1000, 0, Area::Disk(1, 0)),
    (0xD000_3104, 4, Area::Disk(3, 0x104)),
    (0xD000_7FFC, 4, Area::Disk(7, 0xFFC)),
    (0xD000_0FFE, 4, Area::Split),
    (0xD000_7FFE, 4, Area::Split),
    (0xCFFF_FFFE, 4, Area::Split),
    (0xD000_8000, 4, Area::Nothing),
];

/// The ends of the canonical addresses, and ranges that wrap.
const ENDS: [Row; 14] = [
    (0x7FFF_FFFF_FFFC, 4, Area::Nothing),
    (0x7FFF_FFFF_FFFD, 4, Area::Noncanonical),
    (0x8000_0000_0000, 1, Area::Noncanonical),
    (0x8000_0000_0000, 0, Area::Ram),
    (0xFFFF_7FFF_FFFF_FFFF, 1, Area::Noncanonical),
    (0xFFFF_7FFF_FFFF_FFFF, 2, Area::Noncanonical),
    (0xFFFF_8000_0000_0000, 1, Area::Nothing),
    (TOP, 1, Area::Nothing),
    (TOP, 2, Area::Nothing),
    (TOP - 3, 4, Area::Nothing),
    (TOP, 0xFEE0_0002, Area::Split),
    (TOP, 0xD000_0001, Area::Nothing),
    (TOP, 0x8000_0000_0002, Area::Noncanonical),
    (0, TOP, Area::Noncanonical),
];

/// RAM that reaches over the windows, and to the last address but one.
const LARGE: [Row; 6] = [
    (0xFEE0_0000, 4, Area::Lapic(0)),
    (0xFEDF_FFFE, 4, Area::Split),
    (0xD000_8000, 4, Area::Ram),
    (TOP - 1, 1, Area::Ram),
    (TOP - 1, 2, Area::Nothing),
    (TOP, 2, Area::Nothing),
];

#[test]
fn areas(rt: HostRuntime) {
    assert!(rt; all_hold(&MEMORY, CODE, RAM));
    assert!(rt; all_hold(&WINDOWS, CODE, RAM));
    assert!(rt; all_hold(&ENDS, CODE, RAM));
    assert!(rt; all_hold(&LARGE, CODE, TOP));
    assert!(rt; all_hold(&[(0, 1, Area::Ram), (TOP, 2, Area::Nothing)], 0, RAM));
}

#[test]
fn ports(rt: HostRuntime) {
    let rows = [
        (0x3F7, None),
        (0x3F8, Some(0)),
        (0x3FD, Some(5)),
        (0x3FF, Some(7)),
        (0x400, None),
        (0, None),
        (0xFFFF, None),
    ];
    for (number, want) in rows {
        assert_eq!(rt; port(number), want);
    }
}
