use std::alloc::{AllocError, Global};
use std::test::Fail;
use vm_image::{ImageError, ImageKind, faults_are_all, read, write};

/// The file of an image of nine bytes, all of them code, that writes an A and halts.
const FIRST: [u8; 33] = [
    0x56, 0x4D, 0x46, 0x4C, 0x41, 0x54, 0x31, 0x0A, 0, 0, 0, 0, 0, 0, 0, 0, 9, 0, 0, 0, 0, 0, 0, 0,
    0xBA, 0xF8, 0x03, 0x00, 0x00, 0xB0, 0x41, 0xEE, 0xF4,
];

const MEBIBYTE: u64 = 1048576;

const GIBIBYTE: u64 = 1073741824;

/// Entry, code length, payload length and memory, and the fault.
type Row = (u64, u64, u32, u64, Option<(u64, ImageKind)>);

/// The file of an image whose payload is all 90.
fn file(alloc: Global, entry: u64, code: u64, payload: u32) -> Result<Vec<u8>, AllocError> {
    let mut bytes = Vec::from_slice(alloc, b"VMFLAT1\n")?;
    bytes.extend_from_slice(&entry.to_le_bytes())?;
    bytes.extend_from_slice(&code.to_le_bytes())?;
    bytes.resize(payload as usize + 24, 0x90)?;
    Ok(bytes)
}

/// Whether this fault is told, or an image read where there is none.
fn tells(alloc: Global, bytes: &[u8], ram: u64, wanted: Option<(u64, ImageKind)>) -> bool {
    match read(alloc, bytes, ram) {
        Ok(_) => wanted.is_none(),
        Err(ImageError::Fault { at, kind }) => wanted == Some((at, kind)),
        Err(ImageError::Memory) => false,
    }
}

fn all_told(alloc: Global, rows: &[Row]) -> Result<bool, AllocError> {
    let mut all = true;
    for (entry, code, payload, ram, wanted) in rows {
        let bytes = file(alloc, *entry, *code, *payload)?;
        all = all && tells(alloc, bytes.as_slice(), *ram, *wanted);
    }
    Ok(all)
}

/// Codes, entries and payloads at their limits, and which fault comes first.
#[test]
fn limits(rt: HostRuntime) -> Result<(), Fail> {
    faults_are_all();
    let rows = [
        (0, 9, 9, MEBIBYTE, None),
        (8, 9, 9, 9, None),
        (8, 9, 9, 8, Some((24, ImageKind::Large))),
        (0, 1, 4096, 4095, Some((24, ImageKind::Large))),
        (9, 9, 9, MEBIBYTE, Some((8, ImageKind::Entry))),
        (u64::MAX, 9, 9, MEBIBYTE, Some((8, ImageKind::Entry))),
        (0, 0, 9, MEBIBYTE, Some((16, ImageKind::Code))),
        (0, 10, 9, MEBIBYTE, Some((16, ImageKind::Code))),
        (0, 256, 0, MEBIBYTE, Some((16, ImageKind::Code))),
        (16777215, 16777216, 16777216, GIBIBYTE, None),
        (0, 16777217, 16777217, GIBIBYTE, Some((16, ImageKind::Code))),
        (9, 0, 9, 8, Some((16, ImageKind::Code))),
        (9, 9, 9, 8, Some((8, ImageKind::Entry))),
    ];
    assert!(rt; all_told(rt.alloc(), &rows)?);
    Ok(())
}

/// The fault of the first bytes of a file that ends too early.
fn early(length: usize) -> Option<(u64, ImageKind)> {
    match length {
        0..8 => Some((length as u64, ImageKind::Magic)),
        8..24 => Some((length as u64, ImageKind::Short)),
        24..33 => Some((16, ImageKind::Code)),
        _ => None,
    }
}

fn each_begin_is_told(alloc: Global) -> bool {
    let mut all = true;
    for length in 0..34usize {
        let begin = &FIRST[..length.min(33)];
        all = all && tells(alloc, begin, MEBIBYTE, early(length));
    }
    all
}

fn each_other_magic_is_told(alloc: Global) -> bool {
    let mut all = true;
    for at in 0..8usize {
        let mut bytes = FIRST;
        bytes[at] ^= 0x20;
        let wanted = Some((at as u64, ImageKind::Magic));
        all = all && tells(alloc, &bytes, MEBIBYTE, wanted) && tells(alloc, &bytes[..9], 0, wanted);
    }
    all
}

/// Files that end too early, and files with another byte in the magic.
#[test]
fn beginnings(rt: HostRuntime) {
    assert!(rt; each_begin_is_told(rt.alloc()));
    assert!(rt; each_other_magic_is_told(rt.alloc()));
}

/// The parts of the first image.
#[test]
fn first_image(rt: HostRuntime) -> Result<(), Fail> {
    let image = read(rt.alloc(), &FIRST, MEBIBYTE)?;
    assert_eq!(rt; (image.entry, image.code), (0, 9));
    assert_eq!(rt;
        image.payload.as_slice(),
        [0xBA, 0xF8, 0x03, 0, 0, 0xB0, 0x41, 0xEE, 0xF4].as_slice()
    );
    Ok(())
}

/// An image that was read is written as it stood.
#[test]
fn written(rt: HostRuntime) -> Result<(), Fail> {
    let image = read(rt.alloc(), &FIRST, MEBIBYTE)?;
    let bytes = write(rt.alloc(), &image)?;
    assert_eq!(rt; bytes.as_slice(), FIRST.as_slice());
    Ok(())
}

/// The texts of the kinds.
#[test]
fn texts(rt: HostRuntime) -> Result<(), Fail> {
    let fault = ImageError::Fault {
        at: 23,
        kind: ImageKind::Short,
    };
    let text = format!(in rt.alloc(); "{fault}")?;
    assert_eq!(rt; text.as_str(), "at 23: short");
    let (magic, code, entry, large) = (
        ImageKind::Magic,
        ImageKind::Code,
        ImageKind::Entry,
        ImageKind::Large,
    );
    let text = format!(in rt.alloc(); "{magic} {code} {entry} {large}")?;
    assert_eq!(rt; text.as_str(), "magic code entry large");
    Ok(())
}
