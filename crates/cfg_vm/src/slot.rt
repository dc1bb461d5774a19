ghost use Rattle.std.specs.Prelude.{◌≡◌, option_map, IfOk};
ghost use Rattle.cfg_vm.specs.Slot.{slot_of, slot_name, place, seen};

use crate::number::slot_number;
use std::alloc::Global;
use text_reader::cut_at;
use vm_law::{OutOfMemory, Text};

/// The place of a PCI device: bus 0 to 255, slot 0 to 31, function 0 to 7.
#[derive(Clone, Copy)]
pub(crate) struct Slot {
    pub(crate) bus: u8,
    pub(crate) slot: u8,
    pub(crate) function: u8,
}

/// The number of a place in ascending order, as PCI's routing ID counts them.
pub(crate) fn place(slot: Slot) -> u32
    ensures { result ≡ place slot }
{
    u32::from(slot.bus) * 256 + u32::from(slot.slot) * 8 + u32::from(slot.function)
}

/// The place and the part of a name `pci.B.S.F.PART`.
pub(crate) fn slot_of(name: &str) -> Option<(Slot, &str)>
    ensures { option_map seen result ≡ slot_of name.now }
{
    let (pci, rest) = cut_at(name, '.')?;
    if pci != "pci" {
        return None;
    }
    let (bus, rest) = cut_at(rest, '.')?;
    let (slot, rest) = cut_at(rest, '.')?;
    let (function, part) = cut_at(rest, '.')?;
    let bus = slot_number(255, bus)?;
    let slot = slot_number(31, slot)?;
    let function = slot_number(7, function)?;
    Some((
        Slot {
            bus,
            slot,
            function,
        },
        part,
    ))
}

/// The name of a part of the device at a place.
pub(crate) fn slot_name(alloc: Global, at: Slot, part: &str) -> Result<Text, OutOfMemory>
    ensures { IfOk result (λ t. t ≡ slot_name at part.now) }
{
    let bus = at.bus;
    let slot = at.slot;
    let function = at.function;
    let name = format!(in alloc; "pci.{bus}.{slot}.{function}.{part}")?;
    Ok(Text::from_string(name))
}
