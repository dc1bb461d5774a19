/// What stands at an offset of the window. Source: 82093AA, sections 3.1 and 3.2.
#[derive(Clone, Copy, Debug, PartialEq, Eq)]
pub enum Register {
    /// IOREGSEL, the index of the register that the window shows.
    Select,
    /// IOAPICID.
    Id,
    /// IOAPICVER.
    Version,
    /// IOREDTBL: the low half of a pin's entry.
    Low(u8),
    /// The high half.
    High(u8),
    /// No register.
    Nothing,
}

impl Register {
    ghost use Rattle.std.specs.Prelude.{◌≡◌, ◌<◌};
    ghost use Rattle.vm_ioapic.specs.Register as spec;

    /// The register at an offset, where the index `select` is selected.
    #[tactic(auto, unfolding(crate::specs::Register::register_at))]
    pub(crate) fn at(select: u8, offset: u32) -> Register
        ensures register { result ≡ spec.register_at select offset }
        ensures pin { spec.HasPin result }
    {
        match offset {
            0x00 => Register::Select,
            0x10 => Register::indexed(select),
            _ => Register::Nothing,
        }
    }

    fn indexed(index: u8) -> Register
        ensures register { result ≡ spec.indexed index }
        ensures pin { spec.HasPin result }
    {
        match index {
            0 => Register::Id,
            1 => Register::Version,
            0x10..=0x4F if index % 2 == 0 => Register::Low((index - 0x10) / 2),
            0x10..=0x4F => Register::High((index - 0x10) / 2),
            _ => Register::Nothing,
        }
    }
}
