/// A register of the window. Source: OASIS virtio 1.2, section 4.2.2, and section 5.2.4 for the capacity.
#[derive(Clone, Copy, Debug, PartialEq, Eq)]
pub enum Register {
    MagicValue,
    Version,
    DeviceId,
    VendorId,
    DeviceFeatures,
    DeviceFeaturesSel,
    DriverFeatures,
    DriverFeaturesSel,
    QueueSel,
    QueueNumMax,
    QueueNum,
    QueueReady,
    QueueNotify,
    InterruptStatus,
    InterruptAck,
    Status,
    QueueDescLow,
    QueueDescHigh,
    /// The available ring's address.
    QueueDriverLow,
    QueueDriverHigh,
    /// The used ring's address.
    QueueDeviceLow,
    QueueDeviceHigh,
    ConfigGeneration,
    CapacityLow,
    CapacityHigh,
    /// Nothing stands at this offset.
    Reserved,
}

impl Register {
    ghost use Rattle.std.specs.Prelude.{◌≡◌};
    ghost use Rattle.vm_vblk.specs.Register as spec;

    /// The register at an offset of the window.
    #[tactic(auto, unfolding(crate::specs::Register::register_at))]
    pub fn at(offset: u32) -> Register
        ensures { result ≡ spec.register_at offset }
    {
        match offset {
            0x000 => Register::MagicValue,
            0x004 => Register::Version,
            0x008 => Register::DeviceId,
            0x00C => Register::VendorId,
            0x010 => Register::DeviceFeatures,
            0x014 => Register::DeviceFeaturesSel,
            0x020 => Register::DriverFeatures,
            0x024 => Register::DriverFeaturesSel,
            0x030 => Register::QueueSel,
            0x034 => Register::QueueNumMax,
            0x038 => Register::QueueNum,
            0x044 => Register::QueueReady,
            0x050 => Register::QueueNotify,
            0x060 => Register::InterruptStatus,
            0x064 => Register::InterruptAck,
            0x070 => Register::Status,
            0x080 => Register::QueueDescLow,
            0x084 => Register::QueueDescHigh,
            0x090 => Register::QueueDriverLow,
            0x094 => Register::QueueDriverHigh,
            0x0A0 => Register::QueueDeviceLow,
            0x0A4 => Register::QueueDeviceHigh,
            0x0FC => Register::ConfigGeneration,
            0x100 => Register::CapacityLow,
            0x104 => Register::CapacityHigh,
            _ => Register::Reserved,
        }
    }
}
