ghost use Rattle.std.specs.Prelude.{◌≡◌, ◌≢◌, ◌↔◌, ◌≤◌, ◌<◌, ◌+◌, IsTrue, length, ◌-◌, ◌==◌, ◌&&◌, true, if◌then◌else◌, bit_and, bit_or};
ghost use Rattle.vq_ring.specs.Ring.{is_size};
ghost use Rattle.vq_ring.specs.Chain.{next_chain};
ghost use Rattle.vq_ring.specs.declared.chain.Chain.TheVariants as chain;
ghost use Rattle.vm_vblk.specs.Register.{register_at};
ghost use Rattle.vm_vblk.specs.Window as spec;

use crate::features::{agrees, half_of, offered, with_half};
use crate::pulled::WindowEffect;
use crate::register::Register;
use std::marker::Model;
use vm_law::{Bytes, WindowState};
use vq_ring::{Ring, is_size, ring_ok};

/// "virt" in the order of little-endian bytes.
const MAGIC: u32 = 0x7472_6976;

/// The version of the register layout.
const VERSION: u32 = 2;

/// The device ID of a block device.
const BLOCK_DEVICE: u32 = 2;

/// How many descriptors a queue has at most.
const QUEUE_NUM_MAX: u32 = 128;

/// DRIVER_OK, a bit of the device status: the driver is ready.
const DRIVER_OK: u8 = 4;

/// DEVICE_NEEDS_RESET, a bit of the device status, which the device alone sets.
const NEEDS_RESET: u8 = 64;

/// The bits of the device status that the driver can set where it agrees to the features.
const SETTABLE: u32 = 0xBF;

/// The same without FEATURES_OK (8), where it doesn't.
const SETTABLE_BEFORE: u32 = 0xB7;

/// The interrupt of a changed configuration, a bit of the interrupt status.
const CONFIG_CHANGE: u8 = 2;

/// The window of a block device. Contracts see it as its state, register by register.
#[derive(Drop)]
pub struct Window {
    pub(crate) state: WindowState,
}

impl Model for Window {
    ghost use Rattle.vm_law.specs.declared.chips.WindowState.{WindowState as State};
    ghost use Rattle.vm_vblk.specs.Window.{IsState};

    ghost Value = { State };

    ghost view = { λ w. w.state };

    ghost invariant = { λ w. IsState w.state };
}

impl Window {
    /// The window at reset of a disk with so many sectors.
    pub fn new(sectors: u64, ro: bool) -> Window
        ensures { result ≡ spec.at_start sectors ro }
    {
        Window {
            state: start(sectors, ro),
        }
    }

    /// An equal window.
    pub fn copy(&self) -> Window
        ensures { result ≡ self.now }
    {
        Window { state: self.state }
    }

    /// The interrupt line.
    pub fn line(&self) -> bool
        ensures { result ≡ spec.line self.now }
    {
        self.state.interrupt_status != 0
    }

    /// Whether the queue is ready.
    pub fn is_ready(&self) -> bool
        ensures { result ≡ self.now.queue_ready }
    {
        self.state.queue_ready
    }

    /// Whether a notification was heard, and a chain may wait.
    pub fn is_notified(&self) -> bool
        ensures value { result ≡ self.now.notified }
        ensures ready { IsTrue result → IsTrue self.now.queue_ready }
    {
        self.state.notified
    }

    /// Where the queue's tables are.
    pub fn ring(&self) -> Ring
        ensures { result ≡ spec.ring_of self.now }
    {
        Ring {
            size: self.state.queue_num,
            desc: self.state.queue_desc,
            avail: self.state.queue_avail,
            used: self.state.queue_used,
        }
    }

    /// Whether the queue is ready and a chain waits in it: the driver made more available than were taken.
    pub fn waits<B: Bytes>(&self, bytes: &B) -> bool
        requires { spec.LiesOver (B.memory bytes.now) self.now }
        ensures value { result ≡ spec.waits (B.memory bytes.now) self.now }
        ensures chain { IsTrue result
            ↔ (IsTrue self.now.queue_ready
            × (next_chain (B.memory bytes.now) (spec.ring_of self.now) self.now.last_avail ≢ chain.None)) }
    {
        self.state.queue_ready && vq_ring::waits(bytes, &self.ring(), self.state.last_avail)
    }

    /// Reads the register at an offset of the window.
    pub fn read(&self, offset: u32) -> u32
        ensures { result ≡ spec.value_read self.now (register_at offset) }
    {
        let state = &self.state;
        match Register::at(offset) {
            Register::MagicValue => MAGIC,
            Register::Version => VERSION,
            Register::DeviceId => BLOCK_DEVICE,
            Register::DeviceFeatures => half_of(offered(state.ro), state.device_features_sel),
            Register::QueueNumMax => self.queue_num_max(),
            Register::QueueReady => self.queue_ready(),
            Register::InterruptStatus => u32::from(state.interrupt_status),
            Register::Status => u32::from(state.status),
            Register::CapacityLow => half_of(state.sectors, 0),
            Register::CapacityHigh => half_of(state.sectors, 1),
            _ => 0,
        }
    }

    fn queue_num_max(&self) -> u32
        ensures { result ≡ spec.value_read self.now Register.QueueNumMax }
    {
        if self.state.queue_sel == 0 {
            QUEUE_NUM_MAX
        } else {
            0
        }
    }

    fn queue_ready(&self) -> u32
        ensures { result ≡ spec.value_read self.now Register.QueueReady }
    {
        u32::from(self.state.queue_ready && self.state.queue_sel == 0)
    }

    /// Writes the register at an offset of the window, over the guest's memory.
    ///
    /// A status of 0 resets the window, and the answer says so. Where the queue is made ready and its tables don't lie
    /// well, the device breaks: its status has DEVICE_NEEDS_RESET, and the interrupt of a changed configuration is due.
    pub fn write<B: Bytes>(&mut self, bytes: &B, offset: u32, value: u32) -> WindowEffect
        requires { spec.LiesOver (B.memory bytes.now) self.old }
        ensures effect { result ≡ spec.effect_of (register_at offset) value }
        ensures after { self.new ≡ spec.after_write (B.memory bytes.now) self.old (register_at offset) value }
        ensures lies { spec.LiesOver (B.memory bytes.now) self.new }
    {
        match Register::at(offset) {
            Register::DeviceFeaturesSel => self.state.device_features_sel = value,
            Register::DriverFeatures => self.set_features(value),
            Register::DriverFeaturesSel => self.state.driver_features_sel = value,
            Register::QueueSel => self.state.queue_sel = value,
            Register::QueueNum => self.set_size(value),
            Register::QueueReady => self.make_ready(bytes, value),
            Register::QueueNotify => self.notify(bytes, value),
            Register::InterruptAck => self.acknowledge(value),
            Register::Status => return self.set_status(value),
            Register::QueueDescLow => self.set_desc(0, value),
            Register::QueueDescHigh => self.set_desc(1, value),
            Register::QueueDriverLow => self.set_avail(0, value),
            Register::QueueDriverHigh => self.set_avail(1, value),
            Register::QueueDeviceLow => self.set_used(0, value),
            Register::QueueDeviceHigh => self.set_used(1, value),
            _ => {}
        }
        WindowEffect::Nothing
    }

    fn set_features(&mut self, value: u32)
        ensures { self.new ≡ record self.old { driver_features = spec.with_half self.old.driver_features self.old.driver_features_sel value } }
    {
        let state = &mut self.state;
        state.driver_features = with_half(state.driver_features, state.driver_features_sel, value);
    }

    /// Whether the queue's registers can be written.
    fn is_open(&self) -> bool
        ensures { result ≡ spec.is_open self.now }
    {
        !self.state.queue_ready && self.state.queue_sel == 0
    }

    fn set_size(&mut self, value: u32)
        ensures { self.new ≡ (if spec.is_open self.old && is_size value then record self.old { queue_num = value } else self.old) }
    {
        if self.is_open() && value <= QUEUE_NUM_MAX && is_size(value as u16) {
            self.state.queue_num = value as u16;
        }
    }

    fn set_desc(&mut self, half: u32, value: u32)
        ensures { self.new ≡ (if spec.is_open self.old then record self.old { queue_desc = spec.with_half self.old.queue_desc half value } else self.old) }
    {
        if self.is_open() {
            self.state.queue_desc = with_half(self.state.queue_desc, half, value);
        }
    }

    fn set_avail(&mut self, half: u32, value: u32)
        ensures { self.new ≡ (if spec.is_open self.old then record self.old { queue_avail = spec.with_half self.old.queue_avail half value } else self.old) }
    {
        if self.is_open() {
            self.state.queue_avail = with_half(self.state.queue_avail, half, value);
        }
    }

    fn set_used(&mut self, half: u32, value: u32)
        ensures { self.new ≡ (if spec.is_open self.old then record self.old { queue_used = spec.with_half self.old.queue_used half value } else self.old) }
    {
        if self.is_open() {
            self.state.queue_used = with_half(self.state.queue_used, half, value);
        }
    }

    /// The device breaks: it needs a reset.
    pub(crate) fn break_down(&mut self)
        ensures { self.new ≡ spec.broken self.old }
    {
        self.state.status |= NEEDS_RESET;
        self.state.interrupt_status |= CONFIG_CHANGE;
        self.state.notified = false;
    }

    #[tactic(auto, using(vq_ring::proofs::Rings::sized))]
    fn make_ready<B: Bytes>(&mut self, bytes: &B, value: u32)
        ensures { self.new
            ≡ (if spec.is_open self.old && (value == 1) then spec.made_ready (B.memory bytes.now) self.old else self.old) }
    {
        if !self.is_open() || value != 1 {
            return;
        }
        if ring_ok(&self.ring(), bytes.code(), bytes.size()) {
            self.state.queue_ready = true;
        } else {
            self.break_down();
        }
    }

    /// Whether the driver is ready and the device needs no reset.
    #[tactic(auto, unfolding(crate::specs::Window::works))]
    fn works(&self) -> bool
        ensures { result ≡ spec.works self.now.status }
    {
        self.state.status & DRIVER_OK != 0 && self.state.status & NEEDS_RESET == 0
    }

    fn notify<B: Bytes>(&mut self, bytes: &B, queue: u32)
        requires { spec.LiesOver (B.memory bytes.now) self.old }
        ensures { self.new ≡ (if spec.hears (B.memory bytes.now) self.old queue then record self.old { notified = true } else self.old) }
    {
        if queue == 0 && self.works() && self.waits(bytes) {
            self.state.notified = true;
        }
    }

    fn acknowledge(&mut self, bits: u32)
        ensures { self.new ≡ record self.old { interrupt_status = self.old.interrupt_status - bit_and self.old.interrupt_status bits } }
    {
        let status = u32::from(self.state.interrupt_status);
        self.state.interrupt_status = (status - (status & bits)) as u8;
    }

    fn set_status(&mut self, value: u32) -> WindowEffect
        ensures effect { result ≡ spec.effect_of Register.Status value }
        ensures after { self.new ≡ spec.with_status self.old value }
    {
        if value == 0 {
            self.state = start(self.state.sectors, self.state.ro);
            return WindowEffect::Reset;
        }
        self.add_status(value);
        WindowEffect::Nothing
    }

    /// The bits of the device status that the driver can set.
    fn settable(&self) -> u32
        ensures value { result ≡ spec.settable self.now }
        ensures small { result < 256 }
        ensures reset { bit_and result 64 ≡ 0 }
    {
        if agrees(self.state.ro, self.state.driver_features) {
            SETTABLE
        } else {
            SETTABLE_BEFORE
        }
    }

    /// Adds the bits that the driver can set to the device status.
    #[tactic(auto, using(crate::proofs::Bits::keeps_working))]
    fn add_status(&mut self, bits: u32)
        ensures { self.new ≡ record self.old { status = bit_or self.old.status (bit_and bits (spec.settable self.old)) } }
    {
        self.state.status |= (bits & self.settable()) as u8;
    }
}

/// The state of a window at reset.
fn start(sectors: u64, ro: bool) -> WindowState
    ensures { result ≡ spec.at_start sectors ro }
{
    WindowState {
        sectors,
        ro,
        status: 0,
        device_features_sel: 0,
        driver_features_sel: 0,
        driver_features: 0,
        queue_sel: 0,
        queue_num: 0,
        queue_ready: false,
        queue_desc: 0,
        queue_avail: 0,
        queue_used: 0,
        last_avail: 0,
        used_index: 0,
        notified: false,
        interrupt_status: 0,
    }
}
