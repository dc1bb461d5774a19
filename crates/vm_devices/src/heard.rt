//! What the registers of a local APIC's timer say.
ghost use Rattle.std.specs.Prelude.{◌≡◌, ◌<◌, ◌≤◌, ◌^◌, ◌==◌};
ghost use Rattle.std.specs.Int.{bit_at};
ghost use Rattle.vm_vectors.specs.Vectors.{has, word_of};
ghost use Rattle.vm_lapic.specs.Apic.{is_enabled as is_enabled_of};
ghost use Rattle.vm_devices.specs.Timers as spec;

use vm_lapic::Lapic;

/// The offsets of registers in the window. Source: Intel SDM volume 3, table 10-1.
const SVR: u32 = 0xF0;

const IRR: u32 = 0x200;

const LVT_TIMER: u32 = 0x320;

pub(crate) const INITIAL_COUNT: u32 = 0x380;

pub(crate) const CURRENT_COUNT: u32 = 0x390;

const DIVIDE_CONFIGURATION: u32 = 0x3E0;

pub(crate) fn initial_count(lapic: &Lapic) -> u32
    ensures { result ≡ lapic.now.timer_initial }
{
    lapic.read(INITIAL_COUNT)
}

fn lvt_timer(lapic: &Lapic) -> u32
    ensures { result ≡ lapic.now.lvt_timer }
{
    lapic.read(LVT_TIMER)
}

fn divide_configuration(lapic: &Lapic) -> u32
    ensures { result ≡ lapic.now.timer_divide }
{
    lapic.read(DIVIDE_CONFIGURATION)
}

fn spurious_vector(lapic: &Lapic) -> u32
    ensures { result ≡ lapic.now.svr }
{
    lapic.read(SVR)
}

fn is_enabled(lapic: &Lapic) -> bool
    ensures { result ≡ is_enabled_of lapic.now }
{
    spurious_vector(lapic) >> 8 & 1 == 1
}

/// A word of IRR, of which there are eight.
fn irr_word(lapic: &Lapic, k: u8) -> u32
    requires { k < 8 }
    ensures { result ≡ word_of lapic.now.irr k }
{
    lapic.read(IRR + 0x10 * k as u32)
}

/// Whether a bit of a word is 1.
fn is_set(word: u32, bit: u8) -> bool
    requires { bit < 32 }
    ensures { result ≡ (bit_at word bit == 1) }
{
    word >> bit & 1 == 1
}

/// Whether a vector is requested.
fn is_requested(lapic: &Lapic, vector: u8) -> bool
    ensures { result ≡ has lapic.now.irr vector }
{
    is_set(irr_word(lapic, vector / 32), vector % 32)
}

/// Bits 3, 1 and 0 of the divide configuration, which are one number.
fn divide_code(lapic: &Lapic) -> u32
    ensures code { result ≡ spec.divide_code lapic.now }
    ensures small { result < 8 }
{
    let register = divide_configuration(lapic);
    (register & 1) + 2 * (register >> 1 & 1) + 4 * (register >> 3 & 1)
}

/// What the timer's clock is divided by: 1 to 128.
///
/// Source: Intel SDM volume 3, figure 10-10.
#[tactic(auto, unfolding(crate::specs::Timers::divide_of), using(crate::proofs::Spans::doubled_steps))]
pub(crate) fn divide(lapic: &Lapic) -> u64
    ensures value { result ≡ spec.divide_of lapic.now }
    ensures some { 1 ≤ result }
    ensures most { result ≤ 128 }
{
    let k = divide_code(lapic);
    if k == 7 { 1 } else { 2 << k }
}

/// How many instructions a period of the timer has, below 2^39.
#[tactic(auto, using(crate::proofs::Spans::product_steps))]
pub(crate) fn span(lapic: &Lapic) -> u64
    ensures value { result ≡ spec.span_of lapic.now }
    ensures small { result < 2 ^ 39 }
    ensures some { 1 ≤ lapic.now.timer_initial → 1 ≤ result }
{
    u64::from(initial_count(lapic)) * divide(lapic)
}

/// The period of a timer that begins again, and 0 for one that fires once.
pub(crate) fn period(lapic: &Lapic) -> u64
    ensures value { result ≡ spec.period_of lapic.now }
    ensures small { result < 2 ^ 40 }
{
    if lvt_timer(lapic) >> 17 & 1 == 1 {
        span(lapic)
    } else {
        0
    }
}

/// The vector that the timer posts.
pub(crate) fn vector(lapic: &Lapic) -> u8
    ensures { result ≡ spec.vector_of lapic.now }
{
    (lvt_timer(lapic) % 256) as u8
}

/// Whether the timer posts nothing.
pub(crate) fn is_masked(lapic: &Lapic) -> bool
    ensures { result ≡ spec.is_masked lapic.now }
{
    lvt_timer(lapic) >> 16 & 1 == 1
}

/// Whether a vector that the timer posts would be requested anew.
pub(crate) fn is_heard(lapic: &Lapic) -> bool
    ensures { result ≡ spec.is_heard lapic.now }
{
    let vector = vector(lapic);
    !is_masked(lapic) && vector >= 16 && is_enabled(lapic) && !is_requested(lapic, vector)
}
