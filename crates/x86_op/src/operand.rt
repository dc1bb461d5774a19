//! Operands: registers, immediates, and the value at the operand in memory. A result of 32 bits clears the upper half of
//! its register, one of 8 or 16 bits leaves the rest. Source: Intel SDM volume 1, sections 3.4.1 and 3.4.1.1.
ghost use Rattle.std.specs.Prelude.{◌≡◌, ◌%◌, ◌^◌, ◌<◌};
ghost use Rattle.x86_alu.specs.Operand.{span};
ghost use Rattle.x86_op.specs.Operand as spec;

use vm_law::{Ctx, Loc, Src, Width};

/// The low bits of a number, as many as an operand has.
#[inline(always)]
pub fn truncated(width: Width, number: u64) -> u64
    ensures result { result ≡ number % span width }
    ensures fits { result < span width }
{
    match width {
        Width::B => number & 0xFF,
        Width::W => number & 0xFFFF,
        Width::D => number & 0xFFFF_FFFF,
        Width::Q => number,
    }
}

/// A general register by its number, 0 to 15. A greater number has no register, and reads as 0.
/// Source: Intel SDM volume 1, section 3.4.1.
#[inline(always)]
#[tactic(auto, unfolding(crate::specs::Operand::register))]
pub fn register(ctx: &Ctx, r: u8) -> u64
    ensures { result ≡ spec.register ctx.now r }
{
    if r < 16 { ctx.regs[usize::from(r)] } else { 0 }
}

/// Writes a general register by its number, 0 to 15. With a greater number nothing is written.
/// Source: Intel SDM volume 1, section 3.4.1.
#[inline(always)]
#[tactic(auto, unfolding(crate::specs::Operand::with_register))]
pub fn set_register(ctx: &mut Ctx, r: u8, value: u64)
    ensures { ctx.new ≡ spec.with_register ctx.old r value }
{
    if r < 16 {
        ctx.regs[usize::from(r)] = value;
    }
}

/// A register after a result of this width.
#[inline(always)]
#[tactic(auto, unfolding(crate::specs::Operand::merged))]
pub(crate) fn merged(width: Width, old: u64, value: u64) -> u64
    requires { value < span width }
    ensures { result ≡ spec.merged width old value }
{
    match width {
        Width::B => old / 0x100 * 0x100 + value,
        Width::W => old / 0x1_0000 * 0x1_0000 + value,
        Width::D | Width::Q => value,
    }
}

// A register after a result for its bits 8 to 15.
#[tactic(auto, unfolding(crate::specs::Operand::with_second))]
fn with_second(old: u64, value: u64) -> u64
    requires { value < 2 ^ 8 }
    ensures { result ≡ spec.with_second old value }
{
    old / 0x1_0000 * 0x1_0000 + value * 0x100 + old % 0x100
}

/// An immediate in two's complement.
#[inline(always)]
#[tactic(auto, unfolding(crate::specs::Operand::immediate))]
pub(crate) fn immediate(width: Width, value: i64) -> u64
    ensures result { result ≡ spec.immediate width value }
    ensures fits { result < span width }
{
    truncated(width, value.cast_unsigned())
}

/// The value of an operand of `width`; `read` is what was read at the operand in memory, where it is there.
/// Source: Intel SDM volume 1, section 3.4.1.1.
#[inline(always)]
#[tactic(auto, unfolding(crate::specs::Operand::value_at))]
pub fn value_at(ctx: &Ctx, width: Width, read: u64, loc: &Loc) -> u64
    ensures result { result ≡ spec.value_at ctx.now width read loc.now }
    ensures fits { result < span width }
{
    match *loc {
        Loc::Reg(r) => truncated(width, register(ctx, r)),
        Loc::High(r) => register(ctx, r) / 0x100 % 0x100,
        Loc::Mem(_) => truncated(width, read),
    }
}

/// The value of an operand that is a place or an immediate.
#[inline(always)]
#[tactic(auto, unfolding(crate::specs::Operand::source_at))]
pub(crate) fn source_at(ctx: &Ctx, width: Width, read: u64, src: &Src) -> u64
    ensures result { result ≡ spec.source_at ctx.now width read src.now }
    ensures fits { result < span width }
{
    match src {
        Src::Loc(loc) => value_at(ctx, width, read, loc),
        Src::Imm(value) => immediate(width, *value),
    }
}

/// The same, where a register or an immediate is looked for first.
#[inline(always)]
#[tactic(auto, unfolding(crate::specs::Operand::source_at, crate::specs::Operand::value_at))]
pub(crate) fn quick_source_at(ctx: &Ctx, width: Width, read: u64, src: &Src) -> u64
    ensures result { result ≡ spec.source_at ctx.now width read src.now }
    ensures fits { result < span width }
{
    match src {
        Src::Loc(Loc::Reg(r)) => truncated(width, register(ctx, *r)),
        Src::Imm(value) => immediate(width, *value),
        Src::Loc(_) => any_source_at(ctx, width, read, src),
    }
}

#[inline(never)]
fn any_source_at(ctx: &Ctx, width: Width, read: u64, src: &Src) -> u64
    ensures result { result ≡ spec.source_at ctx.now width read src.now }
    ensures fits { result < span width }
{
    source_at(ctx, width, read, src)
}

/// Writes a result of `width` into its register: 32 bits clear the upper half, 8 and 16 bits leave the rest, and a result
/// for AH, CH, DH or BH goes to bits 8 to 15. One for memory is for the caller to store, and changes nothing here.
/// Source: Intel SDM volume 1, section 3.4.1.1.
#[inline(always)]
#[tactic(auto, unfolding(crate::specs::Operand::with_value))]
pub fn set_value(ctx: &mut Ctx, width: Width, loc: &Loc, value: u64)
    requires { value < span width }
    ensures { ctx.new ≡ spec.with_value ctx.old width loc.now value }
{
    match *loc {
        Loc::Reg(r) => {
            let old = register(ctx, r);
            set_register(ctx, r, merged(width, old, value));
        }
        Loc::High(r) => {
            let old = register(ctx, r);
            set_register(ctx, r, with_second(old, value % 0x100));
        }
        Loc::Mem(_) => {}
    }
}

/// The place of the upper half of a double operand.
#[tactic(auto, unfolding(crate::specs::Operand::upper_half))]
pub(crate) fn upper_half(width: Width) -> Loc
    ensures { result ≡ spec.upper_half width }
{
    match width {
        Width::B => Loc::High(0),
        Width::W | Width::D | Width::Q => Loc::Reg(2),
    }
}

/// Writes a double operand.
#[tactic(auto, unfolding(crate::specs::Operand::with_pair))]
pub(crate) fn set_pair(ctx: &mut Ctx, width: Width, lower: u64, upper: u64)
    requires lower_fits { lower < span width }
    requires upper_fits { upper < span width }
    ensures { ctx.new ≡ spec.with_pair ctx.old width lower upper }
{
    set_value(ctx, width, &Loc::Reg(0), lower);
    set_value(ctx, width, &upper_half(width), upper);
}

/// Goes behind an instruction of `len` bytes, and holds no interrupt off.
#[inline(always)]
#[tactic(auto, unfolding(crate::specs::Operand::passed))]
pub fn pass(ctx: &mut Ctx, len: u8)
    ensures { ctx.new ≡ spec.passed ctx.old len }
{
    ctx.rip = ctx.rip.wrapping_add(u64::from(len));
    ctx.shadow = false;
}
