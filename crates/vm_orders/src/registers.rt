//! The registers of a vCPU by their numbers: 0 to 15 as in a context, RIP 16, RFLAGS 17.
ghost use Rattle.std.specs.Prelude.{◌≡◌, ◌<◌};
ghost use Rattle.vm_orders.specs.Done as spec;

use vm_law::Ctx;
use x86_op::masked_flags;

/// The number of RIP.
const RIP: u8 = 16;

/// The number of RFLAGS.
const RFLAGS: u8 = 17;

/// What a register has.
pub(crate) fn register_of(ctx: &Ctx, reg: u8) -> u64
    requires { reg < 18 }
    ensures { result ≡ spec.register_of ctx.now reg }
{
    if reg == RIP {
        ctx.rip
    } else if reg == RFLAGS {
        ctx.rflags
    } else {
        ctx.regs[reg as usize]
    }
}

/// Gives a register another value. Of RFLAGS only the bits that are built are taken.
pub(crate) fn set_register(ctx: &mut Ctx, reg: u8, value: u64)
    requires { reg < 18 }
    ensures { ctx.new ≡ spec.with_register ctx.old reg value }
{
    if reg == RIP {
        ctx.rip = value;
    } else if reg == RFLAGS {
        ctx.rflags = masked_flags(value);
    } else {
        ctx.regs[reg as usize] = value;
    }
}
