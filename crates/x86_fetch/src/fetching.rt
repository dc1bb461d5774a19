//! What a vCPU's next instruction is.
ghost use Rattle.std.specs.Prelude.{◌≡◌};
ghost use Rattle.x86_decode.specs.Reading.{decoded};
ghost use Rattle.x86_fetch.specs.Fetching as spec;
ghost use Rattle.x86_fetch.specs.Kept.{AreKept};

use crate::code::Code;
use crate::table::{Found, Table};
use vm_law::{Ctx, Insn};
use x86_decode::{DecodeFault, decode};
use x86_op::is_local;

/// What stands at RIP.
#[derive(Clone, Copy, PartialEq, Eq)]
pub enum Next {
    /// An instruction of `len` bytes that touches the vCPU's own registers alone, and can be done.
    Local { insn: Insn, len: u8 },
    /// Another instruction of `len` bytes.
    Shared { insn: Insn, len: u8 },
    /// Bytes that no instruction spells.
    Undefined,
    /// The end of the code, before an instruction ends.
    OutOfCode,
}

/// What the bytes that are fetched at an address decode as.
pub(crate) fn decode_at<C: Code>(code: &C, at: u64) -> Result<(Insn, u8), DecodeFault>
    ensures { result ≡ decoded (spec.fetched (C.bytes code.now) at) }
{
    let mut bytes = [0; 15];
    let count = code.fetch(at, &mut bytes);
    decode(&bytes[..count])
}

/// What stands at RIP of a context. A division that faults in this context isn't local.
#[tactic(auto, unfolding(crate::specs::Fetching::next_of))]
pub fn next_of<C: Code>(code: &C, table: &Table, ctx: &Ctx) -> Next
    requires { AreKept (C.bytes code.now) table.now }
    ensures next { result ≡ spec.next_of (C.bytes code.now) ctx.now }
    ensures found { spec.IsFound ctx.now result }
{
    match table.kept(ctx.rip) {
        Some(found) => found.next(ctx),
        None => next_anew(code, ctx),
    }
}

/// The same, without a table.
#[tactic(auto, unfolding(crate::specs::Fetching::next_of))]
fn next_anew<C: Code>(code: &C, ctx: &Ctx) -> Next
    ensures next { result ≡ spec.next_of (C.bytes code.now) ctx.now }
    ensures found { spec.IsFound ctx.now result }
{
    match decode_at(code, ctx.rip) {
        Ok((insn, len)) => {
            let local = is_local(&insn);
            Found { insn, len, local }.next(ctx)
        }
        Err(DecodeFault::Short) => Next::OutOfCode,
        Err(DecodeFault::Unknown) => Next::Undefined,
    }
}

/// What stands at RIP of a context. It is kept in the table where it isn't yet.
#[inline(always)]
#[tactic(auto, unfolding(crate::specs::Fetching::next_of))]
pub fn next_kept<C: Code>(code: &C, table: &mut Table, ctx: &Ctx) -> Next
    requires { AreKept (C.bytes code.now) table.old }
    ensures kept { AreKept (C.bytes code.now) table.new }
    ensures next { result ≡ spec.next_of (C.bytes code.now) ctx.now }
    ensures found { spec.IsFound ctx.now result }
{
    match table.kept(ctx.rip) {
        Some(found) => found.next(ctx),
        None => next_to_keep(code, table, ctx),
    }
}

/// The same where it isn't kept yet.
#[inline(never)]
fn next_to_keep<C: Code>(code: &C, table: &mut Table, ctx: &Ctx) -> Next
    requires { AreKept (C.bytes code.now) table.old }
    ensures kept { AreKept (C.bytes code.now) table.new }
    ensures next { result ≡ spec.next_of (C.bytes code.now) ctx.now }
    ensures found { spec.IsFound ctx.now result }
{
    keep_at(code, table, ctx.rip);
    next_of(code, table, ctx)
}

/// Decodes the instruction at an address, where one stands there and isn't kept yet, and keeps it.
pub fn keep_at<C: Code>(code: &C, table: &mut Table, at: u64)
    requires { AreKept (C.bytes code.now) table.old }
    ensures { AreKept (C.bytes code.now) table.new }
{
    if table.kept(at).is_none() {
        if let Ok((insn, len)) = decode_at(code, at) {
            table.keep(at, insn, len);
        }
    }
}
