//! Local instructions in a row.
ghost use Rattle.std.specs.Prelude.{◌≡◌};
ghost use Rattle.x86_fetch.specs.Kept.{AreKept};
ghost use Rattle.x86_fetch.specs.Slices as spec;

use crate::code::Code;
use crate::fetching::{Next, keep_at, next_of};
use crate::table::Table;
use vm_law::Ctx;
use x86_op::{faults, run_local};

/// Runs the next instruction where it is local, and says whether it is. It looks into the table and leaves it as it is.
#[tactic(auto, unfolding(crate::specs::Fetching::next_of, crate::specs::Slices::stepped, crate::specs::Slices::stands_local))]
pub fn look_local<C: Code>(code: &C, table: &Table, ctx: &mut Ctx) -> bool
    requires { AreKept (C.bytes code.now) table.now }
    ensures local { result ≡ spec.stands_local (C.bytes code.now) ctx.old }
    ensures ctx { ctx.new ≡ spec.stepped (C.bytes code.now) ctx.old }
{
    match table.kept(ctx.rip) {
        Some(found) => {
            if found.local {
                run_local(ctx, &found.insn, found.len)
            } else {
                false
            }
        }
        None => run_next(code, table, ctx),
    }
}

/// The same where the instruction isn't kept.
#[inline(never)]
#[tactic(auto, unfolding(crate::specs::Slices::stepped, crate::specs::Slices::stands_local))]
fn run_next<C: Code>(code: &C, table: &Table, ctx: &mut Ctx) -> bool
    requires { AreKept (C.bytes code.now) table.now }
    ensures local { result ≡ spec.stands_local (C.bytes code.now) ctx.old }
    ensures ctx { ctx.new ≡ spec.stepped (C.bytes code.now) ctx.old }
{
    match next_of(code, table, ctx) {
        Next::Local { insn, len } => {
            run_local(ctx, &insn, len);
            true
        }
        Next::Shared { .. } | Next::Undefined | Next::OutOfCode => false,
    }
}

/// Runs the next instruction where it is local, and says whether it is. It is kept in the table.
#[inline(always)]
#[tactic(auto, unfolding(crate::specs::Fetching::next_of, crate::specs::Slices::stepped, crate::specs::Slices::stands_local))]
pub fn step_local<C: Code>(code: &C, table: &mut Table, ctx: &mut Ctx) -> bool
    requires { AreKept (C.bytes code.now) table.old }
    ensures kept { AreKept (C.bytes code.now) table.new }
    ensures local { result ≡ spec.stands_local (C.bytes code.now) ctx.old }
    ensures ctx { ctx.new ≡ spec.stepped (C.bytes code.now) ctx.old }
{
    match table.kept(ctx.rip) {
        Some(found) => {
            if found.local {
                run_local(ctx, &found.insn, found.len)
            } else {
                false
            }
        }
        None => step_anew(code, table, ctx),
    }
}

/// The same where the instruction isn't kept yet.
#[inline(never)]
fn step_anew<C: Code>(code: &C, table: &mut Table, ctx: &mut Ctx) -> bool
    requires { AreKept (C.bytes code.now) table.old }
    ensures kept { AreKept (C.bytes code.now) table.new }
    ensures local { result ≡ spec.stands_local (C.bytes code.now) ctx.old }
    ensures ctx { ctx.new ≡ spec.stepped (C.bytes code.now) ctx.old }
{
    keep_at(code, table, ctx.rip);
    run_next(code, table, ctx)
}

/// Whether the next instruction is local.
#[tactic(auto, unfolding(crate::specs::Fetching::next_of, crate::specs::Slices::stands_local))]
pub fn stands_local<C: Code>(code: &C, table: &Table, ctx: &Ctx) -> bool
    requires { AreKept (C.bytes code.now) table.now }
    ensures { result ≡ spec.stands_local (C.bytes code.now) ctx.now }
{
    match table.kept(ctx.rip) {
        Some(found) => found.local && !faults(ctx, &found.insn, 0),
        None => matches!(next_of(code, table, ctx), Next::Local { .. }),
    }
}

/// Whether the next `count` instructions are local, each in its own context.
#[tactic(auto, using(crate::proofs::Steps::all_local_fails))]
pub fn all_local<C: Code>(code: &C, table: &Table, ctx: &Ctx, count: u16) -> bool
    requires { AreKept (C.bytes code.now) table.now }
    ensures { result ≡ spec.all_local (C.bytes code.now) ctx.now count }
{
    let mut at = *ctx;
    for _done in 0..count {
        if !look_local(code, table, &mut at) {
            return false;
        }
    }
    true
}

/// Runs local instructions for as long as there are any, but at most `most`, and says how many it ran.
pub fn run_slice<C: Code>(code: &C, table: &mut Table, ctx: &mut Ctx, most: u16) -> u16
    requires { AreKept (C.bytes code.now) table.old }
    ensures kept { AreKept (C.bytes code.now) table.new }
    ensures ran { spec.LocalRun (C.bytes code.now) ctx.old result ctx.new }
    ensures most { result ≡ spec.most_local (C.bytes code.now) ctx.old most }
{
    for done in 0..most {
        if !step_local(code, table, ctx) {
            return done;
        }
    }
    most
}

/// Runs that many instructions. One that isn't local is left out, and so are those behind it.
pub fn run_many<C: Code>(code: &C, table: &mut Table, ctx: &mut Ctx, count: u16)
    requires { AreKept (C.bytes code.now) table.old }
    ensures kept { AreKept (C.bytes code.now) table.new }
    ensures ctx { ctx.new ≡ spec.stepped_by (C.bytes code.now) ctx.old count }
{
    for _done in 0..count {
        step_local(code, table, ctx);
    }
}
