//! Instructions with an operand in memory, or on the stack, and those on registers and flags alone.
ghost use Rattle.std.specs.Prelude.{◌≡◌, ◌≤◌, ◌+◌, OnErr, IfOk, IsTrue, Ok, None, Some, length};
ghost use Rattle.vm_law.specs.declared.context.Ctx.{Ctx};
ghost use Rattle.x86_op.specs.Access.{IsLength, access_of};
ghost use Rattle.vm_bus.specs.Area.{area_in};
ghost use Rattle.x86_op.specs.Table.{NeverFaults};
ghost use Rattle.x86_op.specs.declared.access.Way.TheVariants as way;
ghost use Rattle.x86_exec.specs.Kept.{IsDoneAs, outcome, Stores};
ghost use Rattle.x86_exec.specs.declared.effect.Effect.TheVariants as effect;
ghost use Rattle.x86_exec.specs.declared.reached.Place.TheVariants as place;
ghost use Rattle.x86_exec.specs.Reached.{IsThere, is_memory};
ghost use Rattle.x86_exec.specs.Shared as spec;

use crate::effect::{Effect, NotDone, Performed, Stored};
use crate::number::{load, store};
use crate::reached::{Place, is_in_memory, reach};
use vm_law::{Bytes, Ctx, Insn, Op, Width};
use x86_op::{Access, Way, access_of, compute, faults, matches_accumulator, plain_access};

#[inline(always)]
#[tactic(auto, unfolding(crate::specs::Shared::is_plain_op))]
fn is_plain(insn: &Insn) -> bool
    ensures { result ≡ spec.is_plain insn.now }
{
    match (&insn.op, insn.width) {
        (Op::Mov(..), Width::D) => true,
        _ => false,
    }
}

#[inline(always)]
#[tactic(auto, unfolding(crate::specs::Shared::number_at))]
fn number_at<B: Bytes>(bytes: &B, access: &Access, place: Place) -> Result<u64, Effect>
    requires length { IsLength access.now.len }
    requires there { IsThere (B.memory bytes.now) access.now.at access.now.len place }
    ensures { result ≡ spec.number_at (B.memory bytes.now) access.now place }
{
    match place {
        Place::Memory => Ok(load(bytes, access.at, access.len)),
        Place::Window(area) => Err(Effect::Load { area }),
    }
}

/// What is loaded; nothing for a mere store.
#[inline(always)]
#[tactic(auto, unfolding(crate::specs::Shared::loaded))]
fn loaded<B: Bytes>(bytes: &B, access: &Access, place: Place) -> Result<u64, Effect>
    requires length { IsLength access.now.len }
    requires there { IsThere (B.memory bytes.now) access.now.at access.now.len place }
    ensures { result ≡ spec.loaded (B.memory bytes.now) access.now place access.now.way }
{
    match access.way {
        Way::Store => Ok(0),
        Way::Load | Way::Modify | Way::Compare => number_at(bytes, access, place),
    }
}

/// A division that can't be done is #DE.
#[inline(always)]
#[tactic(auto, unfolding(crate::specs::Shared::divides))]
fn divides(ctx: &Ctx, insn: &Insn, read: u64) -> Result<(), Effect>
    ensures { result ≡ spec.divides ctx.now insn.now read }
{
    if faults(ctx, insn, read) {
        return Err(Effect::Trap {
            vector: 0,
            error: None,
        });
    }
    Ok(())
}

/// Whether there is a store: CMPXCHG stores where it finds what the accumulator holds.
#[inline(always)]
#[tactic(auto, unfolding(crate::specs::Shared::stores))]
fn stores(ctx: &Ctx, insn: &Insn, read: u64, way: Way) -> bool
    ensures { result ≡ spec.stores ctx.now insn.now read way }
{
    match way {
        Way::Load => false,
        Way::Store | Way::Modify => true,
        Way::Compare => matches_accumulator(ctx, insn, read),
    }
}

/// Stores a number in memory or at a device.
#[inline(always)]
#[tactic(auto, unfolding(crate::specs::Shared::stored_at))]
fn store_at<B: Bytes>(bytes: &mut B, access: &Access, place: Place, number: u64) -> Performed
    requires length { IsLength access.now.len }
    requires there { IsThere (B.memory bytes.old) access.now.at access.now.len place }
    requires room { 2 ≤ B.spare bytes.old }
    ensures shared { (c : Ctx) → record { effect = result.effect; ctx = c; memory = B.memory bytes.new; stored = result.stored } ≡ spec.stored_at (B.memory bytes.old) access.now (record { ctx = c; stored = number }) place }
    ensures stores { Stores result.stored (B.memory bytes.old) (B.memory bytes.new) }
    ensures room { B.spare bytes.old ≤ B.spare bytes.new + 2 }
{
    match place {
        Place::Memory => {
            store(bytes, access.at, access.len, number);
            Performed {
                effect: Effect::Done,
                stored: Some(Stored {
                    at: access.at,
                    len: access.len,
                }),
            }
        }
        Place::Window(area) => Performed::asking(Effect::Store {
            area,
            value: (number & 0xFFFF_FFFF) as u32,
        }),
    }
}

#[inline(always)]
#[tactic(auto, unfolding(crate::specs::Shared::accessed, crate::specs::Shared::ended))]
fn accessed<B: Bytes>(
    ctx: &mut Ctx,
    insn: &Insn,
    len: u8,
    bytes: &mut B,
    access: &Access,
) -> Result<Performed, Effect>
    requires length { IsLength access.now.len }
    requires room { 2 ≤ B.spare bytes.old }
    ensures outcome { outcome result ctx.new (B.memory bytes.new) ≡ spec.accessed ctx.old insn.now len (B.memory bytes.old) access.now }
    ensures refused { OnErr result ((ctx.new ≡ ctx.old) × (bytes.new ≡ bytes.old)) }
    ensures stores { IfOk result (λ p. Stores p.stored (B.memory bytes.old) (B.memory bytes.new)) }
    ensures room { B.spare bytes.old ≤ B.spare bytes.new + 2 }
{
    let place = reach(bytes, is_plain(insn), access.at, access.len)?;
    let read = loaded(bytes, access, place)?;
    divides(ctx, insn, read)?;
    let stores = stores(ctx, insn, read, access.way);
    let number = compute(ctx, insn, len, read);
    if stores {
        Ok(store_at(bytes, access, place, number))
    } else {
        Ok(Performed::asking(Effect::Done))
    }
}

/// What is loaded from memory; nothing for a mere store.
#[inline(always)]
#[tactic(auto, unfolding(crate::specs::Shared::loaded, crate::specs::Shared::number_at))]
fn read_from<B: Bytes>(bytes: &B, access: &Access) -> u64
    requires length { IsLength access.now.len }
    requires inside { access.now.at + access.now.len ≤ length (B.memory bytes.now).bytes }
    ensures { spec.loaded (B.memory bytes.now) access.now place.Memory access.now.way ≡ Ok result }
{
    match access.way {
        Way::Store => 0,
        Way::Load | Way::Modify | Way::Compare => load(bytes, access.at, access.len),
    }
}

/// Makes an access to memory; one that a division follows which can't be done isn't made.
#[inline(never)]
fn access_done<B: Bytes>(
    ctx: &mut Ctx,
    insn: &Insn,
    len: u8,
    bytes: &mut B,
    access: &Access,
) -> Result<Option<Stored>, NotDone>
    requires length { IsLength access.now.len }
    requires room { 2 ≤ B.spare bytes.old }
    ensures done { IsDoneAs result (spec.accessed ctx.old insn.now len (B.memory bytes.old) access.now) ctx.new (B.memory bytes.new) }
    ensures same { OnErr result ((ctx.new ≡ ctx.old) × (bytes.new ≡ bytes.old)) }
    ensures stores { IfOk result (λ stored. Stores stored (B.memory bytes.old) (B.memory bytes.new)) }
    ensures room { B.spare bytes.old ≤ B.spare bytes.new + 2 }
{
    if !is_in_memory(bytes, access.at, access.len) {
        return Err(NotDone);
    }
    let read = read_from(bytes, access);
    if faults(ctx, insn, read) {
        return Err(NotDone);
    }
    let stores = stores(ctx, insn, read, access.way);
    let number = compute(ctx, insn, len, read);
    if stores {
        store(bytes, access.at, access.len, number);
        Ok(Some(Stored {
            at: access.at,
            len: access.len,
        }))
    } else {
        Ok(None)
    }
}

/// On registers and flags alone.
#[inline(never)]
#[tactic(auto, unfolding(crate::specs::Shared::alone))]
fn alone<B: Bytes>(ctx: &mut Ctx, insn: &Insn, len: u8, bytes: &B) -> Result<Performed, Effect>
    ensures outcome { outcome result ctx.new (B.memory bytes.now) ≡ spec.alone ctx.old insn.now len (B.memory bytes.now) }
    ensures refused { OnErr result (ctx.new ≡ ctx.old) }
    ensures stores { IfOk result (λ p. Stores p.stored (B.memory bytes.now) (B.memory bytes.now)) }
{
    divides(ctx, insn, 0)?;
    compute(ctx, insn, len, 0);
    Ok(Performed::asking(Effect::Done))
}

/// On registers and flags alone, unless it is a division that can't be done.
#[inline(never)]
#[tactic(auto, unfolding(crate::specs::Shared::alone, crate::specs::Shared::divides))]
fn alone_done<B: Bytes>(
    ctx: &mut Ctx,
    insn: &Insn,
    len: u8,
    bytes: &B,
) -> Result<Option<Stored>, NotDone>
    ensures done { IsDoneAs result (spec.alone ctx.old insn.now len (B.memory bytes.now)) ctx.new (B.memory bytes.now) }
    ensures same { OnErr result (ctx.new ≡ ctx.old) }
    ensures stores { IfOk result (λ stored. stored ≡ None) }
{
    if faults(ctx, insn, 0) {
        return Err(NotDone);
    }
    compute(ctx, insn, len, 0);
    Ok(None)
}

/// Any instruction with the access that it makes, if any, where it is done by itself.
#[inline(never)]
#[tactic(auto, unfolding(crate::specs::Shared::with_access))]
fn any_access_done<B: Bytes>(
    ctx: &mut Ctx,
    insn: &Insn,
    len: u8,
    bytes: &mut B,
) -> Result<Option<Stored>, NotDone>
    requires room { 2 ≤ B.spare bytes.old }
    ensures done { IsDoneAs result (spec.with_access ctx.old insn.now len (B.memory bytes.old) (access_of ctx.old insn.now len)) ctx.new (B.memory bytes.new) }
    ensures same { OnErr result ((ctx.new ≡ ctx.old) × (bytes.new ≡ bytes.old)) }
    ensures stores { IfOk result (λ stored. Stores stored (B.memory bytes.old) (B.memory bytes.new)) }
    ensures room { B.spare bytes.old ≤ B.spare bytes.new + 2 }
{
    match access_of(ctx, insn, len) {
        None => alone_done(ctx, insn, len, bytes),
        Some(access) => access_done(ctx, insn, len, bytes, &access),
    }
}

/// Loads `size` bytes from an address, which no division follows, and runs the instruction that asks for them.
#[inline(never)]
fn load_done<B: Bytes>(ctx: &mut Ctx, insn: &Insn, len: u8, bytes: &B, at: u64, size: u8)
    requires length { IsLength size }
    requires memory { IsTrue (is_memory (area_in (B.memory bytes.now) at size)) }
    requires inside { at + size ≤ length (B.memory bytes.now).bytes }
    requires divides { NeverFaults insn.now }
    ensures { spec.accessed ctx.old insn.now len (B.memory bytes.now) (record { way = way.Load; at = at; len = size })
        ≡ Ok (spec.asks effect.Done ctx.new (B.memory bytes.now)) }
{
    let read = load(bytes, at, size);
    compute(ctx, insn, len, read);
}

/// Runs an instruction that stores `size` bytes at an address and loads none, and behind which no division can fail.
#[inline(never)]
fn store_done<B: Bytes>(ctx: &mut Ctx, insn: &Insn, len: u8, bytes: &mut B, at: u64, size: u8)
    requires length { IsLength size }
    requires memory { IsTrue (is_memory (area_in (B.memory bytes.old) at size)) }
    requires inside { at + size ≤ length (B.memory bytes.old).bytes }
    requires divides { NeverFaults insn.now }
    requires room { 2 ≤ B.spare bytes.old }
    ensures done { spec.accessed ctx.old insn.now len (B.memory bytes.old) (record { way = way.Store; at = at; len = size })
        ≡ Ok (record { effect = effect.Done; ctx = ctx.new; memory = B.memory bytes.new; stored = Some (record { at = at; len = size }) }) }
    ensures stores { Stores (Some (record { at = at; len = size })) (B.memory bytes.old) (B.memory bytes.new) }
    ensures room { B.spare bytes.old ≤ B.spare bytes.new + 2 }
{
    let number = compute(ctx, insn, len, 0);
    store(bytes, at, size, number);
}

/// Makes an access to memory that no division follows.
#[inline(always)]
fn plain_done<B: Bytes>(
    ctx: &mut Ctx,
    insn: &Insn,
    len: u8,
    bytes: &mut B,
    access: &Access,
) -> Result<Option<Stored>, NotDone>
    requires length { IsLength access.now.len }
    requires some { 1 ≤ access.now.len }
    requires divides { NeverFaults insn.now }
    requires room { 2 ≤ B.spare bytes.old }
    ensures done { IsDoneAs result (spec.accessed ctx.old insn.now len (B.memory bytes.old) access.now) ctx.new (B.memory bytes.new) }
    ensures same { OnErr result ((ctx.new ≡ ctx.old) × (bytes.new ≡ bytes.old)) }
    ensures stores { IfOk result (λ stored. Stores stored (B.memory bytes.old) (B.memory bytes.new)) }
    ensures room { B.spare bytes.old ≤ B.spare bytes.new + 2 }
{
    if !is_in_memory(bytes, access.at, access.len) {
        return Err(NotDone);
    }
    match access.way {
        Way::Load => {
            load_done(ctx, insn, len, bytes, access.at, access.len);
            Ok(None)
        }
        Way::Store => {
            store_done(ctx, insn, len, bytes, access.at, access.len);
            Ok(Some(Stored {
                at: access.at,
                len: access.len,
            }))
        }
        Way::Modify | Way::Compare => access_done(ctx, insn, len, bytes, access),
    }
}

/// An instruction with the access that it makes, if any, where it is done by itself. What guests run most has code of its own.
#[inline(always)]
#[tactic(auto, unfolding(crate::specs::Shared::with_access))]
pub(crate) fn with_access_done<B: Bytes>(
    ctx: &mut Ctx,
    insn: &Insn,
    len: u8,
    bytes: &mut B,
) -> Result<Option<Stored>, NotDone>
    requires room { 2 ≤ B.spare bytes.old }
    ensures done { IsDoneAs result (spec.with_access ctx.old insn.now len (B.memory bytes.old) (access_of ctx.old insn.now len)) ctx.new (B.memory bytes.new) }
    ensures same { OnErr result ((ctx.new ≡ ctx.old) × (bytes.new ≡ bytes.old)) }
    ensures stores { IfOk result (λ stored. Stores stored (B.memory bytes.old) (B.memory bytes.new)) }
    ensures room { B.spare bytes.old ≤ B.spare bytes.new + 2 }
{
    match plain_access(ctx, insn, len) {
        Some(access) => plain_done(ctx, insn, len, bytes, &access),
        None => any_access_done(ctx, insn, len, bytes),
    }
}

/// An instruction with the access that it makes, if any.
#[tactic(auto, unfolding(crate::specs::Shared::with_access))]
pub(crate) fn with_access<B: Bytes>(
    ctx: &mut Ctx,
    insn: &Insn,
    len: u8,
    bytes: &mut B,
) -> Result<Performed, Effect>
    requires room { 2 ≤ B.spare bytes.old }
    ensures outcome { outcome result ctx.new (B.memory bytes.new) ≡ spec.with_access ctx.old insn.now len (B.memory bytes.old) (access_of ctx.old insn.now len) }
    ensures refused { OnErr result ((ctx.new ≡ ctx.old) × (bytes.new ≡ bytes.old)) }
    ensures stores { IfOk result (λ p. Stores p.stored (B.memory bytes.old) (B.memory bytes.new)) }
    ensures room { B.spare bytes.old ≤ B.spare bytes.new + 2 }
{
    match access_of(ctx, insn, len) {
        None => alone(ctx, insn, len, bytes),
        Some(access) => accessed(ctx, insn, len, bytes, &access),
    }
}
