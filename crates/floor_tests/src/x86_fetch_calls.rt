ghost use Rattle.std.specs.Prelude.{◌≤◌};

use guest_ram::GuestRam;
use std::test::Fail;
use vm_law::{Bytes, Ctx, FlatImage, Seq};
use x86_exec::{NotDone, Stored};
use x86_fetch::{
    CachedRam, Code, Next, Table, all_local, keep_at, look_local, next_of, run_many, run_slice,
    stands_local, step_local, writes_change_only,
};

/// mov eax, 5; add eax, eax; hlt.
const CODE: [u8; 8] = [0xB8, 5, 0, 0, 0, 0x01, 0xC0, 0xF4];

const START: Ctx = Ctx {
    regs: [0; 16],
    rip: 0,
    rflags: 2,
    idt_base: 0,
    idt_limit: 0,
    shadow: false,
    nmi_block: false,
};

/// A mebibyte of memory that begins with the code.
fn memory(rt: &HostRuntime) -> Result<GuestRam, Fail> {
    let payload = Seq::from_slice(rt.alloc(), &CODE)?;
    let image = FlatImage {
        entry: 0,
        code: 8,
        payload,
    };
    Ok(GuestRam::new(rt.alloc(), 1048576, &image)?)
}

/// Two instructions are local, the third isn't, and behind it the code ends.
#[test]
fn a_slice(rt: HostRuntime) -> Result<(), Fail> {
    let ram = memory(&rt)?;
    let mut table = Table::new(rt.alloc())?;
    let mut ctx = START;
    assert!(rt; all_local(&ram, &table, &ctx, 2) && !all_local(&ram, &table, &ctx, 3));
    assert!(rt; stands_local(&ram, &table, &ctx));
    assert!(rt; run_slice(&ram, &mut table, &mut ctx, 9) == 2);
    assert!(rt; ctx.regs[0] == 10 && ctx.rip == 7);
    assert!(rt; matches!(next_of(&ram, &table, &ctx), Next::Shared { len: 1, .. }));
    assert!(rt; !step_local(&ram, &mut table, &mut ctx) && !look_local(&ram, &table, &mut ctx));
    ctx.rip = 8;
    assert!(rt; next_of(&ram, &table, &ctx) == Next::OutOfCode);
    let mut again = START;
    run_many(&ram, &mut table, &mut again, 2);
    assert!(rt; again.regs[0] == 10 && again.rip == 7);
    Ok(())
}

/// What a table keeps, and what it forgets: an instruction that a changed byte may belong to.
#[test]
fn a_table(rt: HostRuntime) -> Result<(), Fail> {
    writes_change_only();
    let ram = memory(&rt)?;
    let mut table = Table::new(rt.alloc())?;
    let mut bytes = [0; 15];
    assert!(rt; Code::fetch(&ram, 5, &mut bytes) == 3);
    keep_at(&ram, &mut table, 5);
    let found = *table.kept(5).ok_or("not kept")?;
    assert!(rt; found.len == 2 && found.local && table.kept(0).is_none());
    table.keep(4101, found.insn, 2);
    assert!(rt; table.kept(5).is_none() && table.kept(4101).is_some());
    table.forget(4116, 1);
    assert!(rt; table.kept(4101).is_some());
    table.forget(4115, 1);
    assert!(rt; table.kept(4101).is_none());
    table.keep(7, found.insn, 1);
    table.clear();
    assert!(rt; table.kept(7).is_none());
    Ok(())
}

/// Memory with a table runs what it kept, and after a write what the bytes are then. A copy runs the same.
#[test]
fn cached_memory(rt: HostRuntime) -> Result<(), Fail> {
    let payload = Seq::from_slice(rt.alloc(), &CODE)?;
    let image = FlatImage {
        entry: 0,
        code: 8,
        payload,
    };
    let mut ram = CachedRam::new(rt.alloc(), 1048576, &image)?;
    let mut ctx = START;
    assert!(rt; ram.stands_local(&ctx) && ram.all_local(&ctx, 2) && !ram.all_local(&ctx, 3));
    assert!(rt; ram.run_slice(&mut ctx, 9) == 2 && ctx.regs[0] == 10);
    assert!(rt; matches!(ram.next_kept(&ctx), Next::Shared { len: 1, .. }));
    assert!(rt; matches!(ram.next_of(&ctx), Next::Shared { len: 1, .. }));
    ram.reserve(rt.alloc(), 2)?;
    ram.is_sound();
    ram.write(1, &[9]);
    let mut copy = ram.copy(rt.alloc())?;
    let mut again = START;
    ram.run_many(&mut again, 2);
    assert!(rt; again.regs[0] == 18);
    let mut byte = [0];
    ram.read(1, &mut byte);
    assert!(rt; byte == [9] && ram.size() == 1048576 && ram.code() == 8);
    let mut third = START;
    assert!(rt; copy.run_slice(&mut third, 1) == 1 && third.regs[0] == 9);
    assert!(rt; ram.page(0).is_some() && copy.page(1).is_none());
    Ok(())
}

/// mov byte [9], 7; mov eax, 5; hlt. The first writes the operand of the second.
const STORING: [u8; 14] = [0xC6, 0x04, 0x25, 9, 0, 0, 0, 7, 0xB8, 5, 0, 0, 0, 0xF4];

/// What `share_done` answers at an address, and where RIP is afterwards.
fn shared(ram: &mut CachedRam, rip: u64) -> (Result<Option<Stored>, NotDone>, u64)
    requires { 2 ≤ ram.old.spare }
{
    let mut ctx = START;
    ctx.rip = rip;
    let done = ram.share_done(&mut ctx);
    (done, ctx.rip)
}

/// An instruction that stores into the code, where it stands; one that asks something; a local one; the end of the code.
#[test]
fn an_instruction_in_place(rt: HostRuntime) -> Result<(), Fail> {
    let image = FlatImage {
        entry: 0,
        code: 14,
        payload: Seq::from_slice(rt.alloc(), &STORING)?,
    };
    let mut ram = CachedRam::new(rt.alloc(), 1048576, &image)?;
    let mut ctx = START;
    ctx.rip = 8;
    assert!(rt; matches!(ram.next_kept(&ctx), Next::Local { len: 5, .. }));
    ram.reserve(rt.alloc(), 8)?;
    assert!(rt; shared(&mut ram, 0) == (Ok(Some(Stored { at: 9, len: 1 })), 8));
    assert!(rt; ram.run_slice(&mut ctx, 9) == 1 && ctx.regs[0] == 7);
    ram.reserve(rt.alloc(), 8)?;
    assert!(rt; shared(&mut ram, 13) == (Err(NotDone), 13));
    ram.reserve(rt.alloc(), 8)?;
    assert!(rt; shared(&mut ram, 8) == (Err(NotDone), 8));
    ram.reserve(rt.alloc(), 8)?;
    assert!(rt; shared(&mut ram, 14) == (Err(NotDone), 14));
    Ok(())
}
