//! The table of entries, over the state of a run.
ghost use Rattle.std.specs.Prelude.{◌≡◌, ◌≤◌, ◌+◌, IsTrue, IfSome, is_some, if◌then◌else◌};
ghost use Rattle.x86_fetch.specs.Slices.{LocalRun};
ghost use Rattle.vm_state.specs.Machine.{code_of, cpu_at};
ghost use Rattle.vm_state.specs.Sound.{IsSoundState};
ghost use Rattle.vm_state.specs.View.{room_for};
ghost use Rattle.vm_table.specs.Table as spec;

use vm_law::{Ctx, Entry};
use vm_state::RunState;

/// Whether the entry's row allows it.
#[tactic(auto, unfolding(crate::specs::Table::allowed))]
fn allowed(run: &RunState, by: u16, entry: Entry) -> bool
    requires { IsSoundState run.now.state }
    ensures { result ≡ spec.allowed run.now.state by entry }
{
    match entry {
        Entry::Claim { cpu } => vm_owners::may_claim(run, by, cpu),
        Entry::Start { cpu } => vm_owners::may_start(run, by, cpu),
        Entry::Enter { cpu, grant } => vm_running::may_enter(run, by, cpu, grant),
        Entry::Slice { cpu, n } => vm_running::may_slice(run, by, cpu, n),
        Entry::Step { cpu } => vm_running::may_step(run, by, cpu),
        Entry::Exit { cpu } => vm_owners::may_exit(run, by, cpu),
        Entry::Sleep { cpu } => vm_owners::may_sleep(run, by, cpu),
        Entry::Wake { cpu } => vm_owners::may_wake(run, by, cpu),
        Entry::Yield { cpu } => vm_owners::may_yield(run, by, cpu),
        Entry::Turn { cpu } => vm_owners::may_turn(run, by, cpu),
        Entry::Meet => vm_orders::may_meet(run, by),
        Entry::Pull { disk } => vm_disks::may_pull(run, by, disk),
        Entry::Begin { disk, id } => vm_disks::may_begin(run, by, disk, id),
        Entry::Move { disk, id } => vm_disks::may_move(run, by, disk, id),
        Entry::Hold { disk, id } => vm_disks::may_hold(run, by, disk, id),
        Entry::Put { disk, id, ok: _ } => vm_disks::may_put(run, by, disk, id),
        Entry::Finish { disk, id } => vm_disks::may_finish(run, by, disk, id),
        Entry::Feed => vm_orders::may_feed(run, by),
        Entry::Wish => vm_orders::may_wish(run, by),
        Entry::Done { k } => vm_orders::may_done(run, by, k),
        Entry::End { why } => vm_orders::may_end(run, by, why),
        Entry::Close => vm_orders::may_close(run, by),
        Entry::Tick { n } => vm_orders::may_tick(run, by, n),
    }
}

/// Whether the entry is lawful for the pass.
#[tactic(auto, unfolding(crate::specs::Table::lawful))]
pub(crate) fn may(run: &RunState, by: u16, entry: Entry) -> bool
    requires { IsSoundState run.now.state }
    ensures { result ≡ spec.lawful run.now.state by entry }
{
    !run.closed && allowed(run, by, entry)
}

/// What an entry does that its row allows.
#[tactic(auto, unfolding(crate::specs::Table::allowed, crate::specs::Table::effect))]
fn perform(run: &mut RunState, by: u16, entry: Entry)
    requires sound { IsSoundState run.old.state }
    requires allowed { IsTrue (spec.allowed run.old.state by entry) }
    requires room { 1 ≤ room_for run.old }
    ensures state { run.new.state ≡ spec.effect run.old.state by entry }
    ensures room { room_for run.old ≤ room_for run.new + 1 }
{
    match entry {
        Entry::Claim { cpu } => vm_owners::claim(run, by, cpu),
        Entry::Start { cpu } => vm_owners::start(run, by, cpu),
        Entry::Enter { cpu, grant } => vm_running::enter(run, by, cpu, grant),
        Entry::Slice { cpu, n } => vm_running::slice(run, by, cpu, n),
        Entry::Step { cpu } => vm_running::step(run, by, cpu),
        Entry::Exit { cpu } => vm_owners::exit(run, by, cpu),
        Entry::Sleep { cpu } => vm_owners::sleep(run, by, cpu),
        Entry::Wake { cpu } => vm_owners::wake(run, by, cpu),
        Entry::Yield { cpu } => vm_owners::yield_idle(run, by, cpu),
        Entry::Turn { cpu } => vm_owners::turn(run, by, cpu),
        Entry::Meet => vm_orders::meet(run, by),
        Entry::Pull { disk } => vm_disks::pull(run, by, disk),
        Entry::Begin { disk, id } => vm_disks::begin(run, by, disk, id),
        Entry::Move { disk, id } => vm_disks::move_sector(run, by, disk, id),
        Entry::Hold { disk, id } => vm_disks::hold(run, by, disk, id),
        Entry::Put { disk, id, ok } => vm_disks::put(run, by, disk, id, ok),
        Entry::Finish { disk, id } => vm_disks::finish(run, by, disk, id),
        Entry::Feed => vm_orders::feed(run, by),
        Entry::Wish => vm_orders::wish(run, by),
        Entry::Done { k } => vm_orders::done(run, by, k),
        Entry::End { why } => vm_orders::end(run, by, why),
        Entry::Close => vm_orders::close(run, by),
        Entry::Tick { n } => vm_orders::tick(run, by, n),
    }
}

/// One entry more.
#[tactic(auto, unfolding(crate::specs::Table::counted))]
fn count_entry(run: &mut RunState)
    ensures { run.new ≡ record run.old { state = spec.counted run.old.state } }
{
    run.entries = run.entries.saturating_add(1);
}

/// The step of a lawful entry.
#[tactic(auto, unfolding(crate::specs::Table::lawful, crate::specs::Table::after))]
pub(crate) fn step(run: &mut RunState, by: u16, entry: Entry)
    requires sound { IsSoundState run.old.state }
    requires lawful { IsTrue (spec.lawful run.old.state by entry) }
    requires room { 1 ≤ room_for run.old }
    ensures state { run.new.state ≡ spec.after run.old.state (record { by = by; entry = entry }) }
    ensures room { room_for run.old ≤ room_for run.new + 1 }
    ensures sound { IsSoundState run.new.state }
{
    perform(run, by, entry);
    count_entry(run);
}

/// The step of a lawful Slice, whose context after it was computed elsewhere.
#[tactic(auto, unfolding(crate::specs::Table::lawful, crate::specs::Table::allowed, crate::specs::Table::effect, crate::specs::Table::after))]
pub(crate) fn put_slice(run: &mut RunState, by: u16, cpu: u8, n: u16, ctx: &Ctx)
    requires sound { IsSoundState run.old.state }
    requires lawful { IsTrue (spec.lawful run.old.state by (Entry.Slice cpu n)) }
    requires ran { LocalRun (code_of run.old.state.machine) (cpu_at run.old.state.machine cpu).ctx n ctx.now }
    ensures state { run.new ≡ record run.old { state = spec.after run.old.state (record { by = by; entry = Entry.Slice cpu n }) } }
    ensures sound { IsSoundState run.new.state }
{
    vm_running::put_slice(run, by, cpu, n, ctx);
    count_entry(run);
}

/// The context after a Slice, where it is lawful. The run stays.
#[tactic(auto, unfolding(crate::specs::Table::lawful, crate::specs::Table::allowed))]
pub(crate) fn slice_ahead(run: &mut RunState, by: u16, cpu: u8, n: u16) -> Option<Ctx>
    requires sound { IsSoundState run.old.state }
    ensures same { run.new ≡ run.old }
    ensures may { is_some result ≡ spec.lawful run.old.state by (Entry.Slice cpu n) }
    ensures ran { IfSome result (LocalRun (code_of run.old.state.machine) (cpu_at run.old.state.machine cpu).ctx n) }
{
    if run.closed {
        return None;
    }
    vm_running::slice_ahead(run, by, cpu, n)
}

/// The step of an entry where it is lawful, and whether it is.
#[inline(always)]
pub(crate) fn advance(run: &mut RunState, by: u16, entry: Entry) -> bool
    requires sound { IsSoundState run.old.state }
    requires room { 1 ≤ room_for run.old }
    ensures lawful { result ≡ spec.lawful run.old.state by entry }
    ensures state { run.new.state
        ≡ (if result then spec.after run.old.state (record { by = by; entry = entry }) else run.old.state) }
    ensures room { room_for run.old ≤ room_for run.new + 1 }
    ensures sound { IsSoundState run.new.state }
{
    match entry {
        Entry::Step { cpu } => advance_step(run, by, cpu),
        Entry::Slice { cpu, n } => advance_slice(run, by, cpu, n),
        _ => advance_listed(run, by, entry),
    }
}

/// The same by the test of the entry, and then its step.
#[inline(never)]
fn advance_listed(run: &mut RunState, by: u16, entry: Entry) -> bool
    requires sound { IsSoundState run.old.state }
    requires room { 1 ≤ room_for run.old }
    ensures lawful { result ≡ spec.lawful run.old.state by entry }
    ensures state { run.new.state
        ≡ (if result then spec.after run.old.state (record { by = by; entry = entry }) else run.old.state) }
    ensures room { room_for run.old ≤ room_for run.new + 1 }
    ensures sound { IsSoundState run.new.state }
{
    if !may(run, by, entry) {
        return false;
    }
    step(run, by, entry);
    true
}

/// The same of a Step, whose instruction is looked up once.
#[tactic(auto, unfolding(crate::specs::Table::lawful, crate::specs::Table::allowed, crate::specs::Table::effect, crate::specs::Table::after))]
fn advance_step(run: &mut RunState, by: u16, cpu: u8) -> bool
    requires sound { IsSoundState run.old.state }
    requires room { 1 ≤ room_for run.old }
    ensures lawful { result ≡ spec.lawful run.old.state by (Entry.Step cpu) }
    ensures state { run.new.state
        ≡ (if result then spec.after run.old.state (record { by = by; entry = Entry.Step cpu }) else run.old.state) }
    ensures room { room_for run.old ≤ room_for run.new + 1 }
    ensures sound { IsSoundState run.new.state }
{
    if run.closed {
        return false;
    }
    if vm_running::step_where_allowed(run, by, cpu) {
        count_entry(run);
        return true;
    }
    false
}

/// The same of a Slice, which is run once.
fn advance_slice(run: &mut RunState, by: u16, cpu: u8, n: u16) -> bool
    requires sound { IsSoundState run.old.state }
    ensures lawful { result ≡ spec.lawful run.old.state by (Entry.Slice cpu n) }
    ensures state { run.new.state
        ≡ (if result then spec.after run.old.state (record { by = by; entry = Entry.Slice cpu n }) else run.old.state) }
    ensures room { room_for run.new ≡ room_for run.old }
    ensures sound { IsSoundState run.new.state }
{
    match slice_ahead(run, by, cpu, n) {
        None => false,
        Some(ctx) => {
            put_slice(run, by, cpu, n, &ctx);
            true
        }
    }
}
