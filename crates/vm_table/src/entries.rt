//! Entries: which is lawful, and its step.
ghost use Rattle.std.specs.Prelude.{◌≡◌, ◌≤◌, ◌+◌, IsTrue, IfSome, is_some, if◌then◌else◌};
ghost use Rattle.x86_fetch.specs.Slices.{LocalRun, most_local};
ghost use Rattle.vm_state.specs.Machine.{code_of, cpu_at};
ghost use Rattle.vm_table.specs.Table as spec;

use crate::run::Run;
use crate::table;
use vm_law::{Ctx, Entry};

impl Run {
    /// Whether the entry is lawful for the pass.
    pub fn may(&self, by: u16, entry: &Entry) -> bool
        ensures { result ≡ spec.lawful self.now.state by entry.now }
    {
        table::may(&self.run, by, *entry)
    }

    /// Makes the step of an entry that is lawful for the pass. There is to be room for an entry.
    pub fn apply(&mut self, by: u16, entry: &Entry)
        requires may { IsTrue (spec.lawful self.old.state by entry.now) }
        requires room { 1 ≤ self.old.room }
        ensures step { self.new.state ≡ spec.after self.old.state (record { by = by; entry = entry.now }) }
        ensures room { self.old.room ≤ self.new.room + 1 }
    {
        table::step(&mut self.run, by, *entry);
    }

    /// Makes the step of an entry where it is lawful for the pass, and says whether it is; else the run stays. A Slice is
    /// run once, for its test and for its step, and a Step's instruction is looked up once. There is to be room for an entry.
    #[inline(always)]
    pub fn advance(&mut self, by: u16, entry: &Entry) -> bool
        requires room { 1 ≤ self.old.room }
        ensures lawful { result ≡ spec.lawful self.old.state by entry.now }
        ensures step { self.new.state
            ≡ (if result then spec.after self.old.state (record { by = by; entry = entry.now }) else self.old.state) }
        ensures room { self.old.room ≤ self.new.room + 1 }
    {
        table::advance(&mut self.run, by, *entry)
    }

    /// Makes the step of a lawful Slice, whose context after it was computed elsewhere.
    pub fn put_slice(&mut self, by: u16, cpu: u8, n: u16, ctx: Ctx)
        requires may { IsTrue (spec.lawful self.old.state by (Entry.Slice cpu n)) }
        requires ran { LocalRun (code_of self.old.state.machine) (cpu_at self.old.state.machine cpu).ctx n ctx }
        ensures step { self.new.state ≡ spec.after self.old.state (record { by = by; entry = Entry.Slice cpu n }) }
        ensures room { self.new.room ≡ self.old.room }
    {
        table::put_slice(&mut self.run, by, cpu, n, &ctx);
    }

    /// Runs local instructions of the code as memory holds it, from a context on and at most `most`, and says how many it
    /// ran. The run stays; what it decodes is kept, so that neither a later run ahead nor a Step decodes it again.
    pub fn run_ahead(&mut self, ctx: &mut Ctx, most: u16) -> u16
        ensures same { self.new ≡ self.old }
        ensures ran { LocalRun (code_of self.old.state.machine) ctx.old result ctx.new }
        ensures most { result ≡ most_local (code_of self.old.state.machine) ctx.old most }
    {
        vm_running::run_ahead(&mut self.run, ctx, most)
    }

    /// The context after a Slice of `n` instructions, where it is lawful for the pass. The run stays.
    pub fn slice_ahead(&mut self, by: u16, cpu: u8, n: u16) -> Option<Ctx>
        ensures same { self.new ≡ self.old }
        ensures may { is_some result ≡ spec.lawful self.old.state by (Entry.Slice cpu n) }
        ensures ran { IfSome result (LocalRun (code_of self.old.state.machine) (cpu_at self.old.state.machine cpu).ctx n) }
    {
        table::slice_ahead(&mut self.run, by, cpu, n)
    }
}
