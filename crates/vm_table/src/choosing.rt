//! What an actor chooses in its turn: the first entry of its pass's list that is lawful.
ghost use Rattle.std.specs.Prelude.{◌≡◌, true, false, ◌<◌, ◌≤◌, ◌+◌, [], ◌∷◌, ◌++◌, None, is_none, map, IfSome};
ghost use Rattle.std.specs.List.{find};
ghost use Rattle.blk_queue.specs.Steps.{first_pending};
ghost use Rattle.vm_state.specs.Machine.{cpu_at, cpu_count, cpu_numbers, drive_at, drive_count};
ghost use Rattle.vm_state.specs.Requests.{has_worker};
ghost use Rattle.vm_table.specs.Choosing as choice;
ghost use Rattle.vm_table.specs.Table.{lawful};
ghost use Rattle.vm_orders.specs.Duties.{tick_of};
ghost use Rattle.vm_orders.specs.Resting.{rests_at_sight};
ghost use Rattle.vm_table.specs.Turns as turns;

use crate::run::Run;
use blk_queue::Progress;
use vm_law::{EndCause, Entry, Owned};

/// An entry that control considers of each vCPU.
#[derive(Clone, Copy)]
enum Care {
    Turn,
    Yield,
    Claim,
}

impl Care {
    fn of(self, cpu: u8) -> Entry
        ensures { result ≡ choice.care_of self cpu }
    {
        match self {
            Care::Turn => Entry::Turn { cpu },
            Care::Yield => Entry::Yield { cpu },
            Care::Claim => Entry::Claim { cpu },
        }
    }
}

/// An entry that a worker considers of each request that it has.
#[derive(Clone, Copy)]
enum Work {
    Finish,
    Move,
    Hold,
}

impl Work {
    fn on(self, disk: u8, id: u32) -> Entry
        ensures { result ≡ choice.work_on self disk id }
    {
        match self {
            Work::Finish => Entry::Finish { disk, id },
            Work::Move => Entry::Move { disk, id },
            Work::Hold => Entry::Hold { disk, id },
        }
    }
}

/// Whether the pass has a request that is so far.
fn is_its(progress: Progress, by: u16) -> bool
    ensures { result ≡ has_worker by progress }
{
    match progress {
        Progress::Busy { worker, .. } => worker == by,
        _ => false,
    }
}

impl Run {
    /// The first entry of a list that is lawful for the pass.
    fn first_among(&self, by: u16, list: &[Entry]) -> Option<Entry>
        ensures { result ≡ find (λ e. lawful self.now.state by e) list.now }
    {
        list.iter().copied().find(|entry| self.may(by, entry))
    }

    /// Whether the vCPU is idle, or frozen by control: else control has no entry of it.
    fn is_free(&self, cpu: u8) -> bool
        requires { cpu < cpu_count self.now.state.machine }
        ensures { result ≡ choice.is_free (cpu_at self.now.state.machine cpu).stage }
    {
        match self.cpu(cpu).stage.now() {
            Owned::Idle => true,
            Owned::Frozen(owner) => owner == 0,
            Owned::Running(_) | Owned::Sleeping(_) => false,
        }
    }

    /// Whether such an entry is lawful.
    fn may_care(&self, care: Care, cpu: u8) -> bool
        requires { cpu < cpu_count self.now.state.machine }
        ensures { result ≡ lawful self.now.state 0 (choice.care_of care cpu) }
    {
        if self.is_free(cpu) {
            return self.may(0, &care.of(cpu));
        }
        false
    }

    /// The first of these entries, vCPU by vCPU, that is lawful for control.
    fn first_care(&self, care: Care) -> Option<Entry>
        ensures { result ≡ find (λ e. lawful self.now.state 0 e) (map (choice.care_of care) (cpu_numbers self.now.state.machine)) }
    {
        for cpu in 0..self.cpu_count() {
            if self.may_care(care, cpu) {
                return Some(care.of(cpu));
            }
        }
        None
    }

    /// The first of control's entries for no vCPU by itself that is lawful.
    #[inline(always)]
    #[tactic(auto, unfolding(crate::specs::Table::lawful, crate::specs::Table::allowed))]
    fn first_for_all(&self) -> Option<Entry>
        ensures { result ≡ find (λ e. lawful self.now.state 0 e) (Entry.Feed ∷ Entry.Tick (tick_of self.now.state) ∷ Entry.End EndCause.Budget
            ∷ Entry.Wish ∷ Entry.Meet ∷ Entry.Done self.now.state.place ∷ Entry.Close ∷ []) }
    {
        let run = &self.run;
        if run.closed {
            return None;
        }
        if vm_orders::may_feed(run, 0) {
            return Some(Entry::Feed);
        }
        let n = self.tick_of();
        if vm_orders::may_tick(run, 0, n) {
            return Some(Entry::Tick { n });
        }
        let why = EndCause::Budget;
        if vm_orders::may_end(run, 0, why) {
            return Some(Entry::End { why });
        }
        if vm_orders::may_wish(run, 0) {
            return Some(Entry::Wish);
        }
        if vm_orders::may_meet(run, 0) {
            return Some(Entry::Meet);
        }
        let k = self.place();
        if vm_orders::may_done(run, 0, k) {
            return Some(Entry::Done { k });
        }
        if vm_orders::may_close(run, 0) {
            return Some(Entry::Close);
        }
        None
    }

    /// Whether some vCPU is idle, or frozen by control.
    fn any_free(&self) -> bool
        ensures { result ≡ false → choice.NoneIsFree self.now.state }
    {
        for cpu in 0..self.cpu_count() {
            if self.is_free(cpu) {
                return true;
            }
        }
        false
    }

    /// Whether it is told at sight that control has nothing to do for the run as a whole.
    #[inline(always)]
    fn rests_for_all(&self) -> bool
        ensures { result ≡ rests_at_sight self.now.state }
    {
        vm_orders::rests_at_sight(&self.run)
    }

    /// Whether it is told at sight that control's list has no lawful entry.
    #[inline(always)]
    fn rests_at_sight(&self) -> bool
        ensures { result ≡ true → turns.first_lawful self.now.state 0 ≡ None }
    {
        if self.any_free() {
            return false;
        }
        self.rests_for_all()
    }

    /// Whether control's list has no lawful entry, entry by entry.
    #[inline(never)]
    #[tactic(auto, unfolding(crate::specs::Turns::list_of))]
    fn finds_nothing(&self) -> bool
        ensures { result ≡ is_none (turns.first_lawful self.now.state 0) }
    {
        self.first_of_control().is_none()
    }

    /// Whether control's list has no lawful entry.
    #[inline(always)]
    pub fn control_rests(&self) -> bool
        ensures { result ≡ is_none (turns.first_lawful self.now.state 0) }
    {
        if self.rests_at_sight() {
            return true;
        }
        self.finds_nothing()
    }

    /// What control chooses.
    #[inline(always)]
    fn first_of_control(&self) -> Option<Entry>
        ensures { result ≡ find (λ e. lawful self.now.state 0 e) (turns.control_list self.now.state) }
    {
        if self.any_free() {
            self.first_listed_for_control()
        } else {
            self.first_for_all()
        }
    }

    /// What control chooses, whatever the stages of the vCPUs are.
    #[inline(never)]
    #[tactic(auto, unfolding(crate::specs::Turns::control_list), using(crate::proofs::Firsts::find_parts))]
    fn first_listed_for_control(&self) -> Option<Entry>
        ensures { result ≡ find (λ e. lawful self.now.state 0 e) (turns.control_list self.now.state) }
    {
        if let Some(entry) = self.first_care(Care::Turn) {
            return Some(entry);
        }
        if let Some(entry) = self.first_care(Care::Yield) {
            return Some(entry);
        }
        if let Some(entry) = self.first_care(Care::Claim) {
            return Some(entry);
        }
        self.first_for_all()
    }

    /// What a runner chooses once nothing else is lawful: an Exit where one is due, and then a Step.
    fn last_of_runner(&self, by: u16, cpu: u8) -> Option<Entry>
        requires { cpu < cpu_count self.now.state.machine }
        ensures { result ≡ find (λ e. lawful self.now.state by e) (turns.exit_where_due self.now.state cpu ++ Entry.Step cpu ∷ []) }
    {
        if self.exit_due(cpu) {
            self.first_among(by, &[Entry::Exit { cpu }, Entry::Step { cpu }])
        } else {
            self.first_among(by, &[Entry::Step { cpu }])
        }
    }

    /// What a runner chooses.
    #[tactic(auto, unfolding(crate::specs::Turns::runner_list), using(crate::proofs::Firsts::find_parts))]
    fn first_of_runner(&self, by: u16, cpu: u8) -> Option<Entry>
        requires { cpu < cpu_count self.now.state.machine }
        ensures { result ≡ find (λ e. lawful self.now.state by e) (turns.runner_list self.now.state cpu) }
    {
        // All before the last two are of a vCPU that isn't running.
        if self.cpu(cpu).is_running(by) {
            return self.last_of_runner(by, cpu);
        }
        let grant = self.grant();
        let first = self.first_among(
            by,
            &[
                Entry::Claim { cpu },
                Entry::Wake { cpu },
                Entry::Turn { cpu },
                Entry::Yield { cpu },
                Entry::Start { cpu },
                Entry::Enter { cpu, grant },
                Entry::Sleep { cpu },
            ],
        );
        match first {
            Some(entry) => Some(entry),
            None => self.last_of_runner(by, cpu),
        }
    }

    /// The first of these entries, request by request of those that the pass has, that is lawful for it.
    #[tactic(auto, unfolding(crate::specs::Turns::busy_with))]
    fn first_work(&self, by: u16, disk: u8, work: Work) -> Option<Entry>
        requires { disk < drive_count self.now.state.machine }
        ensures { result ≡ find (λ e. lawful self.now.state by e) (map (choice.work_on work disk) (turns.busy_with self.now.state by disk)) }
    {
        let queue = &self.drive(disk).queue;
        for k in 0..queue.count() {
            let (id, progress, _) = queue.nth(k);
            if is_its(progress, by) {
                let entry = work.on(disk, id);
                if self.may(by, &entry) {
                    return Some(entry);
                }
            }
        }
        None
    }

    /// The Begin of the first request that is pending.
    fn first_begin(&self, by: u16, disk: u8) -> Option<Entry>
        requires { disk < drive_count self.now.state.machine }
        ensures { result ≡ find (λ e. lawful self.now.state by e) (turns.begin_first disk (first_pending (drive_at self.now.state.machine disk).queue)) }
    {
        match vm_disks::first_pending(&self.drive(disk).queue) {
            None => None,
            Some(id) => self.first_among(by, &[Entry::Begin { disk, id }]),
        }
    }

    /// What a worker of a block device chooses.
    #[tactic(auto, unfolding(crate::specs::Turns::drive_list), using(crate::proofs::Firsts::find_parts))]
    fn first_of_drive(&self, by: u16, disk: u8) -> Option<Entry>
        requires { disk < drive_count self.now.state.machine }
        ensures { result ≡ find (λ e. lawful self.now.state by e) (turns.drive_list self.now.state by disk) }
    {
        if let Some(entry) = self.first_work(by, disk, Work::Finish) {
            return Some(entry);
        }
        if let Some(entry) = self.first_work(by, disk, Work::Move) {
            return Some(entry);
        }
        if let Some(entry) = self.first_work(by, disk, Work::Hold) {
            return Some(entry);
        }
        if let Some(entry) = self.first_begin(by, disk) {
            return Some(entry);
        }
        self.first_among(by, &[Entry::Pull { disk }])
    }

    /// The same, where the pass is a worker of the block device.
    fn first_where_worker(&self, by: u16, disk: u8) -> Option<Entry>
        requires { disk < drive_count self.now.state.machine }
        ensures { result ≡ find (λ e. lawful self.now.state by e) (turns.where_worker self.now.state by disk) }
    {
        if self.is_worker(by, disk) {
            self.first_of_drive(by, disk)
        } else {
            None
        }
    }

    /// What a worker chooses.
    #[tactic(auto, unfolding(crate::specs::Turns::worker_list))]
    fn first_of_worker(&self, by: u16) -> Option<Entry>
        ensures { result ≡ find (λ e. lawful self.now.state by e) (turns.worker_list self.now.state by) }
    {
        for disk in 0..self.drive_count() {
            if let Some(entry) = self.first_where_worker(by, disk) {
                return Some(entry);
            }
        }
        None
    }

    /// What an actor chooses in its turn: the first entry of its pass's list that is lawful.
    #[tactic(auto, unfolding(crate::specs::Turns::list_of))]
    pub fn first_lawful(&self, by: u16) -> Option<Entry>
        ensures { result ≡ turns.first_lawful self.now.state by }
    {
        let cpus = self.cpu_count();
        if by == 0 {
            return self.first_of_control();
        }
        if by <= u16::from(cpus) {
            return self.first_of_runner(by, (by - 1) as u8);
        }
        self.first_of_worker(by)
    }

    /// The vCPU of a pass that can choose nothing but a Step of it: it runs, and no Exit is due.
    fn steps_alone(&self, by: u16) -> Option<u8>
        ensures { IfSome result (λ cpu. turns.first_lawful self.now.state by ≡ choice.where_lawful self.now.state by (Entry.Step cpu)) }
    {
        if by == 0 || by > u16::from(self.cpu_count()) {
            return None;
        }
        let cpu = (by - 1) as u8;
        if self.cpu(cpu).is_running(by) && !self.exit_due(cpu) {
            Some(cpu)
        } else {
            None
        }
    }

    /// Makes the step of a Step where it is lawful for the pass.
    fn advance_step(&mut self, by: u16, cpu: u8) -> Option<Entry>
        requires room { 1 ≤ self.old.room }
        ensures chosen { result ≡ choice.where_lawful self.old.state by (Entry.Step cpu) }
        ensures step { self.new.state ≡ choice.after_choice self.old.state by result }
        ensures room { self.old.room ≤ self.new.room + 1 }
    {
        let entry = Entry::Step { cpu };
        if self.advance(by, &entry) {
            Some(entry)
        } else {
            None
        }
    }

    /// Makes the step of the first of a pass's entries that is lawful, if there is one.
    fn advance_listed(&mut self, by: u16) -> Option<Entry>
        requires room { 1 ≤ self.old.room }
        ensures chosen { result ≡ turns.first_lawful self.old.state by }
        ensures step { self.new.state ≡ choice.after_choice self.old.state by result }
        ensures room { self.old.room ≤ self.new.room + 1 }
    {
        let entry = self.first_lawful(by)?;
        self.apply(by, &entry);
        Some(entry)
    }

    /// Makes the step of what an actor chooses in its turn, the first entry of its pass's list that is lawful, and says which it
    /// is; where there is none the run stays. A Step's instruction is looked up once. There is to be room for an entry.
    #[inline(always)]
    pub fn advance_first(&mut self, by: u16) -> Option<Entry>
        requires room { 1 ≤ self.old.room }
        ensures chosen { result ≡ turns.first_lawful self.old.state by }
        ensures step { self.new.state ≡ choice.after_choice self.old.state by result }
        ensures room { self.old.room ≤ self.new.room + 1 }
    {
        match self.steps_alone(by) {
            Some(cpu) => self.advance_step(by, cpu),
            None => self.advance_listed(by),
        }
    }
}
