//! Which scripts a run may have.
ghost use Rattle.std.specs.Prelude.{◌≡◌, ◌+◌, ◌∷◌, nat_le, IfOk};
ghost use Rattle.vm_law.specs.declared.script.Order.{Order};
ghost use Rattle.vm_state.specs.Script as spec;
ghost use Rattle.run_cases.specs.Before.{past_of};

use crate::case::CaseError;
use std::alloc::Global;
use vm_law::{Order, Plan, Text};

/// What the orders before have come to.
#[derive(Drop)]
pub struct Before {
    pub paused: bool,
    /// The checkpoints that stand alone, the last one first; so also the two below.
    pub checkpoints: Vec<Text>,
    /// Those that stand against a base.
    pub others: Vec<Text>,
    pub base: Option<Text>,
    /// The streams that were sent.
    pub streams: Vec<Text>,
    /// Those that are closed.
    pub shut: Vec<Text>,
    /// How many bytes of input there were.
    pub input: usize,
}

fn nothing_before(alloc: Global) -> Before
    ensures { past_of result ≡ spec.no_past }
{
    Before {
        paused: false,
        checkpoints: Vec::new(alloc),
        others: Vec::new(alloc),
        base: None,
        streams: Vec::new(alloc),
        shut: Vec::new(alloc),
        input: 0,
    }
}

#[tactic(auto, using(crate::proofs::Names::same_bytes))]
fn is_same(one: &Text, other: &Text) -> bool
    ensures { result ≡ spec.same_name one.now other.now }
{
    one.as_str() == other.as_str()
}

fn is_among(names: &[Text], name: &Text) -> bool
    ensures { result ≡ spec.is_among names.now name.now }
{
    names.iter().any(|other| is_same(other, name))
}

/// Whether a file of this name is written by no order before.
fn is_new(before: &Before, name: &Text) -> bool
    ensures { result ≡ spec.is_new (past_of before.now) name.now }
{
    !is_among(before.checkpoints.as_slice(), name)
        && !is_among(before.others.as_slice(), name)
        && !is_among(before.streams.as_slice(), name)
}

/// Whether the checkpoints against a base may have this one.
fn is_base(base: &Option<Text>, name: &Text) -> bool
    ensures { result ≡ spec.is_base base.now name.now }
{
    match base {
        None => true,
        Some(base) => is_same(base, name),
    }
}

#[tactic(auto, unfolding(vm_state::specs::Script::may_stand))]
fn may_stand_against(plan: &Plan, before: &Before, name: &Text, base: &Text) -> bool
    ensures { result ≡ spec.may_stand plan.now (past_of before.now) (Order.Against name.now base.now) }
{
    before.paused
        && is_new(before, name)
        && base.as_str().len() <= 65_535
        && is_among(before.checkpoints.as_slice(), base)
        && is_base(&before.base, base)
}

#[tactic(auto, unfolding(vm_state::specs::Script::may_stand))]
fn may_send(plan: &Plan, before: &Before, name: &Text) -> bool
    ensures { result ≡ spec.may_stand plan.now (past_of before.now) (Order.Send name.now) }
{
    !is_among(before.shut.as_slice(), name)
        && !is_among(before.checkpoints.as_slice(), name)
        && !is_among(before.others.as_slice(), name)
}

/// Whether there may be so many bytes of input more.
fn has_room(before: &Before, count: usize) -> bool
    ensures { result ≡ nat_le (before.now.input + count) 65536 }
{
    before.input <= 65_536 && count <= 65_536 - before.input
}

/// Whether the order may stand behind those before.
#[tactic(auto, unfolding(vm_state::specs::Script::may_stand))]
fn may_stand(plan: &Plan, before: &Before, order: &Order) -> bool
    ensures { result ≡ spec.may_stand plan.now (past_of before.now) order.now }
{
    match order {
        Order::WaitQuiet => !before.paused,
        Order::WaitConsole(count) => !before.paused && *count < 1_000_000_000_000_000_000,
        Order::WaitExecuted(count) => !before.paused && *count < 1_000_000_000_000_000_000,
        Order::Input(bytes) => has_room(before, bytes.len()),
        Order::Nmi(cpu) => *cpu < plan.cpus,
        Order::Rendezvous => true,
        Order::Pause => !before.paused,
        Order::Resume => before.paused,
        Order::Checkpoint(name) => before.paused && is_new(before, name),
        Order::Against { name, base } => may_stand_against(plan, before, name, base),
        Order::Send(name) => may_send(plan, before, name),
        Order::Set { cpu, reg, .. } => before.paused && *cpu < plan.cpus && *reg < 18,
        Order::Get { cpu, reg } => before.paused && *cpu < plan.cpus && *reg < 18,
        Order::Cancel { disk, id } => (*disk as usize) < plan.disks.len() && *id < 1_000_000_000,
    }
}

/// The names with one more at the front.
fn with_name(alloc: Global, mut names: Vec<Text>, name: &Text) -> Result<Vec<Text>, CaseError>
    ensures { IfOk result (λ v. v.items ≡ name.now ∷ names.items) }
{
    names.insert(0, name.copy(alloc)?)?;
    Ok(names)
}

/// What a stream comes to: sent, and closed where it was sent while paused.
#[tactic(auto, unfolding(vm_state::specs::Script::and_then))]
fn and_sent(alloc: Global, mut before: Before, name: &Text) -> Result<Before, CaseError>
    ensures { IfOk result (λ b. past_of b ≡ spec.and_then (past_of before) (Order.Send name.now)) }
{
    if before.paused {
        before.shut = with_name(alloc, before.shut, name)?;
    }
    before.streams = with_name(alloc, before.streams, name)?;
    Ok(before)
}

/// What the orders come to with one more.
#[tactic(auto, unfolding(vm_state::specs::Script::and_then))]
fn and_then(alloc: Global, mut before: Before, order: &Order) -> Result<Before, CaseError>
    ensures { IfOk result (λ b. past_of b ≡ spec.and_then (past_of before) order.now) }
{
    match order {
        Order::Pause => before.paused = true,
        Order::Resume => before.paused = false,
        Order::Input(bytes) => {
            before.input = before
                .input
                .checked_add(bytes.len())
                .ok_or(CaseError::Start)?;
        }
        Order::Checkpoint(name) => {
            before.checkpoints = with_name(alloc, before.checkpoints, name)?;
        }
        Order::Against { name, base } => {
            before.others = with_name(alloc, before.others, name)?;
            before.base = Some(base.copy(alloc)?);
        }
        Order::Send(name) => return and_sent(alloc, before, name),
        Order::WaitQuiet
        | Order::WaitConsole(_)
        | Order::WaitExecuted(_)
        | Order::Nmi(_)
        | Order::Rendezvous
        | Order::Set { .. }
        | Order::Get { .. }
        | Order::Cancel { .. } => {}
    }
    Ok(before)
}

/// Whether each order may stand where it stands.
#[tactic(auto, using(crate::proofs::Following::stops_at, crate::proofs::Following::goes_at, crate::proofs::Following::ends_at))]
fn may_follow(alloc: Global, plan: &Plan, script: &[Order]) -> Result<bool, CaseError>
    ensures { IfOk result (λ b. b ≡ spec.may_follow plan.now spec.no_past script.now) }
{
    let mut before = nothing_before(alloc);
    for order in script {
        if !may_stand(plan, &before, order) {
            return Ok(false);
        }
        before = and_then(alloc, before, order)?;
    }
    Ok(true)
}

/// Whether a plan allows the script.
pub fn is_allowed(alloc: Global, plan: &Plan, script: &[Order]) -> Result<bool, CaseError>
    ensures { IfOk result (λ b. b ≡ spec.is_allowed plan.now script.now) }
{
    if script.is_empty() || script.len() > 10_000 {
        return Ok(false);
    }
    may_follow(alloc, plan, script)
}
