//! The whole text.
ghost use Rattle.std.specs.Prelude.{◌≡◌, ◌<◌, ◌^◌, ◌++◌, ◌∷◌, [], ℕ, length, IfOk, Ok, Err, true};
ghost use Rattle.ctl_script.specs.declared.fault.ScriptKind.{ScriptKind};
ghost use Rattle.ctl_script.specs.Script.{script_of, added, read_full, read_line, input_of, or_wait};
ghost use Rattle.std.specs.List.{list_all};
ghost use Rattle.ctl_script.specs.Print.{has_registers};
ghost use Rattle.ctl_script.specs.Answers.{Reads, Tells, Spells};

use crate::before::paused_after;
use crate::fault::{Refusal, ScriptError, ScriptKind};
use crate::order::{Situation, order_of};
use std::alloc::Global;
use text_reader::{Separators, content, first_line, utf8_of, words};
use vm_law::{Order, OutOfMemory, Plan, Script, Seq};

/// The orders so far, with what the next one needs to know of them.
#[derive(Drop)]
pub struct Orders {
    pub orders: Vec<Order>,
    /// Whether the machine is paused after them.
    pub paused: bool,
    /// How many bytes of input they have.
    pub input: usize,
}

fn input_of(order: &Order) -> usize
    ensures { result ≡ input_of order.now }
{
    match order {
        Order::Input(bytes) => bytes.len(),
        _ => 0,
    }
}

// One order more.
fn with_order(so_far: Orders, order: Order) -> Result<Orders, Refusal>
    requires { Tells so_far }
    ensures { Reads result (added so_far.orders.items (Ok order)) }
{
    let Orders {
        mut orders,
        paused,
        input,
    } = so_far;
    let paused = paused_after(paused, &order);
    let more = input_of(&order);
    if orders.len() >= 10_000 || more > 65_536 - input {
        return Err(Refusal::Kind(ScriptKind::Many));
    }
    orders.push(order)?;
    Ok(Orders {
        orders,
        paused,
        input: input + more,
    })
}

fn add_full(alloc: Global, so_far: Orders, plan: &Plan, text: &[u8]) -> Result<Orders, Refusal>
    requires { Tells so_far }
    ensures { Reads result (read_full plan.now so_far.orders.items text.now) }
{
    let Some(text) = utf8_of(text) else {
        return Err(Refusal::Kind(ScriptKind::Text));
    };
    let words = words(alloc, text, Separators::Spaces)?;
    let situation = Situation {
        paused: so_far.paused,
        cpus: plan.cpus,
        disks: plan.disks.len(),
    };
    let order = order_of(alloc, situation, &so_far.orders, &words)?;
    with_order(so_far, order)
}

fn add_line(alloc: Global, so_far: Orders, plan: &Plan, line: &[u8]) -> Result<Orders, Refusal>
    requires { Tells so_far }
    ensures { Reads result (read_line plan.now so_far.orders.items line.now) }
{
    match content(line) {
        Some(text) => add_full(alloc, so_far, plan, text),
        None => Ok(so_far),
    }
}

// A script with no order waits until nothing more happens.
fn or_wait(mut orders: Vec<Order>) -> Result<Script, OutOfMemory>
    ensures { IfOk result (λ script. script ≡ or_wait orders.items) }
{
    if orders.is_empty() {
        orders.push(Order::WaitQuiet)?;
    }
    Ok(Seq::from_vec(orders))
}

/// The script that a text spells for a plan.
///
/// The first faulty line is answered, counted from 1, with the first kind of fault that it has. A script with no order is
/// `wait quiet`. `Memory` may be the answer to any text.
pub fn read(alloc: Global, bytes: &[u8], plan: &Plan) -> Result<Script, ScriptError>
    requires { length bytes.now < 2 ^ 32 }
    ensures script { IfOk result (λ script. script_of plan.now bytes.now ≡ Ok script) }
    // So the script can be printed.
    ensures registers { IfOk result (λ script. list_all has_registers script ≡ true) }
    ensures fault { (line : ℕ) (kind : ScriptKind) → result ≡ Err (ScriptError.Fault line kind) → script_of plan.now bytes.now ≡ Err (record { line = line; kind = kind }) }
{
    script(alloc, bytes, plan)
}

fn script(alloc: Global, bytes: &[u8], plan: &Plan) -> Result<Script, ScriptError>
    requires { length bytes.now < 2 ^ 32 }
    ensures { Spells result (script_of plan.now bytes.now) }
{
    let mut so_far = Orders {
        orders: Vec::new(alloc),
        paused: false,
        input: 0,
    };
    let mut number = 1u64;
    let mut rest = Some(bytes);
    while let Some(text) = rest {
        let (line, after) = first_line(text);
        so_far = match add_line(alloc, so_far, plan, line) {
            Ok(more) => more,
            Err(Refusal::Kind(kind)) => {
                let line = number as u32;
                return Err(ScriptError::Fault { line, kind });
            }
            Err(Refusal::Memory) => return Err(ScriptError::Memory),
        };
        number += 1;
        rest = after;
    }
    match or_wait(so_far.orders) {
        Ok(script) => Ok(script),
        Err(_) => Err(ScriptError::Memory),
    }
}
