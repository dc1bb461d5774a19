//! What isn't built yet.
ghost use Rattle.std.specs.Prelude.{◌≡◌, option_map, IfErr};
ghost use Rattle.vm_start.specs.Answers.{Is, UpToMemory};
ghost use Rattle.vm_start.specs.Later as later;
ghost use Rattle.vm_start.specs.Start as spec;
ghost use Rattle.vm_start.specs.Steps.{IsOwn};

use crate::refusing::bad;
use std::alloc::Global;
use vm_cmd::RunWords;
use vm_law::Order;
use vm_status::{Kind, Refusal, Role};

/// The word that an order begins with, where the order isn't built.
fn later_word(order: &Order) -> Option<&'static str>
    ensures { option_map (λ w. w.now) result ≡ later.later_word order.now }
{
    match order {
        Order::Pause => Some("pause"),
        Order::Resume => Some("resume"),
        Order::Checkpoint(_) => Some("checkpoint"),
        Order::Against { .. } => Some("checkpoint"),
        Order::Send(_) => Some("send"),
        Order::Set { .. } => Some("set"),
        Order::Get { .. } => Some("get"),
        Order::WaitQuiet
        | Order::WaitConsole(_)
        | Order::WaitExecuted(_)
        | Order::Input(_)
        | Order::Nmi(_)
        | Order::Rendezvous
        | Order::Cancel { .. } => None,
    }
}

/// Refuses the first order that isn't built.
pub(crate) fn check_orders(alloc: Global, script: &[Order]) -> Result<(), Refusal>
    ensures value { UpToMemory (Is (spec.built script.now)) result }
    ensures own { IfErr result IsOwn }
{
    for order in script {
        if let Some(word) = later_word(order) {
            return Err(bad(alloc, Role::Start, word, 0, Kind::Later));
        }
    }
    Ok(())
}

/// Refuses a run that begins from a checkpoint.
pub(crate) fn check_words(alloc: Global, words: &RunWords) -> Result<(), Refusal>
    ensures value { UpToMemory (Is (spec.built_words words.now)) result }
    ensures own { IfErr result IsOwn }
{
    if words.restore.is_some() {
        return Err(bad(alloc, Role::Start, "--restore", 0, Kind::Later));
    }
    Ok(())
}
