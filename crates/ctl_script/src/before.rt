//! What the orders before say of the next one.
ghost use Rattle.std.specs.Prelude.{◌≡◌, false};
ghost use Rattle.std.specs.List.{list_any};
ghost use Rattle.ctl_script.specs.Before.{paused_after, is_checkpoint, has_other_base, may_be_base, sends, is_closed};

use vm_law::Order;

/// Whether the machine is paused after an order.
pub fn paused_after(paused: bool, order: &Order) -> bool
    ensures { result ≡ paused_after paused order.now }
{
    match order {
        Order::Pause => true,
        Order::Resume => false,
        _ => paused,
    }
}

// A checkpoint of that name without a base.
fn is_checkpoint(name: &str, order: &Order) -> bool
    ensures { result ≡ is_checkpoint name.now order.now }
{
    match order {
        Order::Checkpoint(file) => file.as_str() == name,
        _ => false,
    }
}

// A checkpoint against another base.
fn has_other_base(name: &str, order: &Order) -> bool
    ensures { result ≡ has_other_base name.now order.now }
{
    match order {
        Order::Against { base, .. } => base.as_str() != name,
        _ => false,
    }
}

fn stands(before: &[Order], name: &str) -> bool
    ensures { result ≡ list_any (is_checkpoint name.now) before.now }
{
    before.iter().any(|order| is_checkpoint(name, order))
}

fn has_other(before: &[Order], name: &str) -> bool
    ensures { result ≡ list_any (has_other_base name.now) before.now }
{
    before.iter().any(|order| has_other_base(name, order))
}

/// Whether a checkpoint may name that base after these orders.
pub fn may_be_base(before: &[Order], name: &str) -> bool
    ensures { result ≡ may_be_base before.now name.now }
{
    if name.len() > 65_535 {
        return false;
    }
    stands(before, name) && !has_other(before, name)
}

fn sends(name: &str, order: &Order) -> bool
    ensures { result ≡ sends name.now order.now }
{
    match order {
        Order::Send(stream) => stream.as_str() == name,
        _ => false,
    }
}

/// Whether one of these orders sent to the stream while paused.
pub fn is_closed(before: &[Order], name: &str) -> bool
    ensures { result ≡ is_closed false before.now name.now }
{
    let mut paused = false;
    for order in before {
        if paused && sends(name, order) {
            return true;
        }
        paused = paused_after(paused, order);
    }
    false
}
