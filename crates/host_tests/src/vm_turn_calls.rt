//! Passes over a plain list of entries.
ghost use Rattle.std.specs.Prelude.{◌≡◌, false, []};
ghost use Rattle.vm_turn.specs.History.{Adds};

use std::alloc::Global;
use std::sync::Wait;
use std::test::*;
use std::thread;
use std::thread::Threads;
use vm_law::{Entry, Journal, Logged, Seq, Signed};
use vm_turn::{Busy, Held, Pass, Turnstile};

/// A number, and a plain list of entries.
#[derive(Drop)]
struct Plain {
    root: u64,
    list: Journal,
}

impl Logged for Plain {
    type Root = u64;

    ghost root = { λ p. p.root };

    ghost entries = { λ p. p.list };
}

fn empty_list(alloc: Global, root: u64) -> Plain
    ensures { (result.root ≡ root) × (result.list ≡ []) }
{
    Plain {
        root,
        list: Seq::new(alloc),
    }
}

/// Adds an entry, where there is memory for it.
fn add(value: &mut Plain, by: u16, k: u16) -> bool
    ensures root { value.new.root ≡ value.old.root }
    ensures history { Adds by value.old.list value.new.list }
{
    let entry = Entry::Done { k };
    value.list.push(Signed { by, entry }).is_ok()
}

fn is_at(entries: &[Signed], place: usize, by: u16, k: u16) -> bool {
    let want = Signed {
        by,
        entry: Entry::Done { k },
    };
    entries.get(place) == Some(&want)
}

/// One turn: takes the value, adds an entry, and gives the value back.
fn turn<R: Wait>(rt: &R, turnstile: &Turnstile<Plain>, pass: &mut Pass<Plain>, k: u16) -> bool
    requires own { pass.old.turnstile ≡ turnstile.now }
    requires idle { pass.old.view.holds ≡ false }
    ensures same { pass.new.turnstile ≡ pass.old.turnstile }
    ensures number { pass.new.view.number ≡ pass.old.view.number }
    ensures counts { (pass.new.view.splits ≡ pass.old.view.splits) × (pass.new.view.ended ≡ pass.old.view.ended) }
    ensures idle { pass.new.view.holds ≡ false }
{
    let mut held = turnstile.take(rt, pass);
    let added = add(&mut held.value, pass.number(), k);
    turnstile.give(pass, held);
    added
}

#[test]
fn one_pass_finds_what_it_gave(rt: HostRuntime) -> Result<(), Fail> {
    let (turnstile, mut pass) = Turnstile::make(rt.alloc(), empty_list(rt.alloc(), 7))?;
    let Ok(mut held) = turnstile.try_take(&mut pass) else {
        unreachable!()
    };
    assert!(rt; held.value.root == 7 && held.value.list.is_empty());
    assert!(rt; pass.number() == 0);
    let added = add(&mut held.value, 0, 1);
    turnstile.give(&mut pass, held);
    assert!(rt; added && turn(&rt, &turnstile, &mut pass, 2));
    let last = turnstile.close(pass);
    let entries = last.list.as_slice();
    assert!(rt; last.root == 7 && entries.len() == 2);
    assert!(rt; is_at(entries, 0, 0, 1) && is_at(entries, 1, 0, 2));
    Ok(())
}

#[test]
fn busy_names_the_holder(rt: HostRuntime) -> Result<(), Fail> {
    let (turnstile, pass) = Turnstile::make(rt.alloc(), empty_list(rt.alloc(), 7))?;
    let (first, mut second) = turnstile.split(pass);
    let (mut first, third) = turnstile.split(first);
    assert!(rt; second.number() == 1 && third.number() == 2);
    let mut held = turnstile.take(&rt, &mut second);
    match turnstile.try_take(&mut first) {
        Ok(_) => panic!(rt; "it was held"),
        Err(busy) => {
            assert!(rt; busy == Busy { holder: 1 });
            assert_eq!(rt;
                format!(in rt.alloc(); "{busy}")?.as_str(),
                "held by pass 1"
            );
        }
    }
    let added = add(&mut held.value, 1, 5);
    turnstile.give(&mut second, held);
    match turnstile.try_take(&mut first) {
        Ok(held) => {
            assert!(rt; added && is_at(held.value.list.as_slice(), 0, 1, 5));
            turnstile.give(&mut first, held);
        }
        Err(_) => panic!(rt; "nobody held it"),
    }
    let first = turnstile.join(first, second);
    let first = turnstile.join(first, third);
    let last = turnstile.close(first);
    assert!(rt; last.root == 7 && last.list.len() == 1);
    Ok(())
}

/// Takes `count` turns, and says whether there was memory for each entry.
fn turns<R: Wait>(
    rt: &R,
    turnstile: &Turnstile<Plain>,
    mut pass: Pass<Plain>,
    count: u16,
) -> (Pass<Plain>, bool)
    requires own { pass.turnstile ≡ turnstile.now }
    requires idle { pass.view.holds ≡ false }
    ensures own { result.0.turnstile ≡ turnstile.now }
    ensures number { result.0.view.number ≡ pass.view.number }
    ensures idle { result.0.view.holds ≡ false }
{
    let mut all = true;
    for k in 0..count {
        all &= turn(rt, turnstile, &mut pass, k);
    }
    (pass, all)
}

/// The same for two passes, one of them in a thread of its own.
fn both<R: Threads + Wait + Sync>(
    rt: &R,
    turnstile: &Turnstile<Plain>,
    left: Pass<Plain>,
    right: Pass<Plain>,
    count: u16,
) -> (Pass<Plain>, Pass<Plain>, bool)
    requires own { (left.turnstile ≡ turnstile.now) × (right.turnstile ≡ turnstile.now) }
    requires idle { (left.view.holds ≡ false) × (right.view.holds ≡ false) }
    ensures own { (result.0.turnstile ≡ turnstile.now) × (result.1.turnstile ≡ turnstile.now) }
    ensures numbers { (result.0.view.number ≡ left.view.number) × (result.1.view.number ≡ right.view.number) }
    ensures idle { (result.0.view.holds ≡ false) × (result.1.view.holds ≡ false) }
{
    let ((left, whole), (right, whole_too)) = thread::join(
        rt,
        move || turns(rt, turnstile, left, count),
        move || turns(rt, turnstile, right, count),
    );
    (left, right, whole && whole_too)
}

/// How many entries of a number there are, where the k-th of them from 0 has the number k.
fn own_in_order(entries: &[Signed], by: u16) -> Option<u16> {
    let mut next = 0u16;
    for signed in entries {
        if signed.by == by {
            if signed.entry != (Entry::Done { k: next }) {
                return None;
            }
            next = next.checked_add(1)?;
        }
    }
    Some(next)
}

#[test]
fn four_threads_add_each_entry_once(rt: HostRuntime) -> Result<(), Fail> {
    let (turnstile, pass) = Turnstile::make(rt.alloc(), empty_list(rt.alloc(), 7))?;
    let (pass, one) = turnstile.split(pass);
    let (pass, two) = turnstile.split(pass);
    let (pass, three) = turnstile.split(pass);
    let (pass, four) = turnstile.split(pass);
    let shared = &turnstile;
    let runtime = &rt;
    let ((one, two, whole), (three, four, whole_too)) = thread::join(
        runtime,
        move || both(runtime, shared, one, two, 1000),
        move || both(runtime, shared, three, four, 1000),
    );
    let pass = turnstile.join(pass, one);
    let pass = turnstile.join(pass, two);
    let pass = turnstile.join(pass, three);
    let pass = turnstile.join(pass, four);
    let last = turnstile.close(pass);
    let entries = last.list.as_slice();
    assert!(rt; whole && whole_too && entries.len() == 4000);
    for by in 1..5 {
        assert!(rt; own_in_order(entries, by) == Some(1000), "of pass {by}");
    }
    Ok(())
}

fn is_shared<L: Logged>(_turnstile: &Turnstile<L>) {}

/// A turnstile moves to another thread and is shared by it, and a pass and a taken value move to it, for
/// each value that may.
fn crosses<R: Threads, L: Logged + Send>(
    rt: &R,
    turnstile: Turnstile<L>,
    shared: &Turnstile<L>,
    pass: Pass<L>,
    held: Held<L>,
) -> u16 {
    let there = move || {
        drop(turnstile);
        is_shared(shared);
        drop(held);
        pass.number()
    };
    thread::join(rt, there, || ()).0
}

#[test]
fn crosses_threads(rt: HostRuntime) -> Result<(), Fail> {
    let (one, pass) = Turnstile::make(rt.alloc(), empty_list(rt.alloc(), 1))?;
    let (two, mut first) = Turnstile::make(rt.alloc(), empty_list(rt.alloc(), 2))?;
    let held = two.take(&rt, &mut first);
    assert!(rt; crosses(&rt, one, &two, pass, held) == 0);
    Ok(())
}
