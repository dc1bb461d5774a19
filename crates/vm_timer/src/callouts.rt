ghost use Rattle.std.specs.Prelude.{◌≡◌, ◌<◌, ◌≤◌, ◌^◌, ◌&&◌, ℕ, replicate, length, slice_index, slice_set};
ghost use Rattle.std.specs.List.{All};
ghost use Rattle.vm_timer.specs.Timers as spec;

use crate::fired::Fired;
use std::marker::Model;

/// How many timers there are.
const TIMERS: usize = 16;

/// The timers of 16 vCPUs. Contracts see what is left of each: a list of 16 numbers below 2^40, 0 where the timer is
/// disarmed. Counts are of executed instructions.
#[derive(Drop)]
pub struct Callouts {
    left: [u64; TIMERS],
}

impl Model for Callouts {
    ghost use Rattle.std.specs.Prelude.{List, ℕ, ◌<◌, ◌^◌};
    ghost use Rattle.std.specs.List.{All};

    ghost Value = { List ℕ };

    ghost view = { λ callouts. callouts.left };

    ghost invariant = { λ callouts. All (λ r. r < 2 ^ 40) callouts.left };
}

impl Callouts {
    /// No timer is armed.
    pub fn new() -> Callouts
        ensures { result ≡ replicate 16 0 }
    {
        Callouts { left: [0; TIMERS] }
    }

    /// Equal timers.
    pub fn copy(&self) -> Callouts
        ensures { result ≡ self.now }
    {
        Callouts { left: self.left }
    }

    /// There are 16 timers, with less than 2^40 left of each.
    pub fn is_small(&self)
        ensures count { length self.now ≡ 16 }
        ensures small { All (λ r. r < 2 ^ 40) self.now }
    {
        let _left = self.left;
    }

    /// Arms the timer of a vCPU, below 16, with a count above 0 and below 2^40, in place of what was left of it.
    pub fn arm(&mut self, cpu: u8, remaining: u64)
        requires cpu { cpu < 16 }
        requires some { 0 < remaining }
        requires small { remaining < 2 ^ 40 }
        ensures { self.new ≡ slice_set self.old cpu remaining }
    {
        self.left[cpu as usize] = remaining;
    }

    /// Disarms the timer of a vCPU, below 16.
    pub fn disarm(&mut self, cpu: u8)
        requires { cpu < 16 }
        ensures { self.new ≡ slice_set self.old cpu 0 }
    {
        self.left[cpu as usize] = 0;
    }

    /// What is left of the timer of a vCPU, below 16: 0 exactly where it is disarmed.
    pub fn left(&self, cpu: u8) -> u64
        requires { cpu < 16 }
        ensures left { result ≡ spec.left_of self.now cpu }
        ensures small { result < 2 ^ 40 }
    {
        self.left[cpu as usize]
    }

    /// A tick of `n`: each armed timer with at most `n` left fires, and the answer tells their vCPUs in order of what was
    /// left, then of their number. One whose span is 0 is disarmed by that; one of another span, below 2^40, is periodic
    /// and goes on in its next period. The other timers lose `n`.
    ///
    /// Source: Intel SDM volume 3, section 10.5.4.
    pub fn tick(&mut self, n: u64, spans: &[u64; 16]) -> Fired
        requires { All (λ span. span < 2 ^ 40) spans.now }
        ensures fired { spec.AreFired self.old n result }
        ensures after { self.new ≡ spec.ticked self.old n spans.now }
    {
        let fired = self.fired_by(n);
        self.advance(n, spans);
        fired
    }

    /// The vCPUs whose timers fire in a tick of `n`, in order.
    fn fired_by(&self, n: u64) -> Fired
        ensures { spec.AreFired self.now n result }
    {
        self.is_small();
        let mut fired = Fired::none();
        for cpu in 0..16 {
            let left = self.left(cpu);
            if fires(n, left) {
                let place = self.place_of(fired.as_slice(), left);
                fired.insert(place, cpu);
            }
        }
        fired
    }

    /// How many of these vCPUs, from the first on, have at most so much left.
    fn place_of(&self, cpus: &[u8], left: u64) -> usize
        requires { All (λ cpu. cpu < 16) cpus.now }
        ensures within { result ≤ length cpus.now }
        ensures before { (k : ℕ) → k < result → spec.left_of self.now (slice_index cpus.now k) ≤ left }
        ensures after { result < length cpus.now → left < spec.left_of self.now (slice_index cpus.now result) }
    {
        for (place, cpu) in cpus.iter().enumerate() {
            if self.left(*cpu) > left {
                return place;
            }
        }
        cpus.len()
    }

    /// Takes each timer through a tick of `n`.
    fn advance(&mut self, n: u64, spans: &[u64; 16])
        requires { All (λ span. span < 2 ^ 40) spans.now }
        ensures { self.new ≡ spec.ticked self.old n spans.now }
    {
        let mut after = [0; TIMERS];
        for cpu in 0..TIMERS {
            after[cpu] = left_after(n, spans[cpu], self.left[cpu]);
        }
        self.left = after;
    }
}

/// Whether a timer with so much left fires in a tick of `n`.
fn fires(n: u64, left: u64) -> bool
    ensures { result ≡ spec.fires n left }
{
    0 < left && left <= n
}

/// What is left after a tick of `n` of a timer with a span and what was left of it.
fn left_after(n: u64, span: u64, left: u64) -> u64
    requires span { span < 2 ^ 40 }
    requires left { left < 2 ^ 40 }
    ensures left { result ≡ spec.left_after n span left }
    ensures small { result < 2 ^ 40 }
{
    if !fires(n, left) {
        return left.saturating_sub(n);
    }
    if span == 0 {
        return 0;
    }
    span - (n - left) % span
}
