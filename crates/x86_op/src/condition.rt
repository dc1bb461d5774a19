//! Conditions of Jcc, SETcc and CMOVcc. Source: Intel SDM volume 1, appendix B.
ghost use Rattle.std.specs.Prelude.{◌≡◌};
ghost use Rattle.x86_alu.specs.Shift.{differ};
ghost use Rattle.x86_op.specs.Condition as spec;

use crate::flags::{CF, OF, PF, SF, ZF, is_set};
use vm_law::Condition;

// Whether one of two is true, and not both.
#[inline(always)]
fn differ(a: bool, b: bool) -> bool
    ensures { result ≡ differ a b }
{
    a != b
}

#[inline(always)]
fn is_below_or_equal(flags: u64) -> bool
    ensures { result ≡ spec.is_below_or_equal flags }
{
    is_set(flags, CF) || is_set(flags, ZF)
}

#[inline(always)]
fn is_less(flags: u64) -> bool
    ensures { result ≡ spec.is_less flags }
{
    differ(is_set(flags, SF), is_set(flags, OF))
}

#[inline(always)]
fn is_less_or_equal(flags: u64) -> bool
    ensures { result ≡ spec.is_less_or_equal flags }
{
    is_set(flags, ZF) || is_less(flags)
}

/// Whether a condition holds.
#[inline(always)]
#[tactic(auto, unfolding(crate::specs::Condition::holds))]
pub(crate) fn holds(flags: u64, condition: Condition) -> bool
    ensures { result ≡ spec.holds flags condition }
{
    match condition {
        Condition::O => is_set(flags, OF),
        Condition::No => !is_set(flags, OF),
        Condition::B => is_set(flags, CF),
        Condition::Ae => !is_set(flags, CF),
        Condition::E => is_set(flags, ZF),
        Condition::Ne => !is_set(flags, ZF),
        Condition::Be => is_below_or_equal(flags),
        Condition::A => !is_below_or_equal(flags),
        Condition::S => is_set(flags, SF),
        Condition::Ns => !is_set(flags, SF),
        Condition::P => is_set(flags, PF),
        Condition::Np => !is_set(flags, PF),
        Condition::L => is_less(flags),
        Condition::Ge => !is_less(flags),
        Condition::Le => is_less_or_equal(flags),
        Condition::G => !is_less_or_equal(flags),
    }
}
