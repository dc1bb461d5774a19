ghost use Rattle.std.specs.Prelude.{◌≡◌, ◌^◌, ◌<◌};
ghost use Rattle.x86_alu.specs.Flags.{AreReplaced, is_set, with_bit, with_flags, with_carry_overflow, is_parity_even, of_result};
ghost use Rattle.x86_alu.specs.Operand.{span};

use crate::operand::is_negative;
use vm_law::Width;

/// The six status flags. Source: Intel SDM volume 1, section 3.4.3.1.
#[derive(Clone, Copy, PartialEq, Eq)]
pub struct Flags {
    /// Carry.
    pub cf: bool,
    /// Parity: the low byte has an even number of ones.
    pub pf: bool,
    /// Auxiliary carry: the carry out of the low four bits.
    pub af: bool,
    /// Zero.
    pub zf: bool,
    /// Sign: the top bit.
    pub sf: bool,
    /// Overflow: the signed result doesn't fit.
    pub of: bool,
}

/// No flag set.
pub(crate) const CLEAR: Flags = Flags {
    cf: false,
    pf: false,
    af: false,
    zf: false,
    sf: false,
    of: false,
};

// Their places in RFLAGS.
pub(crate) const CF: u32 = 0;

const PF: u32 = 2;

const AF: u32 = 4;

pub(crate) const ZF: u32 = 6;

const SF: u32 = 7;

const OF: u32 = 11;

/// Whether bit `place` of a word is 1.
#[inline(always)]
pub(crate) fn is_set(word: u64, place: u32) -> bool
    requires { place < 64 }
    ensures { result ≡ is_set word place }
{
    word >> place & 1 == 1
}

/// A word with its bit `place` set or cleared.
#[inline(always)]
pub(crate) fn with_bit(word: u64, place: u32, on: bool) -> u64
    requires { place < 64 }
    ensures { result ≡ with_bit word place on }
{
    let mask = 1u64 << place;
    if on { word | mask } else { word & !mask }
}

/// RFLAGS with the six flags replaced.
#[inline(always)]
#[tactic(auto, unfolding(crate::specs::Flags::with_flags))]
pub(crate) fn with_flags(rflags: u64, flags: Flags) -> u64
    ensures { result ≡ with_flags rflags flags }
{
    let with_cf = with_bit(rflags, CF, flags.cf);
    let with_pf = with_bit(with_cf, PF, flags.pf);
    let with_af = with_bit(with_pf, AF, flags.af);
    let with_zf = with_bit(with_af, ZF, flags.zf);
    let with_sf = with_bit(with_zf, SF, flags.sf);
    with_bit(with_sf, OF, flags.of)
}

/// RFLAGS with CF and OF replaced.
#[tactic(auto, unfolding(crate::specs::Flags::with_carry_overflow))]
pub(crate) fn with_carry_overflow(rflags: u64, cf: bool, of: bool) -> u64
    ensures { result ≡ with_carry_overflow rflags cf of }
{
    with_bit(with_bit(rflags, CF, cf), OF, of)
}

#[inline]
fn is_parity_even(result_word: u64) -> bool
    ensures { result ≡ is_parity_even result_word }
{
    (result_word & 0xFF).count_ones() % 2 == 0
}

/// ZF, SF and PF by a result; the other three are clear.
#[inline]
#[tactic(auto, unfolding(crate::specs::Flags::of_result))]
pub(crate) fn of_result(width: Width, word: u64) -> Flags
    requires { word < span width }
    ensures { result ≡ of_result (span width) word }
{
    Flags {
        pf: is_parity_even(word),
        zf: word == 0,
        sf: is_negative(width, word),
        ..CLEAR
    }
}

/// The law of [`Flags`] in RFLAGS: each of the six flags is the one that is written, and every other bit stays.
/// Source: Intel SDM volume 1, section 3.4.3.
pub fn only_these_change(rflags: u64, flags: Flags)
    ensures { AreReplaced rflags (with_flags rflags flags) flags }
{}
