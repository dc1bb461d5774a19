//! The counts that a number gives.
ghost use Rattle.std.specs.Prelude.{◌≡◌, ◌≤◌, ◌<◌, ◌^◌, sum};
ghost use Rattle.vm_making.specs.Counts.{counts, next};

use arrayvec::ArrayVec;

/// The number that follows one of the generator's.
fn next(x: u64) -> u64
    requires { x < 2147483648 }
    ensures value { result ≡ next x }
    ensures below { result < 2147483648 }
{
    (1_103_515_245 * x + 12_345) % 2_147_483_648
}

/// The counts of the vCPUs from 0 on, each from 1 to 10,000. It takes no memory.
///
/// They come from the generator of the C standard's example of `rand` (ISO C, 7.22.2.2) modulo 2^31, which begins with the
/// number: the count of a vCPU is the next number modulo 10,000, and 1 more.
pub fn counts_of(cpus: u8, number: u32) -> ArrayVec<u32, 16>
    requires { cpus ≤ 16 }
    ensures { result.items ≡ counts cpus number }
{
    let mut counts = ArrayVec::new();
    let mut x = u64::from(number) % 2_147_483_648;
    for _cpu in 0..cpus {
        x = next(x);
        counts.push((1 + x % 10_000) as u32);
    }
    counts
}

/// The sum of counts.
pub(crate) fn sum_of(counts: &[u32]) -> u32
    requires { sum counts.now < 2 ^ 32 }
    ensures { result ≡ sum counts.now }
{
    counts.iter().sum()
}
