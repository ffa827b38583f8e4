//! Remainders by one number, found without a division.

ghost use Rattle.std.specs.Prelude.{◌≡◌, ◌+◌, ◌-◌, ◌/◌, ◌%◌, ◌^◌, ◌<◌};

/// The remainders by one number. Each takes two multiplications and no division, which is slower (Lemire, Kaser and Kurz, "Faster remainder
/// by direct computation", 2019). `scale` is 2^64 divided by the number and rounded up, in 64 bits: for the number 1 it is 0, and serves too.
#[derive(Clone, Copy)]
pub(crate) struct Remainders {
    by: u32,
    scale: u64,
    ghost some: { 0 < by },
    ghost scaled: { scale ≡ ((2 ^ 64 - 1) / by + 1) % 2 ^ 64 },
}

impl Remainders {
    /// The remainders by a number.
    pub fn by(n: u32) -> Remainders
        requires { 0 < n }
        ensures { result.by ≡ n }
    {
        Remainders {
            by: n,
            scale: (u64::MAX / n as u64).wrapping_add(1),
        }
    }

    /// The remainder of a number.
    #[inline(always)]
    pub fn of(&self, number: u32) -> u32
        ensures { result ≡ number % self.now.by }
    {
        // What the quotient has behind its point, in parts of 2^64 and a little rounded up. `by` times that is the remainder and a fraction
        // below one, which the shift drops.
        let fraction = self.scale.wrapping_mul(number as u64);
        ((fraction as u128 * self.by as u128) >> 64) as u32
    }
}
