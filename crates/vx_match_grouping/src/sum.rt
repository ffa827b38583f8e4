//! A sum that no 64-bit numbers make too large, up to 2^62 of them.

ghost use Rattle.std.specs.Prelude.{◌≡◌, ◌≤◌, ◌*◌, ◌+◌, ◌^◌, pos, neg_ℤ, ◌+ℤ◌, ◌≤ℤ◌, OnOk, OnErr, IfSome, IfNone, true, false};
ghost use Rattle.vx_rows_values.specs.Types.{fits_64};

/// A sum has its 2^62 numbers.
#[derive(Clone, Copy, PartialEq, Eq)]
pub struct SumIsFull;

/// The exact sum of one number or more, up to 2^62.
#[derive(Drop)]
pub struct WideSum {
    total: i128,
    taken: u64,
    ghost low: { neg_ℤ (pos (2 ^ 63 * taken)) ≤ℤ total },
    ghost high: { total ≤ℤ pos (2 ^ 63 * taken) },
    ghost room: { taken ≤ 2 ^ 62 },
}

impl WideSum {
    /// The sum of one number.
    pub fn of(x: i64) -> WideSum
        ensures total { result.total ≡ x }
        ensures taken { result.taken ≡ 1 }
    {
        WideSum {
            total: i128::from(x),
            taken: 1,
        }
    }

    /// Adds one more number. It fails exactly if there are 2^62 already, and then the sum stays.
    pub fn add(&mut self, x: i64) -> Result<(), SumIsFull>
        ensures total { OnOk result (self.new.total ≡ self.old.total +ℤ x) }
        ensures taken { OnOk result (self.new.taken ≡ self.old.taken + 1) }
        ensures full { OnErr result (self.old.taken ≡ 2 ^ 62) }
        ensures same { OnErr result (self.new ≡ self.old) }
    {
        if self.taken >= 1 << 62 {
            return Err(SumIsFull);
        }
        *self = WideSum {
            total: self.total + i128::from(x),
            taken: self.taken + 1,
        };
        Ok(())
    }

    /// The sum, where it fits 64 bits.
    pub fn fit(&self) -> Option<i64>
        ensures fits { IfSome result (λ z. (z ≡ self.now.total) × (fits_64 self.now.total ≡ true)) }
        ensures not { IfNone result (fits_64 self.now.total ≡ false) }
    {
        i64::try_from(self.total).ok()
    }
}
