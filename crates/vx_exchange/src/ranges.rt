//! Routes by ranges of values.

ghost use Rattle.std.specs.Prelude.{◌≡◌, ◌<◌, true, map};
ghost use Rattle.std.specs.Ordering.{is_le};
ghost use Rattle.vx_rows_values.specs.Values.{val_cmp};
ghost use Rattle.vx_rows_values.specs.ValueView.{val_of, cell_val};
ghost use Rattle.vx_rows_values.specs.Bags.{count};
ghost use Rattle.vx_plan_nodes.specs.Routes.{range_consumer};
ghost use Rattle.vx_plan_nodes.specs.Typed.{rises};

use std::cmp::Ordering;
use std::marker::Model;
use vx_rows_values::{Cell, Value, compare_cells};

/// The bounds of a range route, each above those before it: a value goes to the consumer whose number is how many bounds are not above it,
/// and to the last one where there are fewer consumers (range partitioning, as of DeWitt's Gamma).
#[derive(Drop)]
pub struct Ranges {
    bounds: Vec<Value>,
}

impl Model for Ranges {
    ghost use Rattle.std.specs.Prelude.{◌≡◌, List, map, true};
    ghost use Rattle.vx_rows_values.specs.Values.{Val};
    ghost use Rattle.vx_rows_values.specs.ValueView.{val_of};
    ghost use Rattle.vx_plan_nodes.specs.Typed.{rises};

    ghost Value = { List Val };

    ghost view = { λ r. map val_of r.bounds.items };

    ghost invariant = { λ r. rises (map val_of r.bounds.items) ≡ true };
}

impl Ranges {
    /// The route by these bounds.
    pub fn new(bounds: Vec<Value>) -> Ranges
        requires { rises (map val_of bounds.items) ≡ true }
        ensures { result ≡ map val_of bounds.items }
    {
        Ranges { bounds }
    }

    /// The bounds, in their order.
    pub fn bounds(&self) -> &[Value]
        ensures { map val_of result.now ≡ self.now }
    {
        self.bounds.as_slice()
    }

    // How many bounds are not above a value.
    fn not_above(&self, value: Cell<'_>) -> usize
        ensures { result ≡ count (λ b. is_le (val_cmp b (cell_val value.entry))) self.now }
    {
        let mut low = 0;
        let mut high = self.bounds.len();
        while low < high {
            let middle = low + (high - low) / 2;
            match compare_cells(self.bounds[middle].cell(), value) {
                Ordering::Greater => high = middle,
                _ => low = middle + 1,
            }
        }
        low
    }

    /// The consumer of a value among n.
    pub fn consumer(&self, value: Cell<'_>, n: u32) -> u32
        requires { 0 < n }
        ensures { result ≡ range_consumer self.now (cell_val value.entry) n }
    {
        self.not_above(value).min(n as usize - 1) as u32
    }
}
