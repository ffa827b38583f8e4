//! The first clash of rows on the columns of a key.

ghost use Rattle.std.specs.Prelude.{◌≡◌, ◌<◌, length, None, true, IfOk, IfSome, IsOk, IsTrue, if◌then◌else◌};
ghost use Rattle.vx_rows_values.specs.Order.{rising, compare_on, agree, sorted};
ghost use Rattle.vx_rows_values.specs.Keys.{first_clash, earlier_clash};
ghost use Rattle.vx_rows.specs.Numbers.{AreKeyNumbers};
ghost use Rattle.vx_rows.specs.Sorting.{order_on};
ghost use Rattle.vx_rows.specs.View.{row, AreColumns};

use crate::numbers::Numbers;
use crate::spans::{first_equal, span_of};
use crate::table::Table;
use std::alloc::{AllocError, Global};
use std::cmp::Ordering;
use vx_rows_values::{compare_cells, rising};

// The clash found before, or this one where its second row comes first.
fn earlier(best: Option<(usize, usize)>, first: usize, second: usize) -> Option<(usize, usize)>
    ensures { result ≡ earlier_clash best first second }
{
    match best {
        None => Some((first, second)),
        Some(clash) => {
            if second < clash.1 {
                Some((first, second))
            } else {
                Some(clash)
            }
        }
    }
}

impl Table {
    // Compares the rows at two positions in these columns, all of them rising.
    fn compare_columns(&self, cols: &[usize], i: usize, j: usize) -> Ordering
        requires columns { AreColumns (length self.now.types) cols.now }
        requires first { i < length self.now.rows }
        requires second { j < length self.now.rows }
        ensures { result ≡ compare_on (rising cols.now) (row self.now i) (row self.now j) }
    {
        for c in cols {
            match compare_cells(self.cell(i, *c), self.cell(j, *c)) {
                Ordering::Equal => {}
                other => return other,
            }
        }
        Ordering::Equal
    }

    // The clash found before, or that of these two rows where they agree and the second of them comes first.
    fn with_pair(
        &self,
        cols: &[usize],
        best: Option<(usize, usize)>,
        first: usize,
        second: usize,
    ) -> Option<(usize, usize)>
        requires columns { AreColumns (length self.now.types) cols.now }
        requires first { first < length self.now.rows }
        requires second { second < length self.now.rows }
        ensures { result ≡ (if agree cols.now (row self.now second) (row self.now first) then earlier_clash best first second else best) }
    {
        if self.compare_columns(cols, second, first).is_eq() {
            earlier(best, first, second)
        } else {
            best
        }
    }

    // Whether each row is greater than the one before it, so that no two agree.
    fn rises(&self, cols: &[usize]) -> bool
        requires { AreColumns (length self.now.types) cols.now }
        ensures apart { IsTrue result → first_clash cols.now self.now.rows ≡ None }
        ensures rising { sorted (rising cols.now) self.now.rows ≡ true → first_clash cols.now self.now.rows ≡ None → IsTrue result }
    {
        for i in 1..self.len() {
            if !self.compare_columns(cols, i - 1, i).is_lt() {
                return false;
            }
        }
        true
    }

    // The first clash, from the positions of the rows in order: rows that agree are neighbours there.
    fn least_clash(&self, cols: &[usize], positions: &[usize]) -> Option<(usize, usize)>
        requires columns { AreColumns (length self.now.types) cols.now }
        requires order { positions.now ≡ order_on (rising cols.now) self.now.rows }
        ensures { result ≡ first_clash cols.now self.now.rows }
    {
        let mut best = None;
        for k in 1..positions.len() {
            best = self.with_pair(cols, best, positions[k - 1], positions[k]);
        }
        best
    }

    // The numbers of a key of one column, where it has numbers.
    fn key_numbers(&self, cols: &[usize]) -> Option<&Numbers>
        requires { AreColumns (length self.now.types) cols.now }
        ensures { IfSome result (λ v. AreKeyNumbers cols.now self.now.rows v.now) }
    {
        match cols {
            [column] => self.numbers(*column),
            _ => None,
        }
    }

    // The first clash, by a sort.
    fn sorted_clash(
        &self,
        alloc: Global,
        cols: &[usize],
    ) -> Result<Option<(usize, usize)>, AllocError>
        requires { AreColumns (length self.now.types) cols.now }
        ensures { IfOk result (λ o. o ≡ first_clash cols.now self.now.rows) }
    {
        let order = rising(alloc, cols)?;
        let positions = self.sorted_positions(alloc, order.as_slice())?;
        Ok(self.least_clash(cols, positions.as_slice()))
    }

    // The first clash, where rows agree exactly if their numbers do.
    fn numbers_clash(
        &self,
        alloc: Global,
        cols: &[usize],
        numbers: &Numbers,
    ) -> Result<Option<(usize, usize)>, AllocError>
        requires columns { AreColumns (length self.now.types) cols.now }
        requires numbers { AreKeyNumbers cols.now self.now.rows numbers.now }
        ensures { IfOk result (λ o. o ≡ first_clash cols.now self.now.rows) }
    {
        let count = self.len();
        match span_of(numbers, count) {
            Some(span) => first_equal(alloc, numbers, count, span),
            None => self.sorted_clash(alloc, cols),
        }
    }

    /// The first two rows that agree on these columns, as (earlier, second): the least second position that agrees
    /// with an earlier one, and the least such earlier one. It needs no memory if the rows rise strictly.
    pub fn first_key_clash(
        &self,
        alloc: Global,
        cols: &[usize],
    ) -> Result<Option<(usize, usize)>, AllocError>
        requires { AreColumns (length self.now.types) cols.now }
        ensures clash { IfOk result (λ o. o ≡ first_clash cols.now self.now.rows) }
        ensures rising { sorted (rising cols.now) self.now.rows ≡ true → first_clash cols.now self.now.rows ≡ None → IsOk result }
    {
        if self.rises(cols) {
            return Ok(None);
        }
        match self.key_numbers(cols) {
            Some(numbers) => self.numbers_clash(alloc, cols, numbers),
            None => self.sorted_clash(alloc, cols),
        }
    }
}
