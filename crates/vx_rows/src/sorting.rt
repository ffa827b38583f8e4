//! The order of rows: comparison, sortedness, and the stable sort of their positions.

ghost use Rattle.std.specs.Prelude.{◌≡◌, ◌-◌, ◌<◌, length, map, IfOk};
ghost use Rattle.std.specs.Ordering.{is_lt};
ghost use Rattle.vx_rows_values.specs.Values.{value_at};
ghost use Rattle.vx_rows_values.specs.Order.{order_columns, compare_on, sorted, sort_on};
ghost use Rattle.vx_rows.specs.Sorting.{sort_by, order_on, first_number, first_falls, place_of, compare_places};
ghost use Rattle.vx_rows.specs.Lists.{each_below};
ghost use Rattle.vx_rows_values.specs.ValueView.{cell_val};
ghost use Rattle.vx_rows.specs.View.{row, AreColumns, ArePositions};

use crate::table::Table;
use std::alloc::{AllocError, Global};
use std::cmp::Ordering;
use vx_rows_values::{Cell, OrderEntry};

/// Compares two rows entry by entry: numbers by size, texts by their bytes.
pub fn compare_on(order: &[OrderEntry], a: &Table, i: usize, b: &Table, j: usize) -> Ordering
    requires types { a.now.types ≡ b.now.types }
    requires columns { AreColumns (length a.now.types) (order_columns order.now) }
    requires a { i < length a.now.rows }
    requires b { j < length b.now.rows }
    ensures { result ≡ compare_on order.now (row a.now i) (row b.now j) }
{
    for entry in order {
        match entry.compare(a.cell(i, entry.column), b.cell(j, entry.column)) {
            Ordering::Equal => {}
            other => return other,
        }
    }
    Ordering::Equal
}

/// Where a row stands, with a number by which most rows are told apart without reading them.
#[derive(Clone, Copy)]
pub(crate) struct SortPlace {
    first: i64,
    position: usize,
}

// Whether the first column of the order falls.
fn starts_falling(order: &[OrderEntry]) -> bool
    ensures { result ≡ first_falls order.now }
{
    match order {
        [] => false,
        [entry, ..] => entry.falling,
    }
}

impl Table {
    // Whether the row at a position is smaller than the one before it.
    fn falls(&self, order: &[OrderEntry], i: usize) -> bool
        requires later { 0 < i }
        requires near { i < length self.now.rows }
        requires columns { AreColumns (length self.now.types) (order_columns order.now) }
        ensures { result ≡ is_lt (compare_on order.now (row self.now i) (row self.now (i - 1))) }
    {
        compare_on(order, self, i, self, i - 1).is_lt()
    }

    /// Whether no row is smaller than an earlier one.
    pub fn is_sorted(&self, order: &[OrderEntry]) -> bool
        requires { AreColumns (length self.now.types) (order_columns order.now) }
        ensures { result ≡ sorted order.now self.now.rows }
    {
        for i in 1..self.len() {
            if self.falls(order, i) {
                return false;
            }
        }
        true
    }

    // The value of a row in a column, and the number 0 past the last row.
    fn cell_or_zero(&self, i: usize, column: usize) -> Cell<'_>
        requires { column < length self.now.types }
        ensures { cell_val result ≡ value_at (row self.now i) column }
    {
        if i < self.len() {
            self.cell(i, column)
        } else {
            Cell::Int(0)
        }
    }

    // Compares the rows at two positions, past the last row a row of no values.
    fn compare_rows(&self, order: &[OrderEntry], i: usize, j: usize) -> Ordering
        requires { AreColumns (length self.now.types) (order_columns order.now) }
        ensures { result ≡ compare_on order.now (row self.now i) (row self.now j) }
    {
        for entry in order {
            let a = self.cell_or_zero(i, entry.column);
            let b = self.cell_or_zero(j, entry.column);
            match entry.compare(a, b) {
                Ordering::Equal => {}
                other => return other,
            }
        }
        Ordering::Equal
    }

    // Compares two places by their numbers, rising or falling, and then by the rows there.
    fn compare_places(
        &self,
        falling: bool,
        order: &[OrderEntry],
        a: &SortPlace,
        b: &SortPlace,
    ) -> Ordering
        requires { AreColumns (length self.now.types) (order_columns order.now) }
        ensures { result ≡ compare_places falling order.now self.now.rows a.now b.now }
    {
        let numbers = if falling {
            b.first.cmp(&a.first)
        } else {
            a.first.cmp(&b.first)
        };
        match numbers {
            Ordering::Equal => self.compare_rows(order, a.position, b.position),
            other => other,
        }
    }

    // The number of a row in the first column of the order, 0 where that is a text or there is none.
    fn first_number(&self, order: &[OrderEntry], i: usize) -> i64
        requires columns { AreColumns (length self.now.types) (order_columns order.now) }
        requires row { i < length self.now.rows }
        ensures { result ≡ first_number order.now (row self.now i) }
    {
        match order {
            [] => 0,
            [entry, ..] => match self.cell(i, entry.column) {
                Cell::Int(number) => number,
                Cell::Text(_) => 0,
            },
        }
    }

    // The place of a row.
    fn place(&self, order: &[OrderEntry], i: usize) -> SortPlace
        requires columns { AreColumns (length self.now.types) (order_columns order.now) }
        requires row { i < length self.now.rows }
        ensures { result ≡ place_of order.now self.now.rows i }
    {
        SortPlace {
            first: self.first_number(order, i),
            position: i,
        }
    }

    // The places of all rows, in their order.
    fn places(&self, alloc: Global, order: &[OrderEntry]) -> Result<Vec<SortPlace>, AllocError>
        requires { AreColumns (length self.now.types) (order_columns order.now) }
        ensures { IfOk result (λ v. v.items ≡ each_below (length self.now.rows) (place_of order.now self.now.rows)) }
    {
        let mut places = Vec::with_capacity(alloc, self.len())?;
        for i in 0..self.len() {
            places.push(self.place(order, i))?;
        }
        Ok(places)
    }

    // The places of all rows, as the stable sort puts them.
    fn sorted_places(
        &self,
        alloc: Global,
        order: &[OrderEntry],
    ) -> Result<Vec<SortPlace>, AllocError>
        requires { AreColumns (length self.now.types) (order_columns order.now) }
        ensures { IfOk result (λ v. v.items ≡ sort_by (compare_places (first_falls order.now) order.now self.now.rows) (each_below (length self.now.rows) (place_of order.now self.now.rows))) }
    {
        let mut places = self.places(alloc, order)?;
        let falling = starts_falling(order);
        places.sort_by(|a, b| self.compare_places(falling, order, a, b))?;
        Ok(places)
    }

    /// The positions of all rows as the stable sort puts them: rows that are equal in this order stay as they stood.
    pub fn sorted_positions(
        &self,
        alloc: Global,
        order: &[OrderEntry],
    ) -> Result<Vec<usize>, AllocError>
        requires { AreColumns (length self.now.types) (order_columns order.now) }
        ensures order { IfOk result (λ v. v.items ≡ order_on order.now self.now.rows) }
        ensures sorted { IfOk result (λ v. map (row self.now) v.items ≡ sort_on order.now self.now.rows) }
        ensures there { IfOk result (λ v. ArePositions (length self.now.rows) v.items) }
    {
        let places = self.sorted_places(alloc, order)?;
        let mut positions = Vec::with_capacity(alloc, self.count)?;
        for place in &places {
            positions.push(place.position)?;
        }
        Ok(positions)
    }
}
