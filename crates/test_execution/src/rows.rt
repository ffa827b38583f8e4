//! Rows of t that are generated: as they are loaded, and as they are shown.

use std::alloc::{AllocError, Global};
use test_runs::rows_named;

// Adds the row with a number. In `NUMBERED` its key is one of seven, and its value falls where the number rises; `RISING` and
// `FALLING` are how these rows are shown. In `SEVENS` it has a key of its own, and the value 7 if the number is odd and else 5; `SELECTED_SEVENS` is how
// those with 7 are shown.
fn push_row(text: &mut String, form: &str, number: u32) -> Result<(), AllocError> {
    let key = number % 7;
    let value = 0i64.wrapping_sub(i64::from(number));
    let is_odd = number % 2 == 1;
    match form {
        "NUMBERED" => write!(text, "{number},k{key},{value}\n"),
        "SEVENS" if is_odd => write!(text, "{number},k{number},7\n"),
        "SEVENS" => write!(text, "{number},k{number},5\n"),
        "SELECTED_SEVENS" if is_odd => write!(text, "{number} 'k{number}' 7;"),
        "SELECTED_SEVENS" => Ok(()),
        _ => write!(text, "{number} 'k{key}' {value};"),
    }
}

// The rows with the numbers below a count, in one of these forms. Only in `FALLING` their numbers fall.
fn generated(alloc: Global, form: &str, count: u32) -> Result<String, AllocError> {
    let mut text = String::new(alloc);
    for place in 0..count {
        let number = if form == "FALLING" {
            count.saturating_sub(place).saturating_sub(1)
        } else {
            place
        };
        push_row(&mut text, form, number)?;
    }
    Ok(text)
}

/// The rows of a form that is generated, as many as `count`, or those of another name, or the text itself.
pub fn rows_of(alloc: Global, text: &str, count: u32) -> Result<String, AllocError> {
    match text {
        "NUMBERED" | "RISING" | "FALLING" | "SEVENS" | "SELECTED_SEVENS" => {
            generated(alloc, text, count)
        }
        _ => String::from_str(alloc, rows_named(text)),
    }
}
