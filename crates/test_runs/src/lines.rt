//! The texts that lines of tables name.

use crate::operators::{
    GATHERED_SUMS, GATHERED_SUMS_IN_TWO_PHASES, JOINED_EVERYWHERE, JOINED_GATHERED_SUMS,
};
use crate::relations::{
    BOTH_TOO_LARGE, EIGHT_ROWS, LARGE, LARGE_FIRST, ROWS_OF_D, ROWS_OF_T, SIXTY_ROWS, TOO_LARGE,
};
use crate::worked::{
    COUNTED, COUNTED_BY_ONE, GATHERED, GROUPED, JOINED, JOINED_SUMS, MERGED, MERGED_FALLING,
    SELECTED, SENT_TO_MEET, SUMS_IN_TWO_PHASES,
};

/// The plan of a name, or the text itself.
pub fn document_named(text: &str) -> &str {
    match text {
        "GATHERED" => GATHERED,
        "SELECTED" => SELECTED,
        "MERGED" => MERGED,
        "MERGED_FALLING" => MERGED_FALLING,
        "GROUPED" => GROUPED,
        "SUMS_IN_TWO_PHASES" => SUMS_IN_TWO_PHASES,
        "JOINED" => JOINED,
        "SENT_TO_MEET" => SENT_TO_MEET,
        "JOINED_SUMS" => JOINED_SUMS,
        "JOINED_EVERYWHERE" => JOINED_EVERYWHERE,
        "COUNTED" => COUNTED,
        "COUNTED_BY_ONE" => COUNTED_BY_ONE,
        "GATHERED_SUMS" => GATHERED_SUMS,
        "GATHERED_SUMS_IN_TWO_PHASES" => GATHERED_SUMS_IN_TWO_PHASES,
        "JOINED_GATHERED_SUMS" => JOINED_GATHERED_SUMS,
        _ => text,
    }
}

/// The rows of a name, none of `-`, or the text itself.
pub fn rows_named(text: &str) -> &str {
    match text {
        "-" => "",
        "T" => ROWS_OF_T,
        "D" => ROWS_OF_D,
        "LARGE" => LARGE,
        "TOO_LARGE" => TOO_LARGE,
        "BOTH_TOO_LARGE" => BOTH_TOO_LARGE,
        "LARGE_FIRST" => LARGE_FIRST,
        "EIGHT" => EIGHT_ROWS,
        "SIXTY" => SIXTY_ROWS,
        _ => text,
    }
}
