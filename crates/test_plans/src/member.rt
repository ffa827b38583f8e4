//! Members of the entries of a file.

use anyhow::{Context, Error};
use serde_json::Value as Json;

/// A member that is a text.
pub fn text_at<'v>(entry: &'v Json, key: &str) -> Result<&'v str, Error> {
    entry
        .get(key)
        .and_then(Json::as_str)
        .context(format_args!("it has no text {key}"))
}

/// A member that is a number.
pub fn number_at(entry: &Json, key: &str) -> Result<u64, Error> {
    entry
        .get(key)
        .and_then(Json::as_u64)
        .context(format_args!("it has no number {key}"))
}
