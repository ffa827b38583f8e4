//! Where the text of a table may be cut, so that its parts are read by themselves.
#![tactic(auto)]

ghost use Rattle.vx_catalog_split.specs.Split.{SplitLaw};

/// The law of cutting: the records of bytes without a quote, and of a text behind them that begins with a line feed, are
/// the records of the bytes and then those of the text. It does nothing.
pub fn records_split_at_line_feeds()
    ensures { SplitLaw }
{}
