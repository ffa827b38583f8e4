//! A quote of a text that does not close.

use crate::fault::PlaceFault;
use crate::source::ByteSource;
use crate::stage::RecordState;
use std::alloc::Global;
use vx_catalog_bytes::ByteIn;

// The line of the last quote that opened a field, and whether it is open still.
#[derive(Clone, Copy)]
struct LastQuote {
    line: u64,
    is_open: bool,
}

impl LastQuote {
    // Behind a byte on this line, which led to this state.
    fn after(self, line: u64, state: RecordState) -> LastQuote {
        match state {
            RecordState::InQuoted if !self.is_open => LastQuote {
                line,
                is_open: true,
            },
            RecordState::InQuoted | RecordState::AfterQuote => self,
            _ => LastQuote {
                line: self.line,
                is_open: false,
            },
        }
    }
}

/// The line, counted from 1, of the quote that opens in a port's text and does not close before its end, if there is one.
pub fn open_quote<R: ByteIn + Drop>(alloc: Global, port: R) -> Result<Option<u64>, PlaceFault> {
    let mut source = ByteSource::new(alloc, port)?;
    let mut state = RecordState::StartRecord;
    let mut quote = LastQuote {
        line: 1,
        is_open: false,
    };
    for _ in 0..u64::MAX {
        let line = source.line();
        let Some(byte) = source.next()? else {
            return Ok(open_line(quote, state));
        };
        state = state.step(byte).stage;
        quote = quote.after(line, state);
    }
    Err(PlaceFault::Unreadable)
}

// The line of the quote, if the text ends inside it.
fn open_line(quote: LastQuote, state: RecordState) -> Option<u64> {
    match state {
        RecordState::InQuoted => Some(quote.line),
        _ => None,
    }
}
