//! The printed line of a refusal, and what stands in it.

ghost use Rattle.std.specs.Prelude.{◌≡◌, position};
ghost use Rattle.volcano_embedding.specs.Lines.{node_of, run_node, eval_node, is_end, word_length, words_in};

use std::alloc::{AllocError, Global};
use volcano_refusals::{Refusal, report};
use vx_catalog_bytes::{ByteOut, MemoryOut};
use vx_exec_setup::{EvalFault, RunFault};

// How many bytes stand before the code in a printed line.
const MARK: usize = "volcano: ".len();

/// Where the code and the name stand in a printed line.
#[derive(Clone, Copy)]
pub struct Words {
    pub code_at: usize,
    pub code_length: usize,
    pub name_at: usize,
    pub name_length: usize,
}

/// The line that the program prints for a refusal, with its line feed.
pub fn line_of(alloc: Global, refusal: &Refusal) -> Result<Vec<u8>, AllocError> {
    let mut out = MemoryOut::new(alloc, usize::MAX, usize::MAX);
    report(refusal, &mut out);
    if out.failed() {
        return Err(AllocError);
    }
    Vec::from_slice(alloc, out.bytes())
}

// Whether a word ends here.
fn is_end(byte: u8) -> bool
    ensures { result ≡ is_end byte }
{
    byte == b' ' || byte == b'\n'
}

// Where the first word ends.
fn end_of(bytes: &[u8]) -> Option<usize>
    ensures { result ≡ position is_end bytes.now }
{
    bytes.iter().position(|byte| is_end(*byte))
}

// How long the word is with which these bytes begin.
fn word_length(bytes: &[u8]) -> usize
    ensures length { result ≡ word_length bytes.now }
{
    match end_of(bytes) {
        Some(count) => count,
        None => bytes.len(),
    }
}

/// Where the code and the name stand in a printed line: the code is the word after `volcano: `, and the name the word after it.
pub fn words_in(line: &[u8]) -> Words
    ensures { result ≡ words_in line.now }
{
    let code_at = MARK.min(line.len());
    let code_length = word_length(&line[code_at..]);
    let name_at = code_at
        .saturating_add(code_length)
        .saturating_add(1)
        .min(line.len());
    let name_length = word_length(&line[name_at..]);
    Words {
        code_at,
        code_length,
        name_at,
        name_length,
    }
}

fn run_node(fault: &RunFault) -> Option<u32>
    ensures { result ≡ run_node fault.now }
{
    match fault {
        RunFault::Overflow { node }
        | RunFault::Unsorted { node }
        | RunFault::BadFunction { node } => Some(*node),
        _ => None,
    }
}

fn eval_node(fault: &EvalFault) -> Option<u32>
    ensures { result ≡ eval_node fault.now }
{
    match fault {
        EvalFault::HasExchange { node }
        | EvalFault::Overflow { node }
        | EvalFault::BadFunction { node } => Some(*node),
        EvalFault::OtherCatalog | EvalFault::NoMemory => None,
    }
}

/// The node that a refusal names.
pub fn node_of(refusal: &Refusal) -> Option<u32>
    ensures { result ≡ node_of refusal.now }
{
    match refusal {
        Refusal::Check { node, .. } => Some(*node),
        Refusal::Plan(fault) => fault.node(),
        Refusal::Run(fault) => run_node(fault),
        Refusal::Eval(fault) => eval_node(fault),
        _ => None,
    }
}
