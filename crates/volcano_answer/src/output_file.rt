//! Where arguments ask rows to be put.

ghost use Rattle.std.specs.Prelude.{◌≡◌, map, option_map, string_bytes, IfOk};
ghost use Rattle.volcano_answer.specs.CommandLine.{output_asked};

use crate::command_line::with_program_name;
use clap::error::ErrorKind;
use std::alloc::{AllocError, Global};
use volcano_arguments::asked_for;

// The path of standard output.
const OUTPUT: &str = "-";

/// The path of the file that arguments ask rows to be put into. `None` is standard output, which also gets help.
pub fn output_path(alloc: Global, arguments: &[&str]) -> Result<Option<String>, AllocError>
    ensures { IfOk result (λ o. option_map string_bytes o ≡ output_asked (map (λ a. a.now) arguments.now)) }
{
    let arguments = with_program_name(alloc, arguments)?;
    match asked_for(alloc, arguments.as_slice()) {
        Ok(Some(request)) => match request.output {
            Some(path) if path != OUTPUT => Ok(Some(String::from_str(alloc, path)?)),
            _ => Ok(None),
        },
        Ok(None) => Ok(None),
        Err(error) if error.kind() == ErrorKind::OutOfMemory => Err(AllocError),
        Err(_) => Ok(None),
    }
}
