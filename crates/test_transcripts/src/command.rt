//! A command of the program, as a line has it.

use anyhow::{Context, Error};
use std::alloc::{AllocError, Global};
use std::fs;
use std::fs::Files;

/// What a command reads as its standard input.
#[derive(Clone, Copy)]
enum Input<'a> {
    Nothing,
    /// The bytes of the file at this path.
    At(&'a str),
    /// This text.
    Given(&'a str),
}

/// A command of the program.
#[derive(Drop)]
pub struct Command<'a> {
    /// Without the program's name.
    pub arguments: Vec<&'a str>,
    input: Input<'a>,
}

// The arguments of a line, and what it has as standard input.
fn parts_of(line: &str) -> (&str, Input<'_>) {
    if let Some((words, text)) = line.split_once("<< ") {
        return (words, Input::Given(text));
    }
    match line.split_once('<') {
        Some((words, path)) => (words, Input::At(path.trim())),
        None => (line, Input::Nothing),
    }
}

impl<'a> Command<'a> {
    /// The command that `line` has after the program's name.
    pub fn of(alloc: Global, line: &'a str) -> Result<Command<'a>, AllocError> {
        let (words, input) = parts_of(line);
        let mut arguments = Vec::new(alloc);
        for argument in words.split_whitespace() {
            arguments.push(argument)?;
        }
        Ok(Command { arguments, input })
    }

    /// The bytes of its standard input.
    pub fn read_input(&self, rt: &(impl Files + AllocGlobal)) -> Result<Vec<u8>, Error> {
        match self.input {
            Input::Nothing => Ok(Vec::new(rt.alloc())),
            Input::At(path) => Ok(fs::read(rt, path).context(format_args!("reading {path}"))?),
            Input::Given(text) => Ok(Vec::from_slice(rt.alloc(), text.as_bytes())?),
        }
    }
}
