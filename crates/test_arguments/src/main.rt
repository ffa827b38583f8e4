//! Whether command lines ask for what files of cases say, and the help of each command.
//!
//! The arguments name files. A line `volcano .. => TEXT` is a case: what the line asks for, or the kind of its refusal. A case
//! that comes to another text is printed with it. Any other line is printed with the help or the version that it asks for: of
//! these lines tools/make-manual makes the manual. Behind each file stands the number of its lines.
#![tactic(auto)]

use anyhow::{Context, Error};
use clap::Error as Refusal;
use std::alloc::{AllocError, Global};
use std::{env, fs};
use volcano_arguments::{Request, asked_for};

// The words of a line.
fn words_of<'a>(alloc: Global, line: &'a str) -> Result<Vec<&'a str>, AllocError> {
    let mut words = Vec::new(alloc);
    for word in line.split(' ') {
        words.push(word)?;
    }
    Ok(words)
}

// What a line asks for.
fn described(alloc: Global, request: &Request<'_>) -> Result<String, AllocError> {
    let asked = &request.asked;
    if let Some(form) = request.errors {
        return format!(in alloc; "{asked:?}, errors: {form:?}");
    }
    if let Some(word) = request.unknown_errors {
        return format!(in alloc; "{asked:?}, unknown errors: {word}");
    }
    match request.stats {
        None | Some("none") => {}
        Some(format) => return format!(in alloc; "{asked:?}, statistics: {format}"),
    }
    if let Some(path) = request.output {
        return format!(in alloc; "{asked:?}, rows to {path}");
    }
    match request.layout {
        None | Some("csv") => {}
        Some(layout) => return format!(in alloc; "{asked:?}, rows as {layout}"),
    }
    match request.threads {
        None | Some(0) => format!(in alloc; "{asked:?}"),
        Some(threads) => format!(in alloc; "{asked:?}, {threads} threads"),
    }
}

fn kind_of(alloc: Global, refusal: &Refusal) -> Result<String, AllocError> {
    let kind = refusal.kind();
    format!(in alloc; "{kind:?}")
}

// What a line asks for, or the kind of its refusal.
fn outcome(alloc: Global, line: &str) -> Result<String, AllocError> {
    let words = words_of(alloc, line)?;
    match asked_for(alloc, words.as_slice()) {
        Ok(Some(request)) => described(alloc, &request),
        Ok(None) => String::from_str(alloc, "nothing"),
        Err(refusal) => kind_of(alloc, &refusal),
    }
}

// The text that a line asks for: help, or the version.
fn text_of(alloc: Global, line: &str) -> Result<String, AllocError> {
    let words = words_of(alloc, line)?;
    match asked_for(alloc, words.as_slice()) {
        Ok(_) => String::from_str(alloc, "no text"),
        Err(refusal) => format!(in alloc; "{refusal}"),
    }
}

// Prints a case that comes to another text than the line says, or the text of a line that is no case.
fn tell(rt: &(impl Print + AllocGlobal), line: &str) -> Result<(), Error> {
    let Some((words, wanted)) = line.split_once(" => ") else {
        let text = text_of(rt.alloc(), line)?;
        println!(rt; "$ {line}\n{text}")?;
        return Ok(());
    };
    let given = outcome(rt.alloc(), words)?;
    if given.as_str() != wanted {
        println!(rt; "{words}: {given}, and not {wanted}")?;
    }
    Ok(())
}

fn tell_all(rt: &(impl Print + AllocGlobal), name: &str, text: &str) -> Result<(), Error> {
    let mut count = 0u64;
    for line in text.lines() {
        tell(rt, line)?;
        count = count.saturating_add(1);
    }
    println!(rt; "{name}: {count} lines")?;
    Ok(())
}

fn main(rt: HostRuntime) -> Result<(), Error> {
    for argument in env::args(&rt)?.skip(1) {
        let path = argument.as_str();
        let text = fs::read_to_string(&rt, path).context(format_args!("reading {path}"))?;
        tell_all(&rt, path, text.as_str())?;
    }
    Ok(())
}
