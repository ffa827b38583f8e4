//! Calls whose answers no command shows.

use anyhow::{Context, Error};
use serde_json::Value as Json;
use volcano_bundle::{Command, bundle_in};
use volcano_refusals::{Refusal, report};
use vx_catalog_bytes::Real;
use vx_exchange::ByteRouter;
use vx_exec_setup::Mode;
use vx_plan_nodes::Router;
use vx_rows_values::Value;

// Keys are sent by their bytes.
fn show_consumers(rt: &(impl Print + AllocGlobal)) -> Result<(), Error> {
    for word in ["a", "b", "c"] {
        let key = Value::Text(String::from_str(rt.alloc(), word)?);
        let consumer = ByteRouter.route("h", &[key], 3);
        println!(rt; "{word} is sent by h to {consumer} of 3")?;
    }
    let word = Value::Text(String::from_str(rt.alloc(), "é")?);
    let consumer = ByteRouter.route("r", &[Value::Int(-2), word], 1000);
    println!(rt; "-2 é is sent by r to {consumer} of 1000")?;
    Ok(())
}

// A bundle of which all members that may be left out are.
const BUNDLE: &str =
    r#"{"command":"explain","catalog":0,"plan":[],"tables":{"a":"x"},"sizes":{"n":4294967295}}"#;

// What members that are left out are taken for.
fn show_bundle(rt: &(impl Print + AllocGlobal)) -> Result<(), Error> {
    let value = Json::from_str(rt.alloc(), BUNDLE)?;
    let bundle = bundle_in(rt.alloc(), &value)?.context("the text is no bundle")?;
    let explains = bundle.command() == Command::Explain;
    let is_by_rounds = bundle.setting().mode() == Mode::Rounds;
    let (a, b) = (bundle.table("a"), bundle.table("b"));
    println!(rt; "explain: {explains}, by rounds: {is_by_rounds}, tables {a:?} and {b:?}")?;
    let setup = bundle.setting().setup();
    let (packet, morsel, slack) = (setup.packet(), setup.morsel(), setup.slack());
    let (name, workers) = setup.sizes().first().context("the bundle has no size")?;
    println!(rt; "packet {packet}, morsel {morsel}, slack {slack}, {name}={workers}")?;
    Ok(())
}

// The line of a refusal.
fn show_refusal(rt: &(impl Print + AllocGlobal), refusal: &Refusal) -> Result<(), Error> {
    let mut line = Vec::<u8>::with_capacity(rt.alloc(), 100)?;
    report(refusal, &mut Real::new(&mut line));
    let line = str::from_utf8(line.as_slice())?;
    print!(rt; "{line}")?;
    Ok(())
}

/// Prints what each call answers.
pub fn show_calls(rt: &(impl Print + AllocGlobal)) -> Result<(), Error> {
    show_consumers(rt)?;
    show_bundle(rt)?;
    show_refusal(rt, &Refusal::Unfinished)?;
    show_refusal(rt, &Refusal::NoMemory)
}
