//! A bundle: what one run of the program is asked to do, as JSON.

ghost use Rattle.std.specs.Prelude.{◌≡◌, [], map, codes, option_map, bytes_eq, IfOk};
ghost use Rattle.std.specs.List.{find};
ghost use Rattle.serde_json.specs.Find.{get, as_str};
ghost use Rattle.serde_json.specs.View.{view, members_view};
ghost use Rattle.vx_catalog_json.specs.Look.{Finds, Parses, Reads, or_default};
ghost use Rattle.vx_exec_setup.specs.Setup.{entry_of};
ghost use Rattle.volcano_bundle.specs.Bundle.{command_in, mode_in, number_in, each_member, members_in, setting_in, bundle_in, value_of_text};
ghost use Rattle.volcano_bundle.specs.BundleView.{table_form, bundle_form};

use crate::command::Command;
use serde_json::{Map, Value};
use std::alloc::{AllocError, Global};
use vx_catalog_json::{Misread, get_member, get_text, test_members};
use vx_exec_setup::{
    DEFAULT_MORSEL_ROWS, DEFAULT_PACKET_ROWS, DEFAULT_SLACK, Mode, Setting, Setup,
};

// A relation's name with its text.
#[derive(Clone, Copy)]
struct NamedText<'v> {
    name: &'v str,
    text: &'v str,
}

/// A bundle, which borrows from the JSON value that it was read from.
#[derive(Drop)]
pub struct Bundle<'v> {
    command: Command,
    catalog: &'v Value,
    plan: &'v Value,
    tables: Vec<NamedText<'v>>,
    setting: Setting,
}

#[tactic(auto, unfolding(crate::specs::Bundle::command_in))]
fn read_command(value: &Value) -> Result<Command, Misread>
    ensures { Finds (λ c. c) result (command_in (view value.now)) }
{
    match value.as_str() {
        Some("run") => Ok(Command::Run),
        Some("serial") => Ok(Command::Serial),
        Some("check") => Ok(Command::Check),
        Some("explain") => Ok(Command::Explain),
        _ => Err(Misread::NotOfForm),
    }
}

#[tactic(auto, unfolding(crate::specs::Bundle::mode_in))]
fn read_mode(value: &Value) -> Result<Mode, Misread>
    ensures { Finds (λ m. m) result (mode_in (view value.now)) }
{
    match value.as_str() {
        Some("rounds") => Ok(Mode::Rounds),
        Some("threads") => Ok(Mode::Threads),
        _ => Err(Misread::NotOfForm),
    }
}

// A number of 32 bits without sign.
#[tactic(auto, unfolding(crate::specs::Bundle::number_in))]
fn read_number(value: &Value) -> Result<u32, Misread>
    ensures { Finds (λ n. n) result (number_in (view value.now)) }
{
    let number = value.as_u64().ok_or(Misread::NotOfForm)?;
    u32::try_from(number).ok().ok_or(Misread::NotOfForm)
}

// A member's number, or the number that stands for a member left out.
fn read_number_or(value: &Value, key: &str, default: u32) -> Result<u32, Misread>
    ensures { Finds (λ n. n) result (or_default default number_in (get key.now (view value.now))) }
{
    match value.get(key) {
        Some(number) => read_number(number),
        None => Ok(default),
    }
}

// Each member's name with its number.
fn read_each_size(
    alloc: Global,
    members: &Map<String, Value>,
) -> Result<Vec<(String, u32)>, Misread>
    ensures { Parses (λ v. map entry_of v.items) result (each_member number_in [] (members_view members.now.entries)) }
{
    let mut sizes = Vec::new(alloc);
    for (name, value) in members.iter() {
        let workers = read_number(value)?;
        sizes.push((String::from_str(alloc, name.as_str())?, workers))?;
    }
    Ok(sizes)
}

fn read_sizes(alloc: Global, value: &Value) -> Result<Vec<(String, u32)>, Misread>
    ensures { Parses (λ v. map entry_of v.items) result (or_default [] (members_in number_in) (get (codes "sizes") (view value.now))) }
{
    match value.get("sizes") {
        Some(sizes) => read_each_size(alloc, sizes.as_object().ok_or(Misread::NotOfForm)?),
        None => Ok(Vec::new(alloc)),
    }
}

fn read_mode_or_rounds(value: &Value) -> Result<Mode, Misread>
    ensures { Finds (λ m. m) result (or_default Mode.Rounds mode_in (get (codes "mode") (view value.now))) }
{
    match value.get("mode") {
        Some(mode) => read_mode(mode),
        None => Ok(Mode::Rounds),
    }
}

// The members that say how a run is set up.
#[tactic(auto, unfolding(crate::specs::Bundle::setting_in))]
fn read_setting(alloc: Global, value: &Value) -> Result<Setting, Misread>
    ensures { Parses (λ s. s) result (setting_in (view value.now)) }
{
    let sizes = read_sizes(alloc, value)?;
    let packet = read_number_or(value, "packet", DEFAULT_PACKET_ROWS)?;
    let morsel = read_number_or(value, "morsel", DEFAULT_MORSEL_ROWS)?;
    let slack = read_number_or(value, "slack", DEFAULT_SLACK)?;
    let mode = read_mode_or_rounds(value)?;
    Ok(Setting::new(Setup::new(sizes, packet, morsel, slack), mode))
}

// A member's name with its text.
fn read_table<'v>(name: &'v str, value: &'v Value) -> Result<NamedText<'v>, Misread>
    ensures name { IfOk result (λ t. t.name.now ≡ name.now) }
    ensures text { Finds (λ t. t.text.now) result (as_str (view value.now)) }
{
    let text = get_text(value)?;
    Ok(NamedText { name, text })
}

// Each member's name with its text.
fn read_each_table<'v>(
    alloc: Global,
    members: &'v Map<String, Value>,
) -> Result<Vec<NamedText<'v>>, Misread>
    ensures { Parses (λ v. map table_form v.items) result (each_member as_str [] (members_view members.now.entries)) }
{
    let mut tables = Vec::new(alloc);
    for (name, value) in members.iter() {
        let table = read_table(name.as_str(), value)?;
        tables.push(table)?;
    }
    Ok(tables)
}

fn read_tables<'v>(alloc: Global, value: &'v Value) -> Result<Vec<NamedText<'v>>, Misread>
    ensures { Parses (λ v. map table_form v.items) result (or_default [] (members_in as_str) (get (codes "tables") (view value.now))) }
{
    match value.get("tables") {
        Some(tables) => read_each_table(alloc, tables.as_object().ok_or(Misread::NotOfForm)?),
        None => Ok(Vec::new(alloc)),
    }
}

#[tactic(auto, unfolding(crate::specs::Bundle::bundle_in))]
fn read_bundle<'v>(alloc: Global, value: &'v Value) -> Result<Bundle<'v>, Misread>
    ensures { Parses bundle_form result (bundle_in (view value.now)) }
{
    test_members(
        value,
        &[
            "command", "catalog", "plan", "tables", "sizes", "packet", "morsel", "slack", "mode",
        ],
    )?;
    let command = read_command(get_member(value, "command")?)?;
    let catalog = get_member(value, "catalog")?;
    let plan = get_member(value, "plan")?;
    let tables = read_tables(alloc, value)?;
    let setting = read_setting(alloc, value)?;
    Ok(Bundle {
        command,
        catalog,
        plan,
        tables,
        setting,
    })
}

/// The bundle that a JSON value is, if it has the form of one.
pub fn bundle_in<'v>(alloc: Global, value: &'v Value) -> Result<Option<Bundle<'v>>, AllocError>
    ensures { Reads bundle_form result (bundle_in (view value.now)) }
{
    match read_bundle(alloc, value) {
        Ok(bundle) => Ok(Some(bundle)),
        Err(Misread::NotOfForm) => Ok(None),
        Err(Misread::NoMemory) => Err(AllocError),
    }
}

/// The value of a JSON text in UTF-8.
pub fn value_of_text(alloc: Global, bytes: &[u8]) -> Result<Option<Value>, AllocError>
    ensures { Reads view result (value_of_text bytes.now) }
{
    match Value::from_slice(alloc, bytes) {
        Ok(value) => Ok(Some(value)),
        Err(error) if error.is_memory() => Err(AllocError),
        Err(_) => Ok(None),
    }
}

// The first table of a name.
fn find_table<'t, 'v>(tables: &'t [NamedText<'v>], name: &str) -> Option<&'t NamedText<'v>>
    ensures { option_map (λ t. t.now) result ≡ find (λ t. bytes_eq t.name.now name.now) tables.now }
{
    tables.iter().find(|table| table.name == name)
}

impl<'v> Bundle<'v> {
    /// What to do with the plan.
    pub fn command(&self) -> Command
        ensures { result ≡ (bundle_form self.now).command }
    {
        self.command
    }

    /// The catalog, which was not read yet.
    pub fn catalog(&self) -> &'v Value
        ensures { view result.now ≡ (bundle_form self.now).catalog }
    {
        self.catalog
    }

    /// The plan, which was not read yet.
    pub fn plan(&self) -> &'v Value
        ensures { view result.now ≡ (bundle_form self.now).plan }
    {
        self.plan
    }

    /// How a run is set up.
    pub fn setting(&self) -> &Setting
        ensures { result.now ≡ (bundle_form self.now).setting }
    {
        &self.setting
    }

    /// The text of the relation with this name.
    pub fn table(&self, name: &str) -> Option<&'v str>
        ensures { option_map (λ t. t.now) result ≡ option_map (λ t. t.1) (find (λ t. bytes_eq t.0 name.now) (bundle_form self.now).tables) }
    {
        match find_table(self.tables.as_slice(), name) {
            Some(table) => Some(table.text),
            None => None,
        }
    }
}
