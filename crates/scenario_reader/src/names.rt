//! Names of nodes, tables and columns, and where a name is looked up.
ghost use Rattle.std.specs.Prelude.{◌≡◌, ◌<◌, ℕ, List, length, position, option_map, option_copied, IfSome, IfOk, IfErr};
ghost use Rattle.std.specs.List.{list_all, list_any};
ghost use Rattle.seata_types.specs.Orders.{same_text};
ghost use Rattle.serde_json.specs.View.{view};
ghost use Rattle.scenario_form.specs.Names as words;
ghost use Rattle.scenario_reader.specs.Names as form;
ghost use Rattle.scenario_reader.specs.Faults.{Answers};

use crate::errors::ScenarioError;
use crate::shapes::text;
use local_tables::{ColType, TableDef};
use scenario_form::{ManagerDef, ResourceDef};
use seata_types::Text;
use seata_types::limits::{NAME_BYTES, NODE_NAME_BYTES};
use serde_json::Value;
use std::alloc::Global;

fn is_letter(byte: u8) -> bool
    ensures { result ≡ words.is_letter byte }
{
    matches!(byte, b'A'..=b'Z' | b'a'..=b'z')
}

fn is_word_byte(byte: u8) -> bool
    ensures { result ≡ words.is_word_byte byte }
{
    matches!(byte, b'A'..=b'Z' | b'a'..=b'z' | b'0'..=b'9' | b'_')
}

fn all_word_bytes(text: &[u8]) -> bool
    ensures { result ≡ list_all words.is_word_byte text.now }
{
    text.iter().all(|byte| is_word_byte(*byte))
}

/// Whether a text is a letter and then letters, digits and `_`.
pub fn is_word(text: &str) -> bool
    ensures { result ≡ words.is_word text.now }
{
    match text.as_bytes().split_first() {
        Some((first, rest)) => is_letter(*first) && all_word_bytes(rest),
        None => false,
    }
}

/// Whether a text may be a node's name, however long.
#[tactic(auto, unfolding(scenario_form::specs::Names::is_node_name))]
fn is_node_name(name: &str) -> bool
    ensures { result ≡ words.is_node_name name.now }
{
    is_word(name) && name != "tc" && name != "net"
}

/// What names are looked up among.
pub trait Named {
    ghost name_of: { Self → List ℕ };

    fn name(&self) -> &str
        ensures { result.now ≡ name_of self.now };
}

impl Named for ResourceDef {
    ghost name_of = { λ def. def.name };

    fn name(&self) -> &str {
        self.name.as_str()
    }
}

impl Named for ManagerDef {
    ghost name_of = { λ def. def.name };

    fn name(&self) -> &str {
        self.name.as_str()
    }
}

impl Named for TableDef {
    ghost name_of = { λ def. def.name };

    fn name(&self) -> &str {
        self.name.as_str()
    }
}

/// A column.
impl Named for (Text, ColType) {
    ghost name_of = { λ column. column.0 };

    fn name(&self) -> &str {
        self.0.as_str()
    }
}

/// Where among the items this name stands, counted from 0.
pub fn position_of<T: Named>(items: &[T], name: &str) -> Option<usize>
    ensures value { result ≡ position (λ item. same_text name.now (T.name_of item)) items.now }
    ensures within { IfSome result (λ k. k < length items.now) }
{
    items.iter().position(|item| name == item.name())
}

/// Whether one of the items has this name.
pub fn has_name<T: Named>(items: &[T], name: &str) -> bool
    ensures { result ≡ list_any (λ item. same_text name.now (T.name_of item)) items.now }
{
    items.iter().any(|item| name == item.name())
}

/// A text's own copy.
pub fn owned(alloc: Global, text: &str) -> Result<Text, ScenarioError>
    ensures value { IfOk result (λ copy. copy ≡ text.now) }
    ensures refused { IfErr result (λ e. e ≡ ScenarioError.NoMemory) }
{
    let copy = String::from_str(alloc, text)?;
    Ok(Text::of(copy))
}

/// A node's name that no node has.
#[tactic(auto, unfolding(crate::specs::Names::new_node_name))]
fn new_node_name(
    alloc: Global,
    resources: &[ResourceDef],
    managers: &[ManagerDef],
    name: &str,
) -> Result<Text, ScenarioError>
    ensures { Answers (form.new_node_name resources.now managers.now name.now) result }
{
    if !is_node_name(name) {
        return Err(ScenarioError::shape(alloc));
    }
    if name.len() > NODE_NAME_BYTES {
        return Err(ScenarioError::beyond(alloc, NODE_NAME_BYTES as u64));
    }
    if has_name(resources, name) || has_name(managers, name) {
        return Err(ScenarioError::name(alloc));
    }
    owned(alloc, name)
}

/// A node's name that has to be there and that no node has.
#[tactic(auto, unfolding(crate::specs::Names::new_node))]
pub fn new_node(
    alloc: Global,
    resources: &[ResourceDef],
    managers: &[ManagerDef],
    found: Option<&Value>,
) -> Result<Text, ScenarioError>
    ensures { Answers (form.new_node resources.now managers.now (option_map view (option_copied found.entry))) result }
{
    let name = text(alloc, found)?;
    new_node_name(alloc, resources, managers, name)
}

fn is_lower(byte: u8) -> bool
    ensures { result ≡ words.is_lower byte }
{
    matches!(byte, b'a'..=b'z')
}

fn is_name_byte(byte: u8) -> bool
    ensures { result ≡ words.is_name_byte byte }
{
    matches!(byte, b'a'..=b'z' | b'0'..=b'9' | b'_')
}

fn all_name_bytes(text: &[u8]) -> bool
    ensures { result ≡ list_all words.is_name_byte text.now }
{
    text.iter().all(|byte| is_name_byte(*byte))
}

fn is_lower_word(text: &[u8]) -> bool
    ensures { result ≡ words.is_lower_word text.now }
{
    match text.split_first() {
        Some((first, rest)) => is_lower(*first) && all_name_bytes(rest),
        None => false,
    }
}

/// Whether this is a word of statements.
fn is_keyword(name: &str) -> bool
    ensures { result ≡ words.is_keyword name.now }
{
    matches!(
        name,
        "insert"
            | "into"
            | "values"
            | "update"
            | "set"
            | "where"
            | "delete"
            | "from"
            | "select"
            | "for"
            | "and"
            | "or"
            | "not"
    )
}

/// Whether a text may be a table's or column's name, however long.
#[tactic(auto, unfolding(scenario_form::specs::Names::is_table_name))]
pub fn is_table_name(name: &str) -> bool
    ensures { result ≡ words.is_table_name name.now }
{
    is_lower_word(name.as_bytes()) && !is_keyword(name)
}

/// A table's or column's name that isn't used.
#[tactic(auto, unfolding(crate::specs::Names::new_name))]
pub fn new_name(alloc: Global, used: bool, name: &str) -> Result<Text, ScenarioError>
    ensures { Answers (form.new_name used name.now) result }
{
    if !is_table_name(name) {
        return Err(ScenarioError::shape(alloc));
    }
    if name.len() > NAME_BYTES {
        return Err(ScenarioError::beyond(alloc, NAME_BYTES as u64));
    }
    if used {
        return Err(ScenarioError::name(alloc));
    }
    owned(alloc, name)
}
