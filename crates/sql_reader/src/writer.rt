//! A text that grows piece by piece, with the spaces between.
ghost use Rattle.std.specs.Prelude.{◌≡◌, ◌++◌, ◌∷◌, [], ◌||◌, OnOk, IfOk, string_bytes, true, false};
ghost use Rattle.std.specs.Str.{byte};
ghost use Rattle.sql_reader.specs.Canonical as spec;

use crate::symbols::Symbol;
use seata_types::NoMemory;
use std::alloc::Global;
use std::marker::Model;

/// Room for most statements, so that a text seldom grows. In bytes.
const ROOM: usize = 128;

#[derive(Drop)]
pub struct Writer {
    text: String,
    /// No space comes before the next piece: it is the first, or stands behind "(".
    is_tight: bool,
}

impl Model for Writer {
    ghost use Rattle.std.specs.Prelude.{string_bytes};
    ghost use Rattle.sql_reader.specs.Canonical.{Written, written_code};

    ghost Value = { Written };

    ghost coded = { written_code };

    ghost view = { λ w. record { text = string_bytes w.text; is_tight = w.is_tight } };
}

impl Writer {
    pub fn new(alloc: Global) -> Result<Writer, NoMemory>
        ensures { IfOk result (λ w. w ≡ record { text = []; is_tight = true }) }
    {
        let text = String::with_capacity(alloc, ROOM)?;
        Ok(Writer {
            text,
            is_tight: true,
        })
    }

    /// The text so far.
    pub fn into_text(self) -> String
        ensures { string_bytes result ≡ self.text }
    {
        let Writer { text, is_tight: _ } = self;
        text
    }

    fn push(&mut self, text: &str) -> Result<(), NoMemory>
        ensures text { OnOk result (self.new.text ≡ self.old.text ++ text.now) }
        ensures same { self.new.is_tight ≡ self.old.is_tight }
    {
        self.text.push_str(text)?;
        Ok(())
    }

    /// A keyword or a mark.
    #[tactic(auto, unfolding(crate::specs::Canonical::put, crate::specs::Canonical::piece_text))]
    pub fn symbol(&mut self, symbol: Symbol) -> Result<(), NoMemory>
        ensures { OnOk result (self.new ≡ spec.put self.old (spec.Fixed symbol)) }
    {
        if self.is_tight || clings(symbol) {
            self.push(&spaced_text(symbol)[1..])?;
        } else {
            self.push(spaced_text(symbol))?;
        }
        self.is_tight = opens(symbol);
        Ok(())
    }

    /// A space, where one is due, before a piece that is no mark.
    fn space(&mut self) -> Result<(), NoMemory>
        ensures text { OnOk result (self.new.text ≡ self.old.text ++ spec.gap self.old.is_tight) }
        ensures loose { OnOk result (self.new.is_tight ≡ false) }
    {
        if !self.is_tight {
            self.push(" ")?;
        }
        self.is_tight = false;
        Ok(())
    }

    #[tactic(auto, unfolding(crate::specs::Canonical::put, crate::specs::Canonical::piece_text))]
    pub fn name(&mut self, name: &str) -> Result<(), NoMemory>
        ensures { OnOk result (self.new ≡ spec.put self.old (spec.Name name.now)) }
    {
        self.space()?;
        self.push(name)?;
        Ok(())
    }

    #[tactic(auto, unfolding(crate::specs::Canonical::put, crate::specs::Canonical::piece_text))]
    pub fn number(&mut self, number: i64) -> Result<(), NoMemory>
        ensures { OnOk result (self.new ≡ spec.put self.old (spec.Number number)) }
    {
        self.space()?;
        write!(self.text, "{number}")?;
        Ok(())
    }

    /// A text in quotes, each of its own quotes twice.
    #[tactic(auto, unfolding(crate::specs::Canonical::put, crate::specs::Canonical::piece_text))]
    pub fn quoted(&mut self, value: &str) -> Result<(), NoMemory>
        ensures { OnOk result (self.new ≡ spec.put self.old (spec.Quoted value.now)) }
    {
        self.space()?;
        self.push("'")?;
        push_doubled(&mut self.text, value)?;
        self.push("'")?;
        Ok(())
    }
}

/// Adds a text with each of its quotes twice.
fn push_doubled(text: &mut String, value: &str) -> Result<(), NoMemory>
    ensures { OnOk result (string_bytes text.new ≡ string_bytes text.old ++ spec.doubled value.now) }
{
    for c in value.chars() {
        if c == '\'' {
            text.push(c)?;
        }
        text.push(c)?;
    }
    Ok(())
}

fn opens(symbol: Symbol) -> bool
    ensures { result ≡ spec.opens (spec.Fixed symbol) }
{
    matches!(symbol, Symbol::Open)
}

fn clings(symbol: Symbol) -> bool
    ensures { result ≡ spec.clings (spec.Fixed symbol) }
{
    matches!(symbol, Symbol::Comma | Symbol::Close)
}

/// A keyword or a mark with a space before it.
fn spaced_text(symbol: Symbol) -> &'static str
    ensures { result.now ≡ byte " " ∷ spec.symbol_text symbol }
{
    match symbol {
        Symbol::Insert => " INSERT",
        Symbol::Into => " INTO",
        Symbol::Values => " VALUES",
        Symbol::Update => " UPDATE",
        Symbol::Set => " SET",
        Symbol::Where => " WHERE",
        Symbol::Delete => " DELETE",
        Symbol::From => " FROM",
        Symbol::Select => " SELECT",
        Symbol::For => " FOR",
        Symbol::And => " AND",
        Symbol::Or => " OR",
        Symbol::Not => " NOT",
        Symbol::Open => " (",
        Symbol::Close => " )",
        Symbol::Comma => " ,",
        Symbol::Star => " *",
        Symbol::Semicolon => " ;",
        Symbol::Plus => " +",
        Symbol::Minus => " -",
        Symbol::Equal => " =",
        Symbol::NotEqual => " <>",
        Symbol::Less => " <",
        Symbol::LessOrEqual => " <=",
        Symbol::Greater => " >",
        Symbol::GreaterOrEqual => " >=",
    }
}
