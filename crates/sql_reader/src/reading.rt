//! The reading of a text as a statement.
ghost use Rattle.std.specs.Prelude.{◌≡◌, ◌≢◌, IfOk, IfErr, Ok, Err};
ghost use Rattle.sql_reader.specs.Answer.{reading};
ghost use Rattle.sql_reader.specs.Readable.{IsReadable};
ghost use Rattle.sql_reader.specs.Answer as spec;
ghost use Rattle.sql_reader.specs.Lexing as lexing;

use crate::cursor::Cursor;
use crate::errors::{Refusal, SqlError, Stop};
use crate::lexing::{lex, places};
use crate::statements::statement;
use crate::tokens::Token;
use seata_types::{NoMemory, Stmt};
use std::alloc::Global;

/// Where a refused token begins, in bytes; the text's length at its end.
fn place_of(text: &str, places: &[usize], refusal: Refusal) -> usize
    requires { places.now ≡ lexing.places text.now }
    ensures { result ≡ spec.place_of text.now refusal }
{
    places
        .get(places.len().saturating_sub(refusal.left))
        .copied()
        .unwrap_or(text.len())
}

/// What is told of a refusal. The text is cut a second time, so that a text that is read asks for no
/// places.
fn refused(alloc: Global, text: &str, refusal: Refusal) -> SqlError
    ensures { result ≢ SqlError.NoMemory → result ≡ SqlError.Refused (spec.place_of text.now refusal) refusal.kind }
{
    match places(alloc, text) {
        Ok(places) => SqlError::Refused {
            at: place_of(text, &places, refusal),
            kind: refusal.kind,
        },
        Err(NoMemory) => SqlError::NoMemory,
    }
}

/// Reads statements, one after the other, with one list of tokens.
#[derive(Drop)]
pub struct StmtReader<'a> {
    tokens: Vec<Token<'a>>,
}

impl<'a> StmtReader<'a> {
    pub fn new(alloc: Global) -> StmtReader<'a> {
        StmtReader {
            tokens: Vec::new(alloc),
        }
    }

    /// The statement that a text is. Its length has no limit here.
    #[tactic(auto, unfolding(crate::specs::Answer::reading))]
    pub fn read(&mut self, alloc: Global, text: &'a str) -> Result<Stmt, SqlError>
        // A statement, exactly where the text is in the grammar.
        ensures ok { IfOk result (λ s. reading text.now ≡ Ok s) }
        // A refusal, exactly where the text is not in it, with the first token that can't stand there.
        ensures refused { IfErr result (λ e. e ≢ SqlError.NoMemory → reading text.now ≡ Err e) }
        // A statement that can be written again.
        ensures readable { IfOk result IsReadable }
    {
        match lex(text, &mut self.tokens) {
            Ok(()) => {}
            Err(NoMemory) => return Err(SqlError::NoMemory),
        }
        match statement(alloc, &mut Cursor::new(&self.tokens)) {
            Ok(statement) => Ok(statement),
            Err(Stop::NoMemory) => Err(SqlError::NoMemory),
            Err(Stop::Refused(refusal)) => Err(refused(alloc, text, refusal)),
        }
    }
}

/// The statement that a text is. Its length has no limit here.
pub fn read_stmt(alloc: Global, text: &str) -> Result<Stmt, SqlError>
    // A statement, exactly where the text is in the grammar.
    ensures ok { IfOk result (λ s. reading text.now ≡ Ok s) }
    // A refusal, exactly where the text is not in it, with the first token that can't stand there.
    ensures refused { IfErr result (λ e. e ≢ SqlError.NoMemory → reading text.now ≡ Err e) }
    // A statement that can be written again.
    ensures readable { IfOk result IsReadable }
{
    StmtReader::new(alloc).read(alloc, text)
}
