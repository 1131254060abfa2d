//! What holds of the canonical text of a statement that some text reads as.
ghost use Rattle.std.specs.Prelude.{◌≡◌, ◌≤◌, ◌*◌, ℕ, true, List, length, Ok, IsUtf8};
ghost use Rattle.std.specs.List.{list_all};
ghost use Rattle.seata_types.specs.declared.statements.Stmt.{Stmt as Statement};
ghost use Rattle.sql_reader.specs.Answer.{reading};
ghost use Rattle.sql_reader.specs.Canonical.{canonical_text};
ghost use Rattle.sql_reader.specs.Lexing.{is_printable};

/// The canonical text of a statement is at most twice as long as each text that reads as it: no token is longer than
/// where it was read, at most one space stands before it, and each parenthesis stood in the text.
pub fn canonical_texts_are_short()
    ensures { (text : List ℕ) (s : Statement) → reading text ≡ Ok s → length (canonical_text s) ≤ 2 * length text }
{}

/// The canonical text of a statement has no control character, and is UTF-8 where a text that reads as it is.
pub fn canonical_texts_are_plain()
    ensures printable { (text : List ℕ) (s : Statement) → reading text ≡ Ok s → list_all is_printable (canonical_text s) ≡ true }
    ensures utf8 { (text : List ℕ) (s : Statement) → IsUtf8 text → reading text ≡ Ok s → IsUtf8 (canonical_text s) }
{}
