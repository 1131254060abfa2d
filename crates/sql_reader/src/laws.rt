//! What holds of every statement.
ghost use Rattle.std.specs.Prelude.{◌≡◌, ℕ, suc, true, false, List, ◌∷◌, ◌++◌, Ok, Some};
ghost use Rattle.std.specs.Str.{str_eq_ignore_ascii_case};
ghost use Rattle.seata_types.specs.declared.statements.Stmt.{Stmt as Statement};
ghost use Rattle.seata_types.specs.Condition.{Condition};
ghost use Rattle.sql_reader.specs.declared.symbols.Symbol.{Symbol as Fixed};
ghost use Rattle.sql_reader.specs.declared.symbols.Symbol.TheVariants as symbol;
ghost use Rattle.sql_reader.specs.declared.tokens.Token.{Token as Item};
ghost use Rattle.sql_reader.specs.declared.tokens.Token.TheVariants as token;
ghost use Rattle.sql_reader.specs.Alike.{HasKeyword, DifferInParentheses};
ghost use Rattle.sql_reader.specs.Answer.{reading};
ghost use Rattle.sql_reader.specs.Canonical.{canonical_text};
ghost use Rattle.sql_reader.specs.Grammar.{cond, disjunction, fact};
ghost use Rattle.sql_reader.specs.Lexing.{keyword, places, word_token};
ghost use Rattle.sql_reader.specs.Parsing.{sees};
ghost use Rattle.sql_reader.specs.Readable.{IsReadable};
ghost use Rattle.sql_reader.specs.Spelling.{Spelling, meaning, spelled, IsSpelling, SpelledSo};

/// The canonical text of each statement that can be read reads as this statement.
pub fn canonical_texts_read_back()
    ensures { (s : Statement) → IsReadable s → reading (canonical_text s) ≡ Ok s }
{}

/// What some text reads as can be written.
pub fn what_is_read_can_be_written()
    ensures { (text : List ℕ) (s : Statement) → reading text ≡ Ok s → IsReadable s }
{}

/// A text in which the letters of a keyword stand in another case is read alike: it is the same
/// statement, or is refused at the same place for the same reason. Its tokens begin at the same
/// places, so that further keywords may follow one after another.
pub fn keywords_read_alike()
    ensures text { (before word other behind : List ℕ) → HasKeyword before word behind → str_eq_ignore_ascii_case word other ≡ true → reading (before ++ (other ++ behind)) ≡ reading (before ++ (word ++ behind)) }
    ensures places { (before word other behind : List ℕ) → HasKeyword before word behind → str_eq_ignore_ascii_case word other ≡ true → places (before ++ (other ++ behind)) ≡ places (before ++ (word ++ behind)) }
    // The same letters are the same keyword, or none of the two is one.
    ensures keyword { (a b : List ℕ) → str_eq_ignore_ascii_case a b ≡ true → keyword a ≡ keyword b }
    // And a keyword's token doesn't tell how it was written.
    ensures token { (s : Fixed) (a b : List ℕ) → str_eq_ignore_ascii_case a b ≡ true → keyword a ≡ Some s → word_token a ≡ word_token b }
{}

/// The grammar of conditions, said a second time: a condition is read of tokens exactly where these
/// spell it, with each parenthesis that it needs and at most 16 NOT and parentheses open at once.
pub fn conditions_are_spelled()
    // What is spelled is read as what it means, where no AND or OR goes on with it.
    ensures read { (s : Spelling) (rest : List Item) → IsSpelling s → sees symbol.And rest ≡ false → sees symbol.Or rest ≡ false → cond (spelled s rest) ≡ Ok (meaning s, rest) }
    // What is read is spelled.
    ensures spelled { (ts rest : List Item) (c : Condition) → cond ts ≡ Ok (c, rest) → SpelledSo ts c rest }
{}

/// Parentheses that a condition doesn't need change nothing, wherever they stand in it: round the
/// whole condition behind WHERE, round a part of a chain of AND and OR or of NOT, and round other
/// parentheses. They count as open ones, of which a condition may have 16 at once, together with its
/// NOT. The law speaks of texts that are read; `read_stmt` itself has no limit of bytes, so a limit
/// that a caller has may be passed by the two bytes more.
pub fn parentheses_change_nothing()
    // Of two texts that differ so the second is read as the first.
    ensures text { (a b : List ℕ) → DifferInParentheses a b → (s : Statement) → reading a ≡ Ok s → reading b ≡ Ok s }
    // What is read in front of a closing parenthesis is read with the opening one before it, up to behind the
    // closing one, where room is left for one more; as a part of a chain, and whole where no AND or OR goes on.
    ensures fact { (room : ℕ) (ts rest : List Item) (c : Condition) → disjunction (fact room) ts ≡ Ok (c, token.Symbol symbol.Close ∷ rest) → fact (suc room) (token.Symbol symbol.Open ∷ ts) ≡ Ok (c, rest) }
    ensures whole { (room : ℕ) (ts rest : List Item) (c : Condition) → disjunction (fact room) ts ≡ Ok (c, token.Symbol symbol.Close ∷ rest) → sees symbol.And rest ≡ false → sees symbol.Or rest ≡ false → disjunction (fact (suc room)) (token.Symbol symbol.Open ∷ ts) ≡ Ok (c, rest) }
{}
