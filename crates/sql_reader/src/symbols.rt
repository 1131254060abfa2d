//! The keywords and the marks of statements.

/// A keyword or a mark.
#[derive(Clone, Copy, PartialEq, Eq)]
pub enum Symbol {
    Insert,
    Into,
    Values,
    Update,
    Set,
    Where,
    Delete,
    From,
    Select,
    For,
    And,
    Or,
    Not,
    Open,
    Close,
    Comma,
    Star,
    Semicolon,
    Plus,
    Minus,
    Equal,
    NotEqual,
    Less,
    LessOrEqual,
    Greater,
    GreaterOrEqual,
}

/// The keywords by how many letters they have.
pub const OF_TWO: [(&[u8], Symbol); 1] = [(b"OR", Symbol::Or)];

pub const OF_THREE: [(&[u8], Symbol); 4] = [
    (b"SET", Symbol::Set),
    (b"FOR", Symbol::For),
    (b"AND", Symbol::And),
    (b"NOT", Symbol::Not),
];

pub const OF_FOUR: [(&[u8], Symbol); 2] = [(b"INTO", Symbol::Into), (b"FROM", Symbol::From)];

pub const OF_FIVE: [(&[u8], Symbol); 1] = [(b"WHERE", Symbol::Where)];

pub const OF_SIX: [(&[u8], Symbol); 5] = [
    (b"INSERT", Symbol::Insert),
    (b"VALUES", Symbol::Values),
    (b"UPDATE", Symbol::Update),
    (b"DELETE", Symbol::Delete),
    (b"SELECT", Symbol::Select),
];
