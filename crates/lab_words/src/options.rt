//! The options, and what a word says of them.

/// What a word says of an option.
#[derive(Clone, Copy)]
pub(crate) enum Rule {
    Needed,
    Allowed,
    Refused,
}

/// What a word says of each option.
#[derive(Clone, Copy)]
pub(crate) struct Form {
    pub store: Rule,
    pub number: Rule,
    pub size: Rule,
    pub workers: Rule,
}

/// The values that options have.
#[derive(Clone, Copy)]
pub(crate) struct Options<'a> {
    pub store: Option<&'a str>,
    pub number: Option<u64>,
    pub size: Option<u32>,
    pub workers: Option<u32>,
}

/// The same, and the name of an option whose value stands next.
#[derive(Clone, Copy)]
pub(crate) struct Reading<'a> {
    pub options: Options<'a>,
    pub waiting: Option<&'a str>,
}
