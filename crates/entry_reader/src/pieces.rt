//! A line's pieces: what stands between separators, outside the quotes of texts and the parentheses
//! of rows.

/// What separates the pieces.
#[derive(Clone, Copy)]
pub enum Separator {
    /// `|`, between cause, act and message
    Bar,
    /// a space, between the fields of each
    Space,
    /// `.` or `:`, between resource, table and primary key
    Name,
    /// `_`, between the parts of a primary key
    Part,
    /// `,` or `;`, between the cells of a row and between the keys of a lock text
    Item,
}

/// What a byte of a line stands in.
#[derive(Clone, Copy)]
pub enum Inside {
    Nothing,
    Text,
    Row,
    RowText,
}
