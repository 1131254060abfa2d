//! The two layouts of keys.

/// How the values of a key stand in bytes: with their count in front, or, in bytes that earlier
/// programs wrote, as one value alone. Only the first is written.
#[derive(Clone, Copy)]
pub enum KeyLayout {
    Counted,
    Single,
}
