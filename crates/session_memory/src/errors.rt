//! Why a snapshot isn't loaded.

#[derive(Drop)]
pub enum LoadError {
    /// A row has two holders.
    Damaged,
    /// Memory was refused. A row may have two holders or not.
    NoMemory,
}
