//! What a turn of a seat was.

/// The last stamp or step is reached, so that nothing was done, or a packet of the last stamp was lost; the node was down, and
/// was restarted; it took a packet; or none was there, and it had a turn.
#[derive(Clone, Copy, PartialEq, Eq)]
pub enum Turned {
    Worn,
    Restarted,
    Took,
    Idle,
}
