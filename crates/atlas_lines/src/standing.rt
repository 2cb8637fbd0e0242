//! What is in the tool's one place for an atlas.

/// An atlas, a recorded session or neither.
#[derive(Drop)]
pub enum Standing<T, U> {
    /// Neither.
    Nothing,
    /// An atlas.
    Atlas(T),
    /// A recorded session.
    Session(U),
}
