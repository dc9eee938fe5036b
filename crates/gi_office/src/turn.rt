use crate::receipt::Receipt;

/// What a turn that saves came to.
#[derive(Drop)]
pub enum Turn {
    /// All facts are saved.
    Nothing,
    /// The next facts stand in the book, from 1 to 64, and are marked. This is the receipt of the last
    /// one's mark; those of all are among the notes of the seat.
    Saved(Receipt),
}
