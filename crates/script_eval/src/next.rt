//! What a statement leads to.

use sqlite_items::Items;

/// What a statement leads to.
#[derive(Debug, Drop)]
pub enum Next {
    /// The next statement, with this text printed.
    Goes(Items<u8>),
    /// The end.
    Quits,
}
