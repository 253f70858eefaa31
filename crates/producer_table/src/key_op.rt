// What is handed out of a key.
use table_schema::{Fields, Key};

/// What waited of one key, in the manner of SONiC's key operations: the deletion mark, and the fields that came behind it.
/// A key with a mark and no fields is a DEL, one with fields and no mark a SET, and one with both a DEL and then a SET.
#[derive(Debug, Drop)]
pub struct KeyOp {
    /// The key.
    pub key: Key,
    /// The deletion mark: the key's row goes first.
    pub dropped: bool,
    /// The fields that are then merged into the key's row, if some were set.
    pub fields: Option<Fields>,
}
