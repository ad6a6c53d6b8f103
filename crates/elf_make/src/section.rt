//! What a file is put together from.

use index_model::List;

/// A section: the bytes of its name, without a zero, and its bytes.
#[derive(Drop)]
pub struct Section {
    pub name: List<u8>,
    pub content: List<u8>,
}
