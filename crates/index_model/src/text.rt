//! The bytes of a name.

use std::marker::Model;

/// The bytes of a name, borrowed from the file or owned. Contracts see them as a list of bytes.
#[derive(Drop)]
pub struct Text<'f> {
    kept: TextBytes<'f>,
}

#[derive(Drop)]
enum TextBytes<'f> {
    Lent(&'f [u8]),
    Owned(Vec<u8>),
}

impl<'f> Model for Text<'f> {
    ghost use Rattle.std.specs.Prelude.{List, ℕ};

    ghost Value = { List ℕ };

    ghost use Rattle.index_model.specs.Kept.{bytes_kept};

    ghost view = { λ t. bytes_kept t.kept };
}

impl<'f> Text<'f> {
    ghost use Rattle.std.specs.Prelude.{◌≡◌};

    /// A name that stands in the file as it is.
    pub fn lent(bytes: &'f [u8]) -> Text<'f>
        ensures { result ≡ bytes.now }
    {
        Text {
            kept: TextBytes::Lent(bytes),
        }
    }

    /// A name that was put together.
    pub fn owned(bytes: Vec<u8>) -> Text<'f>
        ensures { result ≡ bytes.items }
    {
        Text {
            kept: TextBytes::Owned(bytes),
        }
    }

    /// The bytes.
    pub fn bytes(&self) -> &[u8]
        ensures { result.now ≡ self.now }
    {
        match &self.kept {
            TextBytes::Lent(bytes) => bytes,
            TextBytes::Owned(bytes) => bytes.as_slice(),
        }
    }
}
