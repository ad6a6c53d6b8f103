//! A vector that contracts see as a list.

use std::marker::Model;

/// A `Vec` that contracts see as the list of its elements.
#[derive(Drop)]
pub struct List<T> {
    vector: Vec<T>,
}

impl<T> Model for List<T> {
    ghost use Rattle.std.specs.Prelude.{List as Sequence};

    ghost Value = { Sequence T };

    ghost view = { λ l. l.vector.items };
}

impl<T> List<T> {
    ghost use Rattle.std.specs.Prelude.{◌≡◌};

    /// The elements of the vector, in its order.
    pub fn of(vector: Vec<T>) -> List<T>
        ensures { result ≡ vector.items }
    {
        List { vector }
    }

    /// The elements.
    pub fn as_slice(&self) -> &[T]
        ensures { result.now ≡ self.now }
    {
        self.vector.as_slice()
    }

    /// The elements as a vector again.
    pub fn into_vec(self) -> Vec<T>
        ensures { result.items ≡ self }
    {
        self.vector
    }
}
