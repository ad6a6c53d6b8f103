//! Some of the names that a table lists.

ghost use Rattle.std.specs.Prelude.{◌≡◌, ◌≤◌, ◌++◌, length, take, sum_by};
ghost use Rattle.debugnames_write.specs.Counts.{count_of};

use query_engine::ListedName;

/// Names, and the places of their entries, of one name after the other.
#[derive(Clone, Copy)]
pub(crate) struct ListedPart<'s, 't> {
    pub names: &'s [ListedName<'t>],
    pub places: &'s [u32],
    ghost fits: { sum_by count_of names.now ≡ length places.now },
}

impl<'s, 't> ListedPart<'s, 't> {
    /// The names up to where half of the entries are passed, and the others.
    pub fn halves(self) -> (ListedPart<'s, 't>, ListedPart<'s, 't>)
        ensures names { result.0.names.now ++ result.1.names.now ≡ self.entry.names.now }
        ensures places { result.0.places.now ++ result.1.places.now ≡ self.entry.places.now }
    {
        let (names, places) = self.middle();
        let (low_names, high_names) = self.names.split_at(names);
        let (low_places, high_places) = self.places.split_at(places);
        let low = ListedPart {
            names: low_names,
            places: low_places,
        };
        let high = ListedPart {
            names: high_names,
            places: high_places,
        };
        (low, high)
    }

    // How many names pass half of the entries, and how many entries they have.
    fn middle(self) -> (usize, usize)
        ensures within { result.0 ≤ length self.entry.names.now }
        ensures counts { result.1 ≡ sum_by count_of (take result.0 self.entry.names.now) }
    {
        let mut passed = 0;
        for (index, name) in self.names.iter().enumerate() {
            if passed >= self.places.len() / 2 {
                return (index, passed);
            }
            passed += name.count;
        }
        (self.names.len(), passed)
    }
}
