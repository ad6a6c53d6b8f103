//! Which label each entry has, by the label's number.

ghost use Rattle.std.specs.Prelude.{◌≡◌, ◌<◌, ◌^◌, ◌+◌, length, map, All, IfOk, OnOk};
ghost use Rattle.query_engine.specs.Asked.{TailsFit};
ghost use Rattle.query_engine.specs.Marked.{AreLabelled, AreJoined};
ghost use Rattle.query_engine.specs.Marks.{ranked};

use crate::label::Label;
use crate::labels::Labels;
use index_model::Entry;
use std::alloc::{AllocError, Global};

/// The number of an entry's label or text, and the entry's place.
#[derive(Clone, Copy)]
pub(crate) struct NumberedPlace {
    pub number: u32,
    pub place: u32,
}

/// The labels of entries, and a mark for each entry in the order of the entries.
#[derive(Drop)]
pub(crate) struct Labelled<'r> {
    pub labels: Labels<'r>,
    pub marks: Vec<NumberedPlace>,
}

impl<'r> Labelled<'r> {
    /// Takes in the marks of entries that stand behind these.
    pub fn take_in(&mut self, alloc: Global, other: Labelled<'r>) -> Result<(), AllocError>
        requires few { length self.now.labels.list.items + length other.labels.list.items < 2 ^ 32 }
        requires within { All (λ m. m.number < length other.labels.list.items) other.marks.items }
        ensures { OnOk result (AreJoined self.old other.entry self.new) }
    {
        let Labelled { labels, mut marks } = other;
        let numbers = self.labels.numbers_of(alloc, &labels.list)?;
        rank_marks(&mut marks, &numbers);
        self.marks.append(&mut marks)?;
        Ok(())
    }
}

/// The marks of all entries. The first one has this place.
pub(crate) fn marks_of<'r>(
    alloc: Global,
    entries: &'r [Entry<'_>],
    first: usize,
) -> Result<Labelled<'r>, AllocError>
    requires few { first + length entries.now < 2 ^ 32 }
    requires tails { TailsFit entries.now }
    ensures { IfOk result (AreLabelled first entries.now) }
{
    let mut labels = Labels::new(alloc)?;
    let mut marks = Vec::with_capacity(alloc, entries.len())?;
    for (index, entry) in entries.iter().enumerate() {
        let label = Label::of(entry);
        let number = labels.number(alloc, &label)?;
        marks.push(NumberedPlace {
            number,
            place: (first + index) as u32,
        })?;
    }
    Ok(Labelled { labels, marks })
}

/// Gives each mark the number that its own leads to, as the rank of its text.
pub(crate) fn rank_marks(marks: &mut Vec<NumberedPlace>, ranks: &[u32])
    requires { All (λ m. m.number < length ranks.now) marks.old.items }
    ensures { marks.new.items ≡ map (ranked ranks.now) marks.old.items }
{
    for i in 0..marks.len() {
        let mark = marks[i];
        marks[i] = NumberedPlace {
            number: ranks[mark.number as usize],
            place: mark.place,
        };
    }
}
