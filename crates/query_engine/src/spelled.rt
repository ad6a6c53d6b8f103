//! The texts by which labels are found one way, and which of them each entry has.

ghost use Rattle.std.specs.Prelude.{◌≡◌, ◌<◌, ◌^◌, List, length, filter_map, All, IfOk};
ghost use Rattle.index_model.specs.declared.entry.Entry.{Entry};
ghost use Rattle.query_engine.specs.Marked.{AreLabelled, AreSpelled, AreTextsOf, HaveFewLabels, renumbered};
ghost use Rattle.query_engine.specs.Seen.{texts_seen};

use crate::label::Label;
use crate::marks::{Labelled, NumberedPlace};
use crate::spelling::FrontedText;
use crate::way::Way;
use std::alloc::{AllocError, Global};

/// Texts, and a mark for each entry that is found by one of them, in the order of the entries.
#[derive(Drop)]
pub(crate) struct Spelled<'r> {
    pub texts: Vec<FrontedText<'r>>,
    pub marks: Vec<NumberedPlace>,
}

// Texts, and of each label the number of its text.
#[derive(Drop)]
struct Numbered<'r> {
    texts: Vec<FrontedText<'r>>,
    numbers: Vec<Option<u32>>,
}

/// The texts by which the entries with these labels are found one way.
pub(crate) fn spell<'r>(
    alloc: Global,
    way: Way,
    labelled: &Labelled<'r>,
) -> Result<Spelled<'r>, AllocError>
    requires { HaveFewLabels labelled.now }
    ensures { (entries : List Entry) → AreLabelled 0 entries labelled.now → IfOk result (AreSpelled way entries) }
{
    let numbered = texts_of(alloc, way, &labelled.labels.list)?;
    let marks = marks_by(alloc, &labelled.marks, &numbered.numbers)?;
    Ok(Spelled {
        texts: numbered.texts,
        marks,
    })
}

// The texts of labels.
fn texts_of<'r>(alloc: Global, way: Way, labels: &[Label<'r>]) -> Result<Numbered<'r>, AllocError>
    requires { length labels.now < 2 ^ 32 }
    ensures { IfOk result (λ n. AreTextsOf way labels.now (texts_seen n.texts.items) n.numbers.items) }
{
    let mut texts = Vec::with_capacity(alloc, labels.len())?;
    let mut numbers = Vec::with_capacity(alloc, labels.len())?;
    for label in labels {
        if way.counts(label) {
            numbers.push(Some(texts.len() as u32))?;
            texts.push(FrontedText::new(way.text(label)))?;
        } else {
            numbers.push(None)?;
        }
    }
    Ok(Numbered { texts, numbers })
}

// The marks of labels with a text, by the numbers of their texts.
fn marks_by(
    alloc: Global,
    marks: &[NumberedPlace],
    numbers: &[Option<u32>],
) -> Result<Vec<NumberedPlace>, AllocError>
    requires { All (λ m. m.number < length numbers.now) marks.now }
    ensures { IfOk result (λ v. v.items ≡ filter_map (renumbered numbers.now) marks.now) }
{
    let mut kept = Vec::with_capacity(alloc, marks.len())?;
    for mark in marks {
        if let Some(renumbered) = renumbered(*mark, numbers) {
            kept.push(renumbered)?;
        }
    }
    Ok(kept)
}

// The mark by the number of its label's text, if it has one.
fn renumbered(mark: NumberedPlace, numbers: &[Option<u32>]) -> Option<NumberedPlace>
    requires { mark.number < length numbers.now }
    ensures { result ≡ renumbered numbers.now mark }
{
    match numbers[mark.number as usize] {
        Some(number) => Some(NumberedPlace {
            number,
            place: mark.place,
        }),
        None => None,
    }
}
