//! A span in 20 bytes.

ghost use Rattle.std.specs.Prelude.{◌≡◌, true, false, IfSome};
ghost use Rattle.index_model.specs.SpanLeaves.{IsSpanInside, span_alone, span_in};

use crate::shard::Span;

/// A span whose numbers are small; or where another one lies aside.
#[derive(Clone, Copy)]
pub(crate) struct SpanLeaf {
    pub unit: u32,
    /// The joint offset of the entry; or the index of a span that lies aside.
    pub entry: u32,
    pub from: u32,
    pub to: u32,
    pub depth: u16,
    /// Whether the span lies aside.
    pub aside: bool,
}

const _: () = prove!(size_of::<SpanLeaf>() == 20);

impl SpanLeaf {
    /// The leaf that stands for a span by itself. None where a number is too large.
    pub fn of(span: &Span) -> Option<SpanLeaf>
        ensures alone { IfSome result (λ l. l.aside ≡ false) }
        ensures span { IfSome result (λ l. span_alone l ≡ span.now) }
    {
        Some(SpanLeaf {
            unit: span.unit,
            entry: u32::try_from(span.entry).ok()?,
            from: u32::try_from(span.from).ok()?,
            to: u32::try_from(span.to).ok()?,
            depth: u16::try_from(span.depth).ok()?,
            aside: false,
        })
    }

    /// The leaf of a span that lies aside, with this index.
    pub fn aside(index: u32) -> SpanLeaf
        ensures aside { result.aside ≡ true }
        ensures index { result.entry ≡ index }
    {
        SpanLeaf {
            unit: 0,
            entry: index,
            from: 0,
            to: 0,
            depth: 0,
            aside: true,
        }
    }

    /// The span of a leaf, where these lie aside.
    #[tactic(auto, using(crate::proofs::SpanLeafLaws::of_aside), unfolding(crate::specs::SpanLeaves::span_in))]
    pub fn span(&self, whole: &[Span]) -> Span
        requires { IsSpanInside whole.now self.now }
        ensures { result ≡ span_in whole.now self.now }
    {
        if self.aside {
            whole[self.entry as usize]
        } else {
            Span {
                unit: self.unit,
                entry: u64::from(self.entry),
                depth: u32::from(self.depth),
                from: u64::from(self.from),
                to: u64::from(self.to),
            }
        }
    }
}
