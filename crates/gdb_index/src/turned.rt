//! The components of a scope path, the outermost first.

ghost use Rattle.std.specs.Prelude.{◌≡◌, is_some, map, option_map, reverse, unwrap_or, IfOk};
ghost use Rattle.std.specs.List.{list_any};
ghost use Rattle.cxx_spelling.specs.declared.release.Release.{Release as ReleaseOf};
ghost use Rattle.cxx_spelling.specs.declared.release.Release.TheVariants.{Gdb13, Gdb16};
ghost use Rattle.gdb_names.specs.Both.{components_by};
ghost use Rattle.gdb_names.specs.Seen.{contents};
ghost use Rattle.gdb_index.specs.Texts.{text_by, turned_by};

use crate::both_texts::BothTexts;
use cxx_spelling::Release;
use gdb_names::BothComponents;
use ix_base::NoMemory;
use std::alloc::Global;

/// The texts of the components of a path, the outermost first.
#[derive(Drop)]
pub(crate) struct TurnedTexts<'t> {
    // As gdb 13 spells them.
    older: Vec<&'t [u8]>,
    // As gdb 16 does, where it spells one of them otherwise.
    newer: Option<Vec<&'t [u8]>>,
}

impl<'t> TurnedTexts<'t> {
    /// Those of the components from the innermost outwards.
    pub fn of(alloc: Global, texts: &'t [BothTexts<'_>]) -> Result<TurnedTexts<'t>, NoMemory>
        ensures { IfOk result (λ turned. (release : ReleaseOf) → turned_by release turned ≡ reverse (map (text_by release) texts.now)) }
    {
        let older = turned_round(alloc, Release::Gdb13, texts)?;
        let newer = turned_newer(alloc, texts)?;
        Ok(TurnedTexts { older, newer })
    }

    /// The texts, lent.
    pub fn components(&self) -> BothComponents<'_>
        ensures { (release : ReleaseOf) → components_by release result ≡ turned_by release self.now }
    {
        BothComponents {
            older: self.older.as_slice(),
            newer: lent(&self.newer),
        }
    }
}

// The components by gdb 16, where it spells one of them otherwise than gdb 13.
fn turned_newer<'t>(
    alloc: Global,
    texts: &'t [BothTexts<'_>],
) -> Result<Option<Vec<&'t [u8]>>, NoMemory>
    ensures { IfOk result (λ parts. unwrap_or (option_map (λ p. contents p.items) parts) (reverse (map (text_by Gdb13) texts.now)) ≡ reverse (map (text_by Gdb16) texts.now)) }
{
    if differ(texts) {
        Ok(Some(turned_round(alloc, Release::Gdb16, texts)?))
    } else {
        Ok(None)
    }
}

// The parts, lent, if there are any.
fn lent<'p, 't>(parts: &'p Option<Vec<&'t [u8]>>) -> Option<&'p [&'t [u8]]>
    ensures { option_map (λ p. p.now) result ≡ option_map (λ p. p.items) parts.now }
{
    match parts {
        Some(parts) => Some(parts.as_slice()),
        None => None,
    }
}

// The bytes of each of the texts by a release, those of the last one first.
#[tactic(auto, using(crate::proofs::NameLaws::turned_contents))]
fn turned_round<'t>(
    alloc: Global,
    release: Release,
    texts: &'t [BothTexts<'_>],
) -> Result<Vec<&'t [u8]>, NoMemory>
    ensures { IfOk result (λ parts. contents parts.items ≡ reverse (map (text_by release) texts.now)) }
{
    let mut parts = contents_of(alloc, release, texts)?;
    parts.reverse();
    Ok(parts)
}

// The bytes of each of the texts.
fn contents_of<'t>(
    alloc: Global,
    release: Release,
    texts: &'t [BothTexts<'_>],
) -> Result<Vec<&'t [u8]>, NoMemory>
    ensures { IfOk result (λ parts. contents parts.items ≡ map (text_by release) texts.now) }
{
    let mut parts = Vec::new(alloc);
    for text in texts {
        parts.push(text.bytes(release))?;
    }
    Ok(parts)
}

// Whether gdb 16 spells one of the texts otherwise than gdb 13.
fn differ(texts: &[BothTexts<'_>]) -> bool
    ensures { result ≡ list_any (λ text. is_some text.newer) texts.now }
{
    texts.iter().any(|text| text.newer.is_some())
}
