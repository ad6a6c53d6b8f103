//! The packer.

ghost use Rattle.std.specs.Prelude.{◌≡◌, ◌<◌, ◌++◌, [], ◌∷◌, length, IfOk, OnOk, OnErr};
ghost use Rattle.elf_make.specs.Packed.{name_table, packed};

use crate::body::{push_contents, push_name_table, push_section_headers};
use crate::header::{push_elf_header, push_zeros};
use crate::layout::PartOffsets;
use crate::section::Section;
use index_model::List;
use ix_base::NoMemory;
use std::alloc::Global;
use std::marker::Model;

/// Puts an ELF file together. Contracts see its type and the sections that were added, in that order.
#[derive(Drop)]
pub struct Packer {
    alloc: Global,
    kind: u16,
    sections: Vec<Section>,
}

impl Model for Packer {
    ghost use Rattle.std.specs.Prelude.{◌<◌, ◌≤◌, length};
    ghost use Rattle.elf_make.specs.Packed.{Elf, name_table};

    ghost Value = { Elf };

    ghost view = { λ p. record { kind = p.kind; sections = p.sections.items } };

    ghost invariant = { λ p. record {
      few : length p.sections.items ≤ 65277;
      short : length (name_table p.sections.items) < 4294967296;
    } };
}

impl Packer {
    /// A file of this type (`e_type`, gABI "ELF Header") without sections.
    #[tactic(auto, unfolding(crate::specs::Packed::name_table, crate::specs::Packed::names))]
    pub fn new(alloc: Global, kind: u16) -> Result<Packer, NoMemory>
        ensures { IfOk result (λ p. p ≡ record { kind = kind; sections = [] }) }
    {
        Ok(Packer {
            alloc,
            kind,
            sections: Vec::new(alloc),
        })
    }

    /// Adds a section at the end. There may be 65,277 sections, so that no index is reserved (gABI, "Sections"), and
    /// the names with a zero each have less than 4 GiB.
    pub fn add(&mut self, name: &[u8], bytes: &[u8]) -> Result<(), NoMemory>
        requires few { length self.old.sections < 65277 }
        requires short { length (name_table (self.old.sections ++ record { name = name.now; content = bytes.now } ∷ [])) < 4294967296 }
        ensures ok { OnOk result (self.new ≡ record self.old { sections = self.old.sections ++ record { name = name.now; content = bytes.now } ∷ [] }) }
        ensures err { OnErr result (self.new ≡ self.old) }
    {
        let name = List::of(Vec::from_slice(self.alloc, name)?);
        let content = List::of(Vec::from_slice(self.alloc, bytes)?);
        self.sections.push(Section { name, content })?;
        Ok(())
    }

    /// The file. It fails also where its size isn't a `usize`.
    #[tactic(auto, unfolding(crate::specs::Packed::packed))]
    pub fn finish(self) -> Result<Vec<u8>, NoMemory>
        ensures { IfOk result (λ file. file.items ≡ packed self) }
    {
        let sections = self.sections.as_slice();
        let layout = PartOffsets::of(sections).ok_or(NoMemory)?;
        let count = sections.len() as u16 + 2;
        let mut file = Vec::with_capacity(self.alloc, layout.end)?;
        push_elf_header(&mut file, self.kind, count, layout.headers_at as u64)?;
        push_contents(&mut file, sections)?;
        push_name_table(&mut file, sections)?;
        push_zeros(&mut file, layout.padding)?;
        push_section_headers(&mut file, sections, &layout)?;
        Ok(file)
    }
}
