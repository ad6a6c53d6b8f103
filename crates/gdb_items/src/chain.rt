//! The chain of an item: what its specification, abstract origin or extension names, what that one's names, and so on (DWARF 5,
//! sections 2.13.2, 3.3.8.1 and 3.2.2; gdb/dwarf2/read.c, `scan_attributes`).

ghost use Rattle.std.specs.Prelude.{◌≡◌, ◌<◌, ◌+◌, [], ◌∷◌, ◌++◌, filter_map, option_map, List, IfOk};
ghost use Rattle.std.specs.Option.{option_or};
ghost use Rattle.arrayvec.specs.ArrayVec.{array_vec_len};
ghost use Rattle.index_model.specs.Chains.{first};
ghost use Rattle.index_model.specs.Program.{Located};
ghost use Rattle.index_model.specs.Sections.{Section};
ghost use Rattle.index_model.specs.Strings.{own_linkage_name, own_name};
ghost use Rattle.ix_base.specs.declared.limits.TheConstants.{MAX_CHAIN_HOPS as HOPS};
ghost use Rattle.gdb_entries.specs.Chains.{linkage_of, next_of, targets_from};
ghost use Rattle.gdb_items.specs.Chains.{IsChainOf, IsToldOf, StandsAt};
ghost use Rattle.gdb_entries.specs.Files.{ForProgram};
ghost use Rattle.gdb_items.specs.Files.{IsItemIn};
ghost use Rattle.gdb_items.specs.Items.{IsItemOf};
ghost use Rattle.gdb_items.specs.Texts.{text_told};

use crate::file::FileItems;
use crate::item::UnitItem;
use arrayvec::ArrayVec;
use gdb_entries::gives_scope_alone;
use ix_base::{MAX_CHAIN_HOPS, NoMemory};
use std::alloc::Global;

/// What the chain of an item gives: the item itself and the targets behind it.
#[derive(Drop)]
pub struct Chain<'f> {
    /// The first own name, borrowed from the file.
    pub name: Option<&'f [u8]>,
    /// Where it stands in `.debug_str`, if it stands there.
    pub place: Option<u64>,
    /// Whether one of them is external.
    pub external: bool,
    /// Whether one of them is a scoped enumeration.
    pub scoped: bool,
    /// The joint offsets of the targets, as many as gdb's rules follow at most.
    pub targets: ArrayVec<u64, 8>,
}

impl<'f> Chain<'f> {
    // The chain of one item alone, which has this name.
    fn of(item: &UnitItem<'f>, name: Option<&'f [u8]>) -> Chain<'f>
        ensures told { (ss : List Section) (d : Located) → IsItemOf ss item.now d → option_map (λ b. b.now) name.entry ≡ own_name ss d → IsToldOf ss d [] result }
        ensures count { array_vec_len result.targets ≡ 0 }
    {
        Chain {
            name,
            place: place_of(item, name),
            external: item.facts.external,
            scoped: item.scoped,
            targets: ArrayVec::new(),
        }
    }

    // Adds one more target, with which the first name is this one.
    fn add(&mut self, target: &UnitItem<'f>, name: Option<&'f [u8]>)
        requires { array_vec_len self.old.targets < 8 }
        ensures told { (ss : List Section) (d e : Located) (passed : List Located) → IsToldOf ss d passed self.old → IsItemOf ss target.now e → option_map (λ b. b.now) name.entry ≡ option_or (option_map (λ b. b.now) self.old.name) (own_name ss e) → IsToldOf ss d (passed ++ e ∷ []) self.new }
        ensures count { array_vec_len self.new.targets ≡ array_vec_len self.old.targets + 1 }
    {
        self.place = self.first_place(target, name);
        self.name = name;
        self.external = self.external || target.facts.external;
        self.scoped = self.scoped || target.scoped;
        self.targets.push(target.offset);
    }

    // Where the first name stands with one more target, with which it is this one.
    fn first_place(&self, target: &UnitItem<'f>, name: Option<&'f [u8]>) -> Option<u64>
        ensures { (ss : List Section) → StandsAt ss self.now.place (option_map (λ b. b.now) self.now.name) → option_map (λ b. b.now) name.entry ≡ option_or (option_map (λ b. b.now) self.now.name) (text_told ss target.now.name) → StandsAt ss result (option_map (λ b. b.now) name.entry) }
    {
        if self.name.is_some() {
            self.place
        } else {
            place_of(target, name)
        }
    }
}

// Where this name of an item stands in `.debug_str`, if it has one that stands there.
fn place_of(item: &UnitItem<'_>, name: Option<&[u8]>) -> Option<u64>
    ensures { (ss : List Section) → option_map (λ b. b.now) name.entry ≡ text_told ss item.now.name → StandsAt ss result (option_map (λ b. b.now) name.entry) }
{
    if name.is_some() {
        item.name.place()
    } else {
        None
    }
}

impl<'s, 'f> FileItems<'s, 'f> {
    /// What the chain of an item of the file gives. A reference that names nothing ends it, and of a declaration that gives scope alone
    /// nothing is followed.
    pub fn chain(&mut self, alloc: Global, item: &UnitItem<'f>) -> Result<Chain<'f>, NoMemory>
        ensures value { ForProgram self.old.file (λ p. (d : Located) → IsItemOf p.sections item.now d → IfOk result (IsChainOf p d)) }
        ensures kept { self.new ≡ self.old }
    {
        if gives_scope_alone(&item.facts) {
            return Ok(Chain::of(item, self.text(item.name)));
        }
        self.followed(alloc, item)
    }

    // The chain of an item of which each target is followed.
    fn followed(&mut self, alloc: Global, item: &UnitItem<'f>) -> Result<Chain<'f>, NoMemory>
        ensures value { ForProgram self.old.file (λ p. (d : Located) → IsItemOf p.sections item.now d → IfOk result (IsToldOf p.sections d (targets_from HOPS p d))) }
        ensures kept { self.new ≡ self.old }
    {
        let mut chain = Chain::of(item, self.text(item.name));
        let mut last = *item;
        while !chain.targets.is_full() {
            let next = self.target(alloc, &last)?;
            match next {
                Some(target) => {
                    let name = self.first_name(chain.name, &target);
                    chain.add(&target, name);
                    last = target;
                }
                None => return Ok(chain),
            }
        }
        Ok(chain)
    }

    // The first name where it was this one, if there was one, and this item comes behind.
    fn first_name(&self, known: Option<&'f [u8]>, item: &UnitItem<'f>) -> Option<&'f [u8]>
        ensures { ForProgram self.now.file (λ p. option_map (λ b. b.now) result ≡ option_or (option_map (λ b. b.now) known.entry) (text_told p.sections item.now.name)) }
    {
        match known {
            Some(name) => Some(name),
            None => self.text(item.name),
        }
    }

    /// The first linkage name on the chain of an item of the file, borrowed from the file.
    pub fn linkage_name(
        &mut self,
        alloc: Global,
        item: &UnitItem<'f>,
    ) -> Result<Option<&'f [u8]>, NoMemory>
        ensures value { ForProgram self.old.file (λ p. (d : Located) → IsItemOf p.sections item.now d → IfOk result (λ text. option_map (λ b. b.now) text ≡ linkage_of p d)) }
        ensures kept { self.new ≡ self.old }
    {
        if gives_scope_alone(&item.facts) {
            return Ok(self.text(item.linkage));
        }
        self.linkage_within(alloc, item, MAX_CHAIN_HOPS)
    }

    // The first linkage name of an item and so many targets of its chain at most.
    fn linkage_within(
        &mut self,
        alloc: Global,
        item: &UnitItem<'f>,
        hops: u32,
    ) -> Result<Option<&'f [u8]>, NoMemory>
        ensures value { ForProgram self.old.file (λ p. (d : Located) → IsItemOf p.sections item.now d → IfOk result (λ text. option_map (λ b. b.now) text ≡ first (filter_map (own_linkage_name p.sections) (d ∷ targets_from hops p d)))) }
        ensures kept { self.new ≡ self.old }
    {
        let own = self.text(item.linkage);
        if own.is_some() || hops == 0 {
            return Ok(own);
        }
        match self.target(alloc, item)? {
            Some(target) => self.linkage_within(alloc, &target, hops - 1),
            None => Ok(None),
        }
    }

    // The item that the origin of an item names, if one begins there.
    fn target(
        &mut self,
        alloc: Global,
        item: &UnitItem<'f>,
    ) -> Result<Option<UnitItem<'f>>, NoMemory>
        ensures value { ForProgram self.old.file (λ p. (d : Located) → IsItemOf p.sections item.now d → IfOk result (λ i. IsItemIn p.sections i (next_of p d))) }
        ensures kept { self.new ≡ self.old }
    {
        match item.origin {
            Some(offset) => self.at(alloc, offset),
            None => Ok(None),
        }
    }
}
