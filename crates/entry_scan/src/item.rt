//! An entry of a unit.

ghost use Rattle.std.specs.Prelude.{◌≡◌, ◌≤◌, ◌<◌, ◌^◌};

use crate::attributes::Attributes;
use crate::marks::AttributeBits;
use crate::written::Written;
use index_model::Value;
use std::marker::Model;

/// A debugging information entry. Its attributes stay in the unit's bytes, and are read where they are asked for.
/// Contracts see it as the entry of the definitions.
#[derive(Drop)]
pub struct Item<'a> {
    pub(crate) at: u64,
    pub(crate) after: u64,
    pub(crate) depth: u32,
    pub(crate) children: bool,
    pub(crate) tag: u64,
    pub(crate) marks: AttributeBits,
    pub(crate) values: Written<'a>,
}

impl<'a> Model for Item<'a> {
    ghost use Rattle.index_model.specs.Walk.{Item as Entry};

    ghost Value = { Entry };

    ghost use Rattle.std.specs.Prelude.{◌≤◌, ◌<◌, ◌^◌};
    ghost use Rattle.entry_scan.specs.Values.{values_at, value_read, IsRead};

    ghost view = { λ d. record { at = d.at; after = d.after; depth = d.depth; children = d.children; tag = d.tag; values = value_read (values_at d.values.format d.values.specs.now d.values.cursor) } };

    ghost use Rattle.entry_scan.specs.Marks.{AreMarked};
    ghost use Rattle.entry_scan.specs.Jumps.{AreJumps};

    ghost invariant = { λ d. (d.depth ≤ 1024) × (d.at < 2 ^ 63) × (d.after < 2 ^ 63) × AreMarked (value_read (values_at d.values.format d.values.specs.now d.values.cursor)) d.marks × IsRead (values_at d.values.format d.values.specs.now d.values.cursor) × AreJumps d.values.specs.now d.values.jumps.now };
}

impl<'a> Item<'a> {
    ghost use Rattle.std.specs.Prelude.{true, option_map, is_some, Some, None, IfSome};
    ghost use Rattle.index_model.specs.Attributes.{attribute as attribute_of, is_set};
    ghost use Rattle.index_model.specs.Forms.{Str};
    ghost use Rattle.index_model.specs.FormSeen.{seen};

    /// Its joint offset.
    pub fn offset(&self) -> u64
        ensures value { result ≡ self.now.at }
        ensures within { result < 2 ^ 63 }
    {
        self.at
    }

    /// The joint offset of the first byte behind it.
    pub fn after(&self) -> u64
        ensures value { result ≡ self.now.after }
        ensures within { result < 2 ^ 63 }
    {
        self.after
    }

    /// Its depth, at most 1,024. The root has depth 0.
    pub fn depth(&self) -> u32
        ensures value { result ≡ self.now.depth }
        ensures within { result ≤ 1024 }
    {
        self.depth
    }

    /// Its tag (DWARF 5, section 7.5.3, table 7.3).
    pub fn tag(&self) -> u64
        ensures { result ≡ self.now.tag }
    {
        self.tag
    }

    /// Whether its abbreviation says that it has children.
    pub fn children(&self) -> bool
        ensures { result ≡ self.now.children }
    {
        self.children
    }

    /// The value of its first attribute with this number. None where it has none, which one test tells of most.
    #[inline]
    pub fn value(&self, attribute: u64) -> Option<Value<'a>>
        ensures { option_map seen result ≡ attribute_of attribute self.now }
    {
        if !self.marks.may_have(attribute) {
            return None;
        }
        self.values.first(attribute)
    }

    /// Whether one look tells that it has no attribute with this number.
    #[inline]
    pub fn lacks(&self, attribute: u64) -> bool
        ensures { result ≡ true → attribute_of attribute self.now ≡ None }
    {
        if !self.marks.may_have(attribute) {
            return true;
        }
        false
    }

    /// Whether it has an attribute with this number.
    #[inline]
    pub fn has(&self, attribute: u64) -> bool
        ensures { result ≡ is_some (attribute_of attribute self.now) }
    {
        if !self.marks.may_have(attribute) {
            return false;
        }
        if self.values.is_there(attribute) {
            return true;
        }
        self.values.first(attribute).is_some()
    }

    /// Whether its first attribute with this number is a flag that is set (DWARF 5, section 7.5.5, flag).
    #[inline]
    pub fn is_set(&self, attribute: u64) -> bool
        ensures { result ≡ is_set (attribute_of attribute self.now) }
    {
        if !self.marks.may_have(attribute) {
            return false;
        }
        if self.values.is_present(attribute) {
            return true;
        }
        matches!(self.values.first(attribute), Some(Value::Flag(true)))
    }

    /// The offset into `.debug_str` that its first attribute with this number names, if one look tells it. Where it is
    /// None, `value` tells what the entry has.
    #[inline]
    pub fn str_at(&self, attribute: u64) -> Option<u64>
        ensures { IfSome result (λ at. attribute_of attribute self.now ≡ Some (Str at)) }
    {
        if !self.marks.may_have(attribute) {
            return None;
        }
        self.values.str_at(attribute)
    }

    /// Its attributes in order, for a caller that reads more than one: they are read in one pass.
    pub fn attributes(&self) -> Attributes<'a>
        ensures { result ≡ self.now.values }
    {
        self.values.all()
    }
}
