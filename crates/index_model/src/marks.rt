//! What an entry says of itself, a bit for each fact.

ghost use Rattle.std.specs.Prelude.{◌≡◌};
ghost use Rattle.index_model.specs.Marks.{is_declaration, is_external, is_enum_class, is_main, has_address, has_value};

use crate::bits::{bit, is_set};
use crate::small_node::OwnFacts;

const DECLARATION: u8 = 1;

const EXTERNAL: u8 = 2;

const ENUM_CLASS: u8 = 4;

const MAIN: u8 = 8;

const ADDRESS: u8 = 16;

const VALUE: u8 = 32;

/// What an entry says of itself.
#[derive(Clone, Copy)]
pub(crate) struct NodeFlags {
    bits: u8,
}

impl NodeFlags {
    /// No marks.
    pub fn none() -> NodeFlags
        ensures { result.bits ≡ 0 }
    {
        NodeFlags { bits: 0 }
    }

    /// The marks of an entry that says this.
    pub fn of(own: OwnFacts) -> NodeFlags
        ensures declaration { is_declaration result ≡ own.declaration }
        ensures external { is_external result ≡ own.external }
        ensures enum_class { is_enum_class result ≡ own.enum_class }
        ensures main { is_main result ≡ own.main }
        ensures address { has_address result ≡ own.address }
        ensures value { has_value result ≡ own.value }
    {
        NodeFlags {
            bits: bit(own.declaration, DECLARATION)
                | bit(own.external, EXTERNAL)
                | bit(own.enum_class, ENUM_CLASS)
                | bit(own.main, MAIN)
                | bit(own.address, ADDRESS)
                | bit(own.value, VALUE),
        }
    }

    pub fn declaration(self) -> bool
        ensures { result ≡ is_declaration self }
    {
        is_set(self.bits, DECLARATION)
    }

    pub fn external(self) -> bool
        ensures { result ≡ is_external self }
    {
        is_set(self.bits, EXTERNAL)
    }

    pub fn enum_class(self) -> bool
        ensures { result ≡ is_enum_class self }
    {
        is_set(self.bits, ENUM_CLASS)
    }

    pub fn main(self) -> bool
        ensures { result ≡ is_main self }
    {
        is_set(self.bits, MAIN)
    }

    pub fn address(self) -> bool
        ensures { result ≡ has_address self }
    {
        is_set(self.bits, ADDRESS)
    }

    pub fn value(self) -> bool
        ensures { result ≡ has_value self }
    {
        is_set(self.bits, VALUE)
    }
}
