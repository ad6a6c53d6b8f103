//! The sections of a program file.

ghost use Rattle.std.specs.Prelude.{◌≡◌, ◌≤◌, true, codes, length, Ok};
ghost use Rattle.index_model.specs.Gives.{Gives};
ghost use Rattle.index_model.specs.Sections.{index_named, section_bytes, sections_of};
ghost use Rattle.index_model.specs.Strings.{string_at};
ghost use Rattle.file_image.specs.TextLimits.{AreLimits, tested};

use crate::compressed::check_compressed;
use crate::found::{NamedSection, index_named, sections_of_table, table_fault};
use crate::ident::check_ident;
use crate::resolved::{Resolved, content_of};
use crate::short_strings::ShortStrings;
use crate::table::SectionHeaders;
use crate::text_limits::TextLimits;
use ix_base::{Fault, MAX_FILE_BYTES, Stop, code};
use std::alloc::Global;
use std::marker::Model;

/// The sections of a program file behind section 0, in the order of their headers. Their bytes are borrowed from the file.
#[derive(Drop)]
pub struct Sections<'f> {
    found: Vec<NamedSection<'f>>,
    resolved: Resolved<'f>,
    limits: TextLimits,
    short: ShortStrings,
}

impl<'f> Model for Sections<'f> {
    ghost use Rattle.std.specs.Prelude.{◌≤◌, List, length, map};
    ghost use Rattle.index_model.specs.Sections.{Section};
    ghost use Rattle.file_image.specs.Found.{section, AreSmall};
    ghost use Rattle.file_image.specs.Resolved.{AreFound};
    ghost use Rattle.file_image.specs.TextLimits.{AreLimits};

    ghost Value = { List Section };

    ghost view = { λ s. map section s.found.items };

    ghost invariant = { λ s. AreSmall s.found.items × AreFound (map section s.found.items) s.resolved × AreLimits s.resolved.str.now s.resolved.line_str.now s.limits };
}

impl<'f> Sections<'f> {
    /// The sections of a file, or its first fault: it isn't an ELF file of 64 bits with the lowest byte first that is an
    /// executable or a shared object, the table of section headers, a section or a section's name leaves the file, a debug
    /// section is compressed, or `.debug_info` is empty. The place of a fault is a byte of the file, or the index of a
    /// section, or 0.
    pub fn open(alloc: Global, file: &'f [u8]) -> Result<Sections<'f>, Stop>
        requires { length file.now ≤ MAX_FILE_BYTES }
        ensures { Gives (λ s. s) result (sections_of file.now) }
    {
        check_ident(file)?;
        let Some(table) = SectionHeaders::open(file) else {
            return Err(Stop::Cause(table_fault(0)));
        };
        let found = sections_of_table(alloc, file, &table)?;
        check_compressed(&found)?;
        let resolved = Resolved::of(&found);
        if resolved.info.is_empty() {
            return Err(Stop::Cause(Fault {
                code: code::NO_DEBUG_INFO,
                at: 0,
            }));
        }
        let limits = TextLimits::of(resolved.str, resolved.line_str);
        let short = ShortStrings::of(alloc, resolved.str)?;
        Ok(Sections {
            found,
            resolved,
            limits,
            short,
        })
    }

    /// The bytes of the first section of this name; none, where there is no such section.
    pub fn get(&self, name: &[u8]) -> &'f [u8]
        ensures value { result.now ≡ section_bytes self.now name.now }
        ensures small { length result.now ≤ MAX_FILE_BYTES }
    {
        content_of(&self.found, name)
    }

    /// The bytes of `.debug_info`, as `get` gives them.
    pub fn debug_info(&self) -> &'f [u8]
        ensures value { result.now ≡ section_bytes self.now (codes ".debug_info") }
        ensures small { length result.now ≤ MAX_FILE_BYTES }
    {
        self.resolved.info
    }

    /// The bytes of `.debug_abbrev`, as `get` gives them.
    pub fn debug_abbrev(&self) -> &'f [u8]
        ensures value { result.now ≡ section_bytes self.now (codes ".debug_abbrev") }
        ensures small { length result.now ≤ MAX_FILE_BYTES }
    {
        self.resolved.abbrev
    }

    /// The bytes of `.debug_str`, as `get` gives them.
    pub fn debug_str(&self) -> &'f [u8]
        ensures value { result.now ≡ section_bytes self.now (codes ".debug_str") }
        ensures small { length result.now ≤ MAX_FILE_BYTES }
    {
        self.resolved.str
    }

    /// The bytes of `.debug_line_str`, as `get` gives them.
    pub fn debug_line_str(&self) -> &'f [u8]
        ensures value { result.now ≡ section_bytes self.now (codes ".debug_line_str") }
        ensures small { length result.now ≤ MAX_FILE_BYTES }
    {
        self.resolved.line_str
    }

    /// The bytes of `.debug_str_offsets`, as `get` gives them.
    pub fn debug_str_offsets(&self) -> &'f [u8]
        ensures value { result.now ≡ section_bytes self.now (codes ".debug_str_offsets") }
        ensures small { length result.now ≤ MAX_FILE_BYTES }
    {
        self.resolved.str_offsets
    }

    /// The bytes of `.debug_addr`, as `get` gives them.
    pub fn debug_addr(&self) -> &'f [u8]
        ensures value { result.now ≡ section_bytes self.now (codes ".debug_addr") }
        ensures small { length result.now ≤ MAX_FILE_BYTES }
    {
        self.resolved.addr
    }

    /// The bytes of `.debug_rnglists`, as `get` gives them.
    pub fn debug_rnglists(&self) -> &'f [u8]
        ensures value { result.now ≡ section_bytes self.now (codes ".debug_rnglists") }
        ensures small { length result.now ≤ MAX_FILE_BYTES }
    {
        self.resolved.rnglists
    }

    /// The bytes of `.debug_ranges`, as `get` gives them.
    pub fn debug_ranges(&self) -> &'f [u8]
        ensures value { result.now ≡ section_bytes self.now (codes ".debug_ranges") }
        ensures small { length result.now ≤ MAX_FILE_BYTES }
    {
        self.resolved.ranges
    }

    // Up to which places the strings of `.debug_str` and `.debug_line_str` are sound.
    pub(crate) fn limits(&self) -> TextLimits
        ensures { AreLimits (section_bytes self.now (codes ".debug_str")) (section_bytes self.now (codes ".debug_line_str")) result }
    {
        self.limits
    }

    /// Whether one comparison tells that the string at an offset of `.debug_str` is sound.
    #[inline(always)]
    pub fn is_sound_str(&self, at: u64) -> bool
        ensures { result ≡ true → tested (string_at (section_bytes self.now (codes ".debug_str")) at) ≡ Ok tt }
    {
        at < self.limits.str
    }

    /// Whether two looks tell that the string at an offset of `.debug_str` is sound, and has fewer than 4,096 bytes.
    #[inline(always)]
    pub fn is_short_str(&self, at: u64) -> bool
        ensures { result ≡ true → tested (string_at (section_bytes self.now (codes ".debug_str")) at) ≡ Ok tt }
    {
        self.is_sound_str(at) && self.short.is_short(at)
    }

    /// The index of the first section of this name among all headers, of which that of section 0 is the first; None where there
    /// is no such section.
    pub fn index_of(&self, name: &[u8]) -> Option<usize>
        ensures { result ≡ index_named self.now name.now }
    {
        index_named(&self.found, name)
    }
}
