//! The values of an entry as they are written.

ghost use Rattle.std.specs.Prelude.{◌≡◌, ◌==◌, true, find, is_some, option_map, Some, IfSome};
ghost use Rattle.index_model.specs.Forms.{Flag, Str};
ghost use Rattle.index_model.specs.FormSeen.{seen};
ghost use Rattle.entry_scan.specs.Jumps.{AreJumps, Leads};
ghost use Rattle.entry_scan.specs.Values.{values_at, value_read, IsRead};

use crate::abbreviation::Spec;
use crate::attributes::Attributes;
use crate::jumps::{Jump, Jumps};
use crate::values::{UnitFormat, pass_one, read};
use dwarf_codes::form::{DW_FORM_flag_present, DW_FORM_strp};
use index_model::Value;
use ix_base::Cursor;

/// The values of an entry, which begin at the cursor, by the attributes of its abbreviation.
#[derive(Drop)]
pub(crate) struct Written<'a> {
    pub specs: &'a [Spec],
    pub jumps: &'a Jumps,
    pub cursor: Cursor<'a>,
    pub format: UnitFormat,
}

impl<'a> Written<'a> {
    /// The value of the first attribute that has this number.
    ///
    /// It stays a call, so that the test for attributes that aren't there is small enough to stand where it is made.
    #[inline(never)]
    pub fn first(&self, number: u64) -> Option<Value<'a>>
        requires read { IsRead (values_at self.now.format self.now.specs.now self.now.cursor) }
        requires jumps { AreJumps self.now.specs.now self.now.jumps.now }
        ensures { option_map seen result ≡ option_map (λ v. v.1) (find (λ v. v.0 == number) (value_read (values_at self.now.format self.now.specs.now self.now.cursor))) }
    {
        if let Some(jump) = self.led(number) {
            return jumped(self.specs, jump, self.format, self.cursor.copied(), number);
        }
        sought(self.specs, self.format, self.cursor.copied(), number)
    }

    /// Whether one look tells that there is an attribute with this number.
    #[inline]
    pub fn is_there(&self, number: u64) -> bool
        requires read { IsRead (values_at self.now.format self.now.specs.now self.now.cursor) }
        requires jumps { AreJumps self.now.specs.now self.now.jumps.now }
        ensures { result ≡ true → is_some (option_map (λ v. v.1) (find (λ v. v.0 == number) (value_read (values_at self.now.format self.now.specs.now self.now.cursor)))) ≡ true }
    {
        if let Some(_) = self.led(number) {
            return true;
        }
        false
    }

    /// Whether one look tells that the first attribute with this number is a flag that takes no byte.
    #[inline]
    pub fn is_present(&self, number: u64) -> bool
        requires read { IsRead (values_at self.now.format self.now.specs.now self.now.cursor) }
        requires jumps { AreJumps self.now.specs.now self.now.jumps.now }
        ensures { result ≡ true → option_map (λ v. v.1) (find (λ v. v.0 == number) (value_read (values_at self.now.format self.now.specs.now self.now.cursor))) ≡ Some (Flag true) }
    {
        let Some(jump) = self.led(number) else {
            return false;
        };
        self.specs[jump.index as usize].form == DW_FORM_flag_present
    }

    /// The offset into `.debug_str` at which the first attribute with this number stands, if one look tells it.
    #[inline]
    pub fn str_at(&self, number: u64) -> Option<u64>
        requires read { IsRead (values_at self.now.format self.now.specs.now self.now.cursor) }
        requires jumps { AreJumps self.now.specs.now self.now.jumps.now }
        ensures { IfSome result (λ at. option_map (λ v. v.1) (find (λ v. v.0 == number) (value_read (values_at self.now.format self.now.specs.now self.now.cursor))) ≡ Some (Str at)) }
    {
        let jump = self.led(number)?;
        if self.specs[jump.index as usize].form != DW_FORM_strp {
            return None;
        }
        let mut cursor = self.cursor.copied();
        cursor.skip(u64::from(jump.bytes))?;
        Some(u64::from(cursor.u32()?))
    }

    // The jump to the first attribute with this number, if one look finds it.
    #[inline]
    fn led(&self, number: u64) -> Option<Jump>
        requires { AreJumps self.now.specs.now self.now.jumps.now }
        ensures { IfSome result (Leads self.now.format self.now.specs.now number) }
    {
        if self.format.wide {
            return None;
        }
        let jump = self.jumps.of_number(number)?;
        if self.specs[jump.index as usize].attribute != number {
            return None;
        }
        Some(jump)
    }

    /// All attributes with their values, in the order of the entry.
    pub fn all(&self) -> Attributes<'a>
        requires { IsRead (values_at self.now.format self.now.specs.now self.now.cursor) }
        ensures { result ≡ value_read (values_at self.now.format self.now.specs.now self.now.cursor) }
    {
        Attributes::new(self.specs, self.cursor.copied(), self.format)
    }
}

// The value to which a jump leads.
fn jumped<'a>(
    specs: &[Spec],
    jump: Jump,
    format: UnitFormat,
    cursor: Cursor<'a>,
    number: u64,
) -> Option<Value<'a>>
    requires read { IsRead (values_at format specs.now cursor) }
    requires leads { Leads format specs.now number jump }
    ensures { option_map seen result ≡ option_map (λ v. v.1) (find (λ v. v.0 == number) (value_read (values_at format specs.now cursor.entry))) }
{
    let mut ahead = cursor;
    ahead.skip(u64::from(jump.bytes))?;
    match read(&specs[jump.index as usize], format, &mut ahead) {
        Ok(value) => Some(value),
        Err(_) => None,
    }
}

// The same, where each value before it is passed.
fn sought<'a>(
    specs: &[Spec],
    format: UnitFormat,
    cursor: Cursor<'a>,
    number: u64,
) -> Option<Value<'a>>
    requires { IsRead (values_at format specs.now cursor) }
    ensures { option_map seen result ≡ option_map (λ v. v.1) (find (λ v. v.0 == number) (value_read (values_at format specs.now cursor.entry))) }
{
    let mut cursor = cursor;
    for spec in specs {
        if spec.attribute == number {
            return match read(spec, format, &mut cursor) {
                Ok(value) => Some(value),
                Err(_) => None,
            };
        }
        if let Err(_) = pass_one(spec, format, &mut cursor) {
            return None;
        }
    }
    None
}
