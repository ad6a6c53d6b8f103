//! How many bytes the values of a form take (DWARF 5, section 7.5.6).

ghost use Rattle.std.specs.Prelude.{◌≡◌, ℕ, IfSome};
ghost use Rattle.index_model.specs.Forms.{value_at};
ghost use Rattle.entry_scan.specs.Values.{TakeBytes};
ghost use Rattle.entry_scan.specs.Fronts.{IsFront, TakesNext};

use crate::abbreviation::Spec;
use dwarf_codes::form::{
    DW_FORM_addr, DW_FORM_addrx1, DW_FORM_addrx2, DW_FORM_addrx3, DW_FORM_addrx4, DW_FORM_data1,
    DW_FORM_data2, DW_FORM_data4, DW_FORM_data8, DW_FORM_data16, DW_FORM_flag,
    DW_FORM_flag_present, DW_FORM_implicit_const, DW_FORM_line_strp, DW_FORM_ref_sig8,
    DW_FORM_ref1, DW_FORM_ref2, DW_FORM_ref4, DW_FORM_ref8, DW_FORM_sec_offset, DW_FORM_strp,
    DW_FORM_strx1, DW_FORM_strx2, DW_FORM_strx3, DW_FORM_strx4,
};

/// The attributes at the front of an abbreviation whose values take the same bytes in each entry of a unit of the 32-bit format.
#[derive(Clone, Copy)]
pub(crate) struct Front {
    /// How many they are.
    pub count: u32,
    /// How many bytes all their values take.
    pub bytes: u32,
}

// How many bytes each value of the form takes. None where they don't all take the same.
#[tactic(auto, using(crate::proofs::SizeLaws::number_takes), unfolding(index_model::specs::Forms::value_at))]
pub(crate) fn size_of(form: u64, wide: bool) -> Option<u32>
    ensures { IfSome result (λ n. (version : ℕ) → TakeBytes n (value_at version wide form)) }
{
    match form {
        DW_FORM_flag_present | DW_FORM_implicit_const => Some(0),
        DW_FORM_data1 | DW_FORM_flag | DW_FORM_ref1 | DW_FORM_strx1 | DW_FORM_addrx1 => Some(1),
        DW_FORM_data2 | DW_FORM_ref2 | DW_FORM_strx2 | DW_FORM_addrx2 => Some(2),
        DW_FORM_strx3 | DW_FORM_addrx3 => Some(3),
        DW_FORM_data4 | DW_FORM_ref4 | DW_FORM_strx4 | DW_FORM_addrx4 => Some(4),
        DW_FORM_addr | DW_FORM_data8 | DW_FORM_ref8 | DW_FORM_ref_sig8 => Some(8),
        DW_FORM_data16 => Some(16),
        DW_FORM_strp | DW_FORM_sec_offset | DW_FORM_line_strp => Some(if wide { 8 } else { 4 }),
        _ => None,
    }
}

/// The front and one more attribute, of this form. None where its values don't all take the same bytes.
pub(crate) fn with_next(front: Front, form: u64) -> Option<Front>
    ensures { IfSome result (TakesNext form front) }
{
    let size = size_of(form, false)?;
    let count = front.count.checked_add(1)?;
    let bytes = front.bytes.checked_add(size)?;
    Some(Front { count, bytes })
}

/// The longest front of these attributes, but for one that passes 32 bits.
pub(crate) fn front_of(specs: &[Spec]) -> Front
    ensures { IsFront specs.now result }
{
    let mut front = Front { count: 0, bytes: 0 };
    for spec in specs {
        let Some(longer) = with_next(front, spec.form) else {
            return front;
        };
        front = longer;
    }
    front
}
