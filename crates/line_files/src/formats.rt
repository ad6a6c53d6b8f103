//! The entry formats of a table of version 5 (DWARF 5, section 6.2.4.1).

ghost use Rattle.std.specs.Prelude.{◌≡◌};
ghost use Rattle.std.specs.List.{list_any};
ghost use Rattle.index_model.specs.Gives.{GivesAlways};
ghost use Rattle.reach_model.specs.LineTables.{content_of, is_directory, is_path, is_form_of, is_number_form, is_string_form, format_behind, formats_at};

use arrayvec::ArrayVec;
use dwarf_codes::form::{
    DW_FORM_block, DW_FORM_data1, DW_FORM_data2, DW_FORM_data4, DW_FORM_data8, DW_FORM_data16,
    DW_FORM_line_strp, DW_FORM_string, DW_FORM_strp, DW_FORM_udata,
};
use ix_base::Cursor;
use reach_model::code::{LINES_FIELDS, LINES_FORM};
use reach_model::{Content, Format};

/// The content DW_LNCT_path.
const PATH: u64 = 1;

/// The content DW_LNCT_directory_index.
const DIRECTORY_INDEX: u64 = 2;

/// The formats of a table: their number is a byte.
pub(crate) type Formats = ArrayVec<Format, 255>;

fn is_path(content: Content) -> bool
    ensures { result ≡ is_path content }
{
    matches!(content, Content::Path)
}

fn is_directory(content: Content) -> bool
    ensures { result ≡ is_directory content }
{
    matches!(content, Content::Directory)
}

// Whether one of the formats is the path.
fn has_path(formats: &[Format]) -> bool
    ensures { result ≡ list_any (λ f. is_path f.content) formats.now }
{
    formats.iter().any(|format| is_path(format.content))
}

// Whether one of the formats is the number of the directory.
fn has_directory(formats: &[Format]) -> bool
    ensures { result ≡ list_any (λ f. is_directory f.content) formats.now }
{
    formats.iter().any(|format| is_directory(format.content))
}

// What the values of a content with this code are, behind these formats. Of equal contents the first counts.
fn content_of(earlier: &[Format], code: u64) -> Content
    ensures { result ≡ content_of earlier.now code }
{
    if code == PATH && !has_path(earlier) {
        Content::Path
    } else if code == DIRECTORY_INDEX && !has_directory(earlier) {
        Content::Directory
    } else {
        Content::Other
    }
}

// Whether values of this form are strings: string, strp, line_strp.
fn is_string_form(form: u64) -> bool
    ensures { result ≡ is_string_form form }
{
    matches!(form, DW_FORM_string | DW_FORM_strp | DW_FORM_line_strp)
}

// Whether values of this form are unsigned numbers: data1, data2, data4, data8, udata.
fn is_number_form(form: u64) -> bool
    ensures { result ≡ is_number_form form }
{
    matches!(
        form,
        DW_FORM_data1 | DW_FORM_data2 | DW_FORM_data4 | DW_FORM_data8 | DW_FORM_udata
    )
}

// Whether a content may have the form. Other contents than path and directory may also have block and data16.
fn is_form_of(content: Content, form: u64) -> bool
    ensures { result ≡ is_form_of content form }
{
    match content {
        Content::Path => is_string_form(form),
        Content::Directory => is_number_form(form),
        Content::Other => is_string_form(form)
            || is_number_form(form)
            || matches!(form, DW_FORM_block | DW_FORM_data16),
    }
}

// The format at the cursor, behind these.
#[tactic(auto, unfolding(reach_model::specs::LineTables::format_behind))]
fn read_format(earlier: &[Format], cursor: &mut Cursor<'_>) -> Result<Format, u8>
    ensures { GivesAlways (λ f. (f, cursor.new)) result (format_behind earlier.now cursor.old) }
{
    let code = cursor.uleb().ok_or(LINES_FIELDS)?;
    let form = cursor.uleb().ok_or(LINES_FIELDS)?;
    let content = content_of(earlier, code);
    if is_form_of(content, form) {
        Ok(Format { content, form })
    } else {
        Err(LINES_FORM)
    }
}

/// The formats at the cursor, behind their number.
#[tactic(auto, unfolding(reach_model::specs::LineTables::formats_at, reach_model::specs::LineTables::formats))]
pub(crate) fn read_formats(cursor: &mut Cursor<'_>) -> Result<Formats, u8>
    ensures { GivesAlways (λ v. (v.items, cursor.new)) result (formats_at cursor.old) }
{
    let count = cursor.u8().ok_or(LINES_FIELDS)?;
    let mut formats = ArrayVec::new();
    'formats: for _ in 0..count {
        let format = read_format(formats.as_slice(), cursor)?;
        formats.push(format);
    }
    Ok(formats)
}
