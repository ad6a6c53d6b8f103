//! The lines of `aranges`.

ghost use Rattle.std.specs.Prelude.{◌≡◌, IfOk, Some};
ghost use Rattle.std.specs.String.{string_bytes};
ghost use Rattle.index_model.specs.Texts.{hex};
ghost use Rattle.reach_model.specs.AddressTexts.{text_of_aranges_fault, text_of_comparison, unit_word};

use ix_base::Fault;
use reach_model::Difference;
use std::alloc::{AllocError, Global};

/// The line of a comparison: that both agree, or the first address with two answers.
#[tactic(auto, unfolding(reach_model::specs::AddressTexts::text_of_comparison))]
pub(crate) fn comparison_line(
    alloc: Global,
    difference: Option<Difference>,
) -> Result<String, AllocError>
    ensures { IfOk result (λ line. string_bytes line ≡ text_of_comparison difference) }
{
    match difference {
        None => String::from_str(alloc, "agrees\n"),
        Some(difference) => difference_line(alloc, difference),
    }
}

// The line of the first address with two answers.
#[tactic(auto, unfolding(reach_model::specs::AddressTexts::text_of_comparison))]
fn difference_line(alloc: Global, difference: Difference) -> Result<String, AllocError>
    ensures { IfOk result (λ line. string_bytes line ≡ text_of_comparison (Some difference)) }
{
    let address = hex_word(alloc, difference.address)?;
    let table = unit_word(alloc, difference.table)?;
    let own = unit_word(alloc, difference.own)?;
    let line = format!(in alloc; "differs {address} {table} {own}\n")?;
    Ok(line)
}

// A number in lower-case hexadecimal.
fn hex_word(alloc: Global, number: u64) -> Result<String, AllocError>
    ensures { IfOk result (λ word. string_bytes word ≡ hex number) }
{
    format!(in alloc; "{number:x}")
}

// The number of a unit, if there is one.
fn unit_word(alloc: Global, unit: Option<u32>) -> Result<String, AllocError>
    ensures { IfOk result (λ word. string_bytes word ≡ unit_word unit) }
{
    match unit {
        Some(unit) => format!(in alloc; "{unit}"),
        None => String::from_str(alloc, "none"),
    }
}

/// The line of a table with a fault: its code and its place.
#[tactic(auto, unfolding(reach_model::specs::AddressTexts::text_of_aranges_fault, index_model::specs::Texts::text_of_fault))]
pub(crate) fn refusal_line(alloc: Global, fault: Fault) -> Result<String, AllocError>
    ensures { IfOk result (λ line. string_bytes line ≡ text_of_aranges_fault fault) }
{
    let code = fault.code;
    let place = hex_word(alloc, fault.at)?;
    let line = format!(in alloc; "aranges refused {code} {place}\n")?;
    Ok(line)
}
