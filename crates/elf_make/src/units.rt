//! The units of the generated file, entry by entry.
//!
//! Clauses name `abbreviations 0 2`, the abbreviations of two units. More units use no others, and a single one has the same codes.

ghost use Rattle.std.specs.Prelude.{◌≡◌, ◌≤◌, ◌<◌, ◌^◌, ◌==◌, if◌then◌else◌, ◌∷◌, ◌++◌, OnOk};
ghost use Rattle.elf_make.specs.PlainForm.{End, entries_bytes, unit_header, unit_bytes};
ghost use Rattle.elf_make.specs.Generated.{abbreviations, c_entries, c_unit, cpp_unit, generated_unit, main_before};

use crate::codes::Code;
use crate::header::{push_half, push_word, push_xword};
use crate::places::{C_SIZE, CPP_SIZE, MAIN_SIZE, declaration_for, low_address};
use crate::values::{push_addresses, push_file_name, push_numbered, push_text};
use ix_base::NoMemory;

const VERSION: u16 = 5;

const DW_UT_COMPILE: u8 = 1;

const ADDRESS_SIZE: u8 = 8;

const HEADER_SIZE: u32 = 12;

const C99: u8 = 0x0C;

const CPP14: u8 = 0x21;

const NULL_ENTRY: u8 = 0;

// How many bytes of code a unit and a function have.
const UNIT_SPAN: u32 = 0x100;

const FUNCTION_SPAN: u32 = 0x20;

// An expression of 9 bytes that is DW_OP_addr and an address.
const LOCATION: &[u8] = b"\x09\x03";

/// Appends the unit of this number.
pub(crate) fn push_unit(
    out: &mut Vec<u8>,
    seed: u32,
    units: u32,
    index: u32,
) -> Result<(), NoMemory>
    requires few { units ≤ 100000 }
    requires index { index < units }
    ensures { OnOk result (out.new.items ≡ out.old.items ++ generated_unit seed units index) }
{
    let low = low_address(seed, index);
    if index % 2 == 0 {
        push_c_unit(out, low, index)
    } else {
        push_cpp_unit(out, low, index, declaration_for(seed, units, index))
    }
}

// Appends a unit of even number.
fn push_c_unit(out: &mut Vec<u8>, low: u64, index: u32) -> Result<(), NoMemory>
    requires { low < 2 ^ 41 }
    ensures { OnOk result (out.new.items ≡ out.old.items ++ unit_bytes (abbreviations 0 2) (c_unit low index)) }
{
    push_unit_header(out, C_SIZE + main_size(index) - HEADER_SIZE)?;
    out.push(Code::CompileUnit as u8)?;
    push_file_name(out, index, b".c")?;
    out.push(C99)?;
    push_addresses(out, low, UNIT_SPAN)?;
    push_main(out, low, index)?;
    push_c_entries(out, low, index)?;
    out.push(NULL_ENTRY)?;
    Ok(())
}

// How many bytes main takes in this unit.
fn main_size(index: u32) -> u32
    ensures { result ≡ (if index == 0 then 18 else 0) }
{
    if index == 0 { MAIN_SIZE } else { 0 }
}

// Appends the function main of unit 0, and nothing for other units.
fn push_main(out: &mut Vec<u8>, low: u64, index: u32) -> Result<(), NoMemory>
    ensures { OnOk result (out.new.items ≡ out.old.items ++ entries_bytes (abbreviations 0 2) (main_before low index End)) }
{
    if index == 0 {
        out.push(Code::Function as u8)?;
        push_text(out, b"main")?;
        push_addresses(out, low, FUNCTION_SPAN)?;
    }
    Ok(())
}

// Appends the entries that each unit of even number has.
fn push_c_entries(out: &mut Vec<u8>, low: u64, index: u32) -> Result<(), NoMemory>
    requires { low < 2 ^ 41 }
    ensures { OnOk result (out.new.items ≡ out.old.items ++ entries_bytes (abbreviations 0 2) (c_entries low index)) }
{
    out.push(Code::Function as u8)?;
    push_numbered(out, b'f', index)?;
    push_addresses(out, low + 0x20, FUNCTION_SPAN)?;
    out.push(Code::StaticFunction as u8)?;
    push_text(out, b"helper")?;
    push_addresses(out, low + 0x40, FUNCTION_SPAN)?;
    out.push(Code::Variable as u8)?;
    push_numbered(out, b'v', index)?;
    out.extend_from_slice(LOCATION)?;
    push_xword(out, low + 0x80)?;
    out.push(Code::Typedef as u8)?;
    push_text(out, b"word")?;
    Ok(())
}

// Appends a unit of odd number, which specifies the declaration at this offset.
fn push_cpp_unit(out: &mut Vec<u8>, low: u64, index: u32, declared: u32) -> Result<(), NoMemory>
    requires { low < 2 ^ 41 }
    ensures { OnOk result (out.new.items ≡ out.old.items ++ unit_bytes (abbreviations 0 2) (cpp_unit low index declared)) }
{
    push_unit_header(out, CPP_SIZE - HEADER_SIZE)?;
    out.push(Code::CompileUnit as u8)?;
    push_file_name(out, index, b".cc")?;
    out.push(CPP14)?;
    push_addresses(out, low, UNIT_SPAN)?;
    out.push(Code::Namespace as u8)?;
    push_text(out, b"n")?;
    out.push(Code::Class as u8)?;
    push_numbered(out, b'c', index)?;
    out.push(Code::Declaration as u8)?;
    push_text(out, b"m")?;
    // The braces of the class and of the namespace close.
    out.push(NULL_ENTRY)?;
    out.push(NULL_ENTRY)?;
    out.push(Code::Definition as u8)?;
    push_word(out, declared)?;
    push_addresses(out, low + 0x20, FUNCTION_SPAN)?;
    out.push(NULL_ENTRY)?;
    Ok(())
}

// Appends the header of a unit whose entries have so many bytes.
fn push_unit_header(out: &mut Vec<u8>, size: u32) -> Result<(), NoMemory>
    requires { size < 256 }
    ensures { OnOk result (out.new.items ≡ out.old.items ++ unit_header size) }
{
    push_word(out, size + 8)?;
    push_half(out, VERSION)?;
    out.push(DW_UT_COMPILE)?;
    out.push(ADDRESS_SIZE)?;
    push_word(out, 0)
}
