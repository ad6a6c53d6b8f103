//! The symbol table and the shortcut to main (GDB manual, "Index Section Format").

ghost use Rattle.std.specs.Prelude.{◌≡◌, ◌<◌, ◌++◌, length, flat_map, position, option_map, bytes_eq, All, OnOk};
ghost use Rattle.std.specs.Option.{ForSome};
ghost use Rattle.index_model.specs.Seen.{main_seen};
ghost use Rattle.gdbindex_write.specs.Places.{numbered_bytes, place_bytes, place_of_name, shortcut_bytes, shortcut_of};

use crate::places::Slot;
use crate::put::put_u32;
use crate::symbols::Symbol;
use index_model::MainName;
use ix_base::NoMemory;

/// Appends the slots in their order, each by the number of its name.
pub(crate) fn put_symbol_table(
    out: &mut Vec<u8>,
    slots: &[Option<u32>],
    places: &[Slot],
) -> Result<(), NoMemory>
    requires { All (λ slot. ForSome slot (λ n. n < length places.now)) slots.now }
    ensures { OnOk result (out.new.items ≡ out.old.items ++ flat_map (numbered_bytes places.now) slots.now) }
{
    for slot in slots {
        put_slot(out, *slot, places)?;
    }
    Ok(())
}

// Appends the place of a name and that of its vector, or zeros.
fn put_slot(out: &mut Vec<u8>, slot: Option<u32>, places: &[Slot]) -> Result<(), NoMemory>
    requires { ForSome slot (λ n. n < length places.now) }
    ensures { OnOk result (out.new.items ≡ out.old.items ++ numbered_bytes places.now slot) }
{
    match slot {
        Some(number) => put_place(out, places[number as usize]),
        None => put_place(out, Slot { name: 0, vector: 0 }),
    }
}

fn put_place(out: &mut Vec<u8>, place: Slot) -> Result<(), NoMemory>
    ensures { OnOk result (out.new.items ≡ out.old.items ++ place_bytes place) }
{
    put_u32(out, place.name)?;
    put_u32(out, place.vector)
}

/// Appends the shortcut of an index that has one, that of version 9.
pub(crate) fn put_shortcut(
    out: &mut Vec<u8>,
    version: u8,
    main: Option<MainName<'_>>,
    symbols: &[Symbol<'_>],
    places: &[Slot],
) -> Result<(), NoMemory>
    requires { length places.now ≡ length symbols.now }
    ensures { OnOk result (out.new.items ≡ out.old.items ++ shortcut_of version symbols.now places.now (option_map main_seen main.entry)) }
{
    if version == 9 {
        put_main(out, main, symbols, places)
    } else {
        Ok(())
    }
}

// Appends the language of main and the place of its name, or zeros.
fn put_main(
    out: &mut Vec<u8>,
    main: Option<MainName<'_>>,
    symbols: &[Symbol<'_>],
    places: &[Slot],
) -> Result<(), NoMemory>
    requires { length places.now ≡ length symbols.now }
    ensures { OnOk result (out.new.items ≡ out.old.items ++ shortcut_bytes symbols.now places.now (option_map main_seen main.entry)) }
{
    match main {
        Some(main) => {
            put_u32(out, u32::from(main.language))?;
            put_u32(out, name_place(main.name, symbols, places))
        }
        None => {
            put_u32(out, 0)?;
            put_u32(out, 0)
        }
    }
}

// The place of a name, which is that of a symbol.
fn name_place(name: &[u8], symbols: &[Symbol<'_>], places: &[Slot]) -> u32
    requires { length places.now ≡ length symbols.now }
    ensures { result ≡ place_of_name symbols.now places.now name.now }
{
    match number_of_name(name, symbols) {
        Some(number) => places[number].name,
        None => 0,
    }
}

// The number of the symbol with a name.
fn number_of_name(name: &[u8], symbols: &[Symbol<'_>]) -> Option<usize>
    ensures { result ≡ position (λ s. bytes_eq s.name.now name.now) symbols.now }
{
    symbols.iter().position(|symbol| symbol.name == name)
}
