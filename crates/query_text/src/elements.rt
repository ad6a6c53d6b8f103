//! The lines of a look-up by name in a `.gdb_index`, and the line of an index with a fault.

ghost use Rattle.std.specs.Prelude.{◌≡◌, ◌≤◌, ◌+◌, ◌<◌, ◌++◌, length, flat_map, codes, OnOk, OnErr};
ghost use Rattle.outside.specs.Counts.{Rose};
ghost use Rattle.outside.specs.Written.{Appends, AppendsPrefix};
ghost use Rattle.index_model.specs.LookTexts.{kind_in, text_of_element, text_of_elements, text_of_index_fault};
ghost use Rattle.name_quotes.specs.Quotes.{spelled};
ghost use Rattle.query_text.specs.LookHeads.{element_head};
ghost use Rattle.query_text.specs.Sending.{room, Sends};

use crate::send::{flush, make_room, send_name};
use crate::texts::{SHORT, push_count, push_fault, scope_word};
use crate::waiting::Waiting;
use gdbindex_read::Elements;
use ix_base::Fault;
use name_quotes::Spelling;
use outside::{Failed, Sink};

// The index number of a unit is below this.
const UNITS: u32 = 1 << 24;

// What one kind counts in an element, and how many kinds there are.
const KIND: u32 = 1 << 28;

const KINDS: u32 = 8;

// What a static symbol counts in an element.
const STATIC: u32 = 1 << 31;

/// Writes the elements that an index has for a name: how many there are, and of each the index number of its unit, kind and
/// scope. Where that fails, a prefix of them was written. It takes no memory.
pub fn write_elements<K: Sink>(
    out: &mut K,
    spelling: Spelling,
    name: &[u8],
    elements: &Elements<'_>,
) -> Result<(), Failed>
    ensures ok { OnOk result (Appends (K.written out.old) (K.written out.new) (text_of_elements (spelled spelling name.now) elements.now)) }
    ensures failed { OnErr result (Rose (K.write_faults out.old) (K.write_faults out.new)) }
    ensures left { OnErr result (AppendsPrefix (K.written out.old) (K.written out.new) (text_of_elements (spelled spelling name.now) elements.now)) }
    ensures counts { K.write_faults out.old ≤ K.write_faults out.new }
{
    let mut waiting = Waiting::new();
    send_elements(out, &mut waiting, spelling, name, elements)?;
    flush(out, &mut waiting)
}

/// Writes the line of an index with a fault: its code and its place.
pub fn write_index_fault<K: Sink>(out: &mut K, fault: Fault) -> Result<(), Failed>
    ensures ok { OnOk result (Appends (K.written out.old) (K.written out.new) (text_of_index_fault fault)) }
    ensures failed { OnErr result (Rose (K.write_faults out.old) (K.write_faults out.new)) }
    ensures left { OnErr result (AppendsPrefix (K.written out.old) (K.written out.new) (text_of_index_fault fault)) }
    ensures counts { K.write_faults out.old ≤ K.write_faults out.new }
{
    let mut waiting = Waiting::new();
    waiting.push(b"index ");
    push_fault(&mut waiting, fault);
    flush(out, &mut waiting)
}

// How many elements there are, and each of them.
fn send_elements<K: Sink>(
    out: &mut K,
    waiting: &mut Waiting,
    spelling: Spelling,
    name: &[u8],
    elements: &Elements<'_>,
) -> Result<(), Failed>
    requires room { length waiting.old + 96 ≤ room }
    ensures ok { OnOk result (Sends (K.written out.old) waiting.old (K.written out.new) waiting.new (text_of_elements (spelled spelling name.now) elements.now)) }
    ensures failed { OnErr result (Rose (K.write_faults out.old) (K.write_faults out.new)) }
    ensures left { OnErr result (AppendsPrefix (K.written out.old) (K.written out.new) (waiting.old ++ text_of_elements (spelled spelling name.now) elements.now)) }
    ensures counts { K.write_faults out.old ≤ K.write_faults out.new }
{
    push_count(waiting, elements.len() as u64);
    send_each(out, waiting, spelling, name, elements)
}

// Each of the elements.
fn send_each<K: Sink>(
    out: &mut K,
    waiting: &mut Waiting,
    spelling: Spelling,
    name: &[u8],
    elements: &Elements<'_>,
) -> Result<(), Failed>
    ensures ok { OnOk result (Sends (K.written out.old) waiting.old (K.written out.new) waiting.new (flat_map (text_of_element (spelled spelling name.now)) elements.now)) }
    ensures failed { OnErr result (Rose (K.write_faults out.old) (K.write_faults out.new)) }
    ensures left { OnErr result (AppendsPrefix (K.written out.old) (K.written out.new) (waiting.old ++ flat_map (text_of_element (spelled spelling name.now)) elements.now)) }
    ensures counts { K.write_faults out.old ≤ K.write_faults out.new }
{
    for i in 0..elements.len() {
        send_element(out, waiting, spelling, name, elements.get(i))?;
    }
    Ok(())
}

fn send_element<K: Sink>(
    out: &mut K,
    waiting: &mut Waiting,
    spelling: Spelling,
    name: &[u8],
    element: u32,
) -> Result<(), Failed>
    ensures ok { OnOk result (Sends (K.written out.old) waiting.old (K.written out.new) waiting.new (text_of_element (spelled spelling name.now) element)) }
    ensures failed { OnErr result (Rose (K.write_faults out.old) (K.write_faults out.new)) }
    ensures left { OnErr result (AppendsPrefix (K.written out.old) (K.written out.new) (waiting.old ++ text_of_element (spelled spelling name.now) element)) }
    ensures counts { K.write_faults out.old ≤ K.write_faults out.new }
{
    make_room(out, waiting, SHORT)?;
    push_element(waiting, element);
    send_name(out, waiting, spelling, name)
}

// What stands before the name of an element.
fn push_element(waiting: &mut Waiting, element: u32)
    requires { length waiting.old + 96 ≤ room }
    ensures { waiting.new ≡ waiting.old ++ element_head element }
{
    waiting.push_decimal(u64::from(element % UNITS));
    waiting.push(kind_word(element / KIND % KINDS));
    waiting.push(scope_word(element / STATIC % 2 == 1));
}

// The word of a kind, between spaces.
fn kind_word(kind: u32) -> &'static [u8]
    requires { kind < 8 }
    ensures word { result.now ≡ codes " " ++ kind_in kind ++ codes " " }
    ensures most { length result.now ≤ 10 }
{
    match kind {
        0 => b" kind0 ",
        1 => b" type ",
        2 => b" variable ",
        3 => b" function ",
        4 => b" other ",
        5 => b" kind5 ",
        6 => b" kind6 ",
        _ => b" kind7 ",
    }
}
