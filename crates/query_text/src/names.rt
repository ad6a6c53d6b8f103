//! The lines of a look-up by name in a `.debug_names`.

ghost use Rattle.std.specs.Prelude.{◌≡◌, ◌≤◌, ◌+◌, ◌<◌, ◌^◌, ◌++◌, length, flat_map, codes, OnOk, OnErr};
ghost use Rattle.debugnames_read.specs.Entries.{hit_seen, sort_seen};
ghost use Rattle.index_model.specs.NameIndexRead.{name_index_hits};
ghost use Rattle.outside.specs.Counts.{Rose};
ghost use Rattle.outside.specs.Written.{Appends, AppendsPrefix};
ghost use Rattle.index_model.specs.LookTexts.{sort_word, text_of_hit, text_of_hits};
ghost use Rattle.name_quotes.specs.Quotes.{spelled};
ghost use Rattle.query_text.specs.LookHeads.{hit_head};
ghost use Rattle.query_text.specs.Sending.{room, Sends};

use crate::send::{flush, make_room, send_name};
use crate::texts::{SHORT, push_count};
use crate::waiting::Waiting;
use debugnames_read::{NameHit, NameHits, NameIndex, Sort};
use name_quotes::Spelling;
use outside::{Failed, Sink};

/// Writes the entries that an index has for a name: how many there are, and of each the list of its unit, the place there, its
/// offset in the unit and its tag. The name is looked up twice, to count and to write. Where that fails, a prefix of them was
/// written. It takes no memory.
pub fn write_hits<K: Sink>(
    out: &mut K,
    spelling: Spelling,
    name: &[u8],
    index: &NameIndex<'_>,
) -> Result<(), Failed>
    requires { length (name_index_hits index.now name.now) < 2 ^ 64 }
    ensures ok { OnOk result (Appends (K.written out.old) (K.written out.new) (text_of_hits (spelled spelling name.now) (name_index_hits index.now name.now))) }
    ensures failed { OnErr result (Rose (K.write_faults out.old) (K.write_faults out.new)) }
    ensures left { OnErr result (AppendsPrefix (K.written out.old) (K.written out.new) (text_of_hits (spelled spelling name.now) (name_index_hits index.now name.now))) }
    ensures counts { K.write_faults out.old ≤ K.write_faults out.new }
{
    let mut waiting = Waiting::new();
    send_hits(out, &mut waiting, spelling, name, index)?;
    flush(out, &mut waiting)
}

// How many entries there are, and each of them.
fn send_hits<K: Sink>(
    out: &mut K,
    waiting: &mut Waiting,
    spelling: Spelling,
    name: &[u8],
    index: &NameIndex<'_>,
) -> Result<(), Failed>
    requires room { length waiting.old + 96 ≤ room }
    requires fits { length (name_index_hits index.now name.now) < 2 ^ 64 }
    ensures ok { OnOk result (Sends (K.written out.old) waiting.old (K.written out.new) waiting.new (text_of_hits (spelled spelling name.now) (name_index_hits index.now name.now))) }
    ensures failed { OnErr result (Rose (K.write_faults out.old) (K.write_faults out.new)) }
    ensures left { OnErr result (AppendsPrefix (K.written out.old) (K.written out.new) (waiting.old ++ text_of_hits (spelled spelling name.now) (name_index_hits index.now name.now))) }
    ensures counts { K.write_faults out.old ≤ K.write_faults out.new }
{
    push_count(waiting, index.find(name).count() as u64);
    send_each(out, waiting, spelling, name, index.find(name))
}

// Each of the entries.
fn send_each<K: Sink>(
    out: &mut K,
    waiting: &mut Waiting,
    spelling: Spelling,
    name: &[u8],
    hits: NameHits<'_, '_>,
) -> Result<(), Failed>
    ensures ok { OnOk result (Sends (K.written out.old) waiting.old (K.written out.new) waiting.new (flat_map (text_of_hit (spelled spelling name.now)) hits.entry)) }
    ensures failed { OnErr result (Rose (K.write_faults out.old) (K.write_faults out.new)) }
    ensures left { OnErr result (AppendsPrefix (K.written out.old) (K.written out.new) (waiting.old ++ flat_map (text_of_hit (spelled spelling name.now)) hits.entry)) }
    ensures counts { K.write_faults out.old ≤ K.write_faults out.new }
{
    for hit in hits {
        send_hit(out, waiting, spelling, name, hit)?;
    }
    Ok(())
}

fn send_hit<K: Sink>(
    out: &mut K,
    waiting: &mut Waiting,
    spelling: Spelling,
    name: &[u8],
    hit: NameHit,
) -> Result<(), Failed>
    ensures ok { OnOk result (Sends (K.written out.old) waiting.old (K.written out.new) waiting.new (text_of_hit (spelled spelling name.now) (hit_seen hit))) }
    ensures failed { OnErr result (Rose (K.write_faults out.old) (K.write_faults out.new)) }
    ensures left { OnErr result (AppendsPrefix (K.written out.old) (K.written out.new) (waiting.old ++ text_of_hit (spelled spelling name.now) (hit_seen hit))) }
    ensures counts { K.write_faults out.old ≤ K.write_faults out.new }
{
    make_room(out, waiting, SHORT)?;
    push_hit(waiting, hit);
    send_name(out, waiting, spelling, name)
}

// What stands before the name of an entry.
fn push_hit(waiting: &mut Waiting, hit: NameHit)
    requires { length waiting.old + 96 ≤ room }
    ensures { waiting.new ≡ waiting.old ++ hit_head (hit_seen hit) }
{
    waiting.push(sort_word(hit.sort));
    waiting.push_decimal(u64::from(hit.unit));
    waiting.push(b" ");
    waiting.push_hex(hit.offset);
    waiting.push(b" ");
    waiting.push_hex(hit.tag);
    waiting.push(b" ");
}

// The word of a list of units, and a space.
fn sort_word(sort: Sort) -> &'static [u8]
    ensures word { result.now ≡ sort_word (sort_seen sort) ++ codes " " }
    ensures most { length result.now ≤ 8 }
{
    match sort {
        Sort::Compile => b"compile ",
        Sort::Local => b"type ",
        Sort::Foreign => b"foreign ",
    }
}
