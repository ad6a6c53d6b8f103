//! Text on its way to a sink, through pieces that wait.
//!
//! What waits is written where the next piece finds no room behind it, so a sink sees few writes.

ghost use Rattle.std.specs.Prelude.{◌≡◌, ◌+◌, ◌≤◌, ◌++◌, [], ◌∷◌, length, OnOk, OnErr};
ghost use Rattle.index_model.specs.Texts.{newline};
ghost use Rattle.name_quotes.specs.Quotes.{quoted, quoted_byte, spelled};
ghost use Rattle.outside.specs.Counts.{Rose};
ghost use Rattle.outside.specs.Written.{Appends, AppendsPrefix};
ghost use Rattle.query_text.specs.Sending.{HasRoom, Sends, room};

use crate::waiting::Waiting;
use name_quotes::{Spelling, escape, is_shown};
use outside::{Failed, Sink, write_all};

/// Writes all that waits.
pub(crate) fn flush<K: Sink>(out: &mut K, waiting: &mut Waiting) -> Result<(), Failed>
    ensures ok { OnOk result (Appends (K.written out.old) (K.written out.new) waiting.old) }
    ensures empty { OnOk result (waiting.new ≡ []) }
    ensures failed { OnErr result (Rose (K.write_faults out.old) (K.write_faults out.new)) }
    ensures left { OnErr result (AppendsPrefix (K.written out.old) (K.written out.new) waiting.old) }
    ensures counts { K.write_faults out.old ≤ K.write_faults out.new }
{
    write_all(out, waiting.as_slice())?;
    waiting.clear();
    Ok(())
}

/// Writes what waits, unless so many bytes more can wait.
pub(crate) fn make_room<K: Sink>(
    out: &mut K,
    waiting: &mut Waiting,
    count: usize,
) -> Result<(), Failed>
    ensures ok { OnOk result (Sends (K.written out.old) waiting.old (K.written out.new) waiting.new []) }
    ensures room { OnOk result (HasRoom count waiting.new) }
    ensures failed { OnErr result (Rose (K.write_faults out.old) (K.write_faults out.new)) }
    ensures left { OnErr result (AppendsPrefix (K.written out.old) (K.written out.new) waiting.old) }
    ensures counts { K.write_faults out.old ≤ K.write_faults out.new }
{
    if count <= waiting.room_left() {
        return Ok(());
    }
    flush(out, waiting)
}

/// Sends a piece. One that is longer than all the room is written at once.
pub(crate) fn send<K: Sink>(out: &mut K, waiting: &mut Waiting, piece: &[u8]) -> Result<(), Failed>
    ensures ok { OnOk result (Sends (K.written out.old) waiting.old (K.written out.new) waiting.new piece.now) }
    ensures failed { OnErr result (Rose (K.write_faults out.old) (K.write_faults out.new)) }
    ensures left { OnErr result (AppendsPrefix (K.written out.old) (K.written out.new) (waiting.old ++ piece.now)) }
    ensures counts { K.write_faults out.old ≤ K.write_faults out.new }
{
    make_room(out, waiting, piece.len())?;
    if piece.len() > waiting.room_left() {
        return write_all(out, piece);
    }
    waiting.push(piece);
    Ok(())
}

/// Sends a name, as it is written, and the newline that ends its line.
pub(crate) fn send_name<K: Sink>(
    out: &mut K,
    waiting: &mut Waiting,
    spelling: Spelling,
    name: &[u8],
) -> Result<(), Failed>
    ensures ok { OnOk result (Sends (K.written out.old) waiting.old (K.written out.new) waiting.new (spelled spelling name.now ++ newline)) }
    ensures failed { OnErr result (Rose (K.write_faults out.old) (K.write_faults out.new)) }
    ensures left { OnErr result (AppendsPrefix (K.written out.old) (K.written out.new) (waiting.old ++ (spelled spelling name.now ++ newline))) }
    ensures counts { K.write_faults out.old ≤ K.write_faults out.new }
{
    send_spelled(out, waiting, spelling, name)?;
    send(out, waiting, b"\n")
}

fn send_spelled<K: Sink>(
    out: &mut K,
    waiting: &mut Waiting,
    spelling: Spelling,
    name: &[u8],
) -> Result<(), Failed>
    ensures ok { OnOk result (Sends (K.written out.old) waiting.old (K.written out.new) waiting.new (spelled spelling name.now)) }
    ensures failed { OnErr result (Rose (K.write_faults out.old) (K.write_faults out.new)) }
    ensures left { OnErr result (AppendsPrefix (K.written out.old) (K.written out.new) (waiting.old ++ spelled spelling name.now)) }
    ensures counts { K.write_faults out.old ≤ K.write_faults out.new }
{
    match spelling {
        Spelling::Plain => send(out, waiting, name),
        Spelling::Quoted => send_quoted(out, waiting, name),
    }
}

// Sends what stands for each byte.
#[tactic(auto, unfolding(name_quotes::specs::Quotes::quoted))]
fn send_quoted<K: Sink>(out: &mut K, waiting: &mut Waiting, name: &[u8]) -> Result<(), Failed>
    ensures ok { OnOk result (Sends (K.written out.old) waiting.old (K.written out.new) waiting.new (quoted name.now)) }
    ensures failed { OnErr result (Rose (K.write_faults out.old) (K.write_faults out.new)) }
    ensures left { OnErr result (AppendsPrefix (K.written out.old) (K.written out.new) (waiting.old ++ quoted name.now)) }
    ensures counts { K.write_faults out.old ≤ K.write_faults out.new }
{
    for byte in name {
        send_byte(out, waiting, *byte)?;
    }
    Ok(())
}

fn send_byte<K: Sink>(out: &mut K, waiting: &mut Waiting, byte: u8) -> Result<(), Failed>
    ensures ok { OnOk result (Sends (K.written out.old) waiting.old (K.written out.new) waiting.new (quoted_byte byte)) }
    ensures failed { OnErr result (Rose (K.write_faults out.old) (K.write_faults out.new)) }
    ensures left { OnErr result (AppendsPrefix (K.written out.old) (K.written out.new) (waiting.old ++ quoted_byte byte)) }
    ensures counts { K.write_faults out.old ≤ K.write_faults out.new }
{
    make_room(out, waiting, 4)?;
    push_byte(waiting, byte);
    Ok(())
}

// What stands for a byte in a quoted name.
fn push_byte(waiting: &mut Waiting, byte: u8)
    requires { length waiting.old + 4 ≤ room }
    ensures { waiting.new ≡ waiting.old ++ quoted_byte byte }
{
    if is_shown(byte) {
        waiting.push(&[byte]);
    } else {
        waiting.push(&escape(byte));
    }
}
