//! A text of the program's own.

ghost use Rattle.std.specs.Prelude.{◌≡◌, ◌≤◌, ◌⊎◌};
ghost use Rattle.outside.specs.Counts.{Rose};
ghost use Rattle.outside.specs.Written.{Appends, AppendsPrefix};
ghost use Rattle.command_base.specs.declared.status.Status.TheVariants as statuses;

use command_base::Status;
use outside::{Failed, Sink, write_all};

/// The status, once the text is written.
pub(crate) fn say<K: Sink>(out: &mut K, status: Status, text: &[u8]) -> Status
    requires { status ≡ statuses.WriteFault → ⊥ }
    ensures said { result ≡ status → Appends (K.written out.old) (K.written out.new) text.now }
    ensures either { (result ≡ status) ⊎ (result ≡ statuses.WriteFault) }
    ensures fault { result ≡ statuses.WriteFault → Rose (K.write_faults out.old) (K.write_faults out.new) }
    ensures left { result ≡ statuses.WriteFault → AppendsPrefix (K.written out.old) (K.written out.new) text.now }
    ensures counts { K.write_faults out.old ≤ K.write_faults out.new }
{
    match write_all(out, text) {
        Ok(()) => status,
        Err(Failed) => Status::WriteFault,
    }
}
