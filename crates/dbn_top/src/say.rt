//! The last line of a call.

ghost use Rattle.std.specs.Prelude.{◌≡◌, ◌≢◌, ◌⊎◌, ◌≤◌, false};
ghost use Rattle.dbn_model.specs.Causes.{Rose};
ghost use Rattle.dbn_model.specs.Content.{SameTold};
ghost use Rattle.dbn_top.specs.Calls.{stream};
ghost use Rattle.dbn_top.specs.Writing.{Writes, due, is_broken_off};

use crate::status::Status;
use dbn_io::{Sink, Trouble, write_whole};

/// Writes the last line of a call that ends with this status, and answers how the call ends then.
#[tactic(auto, using(crate::proofs::Saying::said_part))]
pub(crate) fn say<K: Sink>(out: &mut K, text: &[u8], status: Status) -> Status
    requires { is_broken_off status ≡ false }
    ensures writes { Writes result (due status text.now) (stream (K.taken out.old) (K.taken out.new) (K.faults out.old) (K.faults out.new)) }
    ensures which { (result ≡ status) ⊎ (result ≡ Status.WriteFault) ⊎ (result ≡ Status.Memory) }
    ensures told { SameTold (K.taken out.old) (K.taken out.new) }
    ensures later { K.faults out.old ≤ K.faults out.new }
    ensures write { result ≡ Status.WriteFault → Rose (K.faults out.old) (K.faults out.new) }
    ensures calm { result ≢ Status.WriteFault → K.faults out.new ≡ K.faults out.old }
{
    match write_whole(out, text) {
        Ok(()) => status,
        Err(Trouble::Failed) => Status::WriteFault,
        Err(Trouble::Memory) => Status::Memory,
    }
}
