//! Writing a text whole.

ghost use Rattle.std.specs.Prelude.{OnOk, OnErr};
ghost use Rattle.std.specs.Io.KnownBytes.{Appends};
ghost use Rattle.dbn_io.specs.Causes.{HasCause};
ghost use Rattle.dbn_model.specs.Content.{AppendsPart, SameTold};

use crate::sink::Sink;
use crate::trouble::Trouble;

/// Writes all of `bytes`, in as many pieces as the sink takes. After an error a proper front of `bytes` was written;
/// `Failed` comes only where the count of faults rose.
pub fn write_whole<S: Sink>(sink: &mut S, bytes: &[u8]) -> Result<(), Trouble>
    ensures all { OnOk result (Appends (S.taken sink.old) (S.taken sink.new) bytes.now) }
    ensures part { OnErr result (AppendsPart (S.taken sink.old) (S.taken sink.new) bytes.now) }
    ensures told { SameTold (S.taken sink.old) (S.taken sink.new) }
    ensures cause { HasCause (S.faults sink.old) (S.faults sink.new) result }
{
    let mut rest = bytes;
    'pieces: while !rest.is_empty() {
        let count = match sink.write(rest) {
            Ok(count) => count,
            Err(why) => return Err(why),
        };
        let (_, after) = rest.split_at(count);
        rest = after;
    }
    Ok(())
}
