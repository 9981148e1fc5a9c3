ghost use Rattle.std.specs.Prelude.{◌≡◌, ◌≤◌, length, OnOk, OnErr, IsOk};
ghost use Rattle.std.specs.Io.KnownBytes.{Appends};
ghost use Rattle.calc_io.specs.Faults.{Rose};
ghost use Rattle.calc_io.specs.Sink.{HasRoom, RoomFalls};
ghost use Rattle.calc_cli.specs.Runs.{GrowsWithin};

use calc_io::{Failed, Sink};

/// Writes all of the bytes, in as many pieces as the sink takes.
pub(crate) fn write_all<K: Sink>(sink: &mut K, bytes: &[u8]) -> Result<(), Failed>
    ensures ok { OnOk result (Appends (K.written sink.old) (K.written sink.new) bytes.now) }
    ensures err { OnErr result (GrowsWithin (K.written sink.old) (K.written sink.new) bytes.now) }

    ensures later { K.faults sink.old ≤ K.faults sink.new }
    ensures cause { OnErr result (Rose (K.faults sink.old) (K.faults sink.new)) }

    ensures room { OnOk result (RoomFalls (K.room sink.old) (K.room sink.new) (length bytes.now)) }
    ensures fits { HasRoom (K.room sink.old) (length bytes.now) → IsOk result }
    ensures no_fault { HasRoom (K.room sink.old) (length bytes.now)
        → K.faults sink.new ≡ K.faults sink.old }
{
    let mut written = 0;
    while written < bytes.len() {
        written += sink.write(&bytes[written..])?;
    }
    Ok(())
}
