ghost use Rattle.std.specs.Prelude.{◌≡◌, ◌≤◌, length, OnOk, IfOk, OnErr};
ghost use Rattle.std.specs.Io.KnownBytes.{Appends};
ghost use Rattle.byte_cuts.specs.Lines.{lines_of};
ghost use Rattle.calc_io.specs.Faults.{HasFailed, Rose};
ghost use Rattle.calc_io.specs.Sink.{HasRoom, RoomFalls};
ghost use Rattle.formula_reader.specs.Fields.{field_of};
ghost use Rattle.calc_script.specs.Commands.{line_of};
ghost use Rattle.calc_cli.specs.Output.{answer, has_refusal, output};
ghost use Rattle.calc_cli.specs.Runs.{GrowsWithin};
ghost use Rattle.calc_cli.specs.Sessions.{Replies, session_of};

use crate::limits::MOST_SCRIPT_BYTES;
use crate::replies::{Reply, answer_line};
use crate::session::Session;
use crate::written::write_all;
use calc_addr::NoMemory;
use calc_io::{DeviceFault, Sink};
use calc_script::{lines, read_line};
use calc_watch::Watcher;
use std::alloc::Global;

/// Writes what the lines of a script write, one after the other, and answers whether one is refused.
pub(crate) fn write_output<K: Sink, W: Watcher>(
    alloc: Global,
    session: &mut Session<W>,
    script: &[u8],
    sink: &mut K,
) -> Result<bool, DeviceFault>
    requires { length script.now ≤ MOST_SCRIPT_BYTES }
    ensures ok { OnOk result (Appends (K.written sink.old) (K.written sink.new)
        (output field_of (session_of session.old) 1 (lines_of script.now))) }
    ensures refused { IfOk result (λ refused. refused
        ≡ has_refusal field_of (session_of session.old) 1 (lines_of script.now)) }
    ensures err { OnErr result (GrowsWithin (K.written sink.old) (K.written sink.new)
        (output field_of (session_of session.old) 1 (lines_of script.now))) }

    ensures later { K.faults sink.old ≤ K.faults sink.new }
    ensures cause { HasFailed result → Rose (K.faults sink.old) (K.faults sink.new) }

    ensures fits { HasRoom (K.room sink.old)
        (length (output field_of (session_of session.old) 1 (lines_of script.now)))
        → HasFailed result → ⊥ }
    ensures no_fault { HasRoom (K.room sink.old)
        (length (output field_of (session_of session.old) 1 (lines_of script.now)))
        → K.faults sink.new ≡ K.faults sink.old }
{
    let mut refused = false;
    let mut number = 1;
    for line in lines(script) {
        refused |= write_line(alloc, session, number, line, sink)?;
        number += 1;
    }
    Ok(refused)
}

/// Does what a line says and writes what it writes. Answers whether it is refused.
fn write_line<K: Sink, W: Watcher>(
    alloc: Global,
    session: &mut Session<W>,
    number: usize,
    line: &[u8],
    sink: &mut K,
) -> Result<bool, DeviceFault>
    ensures ok { OnOk result (Appends (K.written sink.old) (K.written sink.new)
        (answer (session_of session.old) number (line_of field_of line.now)).text) }
    ensures refused { IfOk result (λ refused. refused
        ≡ (answer (session_of session.old) number (line_of field_of line.now)).refused) }
    ensures session { OnOk result (session_of session.new
        ≡ (answer (session_of session.old) number (line_of field_of line.now)).session) }
    ensures err { OnErr result (GrowsWithin (K.written sink.old) (K.written sink.new)
        (answer (session_of session.old) number (line_of field_of line.now)).text) }

    ensures later { K.faults sink.old ≤ K.faults sink.new }
    ensures cause { HasFailed result → Rose (K.faults sink.old) (K.faults sink.new) }

    ensures room { OnOk result (RoomFalls (K.room sink.old) (K.room sink.new)
        (length (answer (session_of session.old) number (line_of field_of line.now)).text)) }
    ensures fits { HasRoom (K.room sink.old)
        (length (answer (session_of session.old) number (line_of field_of line.now)).text)
        → HasFailed result → ⊥ }
    ensures no_fault { HasRoom (K.room sink.old)
        (length (answer (session_of session.old) number (line_of field_of line.now)).text)
        → K.faults sink.new ≡ K.faults sink.old }
{
    match reply_to(alloc, session, number, line) {
        Ok(reply) => write_reply(sink, &reply),
        Err(refused) => Err(DeviceFault::NoMemory(refused)),
    }
}

/// Does what a line says.
fn reply_to<W: Watcher>(
    alloc: Global,
    session: &mut Session<W>,
    number: usize,
    line: &[u8],
) -> Result<Reply, NoMemory>
    ensures { Replies result (session_of session.new)
        (answer (session_of session.old) number (line_of field_of line.now)) }
{
    let line = read_line(alloc, line)?;
    answer_line(alloc, session, number, &line)
}

/// Writes what a line writes, and answers whether the line is refused.
fn write_reply<K: Sink>(sink: &mut K, reply: &Reply) -> Result<bool, DeviceFault>
    ensures ok { OnOk result (Appends (K.written sink.old) (K.written sink.new)
        reply.now.text.items) }
    ensures refused { IfOk result (λ refused. refused ≡ reply.now.refused) }
    ensures err { OnErr result (GrowsWithin (K.written sink.old) (K.written sink.new)
        reply.now.text.items) }

    ensures later { K.faults sink.old ≤ K.faults sink.new }
    ensures cause { HasFailed result → Rose (K.faults sink.old) (K.faults sink.new) }

    ensures room { OnOk result (RoomFalls (K.room sink.old) (K.room sink.new)
        (length reply.now.text.items)) }
    ensures fits { HasRoom (K.room sink.old) (length reply.now.text.items)
        → HasFailed result → ⊥ }
    ensures no_fault { HasRoom (K.room sink.old) (length reply.now.text.items)
        → K.faults sink.new ≡ K.faults sink.old }
{
    match write_all(sink, &reply.text) {
        Ok(()) => Ok(reply.refused),
        Err(failed) => Err(DeviceFault::Failed(failed)),
    }
}
