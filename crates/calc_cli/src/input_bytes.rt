ghost use Rattle.std.specs.Prelude.{◌≡◌, ◌≤◌, ◌<◌, ◌+◌, ◌^◌, ℕ, List, Some, take, drop, IfOk, OnOk, OnErr, IsTrue};
ghost use Rattle.std.specs.Io.{ReadsAtMost};
ghost use Rattle.std.specs.Io.KnownBytes.{Keeps, ReadConsumes};
ghost use Rattle.calc_io.specs.Faults.{HasFailed, Rose};
ghost use Rattle.calc_cli.specs.Inputs.{left_of, other};
ghost use Rattle.calc_cli.specs.Runs.{TakesAtMost};

use calc_io::{Desk, DeviceFault};
use std::alloc::Global;

/// One of the two inputs of a run.
#[derive(Clone, Copy, Debug, PartialEq, Eq)]
pub(crate) enum Input {
    BookInput,
    ScriptInput,
}

/// Reads an input to its end, or to one byte more than the limit. No more is taken of it in any case.
pub(crate) fn read_all<D: Desk>(
    alloc: Global,
    desk: &mut D,
    input: Input,
    limit: usize,
) -> Result<Vec<u8>, DeviceFault>
    requires { limit < 2 ^ 32 }
    ensures bytes { (all : List ℕ)
        → left_of input (D.book_left desk.old) (D.script_left desk.old) ≡ Some all
        → IfOk result (λ bytes. bytes.items ≡ take (limit + 1) all) }
    ensures left { (all : List ℕ)
        → left_of input (D.book_left desk.old) (D.script_left desk.old) ≡ Some all
        → OnOk result (left_of input (D.book_left desk.new) (D.script_left desk.new)
        ≡ Some (drop (limit + 1) all)) }
    ensures within { (all : List ℕ)
        → left_of input (D.book_left desk.old) (D.script_left desk.old) ≡ Some all
        → TakesAtMost (limit + 1) all
        (left_of input (D.book_left desk.new) (D.script_left desk.new)) }
    ensures other { Keeps (left_of (other input) (D.book_left desk.old) (D.script_left desk.old))
        (left_of (other input) (D.book_left desk.new) (D.script_left desk.new)) }

    ensures later { D.faults desk.old ≤ D.faults desk.new }
    ensures cause { HasFailed result → Rose (D.faults desk.old) (D.faults desk.new) }
    ensures no_fault { IsTrue (D.calm desk.old) → D.faults desk.new ≡ D.faults desk.old }
    ensures same_calm { D.calm desk.new ≡ D.calm desk.old }
{
    let mut bytes = Vec::new(alloc);
    let mut buf = [0u8; 4096];
    'pieces: while bytes.len() <= limit {
        let room = buf.len().min(limit + 1 - bytes.len());
        bytes.try_reserve(room).map_err(DeviceFault::NoMemory)?;
        let count = read_some(desk, input, &mut buf[..room])?;
        if count == 0 {
            return Ok(bytes);
        }
        bytes.extend_from_slice(&buf[..count]).unwrap();
    }
    Ok(bytes)
}

/// One read of an input.
fn read_some<D: Desk>(desk: &mut D, input: Input, buf: &mut [u8]) -> Result<usize, DeviceFault>
    ensures bound { ReadsAtMost result buf.new }
    ensures bytes { ReadConsumes (left_of input (D.book_left desk.old) (D.script_left desk.old))
        (left_of input (D.book_left desk.new) (D.script_left desk.new)) result buf.new }
    ensures other { Keeps (left_of (other input) (D.book_left desk.old) (D.script_left desk.old))
        (left_of (other input) (D.book_left desk.new) (D.script_left desk.new)) }

    ensures later { D.faults desk.old ≤ D.faults desk.new }
    ensures cause { OnErr result (Rose (D.faults desk.old) (D.faults desk.new)) }
    ensures no_fault { IsTrue (D.calm desk.old) → D.faults desk.new ≡ D.faults desk.old }
    ensures same_calm { D.calm desk.new ≡ D.calm desk.old }
{
    let read = match input {
        Input::BookInput => desk.read_book(buf),
        Input::ScriptInput => desk.read_script(buf),
    };
    match read {
        Ok(count) => Ok(count),
        Err(failed) => Err(DeviceFault::Failed(failed)),
    }
}
