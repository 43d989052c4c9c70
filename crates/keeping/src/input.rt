// Standard input, read behind what is held of it.
ghost use Rattle.std.specs.Prelude.{◌≡◌, ◌+◌, ◌≤◌, IfOk, length, take};
ghost use Rattle.text.specs.Arrivals.{waiting, Grows};

use crate::complaints::Told;
use crate::files::Place;
use crate::guard::pause;
use std::io;
use std::io::{Error, ErrorKind, Read};
use text::arrivals::Input;

// A read that failed may be tried again where it was interrupted, or where nothing has arrived yet.
fn forgive(rt: HostRuntime, error: Error) -> Result<(), Told> {
    match error.kind() {
        ErrorKind::Interrupted => Ok(()),
        ErrorKind::WouldBlock => {
            pause(rt);
            Ok(())
        }
        _ => Err(Place {
            rt,
            path: b"standard input",
        }
        .fail(error)),
    }
}

// The first bytes stay.
fn read_behind(rt: HostRuntime, buffer: &mut [u8], filled: usize) -> io::Result<usize>
    requires { filled ≤ length buffer.old }
    ensures kept { take filled buffer.new ≡ take filled buffer.old }
    ensures room { IfOk result (λ n. filled + n ≤ length buffer.new) }
{
    rt.stdin().read(&mut buffer[filled..])
}

// Reads once, and answers whether more may come. To a full buffer nothing can. The program's has room for sixteen of the longest
// lines, and holds less than one when it reads.
pub fn read_more(rt: HostRuntime, input: &mut Input) -> Result<bool, Told>
    ensures same_reference { input.new.buffer.ghost_name ≡ input.old.buffer.ghost_name }
    ensures room { length input.new.buffer.now ≡ length input.old.buffer.now }
    ensures grows { Grows (waiting input.old) (waiting input.new) }
{
    if input.filled >= input.buffer.len() {
        return Ok(false);
    }
    match read_behind(rt, input.buffer, input.filled) {
        Ok(n) => {
            input.filled += n;
            Ok(n > 0)
        }
        Err(error) => {
            forgive(rt, error)?;
            Ok(true)
        }
    }
}
