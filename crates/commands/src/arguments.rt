// The words that the program was started with; 0 is its own name.
ghost use Rattle.std.specs.Prelude.{◌≤◌, length};

use std::env::FillError;
use std::rt::Env;
use text::page::up_to;

fn is_there(rt: HostRuntime, i: usize) -> bool {
    !matches!(rt.arg(i, &mut [0u8; 1]), Err(FillError::NotPresent))
}

pub fn count(rt: HostRuntime) -> usize {
    (0..usize::MAX)
        .find(|i| !is_there(rt, *i))
        .unwrap_or(usize::MAX)
}

// A word, in the space that it is put into. One that is not there or has no room is as one of no bytes.
pub fn read(rt: HostRuntime, i: usize, space: &mut [u8]) -> &[u8]
    ensures { length result.now ≤ length space.old }
{
    let n = rt.arg(i, space).unwrap_or(0);
    up_to(space, n)
}
