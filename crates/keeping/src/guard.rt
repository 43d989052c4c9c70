// One program at a time over a state: beside it a lock file says which process has it. A lock that is left over from a process
// that was killed, or from before the machine was started, is inherited by one program.
use crate::complaints::{Told, tell};
use crate::files::{DIGITS, NAME, Place, own_digits, text_of};
use std::io::{ErrorKind, Write};
use std::rt::Clock;
use std::time::Duration;
use std::{io, thread};
use text::page::Page;
use text::words;

// Room for what a lock says, and for the text of a start of the machine.
const MARK: usize = 128;

const START: usize = 64;

// No process has a higher number.
const LAST_PROCESS: u64 = 2147483647;

// A text that is another after each start of the machine; none where it cannot be read.
fn start_text(rt: HostRuntime, space: &mut [u8]) -> &[u8] {
    let place = Place {
        rt,
        path: b"/proc/sys/kernel/random/boot_id",
    };
    place.read(space).unwrap_or(b"")
}

// Whether a mark is of this start of the machine, as far as one can tell.
fn is_of_this_start(rt: HostRuntime, mark: &[u8]) -> bool {
    let mut space = [0u8; START];
    let start = words::word(start_text(rt, &mut space), 0);
    let marked = words::word(mark, 1);
    start.is_empty() || marked.is_empty() || marked == start
}

// Whether the system shows a process. One that it does not show may run all the same, unless it shows the first, which always runs, and our own.
fn is_shown(rt: HostRuntime, number: u64) -> bool {
    let mut space = [0u8; 32];
    let mut name = Page::new(&mut space);
    name.say_numbered(b"/proc/", number);
    let place = Place {
        rt,
        path: name.text(),
    };
    !place
        .look()
        .is_err_and(|error| error.kind() == ErrorKind::NotFound)
}

// Whether what the system shows are the processes that this one lives among: its own number stands there.
fn is_own_proc(rt: HostRuntime) -> bool {
    let mut digits = [0u8; DIGITS];
    let own = own_digits(rt, &mut digits);
    let place = Place {
        rt,
        path: b"/proc/self/stat",
    };
    let mut space = [0u8; MARK];
    place
        .read(&mut space)
        .is_ok_and(|shown| words::word(shown, 0) == own)
}

// To the system 0 is who asks.
fn runs(rt: HostRuntime, digits: &[u8]) -> bool {
    let Some(number) = words::decimal(digits) else {
        return false;
    };
    if number > LAST_PROCESS {
        return false;
    }
    number == 0 || is_shown(rt, number) || !is_shown(rt, 1) || !is_own_proc(rt)
}

// Whether the process that left a mark still runs.
fn is_held(rt: HostRuntime, mark: &[u8]) -> bool {
    is_of_this_start(rt, mark) && runs(rt, words::word(mark, 0))
}

// What this process writes into a lock: its number, and the text of this start of the machine.
fn own_mark(rt: HostRuntime, space: &mut [u8]) -> &[u8] {
    let mut mark = Page::new(space);
    mark.say(own_digits(rt, &mut [0u8; DIGITS]));
    mark.say(b" ");
    mark.say(start_text(rt, &mut [0u8; START]));
    text_of(mark)
}

fn seconds(rt: HostRuntime) -> u64 {
    rt.since_1970().map_or(0, |time| time.as_secs())
}

// Lets others go on before one looks again.
pub(crate) fn pause(rt: HostRuntime) {
    thread::sleep(&rt, Duration::from_millis(1));
}

// Takes away what a process that runs no more may have left half-written. Not inlined, as the functions that make the name of an heir's file.
#[inline(never)]
fn clear(state: Place, digits: &[u8]) {
    if words::decimal(digits).is_some() {
        state.draft(digits, &mut [0u8; NAME]).remove();
    }
}

fn clear_own(state: Place) {
    clear(state, own_digits(state.rt, &mut [0u8; DIGITS]));
}

// A lock file, or an heir's claim to one.
impl Place<'_> {
    // Whether it is there and says this.
    fn says(self, mark: &[u8]) -> bool {
        self.read(&mut [0u8; MARK]).is_ok_and(|text| text == mark)
    }

    fn is_own(self) -> bool {
        self.says(own_mark(self.rt, &mut [0u8; MARK]))
    }

    fn is_empty(self) -> bool {
        self.read(&mut [0u8; 1]).is_ok_and(|text| text.is_empty())
    }

    // Makes a lock file with our mark, where there is none, and answers whether it is ours. One with our very mark was left by a
    // process that had our number before us.
    fn claim(self) -> Result<bool, Told> {
        match self.create() {
            Ok(mut file) => {
                file.write_all(own_mark(self.rt, &mut [0u8; MARK]))
                    .map_err(|error| self.fail_without(self, error))?;
                Ok(true)
            }
            Err(error) if error.kind() == ErrorKind::AlreadyExists => Ok(self.is_own()),
            // Told before it is handed on.
            Err(error) => Err(self.fail(error)),
        }
    }

    // The maker of a lock writes into it at once, so that an empty one is given until the second new second begins.
    fn await_text(self) {
        let mut last = seconds(self.rt);
        let mut has_begun = false;
        for _ in 0..u64::MAX {
            if !self.is_empty() {
                return;
            }
            let now = seconds(self.rt);
            if now != last {
                if has_begun {
                    return;
                }
                has_begun = true;
                last = now;
            }
            pause(self.rt);
        }
    }
}

// A state, and the lock file beside it.
#[derive(Clone, Copy)]
struct Guard<'a> {
    state: Place<'a>,
    lock: Place<'a>,
}

impl Guard<'_> {
    fn refuse(self, mark: &[u8]) -> Told {
        tell(
            self.state.rt,
            &[
                b"cartlozenge: ",
                self.state.path,
                b": in use by process ",
                words::word(mark, 0),
                b"; if that is no cartlozenge, remove ",
                self.lock.path,
                b"\n",
            ],
        )
    }

    // A process that was very late may have lost its claim by the time that it is made.
    fn check_kept(self) -> Result<(), Told> {
        if !self.lock.is_own() {
            return Err(self.state.complain(b"another program took the lock"));
        }
        Ok(())
    }

    fn lose_race(self) -> Told {
        self.state
            .complain(b"another program is just taking it over")
    }

    // Where an heir makes its claim. There can be one such file only, and so one heir; the next depth is for the heir of one that was
    // killed before it had the lock.
    fn heir<'b>(self, depth: u64, space: &'b mut [u8]) -> Place<'b> {
        let mut name = Page::new(space);
        name.say(self.state.path);
        name.say_numbered(b".heir", depth);
        Place {
            rt: self.state.rt,
            path: text_of(name),
        }
    }

    // Puts an heir's claim in the place of the lock, unless the lock says by now what it did not say before.
    fn succeed(self, seen: &[u8], heir: Place) -> Result<(), Told> {
        if !self.lock.says(seen) {
            let told = self.lose_race();
            heir.remove();
            return Err(told);
        }
        heir.rename(self.lock)
            .map_err(|error| self.lock.fail_without(heir, error))?;
        self.check_kept()
    }

    // Takes over from the process that left a mark, if that runs no more and nobody else is its heir, and answers whether it did. The name of
    // an heir's file is made in functions that are not inlined: else it would stand on the stack at each depth.
    #[inline(never)]
    fn claim_after(self, seen: &[u8], mark: &[u8], depth: u64) -> Result<bool, Told> {
        if is_held(self.state.rt, mark) {
            return Err(self.refuse(mark));
        }
        clear(self.state, words::word(mark, 0));
        let mut space = [0u8; NAME];
        let heir = self.heir(depth, &mut space);
        if !heir.claim()? {
            return Ok(false);
        }
        self.succeed(seen, heir)?;
        Ok(true)
    }

    // What an heir's claim says.
    #[inline(never)]
    fn heir_mark<'b>(self, depth: u64, text: &'b mut [u8]) -> io::Result<&'b [u8]> {
        let mut space = [0u8; NAME];
        let heir = self.heir(depth, &mut space);
        heir.await_text();
        heir.read(text)
    }

    #[inline(never)]
    fn drop_heir(self, depth: u64) {
        self.heir(depth, &mut [0u8; NAME]).remove();
    }

    // Takes over from the process that left a mark. `seen` is what the lock itself says. Where the claim of another heir is in the way, that
    // one's heir goes on, if it was killed before it had the lock.
    fn inherit(self, seen: &[u8], mark: &[u8], depth: u64) -> Result<(), Told> {
        if self.claim_after(seen, mark, depth)? {
            return Ok(());
        }
        if depth >= 8 {
            return Err(
                self.lock.complain(
                    b"too many locks are left over; remove it and the files .heir beside it",
                ),
            );
        }
        let mut text = [0u8; MARK];
        let Ok(next) = self.heir_mark(depth, &mut text) else {
            return Err(self.lose_race());
        };
        self.inherit(seen, next, depth + 1)?;
        self.drop_heir(depth);
        Ok(())
    }

    // Whether the lock is ours. If not, it has gone between two looks.
    fn attempt(self) -> Result<bool, Told> {
        if self.lock.claim()? {
            self.check_kept()?;
            return Ok(true);
        }
        self.lock.await_text();
        match self.lock.read(&mut [0u8; MARK]) {
            Ok(seen) => {
                self.inherit(seen, seen, 1)?;
                Ok(true)
            }
            Err(error) if error.kind() == ErrorKind::NotFound => Ok(false),
            // Told, too.
            Err(error) => Err(self.lock.fail(error)),
        }
    }
}

// Takes the state for this process, or says which process has it. Where a lock has gone between two looks, it is tried once more.
pub fn take(state: Place) -> Result<(), Told> {
    clear_own(state);
    let mut space = [0u8; NAME];
    let guard = Guard {
        state,
        lock: state.beside(b".lock", &mut space),
    };
    if guard.attempt()? || guard.attempt()? {
        return Ok(());
    }
    Err(state.complain(b"another program is just starting on it"))
}

// Whether the state is still ours. The lock's name is made in a space of each function's own.
pub(crate) fn is_ours(state: Place) -> bool {
    state.beside(b".lock", &mut [0u8; NAME]).is_own()
}

pub fn give_back(state: Place) {
    if is_ours(state) {
        state.beside(b".lock", &mut [0u8; NAME]).remove();
    }
}
