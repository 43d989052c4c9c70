// A message written or shown by hand: the program's arguments are the line.
use crate::arguments;
use std::rt::Env;
use text::page::{Page, up_to};

// A word has room for the longest that the system takes: there is no heap. Not inlined: it would stand on the stack while the line is answered.
#[inline(never)]
fn join_argument(rt: HostRuntime, i: usize, line: &mut Page) {
    let mut word = [0u8; 65536];
    match rt.arg(i, &mut word) {
        Ok(n) => {
            line.say(up_to(&word, n));
            line.say(b" ");
        }
        // One that is longer than any line: its first bytes make the line too long.
        Err(_) => line.say(&word),
    }
}

// All arguments as one line, a blank behind each.
fn join_arguments(rt: HostRuntime, line: &mut Page) {
    for i in 1..arguments::count(rt) {
        join_argument(rt, i, line);
    }
}

// Not inlined: its two pages would stand on the stack of every other command too.
#[inline(never)]
pub fn draft(rt: HostRuntime) {
    let mut words = [0u8; 65536];
    let mut line = Page::new(&mut words);
    join_arguments(rt, &mut line);
    let mut space = [0u8; 65536];
    let mut page = Page::new(&mut space);
    drafts::draft_line(line.text(), &mut page);
    page.say(b"\n");
    let _ = rt.write_all(page.text());
}
