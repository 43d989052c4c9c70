// What goes wrong with files is told on standard error. The program has no exit status of its own.
use crate::files::Place;
use std::fmt;
use std::fmt::Write;
use std::io::Error;
use text::page::Page;

// What went wrong was told on standard error.
#[derive(Clone, Copy, Debug)]
pub struct Told;

// Where this cannot be written, nobody is left to be told so.
pub(crate) fn tell(rt: HostRuntime, parts: &[&[u8]]) -> Told {
    for part in parts {
        let _ = rt.stderr().write_all(part);
    }
    Told
}

// What an error says of itself. Longer words are cut off.
#[derive(Drop)]
struct Words<'a> {
    page: Page<'a>,
}

impl Write for Words<'_> {
    fn write_str(&mut self, text: &str) -> fmt::Result {
        self.page.say(text.as_bytes());
        Ok(())
    }
}

// The words without the number of the system's error behind them, as in `File exists (os error 17)`.
fn without_number(words: &[u8]) -> &[u8] {
    match words.iter().rposition(|byte| *byte == b'(') {
        Some(bracket) => &words[..bracket.saturating_sub(1)],
        None => words,
    }
}

impl Place<'_> {
    pub fn complain(self, why: &[u8]) -> Told {
        tell(self.rt, &[b"cartlozenge: ", self.path, b": ", why, b"\n"])
    }

    // With the system's own word for it.
    pub(crate) fn fail(self, error: Error) -> Told {
        let mut space = [0u8; 256];
        let mut words = Words {
            page: Page::new(&mut space),
        };
        let _ = write!(words, "{error}");
        self.complain(without_number(words.page.text()))
    }
}
