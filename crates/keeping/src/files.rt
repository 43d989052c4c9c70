// State files. A new state is written beside the old one and synced, then renamed to its place, and then the folder is synced.
use crate::complaints::Told;
use std::fs::{File, OpenOptions};
use std::io::{Error, Read, Write};
use std::{fs, io, process, str};
use text::page::{Page, up_to};

// The longest path that the system takes, and its numbers for one that is longer and for one that is no text.
const LONGEST_PATH: usize = 4095;

const TOO_LONG: i32 = 36;

const NO_TEXT: i32 = 84;

// Room for the name of a file beside a state.
pub(crate) const NAME: usize = 4096;

// Room for the number of a process.
pub(crate) const DIGITS: usize = 32;

// A path of the system.
#[derive(Clone, Copy)]
pub struct Place<'a> {
    pub rt: HostRuntime,
    pub path: &'a [u8],
}

// Fills out from a file, as far as that goes: only a read says how far the next one starts. One that fails ends a file as its end does.
fn read_full(file: &mut File, out: &mut [u8]) -> usize {
    let mut done = 0;
    while done < out.len() {
        let n = file.read(&mut out[done..]).unwrap_or(0);
        if n == 0 {
            break;
        }
        done += n;
    }
    done
}

fn write_synced(file: &mut File, bytes: &[u8]) -> io::Result<()> {
    file.write_all(bytes)?;
    file.sync_all()
}

// What stands on a page, for as long as its bytes are lent.
pub(crate) fn text_of(page: Page<'_>) -> &[u8] {
    let Page { bytes, length } = page;
    up_to(bytes, length)
}

// The number of this process, in digits.
pub(crate) fn own_digits(rt: HostRuntime, space: &mut [u8]) -> &[u8] {
    let mut digits = Page::new(space);
    digits.say_decimal(u64::from(process::id(rt.process())));
    text_of(digits)
}

impl<'a> Place<'a> {
    // As the library takes it.
    fn text(self) -> io::Result<&'a str> {
        if self.path.len() > LONGEST_PATH {
            return Err(Error::from_raw_os_error(TOO_LONG));
        }
        str::from_utf8(self.path).map_err(|_| Error::from_raw_os_error(NO_TEXT))
    }

    // A function for each of the library's calls on a path.
    pub(crate) fn open(self) -> io::Result<File> {
        File::open(&self.rt, self.text()?)
    }

    // Makes a file where there is none.
    pub(crate) fn create(self) -> io::Result<File> {
        OpenOptions::new()
            .write(true)
            .create_new(true)
            .open(&self.rt, self.text()?)
    }

    pub(crate) fn rename(self, to: Place) -> io::Result<()> {
        fs::rename(&self.rt, self.text()?, to.text()?)
    }

    fn unlink(self) -> io::Result<()> {
        fs::remove_file(&self.rt, self.text()?)
    }

    // Takes a file away, if it is there and that is allowed.
    pub(crate) fn remove(self) {
        let _ = self.unlink();
    }

    // Whether there is anything.
    pub(crate) fn look(self) -> io::Result<()> {
        fs::metadata(&self.rt, self.text()?)?;
        Ok(())
    }

    // Whether a path is a link: a new state would take the place of the link, and not of what it leads to.
    pub(crate) fn is_link(self) -> bool {
        self.text()
            .and_then(|path| fs::symlink_metadata(&self.rt, path))
            .is_ok_and(|found| found.is_symlink())
    }

    // What a small file says.
    pub(crate) fn read<'b>(self, space: &'b mut [u8]) -> io::Result<&'b [u8]> {
        let mut file = self.open()?;
        let n = read_full(&mut file, space);
        Ok(up_to(space, n))
    }

    // Fills the state from the file, and answers whether that has just as many bytes. A run that was killed may have renamed it and
    // not synced yet, and what is answered from it must last.
    pub(crate) fn load(self, state: &mut [u8]) -> io::Result<bool> {
        let mut file = self.open()?;
        let got = read_full(&mut file, state);
        let more = read_full(&mut file, &mut [0u8; 1]);
        file.sync_all()?;
        Ok(got == state.len() && more == 0)
    }

    // Whether the file holds these very bytes.
    pub(crate) fn holds(self, bytes: &[u8]) -> bool {
        let mut space = [0u8; 65536];
        self.read(&mut space).is_ok_and(|held| held == bytes)
    }

    // Tells why a file has not come to its place, or could not be written, and takes that file away.
    pub(crate) fn fail_without(self, file: Place, error: Error) -> Told {
        let told = self.fail(error);
        file.remove();
        told
    }

    // Makes a file of these bytes and waits until they are on their device.
    pub fn make(self, bytes: &[u8]) -> Result<(), Told> {
        let mut file = self.create().map_err(|error| self.fail(error))?;
        write_synced(&mut file, bytes).map_err(|error| self.fail_without(self, error))
    }

    fn sync(self) -> io::Result<()> {
        self.open()?.sync_all()
    }

    // The folder of a path: all up to its last slash.
    fn folder(self) -> Place<'a> {
        let path = match self.path.iter().rposition(|byte| *byte == b'/') {
            Some(slash) => &self.path[..=slash],
            None => b".",
        };
        Place { path, ..self }
    }

    // Waits until the names in a path's folder are on their device.
    pub fn sync_name(self) -> Result<(), Told> {
        let folder = self.folder();
        folder.sync().map_err(|error| folder.fail(error))
    }

    // What stands beside a path: that path and an ending. Each kind of name is made of parts of its own.
    pub(crate) fn beside<'b>(self, ending: &[u8], space: &'b mut [u8]) -> Place<'b> {
        let mut name = Page::new(space);
        name.say(self.path);
        name.say(ending);
        Place {
            rt: self.rt,
            path: text_of(name),
        }
    }

    // The state that a process writes beside the one that the file holds: PATH.DIGITS.new.
    pub(crate) fn draft<'b>(self, digits: &[u8], space: &'b mut [u8]) -> Place<'b> {
        let mut name = Page::new(space);
        name.say(self.path);
        name.say(b".");
        name.say(digits);
        name.say(b".new");
        Place {
            rt: self.rt,
            path: text_of(name),
        }
    }

    pub(crate) fn own_draft<'b>(self, space: &'b mut [u8]) -> Place<'b> {
        self.draft(own_digits(self.rt, &mut [0u8; DIGITS]), space)
    }
}
