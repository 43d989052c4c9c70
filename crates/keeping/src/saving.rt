// A state is on disk before an answer that speaks of it is printed; answers that come together share one write.
ghost use Rattle.std.specs.Prelude.{◌≡◌, OnOk};
ghost use Rattle.keeping.specs.Saving.{noted};

use crate::complaints::Told;
use crate::files::{NAME, Place};
use crate::guard;

// Notes what was saved last. The two have one length. They stay two slices: a struct that lent both would have each clause say that they are still the same two.
pub fn keep(state: &[u8], saved: &mut [u8])
    ensures { saved.new ≡ noted state.now saved.old }
{
    if state.len() <= saved.len() {
        octets::copy(saved, 0, state);
    }
}

// Fills the state from its file.
pub fn open(file: Place, state: &mut [u8]) -> Result<(), Told> {
    if file.is_link() {
        return Err(file.complain(b"this is a link; name the state file itself"));
    }
    if !file.load(state).map_err(|error| file.fail(error))? {
        return Err(file.complain(
            b"refused 16: the file cannot be read whole or has not the length of such a state; it is left alone",
        ));
    }
    file.sync_name()
}

// Puts the new state, which stands beside the old one, in its place.
fn put_in_place(file: Place, draft: Place) -> Result<(), Told> {
    draft
        .rename(file)
        .map_err(|error| file.fail_without(draft, error))?;
    file.sync_name().map_err(|_| {
        file.complain(b"the new state is in its place, but the folder could not be synced")
    })
}

// The file takes this state, in the place of what was saved last and of nothing else.
fn write(file: Place, state: &[u8], saved: &[u8]) -> Result<(), Told> {
    let mut space = [0u8; NAME];
    let draft = file.own_draft(&mut space);
    draft.make(state)?;
    if !guard::is_ours(file) || !file.holds(saved) {
        let told = file.complain(
            b"another program changed the state or took it, or it cannot be read; stopped, and nothing was written",
        );
        draft.remove();
        return Err(told);
    }
    put_in_place(file, draft)
}

// The state goes to disk if it changed.
fn save(file: Place, state: &[u8], saved: &mut [u8]) -> Result<(), Told>
    ensures { OnOk result (saved.new ≡ noted state.now saved.old) }
{
    if state == &*saved {
        return Ok(());
    }
    write(file, state, saved)?;
    keep(state, saved);
    Ok(())
}

// And then the answers are printed. Where they are, what is noted as saved is the state that they speak of.
pub fn settle(file: Place, state: &[u8], saved: &mut [u8], answers: &[u8]) -> Result<(), Told>
    ensures { OnOk result (saved.new ≡ noted state.now saved.old) }
{
    save(file, state, saved)?;
    file.rt.write_all(answers).map_err(|_| {
        file.complain(b"answers cannot be printed; the state has what they say")
    })
}
