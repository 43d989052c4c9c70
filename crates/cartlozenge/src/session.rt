// Lines are read as they arrive, and answered.
ghost use Rattle.std.specs.Prelude.{◌≡◌, length};
ghost use Rattle.text.specs.Pages.{page};
ghost use Rattle.text.specs.Arrivals.{waiting, Grows};
ghost use Rattle.lines.specs.Calls.{desk};
ghost use Rattle.lines.specs.Serving.{turned};

use keeping::complaints::Told;
use keeping::files::Place;
use keeping::{guard, input, saving};
use lines::files::is_file;
use lines::serving;
use lines::serving::Role;
use text::arrivals::Input;
use text::page::Page;

// The input has ended.
fn finish(rt: HostRuntime, input: &Input) {
    let mut space = [0u8; serving::LONGEST];
    let mut page = Page::new(&mut space);
    serving::finish(input.buffer, input.held(), &mut page);
    let _ = rt.write_all(page.text());
}

// Answers whether there is another turn.
fn read_more(rt: HostRuntime, input: &mut Input) -> Result<bool, Told>
    ensures same_reference { input.new.buffer.ghost_name ≡ input.old.buffer.ghost_name }
    ensures room { length input.new.buffer.now ≡ length input.old.buffer.now }
    ensures grows { Grows (waiting input.old) (waiting input.new) }
{
    let is_open = input::read_more(rt, input)?;
    if !is_open {
        finish(rt, input);
    }
    Ok(is_open)
}

// A turn, and whether there is another. The state is that of the turn, and what is held is what it left, with what was read behind it.
// No struct holds the state, what was saved and the rest: a method would read one field behind `self` while it lends another, as in
// `saving::keep(self.state, self.saved)`, which the borrow checker does not cover.
fn go_on(
    role: Role,
    file: Place,
    state: &mut [u8],
    saved: &mut [u8],
    input: &mut Input,
    out: &mut [u8],
) -> Result<bool, Told>
    ensures same_reference { input.new.buffer.ghost_name ≡ input.old.buffer.ghost_name }
    ensures room { length input.new.buffer.now ≡ length input.old.buffer.now }
    ensures turned { (state.new ≡ (turned role (desk state.old (page out.old 0)) (waiting input.old)).desk.state) × Grows (turned role (desk state.old (page out.old 0)) (waiting input.old)).left (waiting input.new) }
{
    let mut answers = Page::new(out);
    let waits = serving::take_turn(role, state, input, &mut answers);
    saving::settle(file, state, saved, answers.text())?;
    if waits {
        return read_more(file.rt, input);
    }
    Ok(true)
}

// A proved loop has to end, and nothing says that the input does. So turns are counted, up to a number that no run comes to.
fn converse(role: Role, file: Place, state: &mut [u8], saved: &mut [u8]) -> Result<(), Told> {
    let mut space = [0u8; 65536];
    let mut input = Input::new(&mut space);
    let mut out = [0u8; 65536];
    for _ in 0..u64::MAX {
        if !go_on(role, file, state, saved, &mut input, &mut out)? {
            break;
        }
    }
    Ok(())
}

fn open(role: Role, file: Place, state: &mut [u8], saved: &mut [u8]) -> Result<(), Told> {
    saving::open(file, state)?;
    if !is_file(role, state) {
        return Err(file.complain(b"refused 16: the state is ill-formed; it is left alone"));
    }
    saving::keep(state, saved);
    Ok(())
}

fn serve(role: Role, file: Place, state: &mut [u8], saved: &mut [u8]) -> Result<(), Told> {
    open(role, file, state, saved)?;
    converse(role, file, state, saved)
}

// Serves the state in a file until the input ends.
pub(crate) fn run(role: Role, file: Place, state: &mut [u8], saved: &mut [u8]) -> Result<(), Told> {
    guard::take(file)?;
    let served = serve(role, file, state, saved);
    guard::give_back(file);
    served
}
