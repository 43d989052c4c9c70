// A new state file. One that is there is never overwritten.
ghost use Rattle.std.specs.Prelude.{◌<◌, ◌^◌};

use crate::arguments;
use crate::usage::usage;
use keeping::complaints::Told;
use keeping::files::Place;
use refusals::refused;
use states::committee::Committee;
use text::page::Page;
use text::words;
use wire::answers::Refusal;
use wire::kinds::Machine;

// A word that is no number is as one that no committee and no machine has.
fn number_at(rt: HostRuntime, i: usize) -> u64 {
    words::number(arguments::read(rt, i, &mut [0u8; 32]))
}

fn print_refused(rt: HostRuntime, refusal: Refusal) {
    let mut space = [0u8; 256];
    let mut page = Page::new(&mut space);
    refused(&mut page, refusal);
    page.say(b"\n");
    let _ = rt.write_all(page.text());
}

fn keep(place: Place, state: &[u8]) -> Result<(), Told> {
    place.make(state)?;
    place.sync_name()?;
    let _ = place.rt.write_all(b"made ");
    let _ = place.rt.write_all(place.path);
    let _ = place.rt.write_all(b"\n");
    Ok(())
}

// Makes a state as `fill` does, and keeps it in the file that the argument i names.
fn make_state<const LENGTH: usize, Fill: FnOnce(&mut [u8]) -> Result<(), Refusal>>(
    rt: HostRuntime,
    i: usize,
    fill: Fill,
) -> Result<(), Told>
    requires fits { LENGTH < 2 ^ 63 }
    requires callable { Fill.IsAlwaysCallable fill }
{
    let mut state = [0u8; LENGTH];
    if let Err(refusal) = fill(&mut state) {
        print_refused(rt, refusal);
        return Ok(());
    }
    let mut space = [0u8; 4096];
    let path = arguments::read(rt, i, &mut space);
    keep(Place { rt, path }, &state)
}

fn make_or_tell(rt: HostRuntime) -> Result<(), Told> {
    let mut space = [0u8; 16];
    match (arguments::read(rt, 2, &mut space), arguments::count(rt)) {
        (b"machine", 6) => make_state::<{ records::state::LENGTH }, _>(rt, 5, |state| {
            let own = Machine(number_at(rt, 4));
            machine::make_fresh(state, Committee::of(number_at(rt, 3)), own)
        }),
        (b"ledger", 5) => make_state::<{ ledger::state::LENGTH }, _>(rt, 4, |state| {
            ledger::make_fresh(state, Committee::of(number_at(rt, 3)))
        }),
        _ => {
            usage(rt);
            Ok(())
        }
    }
}

// Its callers have no more to do: what went wrong was told.
pub fn make(rt: HostRuntime) {
    let _ = make_or_tell(rt);
}
