// Cartlozenge: a settlement machine or the purchase ledger over a state file, and messages written and shown by hand.
#![tactic(auto)]

ghost use Rattle.std.specs.Prelude.{◌<◌, ◌^◌};

mod session;

use commands::usage::usage;
use commands::{arguments, drafting, fresh};
use keeping::complaints::Told;
use keeping::files::Place;
use lines::serving::Role;

fn serve<const LENGTH: usize>(role: Role, file: Place) -> Result<(), Told>
    requires { LENGTH < 2 ^ 63 }
{
    let mut state = [0u8; LENGTH];
    let mut saved = [0u8; LENGTH];
    session::run(role, file, &mut state, &mut saved)
}

// `cartlozenge COMMAND STATE`.
fn serve_named(rt: HostRuntime, command: &[u8]) -> Result<(), Told> {
    let mut space = [0u8; 4096];
    let path = arguments::read(rt, 2, &mut space);
    let file = Place { rt, path };
    match (command, arguments::count(rt), path.is_empty()) {
        (b"machine", 3, false) => serve::<{ records::state::LENGTH }>(Role::Machine, file),
        (b"ledger", 3, false) => serve::<{ ledger::state::LENGTH }>(Role::Ledger, file),
        _ => {
            usage(rt);
            Ok(())
        }
    }
}

fn start(rt: HostRuntime) -> Result<(), Told> {
    let mut space = [0u8; 16];
    match arguments::read(rt, 1, &mut space) {
        b"write" | b"read" => {
            drafting::draft(rt);
            Ok(())
        }
        b"fresh" => {
            fresh::make(rt);
            Ok(())
        }
        command => serve_named(rt, command),
    }
}

// The program has no exit status of its own: what went wrong was told.
fn main(rt: HostRuntime) {
    let _ = start(rt);
}
