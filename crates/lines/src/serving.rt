// Lines that arrive together: each is answered in its turn.
ghost use Rattle.std.specs.Prelude.{◌≡◌, ◌≤◌, length, ◌++◌};
ghost use Rattle.text.specs.Ascii.{ascii};
ghost use Rattle.text.specs.Pages.{Says};
ghost use Rattle.text.specs.Arrivals.{waiting, held_in};
ghost use Rattle.refusals.specs.Refusals.{fault_text};
ghost use Rattle.lines.specs.Calls.{lent, desk, Replies};
ghost use Rattle.lines.specs.Serving as serving;
ghost use Rattle.lines.specs.Serving.{OnDesk};

use crate::calls;
use refusals::{Fault, unread};
use text::arrivals::{Held, Input, Next};
use text::page::{Page, up_to};
use text::words;

// Who answers: the definition `reply_of` names the two. It goes beside the state, as a page and a line do in `calls`: a struct that lent both would have each clause say that they are still the same two.
#[derive(Clone, Copy)]
pub enum Role {
    Machine,
    Ledger,
}

// No answer is longer.
pub const LONGEST: usize = 256;

fn reply(role: Role, state: &mut [u8], line: &[u8], page: &mut Page)
    ensures { Replies state.new page.old page.new (serving.reply_of role state.old line.now) }
{
    match role {
        Role::Machine => calls::machine_line(state, line, page),
        Role::Ledger => calls::ledger_line(state, line, page),
    }
}

fn answer(role: Role, state: &mut [u8], line: &[u8], page: &mut Page)
    ensures { OnDesk state.new page.old page.new (serving.answered role (desk state.old (lent page.old)) line.now) }
{
    reply(role, state, line, page);
    page.say(b"\n");
}

fn has_room(page: &Page) -> bool
    ensures { result ≡ serving.has_room (lent page.now) }
{
    LONGEST <= page.bytes.len() && page.length <= page.bytes.len() - LONGEST
}

// Answers the lines of the input as long as there is a whole one, and room on the page; and answers how much of the input it took.
pub fn serve(role: Role, state: &mut [u8], input: &[u8], page: &mut Page) -> usize
    ensures served { (page.new.bytes.ghost_name ≡ page.old.bytes.ghost_name) × (serving.at_desk result (desk state.new (lent page.new)) ≡ serving.served role input.now (desk state.old (lent page.old))) × (result ≤ length input.now) }
    ensures room { length page.new.bytes.now ≡ length page.old.bytes.now }
{
    // A `while`: how far a line goes is known once it was looked at.
    let mut from = 0;
    while has_room(page) {
        let rest = octets::cut(input, from, input.len() - from);
        let end = words::line_end(rest);
        if end == rest.len() {
            return from;
        }
        answer(role, state, octets::cut(rest, 0, end), page);
        from += end + 1;
    }
    from
}

// A line that is refused outside of a call.
fn refuse(page: &mut Page, fault: Fault)
    ensures { Says page.old page.new (fault_text fault ++ ascii "\n") }
{
    unread(page, fault);
    page.say(b"\n");
}

// What is done with the bytes that have arrived, and whether more have to arrive before the next turn.
pub fn take_turn(role: Role, state: &mut [u8], input: &mut Input, page: &mut Page) -> bool
    ensures turned { (input.new.buffer.ghost_name ≡ input.old.buffer.ghost_name) × (page.new.bytes.ghost_name ≡ page.old.bytes.ghost_name) × (serving.turn (desk state.new (lent page.new)) (waiting input.new) result ≡ serving.turned role (desk state.old (lent page.old)) (waiting input.old)) }
    ensures room { (length input.new.buffer.now ≡ length input.old.buffer.now) × (length page.new.bytes.now ≡ length page.old.bytes.now) }
{
    match input.next_step() {
        Next::Answer => {
            let taken = serve(role, state, input.bytes(), page);
            input.release(taken);
            false
        }
        Next::Await => true,
        Next::Refuse => {
            refuse(page, Fault::TooLong);
            input.pass();
            true
        }
        Next::Skip => {
            input.skip();
            false
        }
        Next::Drop => {
            input.pass();
            true
        }
    }
}

// The input has ended. What is held then is a line without an end, which may be half of another.
pub fn finish(buffer: &[u8], held: Held, page: &mut Page)
    ensures { Says page.old page.new (serving.last_text (held_in buffer.now held)) }
{
    if held.skips {
        return;
    }
    if up_to(buffer, held.filled).is_empty() {
        return;
    }
    refuse(page, Fault::NoEnd);
}
