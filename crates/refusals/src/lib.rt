// Refusals in words, with their numbers, printed as in `wording`.
#![tactic(auto)]

ghost use Rattle.std.specs.Prelude.{◌≡◌, ◌≤◌, ◌-◌};
ghost use Rattle.wire.specs.Refusals.{refusal_number};
ghost use Rattle.text.specs.Pages.{Says};
ghost use Rattle.text.specs.Words as words;
ghost use Rattle.refusals.specs.Refusals as refusals;

use text::page::Page;
use text::words::line_at;
use wire::answers::Refusal;

// Why a line is no call.
#[derive(Clone, Copy)]
pub enum Fault {
    Empty = 101,
    TooLong,
    NoCall,
    WordCount,
    NotHexadecimal,
    NoEnd,
}

// The number of the first of them.
const FIRST_FAULT: u64 = 101;

impl Fault {
    fn number(self) -> u64
        ensures { result ≡ refusals.fault_number self }
    {
        self as u64
    }
}

// A number, and the line that says what it means: there is one for each number from `first` on.
// Arms of a match would each lend the page, and what is proved would grow a hundredfold.
fn say_refusal(page: &mut Page, number: u64, first: u64, reasons: &[u8])
    requires { first ≤ number }
    ensures { Says page.old page.new (refusals.refusal number (words.line_at (number - first) reasons.now)) }
{
    page.say_numbered(b"refused ", number);
    page.say(b": ");
    page.say(line_at(reasons, (number - first) as usize));
}

// One call, with the reasons of refusals.
pub fn refused(page: &mut Page, refusal: Refusal)
    ensures { Says page.old page.new (refusals.refused_text (refusal_number refusal)) }
{
    say_refusal(
        page,
        refusal.number(),
        1,
        b"\
            tags, lengths or the end are not as laid down, or the message is too long\n\
            a value is out of range or no number\n\
            wrong number of verdict bytes\n\
            a verdict is not good\n\
            a vote is by a machine outside the committee\n\
            votes repeat or do not rise\n\
            too few votes\n\
            the sender is not in use\n\
            another body is pending\n\
            the sequence is not the next\n\
            the balance is below the amount\n\
            the funding index is not the next\n\
            the recipient is no ledger account\n\
            already redeemed\n\
            the pot is below the amount\n\
            the state is ill-formed, or a limit would be passed\n\
            all funding indexes are used\n\
            the output is too small\n\
        ",
    );
}

// One call, with the reasons of faults.
pub fn unread(page: &mut Page, fault: Fault)
    ensures { Says page.old page.new (refusals.fault_text fault) }
{
    say_refusal(
        page,
        fault.number(),
        FIRST_FAULT,
        b"\
            the line is empty\n\
            the line is too long\n\
            there is no such call here\n\
            wrong number of words\n\
            not hexadecimal\n\
            the line was cut off\n\
        ",
    );
}
