// What a machine and the ledger answer. Printers and no `Display`: what each says, and what of it fits the page, is promised byte for byte.
#![tactic(auto)]

ghost use Rattle.ledger.specs.Answers.{fund_said, redeem_said, pot_said, log_said};
ghost use Rattle.records.specs.Answers.{order_said, confirm_said, credit_said, account_shown};
ghost use Rattle.text.specs.Ascii.{ascii};
ghost use Rattle.text.specs.Pages.{Says, decimal};
ghost use Rattle.wording.specs.Answers as answers;
ghost use Rattle.std.specs.Prelude.{cond, ◌++◌, Ok};

use ledger::answers::{Payout, Pot};
use records::answers::{Confirmation, Reading, Vote};
use refusals::refused;
use text::page::Page;
use wire::answers::Refusal;
use wire::kinds::{Account, FundingIndex, Sequence};

pub fn order(page: &mut Page, answer: Result<Vote, Refusal>)
    ensures { Says page.old page.new (answers.order_text (order_said answer)) }
{
    match answer {
        Ok(Vote::New) => page.say(b"vote, new"),
        Ok(Vote::Repeated) => page.say(b"vote, repeated"),
        Err(refusal) => refused(page, refusal),
    }
}

fn machines(page: &mut Page, n: u64)
    ensures { Says page.old page.new (answers.machines_text n) }
{
    page.say_decimal(n);
    if n == 1 {
        page.say(b" machine");
    } else {
        page.say(b" machines");
    }
}

pub fn certificate(page: &mut Page, answer: Result<Confirmation, Refusal>)
    ensures { Says page.old page.new (answers.certificate_text (confirm_said answer)) }
{
    match answer {
        Ok(Confirmation::Confirmed(votes)) => {
            page.say(b"confirmed by ");
            machines(page, votes);
        }
        Ok(Confirmation::Already(votes)) => {
            page.say(b"already: this sequence was confirmed before; votes of ");
            machines(page, votes);
        }
        Err(refusal) => refused(page, refusal),
    }
}

pub fn funding(page: &mut Page, answer: Result<(), Refusal>)
    ensures { Says page.old page.new (answers.funding_text (credit_said answer)) }
{
    match answer {
        Ok(()) => page.say(b"funding taken"),
        Err(refusal) => refused(page, refusal),
    }
}

fn reading(page: &mut Page, account: Account, reading: Reading)
    ensures { Says page.old page.new (answers.account_text account.0 (account_shown (Ok reading))) }
{
    page.say_numbered(b"account ", account.0);
    in_use(page, reading.used);
    let next = reading.next;
    page.say_decimal(next.0);
    page.say(b", balance ");
    page.say_signed(reading.balance);
    page.say_numbered(b", free to spend ", reading.free);
}

fn in_use(page: &mut Page, used: bool)
    ensures { Says page.old page.new (cond used (ascii ": in use, next ") (ascii ": not in use, next ")) }
{
    if used {
        page.say(b": in use, next ");
    } else {
        page.say(b": not in use, next ");
    }
}

pub fn account(page: &mut Page, account: Account, answer: Result<Reading, Refusal>)
    ensures { Says page.old page.new (answers.account_text account.0 (account_shown answer)) }
{
    match answer {
        Ok(shown) => reading(page, account, shown),
        Err(refusal) => refused(page, refusal),
    }
}

pub fn standing(page: &mut Page, body: &[u8])
    ensures { Says page.old page.new (answers.standing_text body.now) }
{
    if body.is_empty() {
        page.say(b"no standing body");
    } else {
        page.say(b"standing body ");
        page.say_hexadecimal(body);
    }
}

pub fn fund(page: &mut Page, answer: Result<FundingIndex, Refusal>, order: &[u8])
    ensures { Says page.old page.new (answers.fund_text (fund_said answer) order.now) }
{
    match answer {
        Ok(index) => {
            page.say_numbered(b"funding order ", index.0);
            page.say(b": ");
            page.say_hexadecimal(order);
        }
        Err(refusal) => refused(page, refusal),
    }
}

pub fn redeem(page: &mut Page, answer: Result<Payout, Refusal>)
    ensures { Says page.old page.new (answers.redeem_text (redeem_said answer)) }
{
    match answer {
        Ok(payout) => {
            page.say_numbered(b"paid ", payout.amount);
            page.say_numbered(b" to ledger account ", payout.account);
        }
        Err(refusal) => refused(page, refusal),
    }
}

pub fn pot(page: &mut Page, answer: Result<Pot, Refusal>)
    ensures { Says page.old page.new (answers.pot_text (pot_said answer)) }
{
    match answer {
        Ok(pot) => {
            page.say_numbered(b"pot ", pot.amount);
            let index = pot.index;
            page.say_numbered(b", last funding index ", index.0);
        }
        Err(refusal) => refused(page, refusal),
    }
}

fn entry(page: &mut Page, account: Account, sequence: Sequence)
    ensures { Says page.old page.new (ascii "account " ++ decimal account.0 ++ ascii ", sequence " ++ decimal sequence.0) }
{
    page.say_numbered(b"account ", account.0);
    page.say_numbered(b", sequence ", sequence.0);
}

pub fn log(page: &mut Page, account: Account, sequence: Sequence, answer: Result<bool, Refusal>)
    ensures { Says page.old page.new (answers.log_text account.0 sequence.0 (log_said answer)) }
{
    match answer {
        Ok(true) => {
            entry(page, account, sequence);
            page.say(b": redeemed");
        }
        Ok(false) => {
            entry(page, account, sequence);
            page.say(b": not redeemed");
        }
        Err(refusal) => refused(page, refusal),
    }
}
