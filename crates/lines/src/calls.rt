// What a line asks is done, and the answer is written behind what stands on a page. A line that is no call changes nothing.
ghost use Rattle.lines.specs.Calls as calls;
ghost use Rattle.lines.specs.Calls.{Replies};

use refusals::{Fault, unread};
use text::line::Line;
use text::page::Page;
use text::words;
use wire::kinds::{Account, Sequence};

// The calls that take a message and its verdicts. With a closure in its place the contract of `paper_line` is about each state and page that the
// closure meets, before and after it, and still has to say which call that is.
#[derive(Drop)]
pub enum Paper {
    Order,
    Certificate,
    Funding,
    Redemption,
}

#[tactic(auto, unfolding(crate::specs::Calls::handled))]
fn handle(state: &mut [u8], paper: Paper, message: &[u8], verdicts: &[u8], page: &mut Page)
    ensures { Replies state.new page.old page.new (calls.handled paper state.old message.now verdicts.now) }
{
    match paper {
        Paper::Order => wording::order(page, machine::handle_order(state, message, verdicts)),
        Paper::Certificate => {
            wording::certificate(page, machine::handle_certificate(state, message, verdicts))
        }
        Paper::Funding => wording::funding(page, machine::handle_funding(state, message, verdicts)),
        Paper::Redemption => wording::redeem(page, ledger::redeem(state, message, verdicts)),
    }
}

#[tactic(auto, unfolding(crate::specs::Calls::paper_line))]
fn paper_line(state: &mut [u8], paper: Paper, line: &Line, page: &mut Page)
    ensures { Replies state.new page.old page.new (calls.paper_line paper state.old line.now) }
{
    if !line.has_words(3) {
        return unread(page, Fault::WordCount);
    }
    let Some(first) = line.digits(1) else {
        return unread(page, Fault::NotHexadecimal);
    };
    let Some(second) = line.digits(2) else {
        return unread(page, Fault::NotHexadecimal);
    };
    // Both are looked at before either is read, as in the definition: by `Line::bytes`, one after the other, a line that is refused for its last word
    // takes half as long again.
    let mut message = [0; words::BYTES];
    let m = words::read_bytes(&mut message, first);
    let mut verdicts = [0; words::BYTES];
    let v = words::read_bytes(&mut verdicts, second);
    handle(
        state,
        paper,
        octets::cut(&message, 0, m),
        octets::cut(&verdicts, 0, v),
        page,
    );
}

#[tactic(auto, unfolding(crate::specs::Calls::account_line))]
fn account_line(state: &[u8], line: &Line, page: &mut Page)
    ensures { Replies state.now page.old page.new (calls.account_line state.now line.now) }
{
    if !line.has_words(2) {
        return unread(page, Fault::WordCount);
    }
    let account = Account(line.number(1));
    wording::account(page, account, machine::read_account(state, account));
}

#[tactic(auto, unfolding(crate::specs::Calls::standing_line))]
fn standing_line(state: &[u8], line: &Line, page: &mut Page)
    ensures { Replies state.now page.old page.new (calls.standing_line state.now line.now) }
{
    if !line.has_words(2) {
        return unread(page, Fault::WordCount);
    }
    let mut space = [0; words::BYTES];
    let Some(message) = line.bytes(1, &mut space) else {
        return unread(page, Fault::NotHexadecimal);
    };
    wording::standing(page, machine::standing_body(message, state));
}

#[tactic(auto, unfolding(crate::specs::Calls::fund_line))]
fn fund_line(state: &mut [u8], line: &Line, page: &mut Page)
    ensures { Replies state.new page.old page.new (calls.fund_line state.old line.now) }
{
    if !line.has_words(3) {
        return unread(page, Fault::WordCount);
    }
    let account = Account(line.number(1));
    let amount = line.number(2);
    let mut order = [0; 16];
    let answer = ledger::fund(state, &mut order, account, amount);
    wording::fund(page, answer, &order);
}

#[tactic(auto, unfolding(crate::specs::Calls::pot_line))]
fn pot_line(state: &[u8], line: &Line, page: &mut Page)
    ensures { Replies state.now page.old page.new (calls.pot_line state.now line.now) }
{
    if !line.has_words(1) {
        return unread(page, Fault::WordCount);
    }
    wording::pot(page, ledger::read_pot(state));
}

#[tactic(auto, unfolding(crate::specs::Calls::log_line))]
fn log_line(state: &[u8], line: &Line, page: &mut Page)
    ensures { Replies state.now page.old page.new (calls.log_line state.now line.now) }
{
    if !line.has_words(3) {
        return unread(page, Fault::WordCount);
    }
    let account = Account(line.number(1));
    let sequence = Sequence(line.number(2));
    let answer = ledger::read_log(state, account, sequence);
    wording::log(page, account, sequence, answer);
}

fn uncalled(state: &[u8], line: &Line, page: &mut Page)
    ensures { Replies state.now page.old page.new (calls.uncalled state.now line.now) }
{
    if line.word(0).is_empty() {
        return unread(page, Fault::Empty);
    }
    unread(page, Fault::NoCall);
}

#[tactic(auto, using(std::proofs::lemmas::Bool::Decides::nat_tests), unfolding(crate::specs::Calls::machine_line, text::specs::Ascii::ascii))]
pub fn machine_line(state: &mut [u8], line: &[u8], page: &mut Page)
    ensures { Replies state.new page.old page.new (calls.machine_line state.old line.now) }
{
    let Some(line) = Line::new(line) else {
        return unread(page, Fault::TooLong);
    };
    // Not a `match` on byte strings: its goal `returns-in_default`, with some forty ways to it, did not prove.
    let name = line.word(0);
    if octets::same(name, b"order") {
        return paper_line(state, Paper::Order, &line, page);
    }
    if octets::same(name, b"certificate") {
        return paper_line(state, Paper::Certificate, &line, page);
    }
    if octets::same(name, b"funding") {
        return paper_line(state, Paper::Funding, &line, page);
    }
    if octets::same(name, b"account") {
        return account_line(state, &line, page);
    }
    if octets::same(name, b"standing") {
        return standing_line(state, &line, page);
    }
    uncalled(state, &line, page);
}

#[tactic(auto, using(std::proofs::lemmas::Bool::Decides::nat_tests), unfolding(crate::specs::Calls::ledger_line, text::specs::Ascii::ascii))]
pub fn ledger_line(state: &mut [u8], line: &[u8], page: &mut Page)
    ensures { Replies state.new page.old page.new (calls.ledger_line state.old line.now) }
{
    let Some(line) = Line::new(line) else {
        return unread(page, Fault::TooLong);
    };
    // Not a `match` on byte strings, as in `machine_line`.
    let name = line.word(0);
    if octets::same(name, b"redeem") {
        return paper_line(state, Paper::Redemption, &line, page);
    }
    if octets::same(name, b"fund") {
        return fund_line(state, &line, page);
    }
    if octets::same(name, b"pot") {
        return pot_line(state, &line, page);
    }
    if octets::same(name, b"redeemed") {
        return log_line(state, &line, page);
    }
    uncalled(state, &line, page);
}
