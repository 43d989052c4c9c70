// Messages from the words of a line.
ghost use Rattle.std.specs.Prelude.{◌≡◌};
ghost use Rattle.text.specs.Pages.{Says};
ghost use Rattle.drafts.specs.Drafts as drafts;

use refusals::{Fault, unread};
use text::line::Line;
use text::page::Page;
use text::words;
use wire::answers::Refusal;
use wire::kinds::{Account, Funding, FundingIndex, Payment, Sequence};

// The longest message.
const MESSAGE: usize = 1148;

// What a writer answers, and the bytes that it wrote into: there is no heap for as many as it answers.
#[derive(Drop)]
struct Draft {
    answer: Result<usize, Refusal>,
    message: [u8; MESSAGE],
}

// A payment's kind, which is a number, as in the definition `kind_of`: any other word is a kind that there is not, and the writer refuses it.
#[tactic(auto, using(text::proofs::Patterns::patterns), unfolding(crate::specs::Drafts::kind_of, text::specs::Ascii::ascii))]
fn kind(word: &[u8]) -> u64
    ensures { result ≡ drafts.kind_of word.now }
{
    match word {
        b"account" => 0,
        b"ledger" => 1,
        _ => 2,
    }
}

#[tactic(auto, unfolding(crate::specs::Drafts::payment_of))]
fn payment(line: &Line) -> Payment
    ensures { result ≡ drafts.payment_of line.now }
{
    Payment {
        sender: Account(line.number(2)),
        kind: kind(line.word(3)),
        recipient: line.number(4),
        amount: line.number(5),
        sequence: Sequence(line.number(6)),
    }
}

#[tactic(auto, unfolding(crate::specs::Drafts::funding_of))]
fn funding(line: &Line) -> Funding
    ensures { result ≡ drafts.funding_of line.now }
{
    Funding {
        index: FundingIndex(line.number(2)),
        account: Account(line.number(3)),
        amount: line.number(4),
    }
}

// The writers take other words each, and so each counts and reads its own.
#[tactic(auto, unfolding(crate::specs::Drafts::body_draft))]
fn write_body(line: &Line) -> Result<Draft, Fault>
    ensures { drafts.drafted result ≡ drafts.body_draft line.now }
{
    if !line.has_words(8) {
        return Err(Fault::WordCount);
    }
    let mut space = [0; words::BYTES];
    let note = line.bytes(7, &mut space).ok_or(Fault::NotHexadecimal)?;
    let mut message = [0; MESSAGE];
    let answer = writing::write_body(&mut message, payment(line), note);
    Ok(Draft { answer, message })
}

#[tactic(auto, unfolding(crate::specs::Drafts::order_draft))]
fn write_order(line: &Line) -> Result<Draft, Fault>
    ensures { drafts.drafted result ≡ drafts.order_draft line.now }
{
    if !line.has_words(9) {
        return Err(Fault::WordCount);
    }
    let mut space = [0; words::BYTES];
    let note = line.bytes(7, &mut space).ok_or(Fault::NotHexadecimal)?;
    let mut signed = [0; words::BYTES];
    let signature = line.bytes(8, &mut signed).ok_or(Fault::NotHexadecimal)?;
    let mut message = [0; MESSAGE];
    let answer = writing::write_order(&mut message, payment(line), note, signature);
    Ok(Draft { answer, message })
}

#[tactic(auto, unfolding(crate::specs::Drafts::certificate_draft))]
fn write_certificate(line: &Line) -> Result<Draft, Fault>
    ensures { drafts.drafted result ≡ drafts.certificate_draft line.now }
{
    if !line.has_words(5) {
        return Err(Fault::WordCount);
    }
    let mut space = [0; words::BYTES];
    let body = line.bytes(3, &mut space).ok_or(Fault::NotHexadecimal)?;
    let mut voted = [0; words::BYTES];
    let run = line.bytes(4, &mut voted).ok_or(Fault::NotHexadecimal)?;
    let mut message = [0; MESSAGE];
    let answer = writing::write_certificate(line.number(2), &mut message, body, run);
    Ok(Draft { answer, message })
}

#[tactic(auto, unfolding(crate::specs::Drafts::funding_draft))]
fn write_funding(line: &Line) -> Result<Draft, Fault>
    ensures { drafts.drafted result ≡ drafts.funding_draft line.now }
{
    if !line.has_words(5) {
        return Err(Fault::WordCount);
    }
    let mut message = [0; MESSAGE];
    let answer = writing::write_funding(&mut message, funding(line));
    Ok(Draft { answer, message })
}

#[tactic(auto, using(text::proofs::Patterns::patterns), unfolding(crate::specs::Drafts::write_text, text::specs::Ascii::ascii))]
fn written(line: &Line) -> Result<Draft, Fault>
    ensures { drafts.drafted result ≡ drafts.write_text line.now }
{
    match line.word(1) {
        b"body" => write_body(line),
        b"order" => write_order(line),
        b"certificate" => write_certificate(line),
        b"funding" => write_funding(line),
        _ => Err(Fault::NoCall),
    }
}

pub(crate) fn write_line(line: &Line, page: &mut Page)
    ensures { Says page.old page.new (drafts.write_text line.now) }
{
    match written(line) {
        Ok(draft) => papers::wrote(page, draft.answer, &draft.message),
        Err(fault) => unread(page, fault),
    }
}
