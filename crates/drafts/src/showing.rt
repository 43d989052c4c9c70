// What a message says.
ghost use Rattle.std.specs.Prelude.{◌≡◌, ◌||◌};
ghost use Rattle.wire.specs.Votes.{signers_in};
ghost use Rattle.wire.specs.Messages.{inside};
ghost use Rattle.wire.specs.Readers.{read_body, read_certificate};
ghost use Rattle.text.specs.Pages.{Says};
ghost use Rattle.text.specs.Words.{has_words};
ghost use Rattle.papers.specs.Papers.{certificate_read_text};
ghost use Rattle.drafts.specs.Drafts as drafts;

use messages::{body, certificate, funding, order};
use octets::TWO;
use refusals::{Fault, refused, unread};
use text::line::Line;
use text::page::Page;
use text::words;
use wire::answers::Refusal;

fn show_certificate(f: u64, message: &[u8], page: &mut Page)
    ensures { Says page.old page.new (certificate_read_text (read_certificate f message.now) (read_body (inside message.now)).note (signers_in message.now)) }
{
    if let Err(refusal) = certificate::read_certificate(f, message) {
        return refused(page, refusal);
    }
    let size = octets::get::<TWO>(message, 1) as usize;
    let Ok(body) = body::read_body(octets::cut(message, 3, size)) else {
        // The certificate was accepted, and so was its body.
        unreachable!()
    };
    let n = (message.len() - (size + 3)) / votes::VOTE_FIELD;
    papers::certificate(page, message, body, size + 6, n);
}

// A message is told by its first tag.
#[tactic(auto, using(std::proofs::lemmas::Bool::Decides::nat_tests), unfolding(crate::specs::Drafts::shown_text, octets::specs::Octets::number))]
fn show(f: u64, message: &[u8], page: &mut Page)
    ensures { Says page.old page.new (drafts.shown_text f message.now) }
{
    match message {
        [0x01, ..] => papers::body(page, body::read_body(message)),
        [0x10, ..] => papers::order(page, order::read_order(message)),
        [0x20, ..] => show_certificate(f, message, page),
        [0x30, ..] => papers::funding(page, funding::read_funding(message)),
        _ => refused(page, Refusal::Malformed),
    }
}

// f is 1 where the line does not say it.
fn faults(line: &Line) -> u64
    ensures { result ≡ drafts.faults_of line.now }
{
    if line.has_words(3) {
        return line.number(2);
    }
    1
}

fn is_read(line: &Line) -> bool
    ensures { result ≡ (has_words 2 line.now || has_words 3 line.now) }
{
    line.has_words(2) || line.has_words(3)
}

#[tactic(auto, using(std::proofs::lemmas::Bool::Decides::nat_tests), unfolding(crate::specs::Drafts::read_text))]
pub(crate) fn read_line(line: &Line, page: &mut Page)
    ensures { Says page.old page.new (drafts.read_text line.now) }
{
    if !is_read(line) {
        return unread(page, Fault::WordCount);
    }
    let f = faults(line);
    if f > 5 {
        return refused(page, Refusal::OutOfRange);
    }
    let mut space = [0; words::BYTES];
    let Some(message) = line.bytes(1, &mut space) else {
        return unread(page, Fault::NotHexadecimal);
    };
    show(f, message, page);
}
