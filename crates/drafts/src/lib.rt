// Messages written and shown by hand: a line asks for one, and the answer is written behind what stands on a page.
#![tactic(auto)]

ghost use Rattle.std.specs.Prelude.{◌≡◌};
ghost use Rattle.text.specs.Pages.{Says};
ghost use Rattle.drafts.specs.Drafts as drafts;

use refusals::{Fault, unread};
use text::line::Line;
use text::page::Page;

mod showing;
mod writers;

#[tactic(auto, using(text::proofs::Patterns::patterns), unfolding(crate::specs::Drafts::draft_text, text::specs::Ascii::ascii))]
pub fn draft_line(line: &[u8], page: &mut Page)
    ensures { Says page.old page.new (drafts.draft_text line.now) }
{
    let Some(line) = Line::new(line) else {
        return unread(page, Fault::TooLong);
    };
    match line.word(0) {
        b"read" => showing::read_line(&line, page),
        b"write" => writers::write_line(&line, page),
        _ => unread(page, Fault::NoCall),
    }
}
