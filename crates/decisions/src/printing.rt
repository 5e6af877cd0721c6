ghost use Rattle.std.specs.Prelude.{◌≡◌, ◌++◌, IfOk, OnOk, length, zip};
ghost use Rattle.decisions.specs.Reading.{IsTextOf};
ghost use Rattle.decisions.specs.Text.{line_of, tail_of, text_of};

use crate::maps::{Decisions, Label};
use oi_base::{NoMemory, SiteId};
use std::alloc::Global;

/// The text of a map: for each candidate, ascending, its number in decimal, a space, its label and a line feed.
pub fn print_decisions(alloc: Global, d: &Decisions) -> Result<Vec<u8>, NoMemory>
    ensures text { IfOk result (λ text. text.items ≡ text_of d.now) }
    ensures form { IfOk result (λ text. IsTextOf text.items d.now) }
{
    lines(alloc, d.sites(), d.labels())
}

fn lines(alloc: Global, sites: &[SiteId], labels: &[Label]) -> Result<Vec<u8>, NoMemory>
    requires { length labels.now ≡ length sites.now }
    ensures { IfOk result (λ text. text.items ≡ text_of (zip sites.now labels.now)) }
{
    let mut text = Vec::new(alloc);
    for (at, s) in sites.iter().enumerate() {
        push_line(alloc, &mut text, *s, labels[at])?;
    }
    Ok(text)
}

/// Appends the line of a site.
#[tactic(auto, unfolding(crate::specs::Text::line_of))]
pub fn push_line(alloc: Global, text: &mut Vec<u8>, s: SiteId, l: Label) -> Result<(), NoMemory>
    ensures { OnOk result (text.new.items ≡ text.old.items ++ line_of (s, l)) }
{
    let line = format!(in alloc; "{}{}", s.0, tail(l))?;
    text.extend_from_slice(line.as_bytes())?;
    Ok(())
}

/// What follows the number in a line.
fn tail(l: Label) -> &'static str
    ensures { result.now ≡ tail_of l }
{
    match l {
        Label::Keep => " keep\n",
        Label::Inline => " inline\n",
    }
}
