ghost use Rattle.std.specs.Prelude.{◌≡◌, ◌≢◌, ◌<◌, ◌≤◌, ℕ, IfOk, IfErr, OnOk, IfSome, IfNone, IsTrue, ◌↔◌, length, List, None, Some, option_map, decimal, position, ◌==◌};
ghost use Rattle.oi_base.specs.declared.ids.SiteId.{SiteId};
ghost use Rattle.decisions.specs.declared.faults.DecisionFault.TheVariants as faults;
ghost use Rattle.decisions.specs.declared.maps.Label.{Label};
ghost use Rattle.decisions.specs.Maps.{sites_of, decided};
ghost use Rattle.oi_base.specs.Ascending.{IsAscending};
ghost use Rattle.decisions.specs.Text.{line_of, site_numbers};
ghost use Rattle.decisions.specs.Reading.{lines_of, entry_of, first_fault, HaveWords, IsTextOf};
ghost use Rattle.decisions.specs.Steps.{Takes, first_undecided};

use crate::faults::DecisionFault;
use crate::maps::{Decisions, Label, Partial};
use crate::printing::push_line;
use crate::text_lines::{line_end, place_of_byte};
use oi_base::{NoMemory, SiteId};
use std::alloc::Global;

/// The map over these candidates, which ascend, that a text states: one line for each candidate, in any order,
/// with its number in decimal without leading zeros, a space, `keep` or `inline`, and a line feed.
pub fn read_decisions(
    alloc: Global,
    bytes: &[u8],
    candidates: &[SiteId],
) -> Result<Decisions, DecisionFault>
    requires ascending { IsAscending candidates.now }
    requires short { length bytes.now < u32.MAX }

    ensures sites { IfOk result (λ d. sites_of d ≡ candidates.now) }
    ensures text { IfOk result (IsTextOf bytes.now) }
    ensures sound { OnOk result (first_fault candidates.now bytes.now ≡ None) }
    ensures fault { IfErr result (λ e. e ≢ faults.NoMemory → first_fault candidates.now bytes.now ≡ Some e) }
    ensures complete { IfErr result (λ e. e ≢ faults.NoMemory → (d : List (SiteId × Label)) → HaveWords (sites_of d) → sites_of d ≡ candidates.now → IsTextOf bytes.now d → ⊥) }
    ensures only { IfOk result (λ d. (other : List (SiteId × Label)) → HaveWords (sites_of other) → sites_of other ≡ candidates.now → IsTextOf bytes.now other → d ≡ other) }
{
    let mut map = Partial::start(alloc, candidates)?;
    let mut rest = bytes;
    let mut number = 0u32;
    'lines: while !rest.is_empty() {
        number += 1;
        let (line, after) = rest.split_at(line_end(rest));
        take_line(alloc, &mut map, line, number)?;
        rest = after;
    }
    whole_map(alloc, &map)
}

/// Reads a line into the map, which stays as it was at a fault.
fn take_line(
    alloc: Global,
    map: &mut Partial,
    line: &[u8],
    number: u32,
) -> Result<(), DecisionFault>
    ensures { Takes line.now number map.old map.new result }
{
    let Some((s, l)) = read_line(alloc, line)? else {
        return Err(DecisionFault::BadLine(number));
    };
    match map.lookup(s) {
        None => Err(DecisionFault::NotCandidate(number, s)),
        Some(Some(_)) => Err(DecisionFault::Twice(number, s)),
        Some(None) => {
            map.set(s, l);
            Ok(())
        }
    }
}

fn whole_map(alloc: Global, map: &Partial) -> Result<Decisions, DecisionFault>
    ensures whole { IfOk result (λ d. (first_undecided map.now ≡ None) × (decided d ≡ map.now)) }
    ensures missing { IfErr result (λ e. e ≢ faults.NoMemory → option_map (λ s. faults.Missing s) (first_undecided map.now) ≡ Some e) }
{
    match map.undecided() {
        Some(s) => Err(DecisionFault::Missing(s)),
        None => Ok(map.whole(alloc)?),
    }
}

/// The site and label whose line this is.
fn read_line(alloc: Global, line: &[u8]) -> Result<Option<(SiteId, Label)>, NoMemory>
    ensures { IfOk result (λ found. found ≡ entry_of line.now) }
{
    let Some(s) = leading_site(line) else {
        return Ok(None);
    };
    if is_line(alloc, line, s, Label::Keep)? {
        return Ok(Some((s, Label::Keep)));
    }
    if is_line(alloc, line, s, Label::Inline)? {
        return Ok(Some((s, Label::Inline)));
    }
    Ok(None)
}

/// Whether this is the site's line. A number with leading zeros or a sign is not written as it is printed.
fn is_line(alloc: Global, line: &[u8], s: SiteId, l: Label) -> Result<bool, NoMemory>
    ensures { IfOk result (λ is. IsTrue is ↔ (line.now ≡ line_of (s, l))) }
{
    let mut printed = Vec::new(alloc);
    push_line(alloc, &mut printed, s, l)?;
    Ok(printed.as_slice() == line)
}

/// The site whose number stands before the first space, where it has one.
#[tactic(auto, unfolding(crate::specs::Text::line_of))]
fn leading_site(line: &[u8]) -> Option<SiteId>
    ensures below { IfSome result (λ s. s.0 < site_numbers) }
    ensures site { (s : SiteId) (l : Label) → s.0 < site_numbers → line.now ≡ line_of (s, l) → result ≡ Some s }
{
    match number(&line[..place_of_byte(line, b' ')]) {
        Some(n) => Some(SiteId(n)),
        None => None,
    }
}

/// The number of a word, where it has one. It is for the caller to see how the number is written.
fn number(word: &[u8]) -> Option<u32>
    ensures { (n : ℕ) → n < site_numbers → word.now ≡ decimal n → result ≡ Some n }
{
    match str::from_utf8(word) {
        Ok(text) => match text.parse::<u32>() {
            Ok(n) => Some(n),
            Err(_) => None,
        },
        Err(_) => None,
    }
}
