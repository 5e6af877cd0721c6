ghost use Rattle.std.specs.Prelude.{◌≡◌, ◌↔◌, None, IsTrue, IsSome, IfNone, is_none, position, IfOk, All, Some, length, map, replicate};
ghost use Rattle.decisions.specs.Maps.{label_of, sites_of, labels_of, undecided, decided, SetsOnly};
ghost use Rattle.oi_base.specs.Ascending.{IsAscending};
ghost use Rattle.decisions.specs.Steps.{first_undecided};
ghost use Rattle.decisions.specs.Text.{word_of};

use crate::places::place_of;
use oi_base::{NoMemory, SiteId};
use std::alloc::Global;
use std::marker::Model;

/// What becomes of a candidate call site.
#[derive(Clone, Copy, Debug, PartialEq, Eq)]
pub enum Label {
    /// The call stays.
    Keep,
    /// The callee's body takes the place of the call.
    Inline,
}

impl Label {
    /// The word that texts have for it.
    pub fn word(self) -> &'static str
        ensures { result.now ≡ word_of self }
    {
        match self {
            Label::Keep => "keep",
            Label::Inline => "inline",
        }
    }
}

/// A label for each candidate site. Contracts see it as the list of the candidates, ascending, each with its
/// label.
#[derive(Debug, Drop)]
pub struct Decisions {
    sites: Vec<SiteId>,
    labels: Vec<Label>,
}

impl Model for Decisions {
    ghost use Rattle.std.specs.Prelude.{List, zip};
    ghost use Rattle.oi_base.specs.declared.ids.SiteId.{SiteId};
    ghost use Rattle.decisions.specs.declared.maps.Label.{Label};
    ghost use Rattle.decisions.specs.Maps.{IsLabelled};

    ghost Value = { List (SiteId × Label) };

    ghost view = { λ d. zip d.sites.items d.labels.items };

    ghost invariant = { λ d. IsLabelled d.sites.items d.labels.items };
}

impl Decisions {
    /// The label of a site, or `None` where it is no candidate.
    pub fn label(&self, s: SiteId) -> Option<Label>
        ensures { result ≡ label_of self.now s }
    {
        match place_of(&self.sites, s) {
            Some(at) => Some(self.labels[at]),
            None => None,
        }
    }

    /// Whether both are the same map: the same candidates with the same labels.
    pub fn same(&self, other: &Decisions) -> bool
        ensures { IsTrue result ↔ (self.now ≡ other.now) }
    {
        self.sites.as_slice() == other.sites.as_slice()
            && self.labels.as_slice() == other.labels.as_slice()
    }

    /// The candidates, ascending.
    pub fn sites(&self) -> &[SiteId]
        ensures all { result.now ≡ sites_of self.now }
        ensures ascending { IsAscending result.now }
    {
        &self.sites
    }

    /// The labels, in the order of the candidates.
    pub fn labels(&self) -> &[Label]
        ensures all { result.now ≡ labels_of self.now }
        ensures one_each { length result.now ≡ length (sites_of self.now) }
    {
        &self.labels
    }
}

/// A label for some candidate sites; the others are undecided. Contracts see it as the list of the candidates,
/// ascending, each with the label that it may have.
#[derive(Debug, Drop)]
pub struct Partial {
    sites: Vec<SiteId>,
    labels: Vec<Option<Label>>,
}

impl Model for Partial {
    ghost use Rattle.std.specs.Prelude.{List, zip, Option};
    ghost use Rattle.oi_base.specs.declared.ids.SiteId.{SiteId};
    ghost use Rattle.decisions.specs.declared.maps.Label.{Label};
    ghost use Rattle.decisions.specs.Maps.{IsLabelled};

    ghost Value = { List (SiteId × Option Label) };

    ghost view = { λ p. zip p.sites.items p.labels.items };

    ghost invariant = { λ p. IsLabelled p.sites.items p.labels.items };
}

impl Partial {
    /// All of these candidates, undecided.
    pub fn start(alloc: Global, candidates: &[SiteId]) -> Result<Partial, NoMemory>
        requires { IsAscending candidates.now }
        ensures { IfOk result (λ p. p ≡ undecided candidates.now) }
    {
        let sites = Vec::from_slice(alloc, candidates)?;
        let labels = undecided_labels(alloc, candidates.len())?;
        Ok(Partial { sites, labels })
    }

    /// The label of a candidate, or `None` where it is undecided.
    pub fn get(&self, s: SiteId) -> Option<Label>
        requires { IsSome (label_of self.now s) }
        ensures { label_of self.now s ≡ Some result }
    {
        match place_of(&self.sites, s) {
            Some(at) => self.labels[at],
            None => None,
        }
    }

    /// What the map has for a site: nothing where it is no candidate, and otherwise the label that it may have.
    pub(crate) fn lookup(&self, s: SiteId) -> Option<Option<Label>>
        ensures { result ≡ label_of self.now s }
    {
        match place_of(&self.sites, s) {
            Some(at) => Some(self.labels[at]),
            None => None,
        }
    }

    /// The lowest candidate that is undecided.
    pub(crate) fn undecided(&self) -> Option<SiteId>
        ensures first { result ≡ first_undecided self.now }
        ensures all_decided { IfNone result (All (λ e. IsSome e.1) self.now) }
    {
        match first_none(&self.labels) {
            Some(at) => Some(self.sites[at]),
            None => None,
        }
    }

    /// Gives a candidate a label, whether it had one or not.
    pub fn set(&mut self, s: SiteId, l: Label)
        requires { IsSome (label_of self.old s) }
        ensures { SetsOnly self.old self.new s (Some l) }
    {
        if let Some(at) = place_of(&self.sites, s) {
            self.labels[at] = Some(l);
        }
    }

    /// The same map once more.
    pub fn copy(&self, alloc: Global) -> Result<Partial, NoMemory>
        ensures { IfOk result (λ p. p ≡ self.now) }
    {
        let sites = Vec::from_slice(alloc, &self.sites)?;
        let labels = Vec::from_slice(alloc, &self.labels)?;
        Ok(Partial { sites, labels })
    }

    /// The whole map, where no candidate is undecided.
    pub fn whole(&self, alloc: Global) -> Result<Decisions, NoMemory>
        requires { All (λ e. IsSome e.1) self.now }
        ensures { IfOk result (λ d. decided d ≡ self.now) }
    {
        let sites = Vec::from_slice(alloc, &self.sites)?;
        let labels = decided_labels(alloc, &self.labels)?;
        Ok(Decisions { sites, labels })
    }
}

// The place of the first undecided label.
fn first_none(labels: &[Option<Label>]) -> Option<usize>
    ensures { result ≡ position (λ l. is_none l) labels.now }
{
    labels.iter().position(|l| l.is_none())
}

fn undecided_labels(alloc: Global, count: usize) -> Result<Vec<Option<Label>>, NoMemory>
    ensures { IfOk result (λ labels. labels.items ≡ replicate count None) }
{
    let mut labels = Vec::new(alloc);
    labels.resize(count, None)?;
    Ok(labels)
}

fn decided_labels(alloc: Global, labels: &[Option<Label>]) -> Result<Vec<Label>, NoMemory>
    requires { All (λ l. IsSome l) labels.now }
    ensures { IfOk result (λ all. map (λ l. Some l) all.items ≡ labels.now) }
{
    let mut all = Vec::new(alloc);
    for label in labels {
        if let Some(l) = label {
            all.push(*l)?;
        }
    }
    Ok(all)
}
