ghost use Rattle.std.specs.List.{prefix_len};
ghost use Rattle.std.specs.Prelude.{◌==◌, ◌||◌, nat_lt, replicate, ◌≡◌, ℕ, ◌+◌, ◌<◌, ◌≤◌, map, length, true, false, is_ok, Some, None, IfOk, OnOk, slice_index_or};
ghost use Rattle.std.specs.Option.{option_map};
ghost use Rattle.oi_base.specs.declared.ids.FuncId as func_ids;
ghost use Rattle.shapes.specs.Tree as trees;
ghost use Rattle.shapes.specs.Tree.{func, inlined, callees};
ghost use Rattle.shapes.specs.Standing.{values};
ghost use Rattle.shapes.specs.Weight.{IsWeighed};
ghost use Rattle.shapes.specs.declared.renewal.Renewal.TheVariants.{Unseen};
ghost use Rattle.shapes.specs.Reaching.{has_func, have_func, reaching_count};
ghost use Rattle.shapes.specs.Renewed.{any_new, all_newest, AreWithin, with_added, renewed, all_renewed, is_new, one_if, is_seen, newest, new_count, renewal_at, IsRenewal, AreRenewals, AreSeen, IsOld, AreOld};

use crate::forest::Table;
use crate::shape::{Inlined, Shape};
use ir_core::Module;
use oi_base::{FuncId, Items, NoMemory, SiteId, Steps};
use std::alloc::Global;
use std::marker::Model;
use std::rc::Rc;
use std::sync::ledger::Ledger;

/// What is known of a function's shape where a site comes to be inlined: nothing yet, that it stays, or the new one.
#[derive(Drop)]
pub(crate) enum Renewal {
    Unseen,
    Same,
    New(Rc<Shape>),
}

/// A site that comes to be inlined: its caller, the shape of its callee, and the shapes of all functions before.
#[derive(Drop)]
pub(crate) struct Inlining<'a> {
    table: &'a [Option<Rc<Shape>>],
    site: SiteId,
    caller: FuncId,
    callee: &'a Rc<Shape>,
}

impl<'a> Model for Inlining<'a> {
    ghost use Rattle.shapes.specs.Standing.{values};
    ghost use Rattle.shapes.specs.Added.{Added, added_code};

    ghost Value = { Added };

    ghost coded = { added_code };

    ghost view = { λ i. record { trees = values i.table.now; site = i.site; caller = i.caller; callee = i.callee.now.value } };
}

impl<'a> Inlining<'a> {
    pub(crate) fn new(
        table: &'a [Option<Rc<Shape>>],
        site: SiteId,
        caller: FuncId,
        callee: &'a Rc<Shape>,
    ) -> Inlining<'a>
        ensures { result ≡ record { trees = values table.now; site = site; caller = caller; callee = callee.now.value } }
    {
        Inlining {
            table,
            site,
            caller,
            callee,
        }
    }

    /// The shapes of all functions after: new ones of the functions in whose shapes the caller stands, and otherwise the old
    /// ones. Each function is looked at once, after those that are inlined in it.
    pub(crate) fn shapes<K: Ledger>(
        &self,
        alloc: Global,
        m: &Module,
        made: &mut Steps<K>,
    ) -> Result<Table, NoMemory>
        requires old { (f : ℕ) (t : trees.Tree) → slice_index_or self.now.trees f None ≡ Some t → ((func t).0 ≡ f) × IsOld m.now self.now t }
        requires callee { IsWeighed m.now self.now.callee }
        ensures shapes { IfOk result (λ t. values t.items ≡ map (option_map (renewed m.now self.now)) self.now.trees) }
        ensures ticks { IfOk result (λ t. made.new ≡ made.old + reaching_count self.now.caller self.now.trees) }
        ensures no_more { made.new ≤ made.old + reaching_count self.now.caller self.now.trees }
    {
        let mut renewals = unseen(alloc, self.table.len())?;
        let mut table = Vec::new(alloc);
        let olds = self.table;
        for old in olds {
            table.push(self.entry(alloc, m, old, &mut renewals, made)?)?;
        }
        Ok(table)
    }

    /// What the table has of a function after.
    fn entry<K: Ledger>(
        &self,
        alloc: Global,
        m: &Module,
        old: &Option<Rc<Shape>>,
        renewals: &mut Vec<Renewal>,
        made: &mut Steps<K>,
    ) -> Result<Option<Rc<Shape>>, NoMemory>
        requires old { (t : trees.Tree) → option_map (λ r. r.value) old.now ≡ Some t → IsOld m.now self.now t }
        requires callee { IsWeighed m.now self.now.callee }
        requires known { AreRenewals m.now self.now self.now.trees renewals.old.items }
        ensures known { AreRenewals m.now self.now self.now.trees renewals.new.items }
        ensures shape { IfOk result (λ o. option_map (λ r. r.value) o ≡ option_map (renewed m.now self.now) (option_map (λ r. r.value) old.now)) }
        ensures seen { (t : trees.Tree) → option_map (λ r. r.value) old.now ≡ Some t → OnOk result (is_seen (renewal_at renewals.new.items (func t)) ≡ true) }
        ensures onward { (f : func_ids.FuncId) → is_seen (renewal_at renewals.old.items f) ≡ true → is_seen (renewal_at renewals.new.items f) ≡ true }
        ensures ticks { made.new + new_count renewals.old.items ≡ made.old + new_count renewals.new.items }
    {
        match old {
            Some(shape) => {
                self.renew(alloc, m, shape, renewals, made)?;
                let new = newest(renewals, shape)?;
                Ok(Some(new))
            }
            None => Ok(None),
        }
    }

    /// Finds what becomes of a shape, once that is known of those in it.
    fn renew<K: Ledger>(
        &self,
        alloc: Global,
        m: &Module,
        shape: &Shape,
        renewals: &mut Vec<Renewal>,
        made: &mut Steps<K>,
    ) -> Result<(), NoMemory>
        requires old { IsOld m.now self.now shape.now }
        requires callee { IsWeighed m.now self.now.callee }
        requires known { AreRenewals m.now self.now self.now.trees renewals.old.items }
        ensures known { AreRenewals m.now self.now self.now.trees renewals.new.items }
        ensures seen { OnOk result (is_seen (renewal_at renewals.new.items (func shape.now)) ≡ true) }
        ensures onward { (f : func_ids.FuncId) → is_seen (renewal_at renewals.old.items f) ≡ true → is_seen (renewal_at renewals.new.items f) ≡ true }
        ensures others { (f : func_ids.FuncId) → has_func f shape.now ≡ false → renewal_at renewals.new.items f ≡ renewal_at renewals.old.items f }
        ensures ticks { made.new + new_count renewals.old.items ≡ made.old + new_count renewals.new.items }
    {
        if is_known(renewals, shape.func()) {
            return Ok(());
        }
        let inlined = shape.inlined();
        for entry in inlined {
            let callee: &Shape = &entry.1;
            self.renew(alloc, m, callee, renewals, made)?;
        }
        let renewal = self.renewal(alloc, m, shape, renewals, made)?;
        renewals[shape.func().0 as usize] = renewal;
        Ok(())
    }

    /// What becomes of a shape, where that is known of those in it.
    fn renewal<K: Ledger>(
        &self,
        alloc: Global,
        m: &Module,
        shape: &Shape,
        renewals: &[Renewal],
        made: &mut Steps<K>,
    ) -> Result<Renewal, NoMemory>
        requires old { IsOld m.now self.now shape.now }
        requires callee { IsWeighed m.now self.now.callee }
        requires known { AreRenewals m.now self.now self.now.trees renewals.now }
        requires seen { AreSeen renewals.now (inlined shape.now) }
        ensures renewal { IfOk result (IsRenewal m.now self.now (Some shape.now)) }
        ensures seen { IfOk result (λ r. is_seen r ≡ true) }
        ensures ticks { IfOk result (λ r. made.new ≡ made.old + one_if (is_new r)) }
        ensures no_ticks { is_ok result ≡ false → made.new ≡ made.old }
    {
        if !self.reaches(shape, renewals) {
            return Ok(Renewal::Same);
        }
        let callees = self.callees(alloc, shape, renewals)?;
        let new = Shape::of(alloc, m, shape.func(), callees, made)?;
        Ok(Renewal::New(new))
    }

    /// Whether the function is the caller of the site, or a callee of it has a new shape.
    fn reaches(&self, shape: &Shape, renewals: &[Renewal]) -> bool
        requires { AreWithin (length renewals.now) (inlined shape.now) }
        ensures { result ≡ ((func shape.now).0 == self.now.caller.0 || any_new renewals.now (inlined shape.now)) }
    {
        shape.func().0 == self.caller.0 || any_new(shape.inlined(), renewals)
    }

    /// The callees of a function after.
    fn callees(
        &self,
        alloc: Global,
        shape: &Shape,
        renewals: &[Renewal],
    ) -> Result<Inlined, NoMemory>
        requires { AreWithin (length renewals.now) (inlined shape.now) }
        ensures { IfOk result (λ ks. callees ks ≡ with_added self.now (func shape.now) (all_newest renewals.now (inlined shape.now))) }
    {
        let others = newest_callees(alloc, shape.inlined(), renewals)?;
        self.with_added(shape.func(), others)
    }

    /// The callees of a function, with the site where the function is its caller.
    fn with_added(
        &self,
        f: FuncId,
        mut others: Vec<(SiteId, Rc<Shape>)>,
    ) -> Result<Inlined, NoMemory>
        ensures { IfOk result (λ ks. callees ks ≡ with_added self.now f (callees others.items)) }
    {
        if f.0 != self.caller.0 {
            return Ok(Items::from_vec(others));
        }
        let at = before(&others, self.site);
        let callee = self.callee.clone()?;
        others.insert(at, (self.site, callee))?;
        Ok(Items::from_vec(others))
    }
}

/// Of this many functions nothing is known.
fn unseen(alloc: Global, count: usize) -> Result<Vec<Renewal>, NoMemory>
    ensures { IfOk result (λ rs. rs.items ≡ replicate count Unseen) }
{
    let mut renewals = Vec::new(alloc);
    for n in 0..count {
        renewals.push(Renewal::Unseen)?;
    }
    Ok(renewals)
}

/// Whether it is known what becomes of a function's shape.
fn is_known(renewals: &[Renewal], f: FuncId) -> bool
    requires { f.0 < length renewals.now }
    ensures { result ≡ is_seen (renewal_at renewals.now f) }
{
    match &renewals[f.0 as usize] {
        Renewal::Unseen => false,
        Renewal::Same => true,
        Renewal::New(_) => true,
    }
}

/// Whether a function has a new shape.
fn has_new(renewals: &[Renewal], f: FuncId) -> bool
    requires { f.0 < length renewals.now }
    ensures { result ≡ is_new (renewal_at renewals.now f) }
{
    match &renewals[f.0 as usize] {
        Renewal::Unseen => false,
        Renewal::Same => false,
        Renewal::New(_) => true,
    }
}

/// Whether a callee has a new shape.
fn any_new(inlined: &[(SiteId, Rc<Shape>)], renewals: &[Renewal]) -> bool
    requires { AreWithin (length renewals.now) (callees inlined.now) }
    ensures { result ≡ any_new renewals.now (callees inlined.now) }
{
    for entry in inlined {
        let shape: &Shape = &entry.1;
        if has_new(renewals, shape.func()) {
            return true;
        }
    }
    false
}

/// The new shape of a function that has one, and otherwise its old one.
fn newest(renewals: &[Renewal], shape: &Rc<Shape>) -> Result<Rc<Shape>, NoMemory>
    requires { (func shape.now.value).0 < length renewals.now }
    ensures { IfOk result (λ r. r.value ≡ newest (renewal_at renewals.now (func shape.now.value)) shape.now.value) }
{
    let old: &Shape = shape;
    match &renewals[old.func().0 as usize] {
        Renewal::New(new) => Ok(new.clone()?),
        Renewal::Same => Ok(shape.clone()?),
        Renewal::Unseen => Ok(shape.clone()?),
    }
}

/// The callees with their new shapes.
fn newest_callees(
    alloc: Global,
    inlined: &[(SiteId, Rc<Shape>)],
    renewals: &[Renewal],
) -> Result<Vec<(SiteId, Rc<Shape>)>, NoMemory>
    requires { AreWithin (length renewals.now) (callees inlined.now) }
    ensures { IfOk result (λ v. callees v.items ≡ all_newest renewals.now (callees inlined.now)) }
{
    let mut all = Vec::new(alloc);
    for entry in inlined {
        all.push((entry.0, newest(renewals, &entry.1)?))?;
    }
    Ok(all)
}

/// How many callees have sites before this one.
fn before(callees: &[(SiteId, Rc<Shape>)], s: SiteId) -> usize
    ensures count { result ≡ prefix_len (λ e. nat_lt e.0.0 s.0) callees.now }
    ensures within { result ≤ length callees.now }
{
    for (i, entry) in callees.iter().enumerate() {
        if entry.0.0 >= s.0 {
            return i;
        }
    }
    callees.len()
}
