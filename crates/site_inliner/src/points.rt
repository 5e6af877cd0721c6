ghost use Rattle.std.specs.Prelude.{◌≡◌, suc, drop, None, Some, IfOk, IfSome};
ghost use Rattle.std.specs.Option.{option_map};
ghost use Rattle.ir_core.specs.declared.module.Module as modules;
ghost use Rattle.site_inliner.specs.Placed.{Whole, next_inlined, past_site, past, here, written, after_block, callee_of};
ghost use Rattle.site_inliner.specs.Extents.{extent};
ghost use Rattle.site_inliner.specs.Points.{point, HasExtents, IsCallee};

use crate::extents::{Extent, sum};
use ir_core::LocalId;
use oi_base::{NoMemory, SiteId};
use shapes::Shape;
use std::rc::Rc;

/// A point in the text of a function: the numbers of the next site, of the next register and of the block, and the callees
/// that are still to come, with their extents.
#[derive(Clone, Copy)]
pub struct Point<'a> {
    pub site: u32,
    pub reg: u32,
    pub block: u32,
    pub left: &'a [(SiteId, Rc<Shape>)],
    pub extents: &'a [Extent],
}

/// A callee that is inlined, with the extents of its shapes.
#[derive(Clone, Copy)]
pub struct Callee<'a> {
    pub shape: &'a Shape,
    pub extent: Extent,
    pub extents: &'a [Extent],
}

impl<'a> Point<'a> {
    /// The callee that is inlined at the next site.
    pub fn next_callee(&self) -> Option<Callee<'a>>
        ensures callee { (m : modules.Module) (all : Whole) → HasExtents m self.now → option_map (λ c. callee_of m all self.now.site c.shape.now) result ≡ next_inlined (point m all self.now) }
        ensures extents { (m : modules.Module) → HasExtents m self.now → IfSome result (IsCallee m self.now) }
    {
        let left = self.left;
        match (left.first(), self.extents.first()) {
            (Some(entry), Some(extent)) => {
                if entry.0.0 == self.site {
                    Some(Callee {
                        shape: &entry.1,
                        extent: *extent,
                        extents: self.extents,
                    })
                } else {
                    None
                }
            }
            _ => None,
        }
    }

    /// The callee that is inlined where the next instruction is a site or not.
    pub fn here(&self, is_site: bool) -> Option<Callee<'a>>
        ensures callee { (m : modules.Module) (all : Whole) → HasExtents m self.now → option_map (λ c. callee_of m all self.now.site c.shape.now) result ≡ here (point m all self.now) is_site }
        ensures extents { (m : modules.Module) → HasExtents m self.now → IfSome result (IsCallee m self.now) }
    {
        if is_site { self.next_callee() } else { None }
    }

    /// After the callee, or the call, where there is a site.
    pub fn past(self, is_site: bool) -> Result<Point<'a>, NoMemory>
        ensures point { (m : modules.Module) (all : Whole) → HasExtents m self.entry → IfOk result (λ q. point m all q ≡ past (point m all self.entry) is_site) }
        ensures extents { (m : modules.Module) → HasExtents m self.entry → IfOk result (HasExtents m) }
    {
        if !is_site {
            return Ok(self);
        }
        match self.next_callee() {
            Some(callee) => self.past_callee(callee),
            None => Ok(Point {
                site: sum(self.site, 1)?,
                reg: self.reg,
                block: self.block,
                left: self.left,
                extents: self.extents,
            }),
        }
    }

    fn past_callee(self, callee: Callee<'a>) -> Result<Point<'a>, NoMemory>
        ensures point { (m : modules.Module) (all : Whole) → IsCallee m self.entry callee.entry → IfOk result (λ q. point m all q ≡ past_site (point m all self.entry) (Some (callee_of m all self.entry.site callee.entry.shape.now))) }
        ensures extents { (m : modules.Module) → IsCallee m self.entry callee.entry → IfOk result (HasExtents m) }
    {
        let extent = callee.extent;
        Ok(Point {
            site: sum(self.site, 1)?,
            reg: sum(self.reg, extent.regs)?,
            block: sum(self.block, sum(extent.blocks, 1)?)?,
            left: rest(self.left, 1),
            extents: rest(self.extents, extent.shapes),
        })
    }

    /// After a result.
    pub fn written(self, result_name: Option<LocalId>) -> Result<Point<'a>, NoMemory>
        ensures point { (m : modules.Module) (all : Whole) → IfOk result (λ q. point m all q ≡ written (point m all self.entry) result_name) }
        ensures extents { (m : modules.Module) → HasExtents m self.entry → IfOk result (HasExtents m) }
    {
        match result_name {
            None => Ok(self),
            Some(_) => Ok(Point {
                site: self.site,
                reg: sum(self.reg, 1)?,
                block: self.block,
                left: self.left,
                extents: self.extents,
            }),
        }
    }

    /// At the begin of the next block.
    pub fn next_block(self) -> Result<Point<'a>, NoMemory>
        ensures point { (m : modules.Module) (all : Whole) → IfOk result (λ q. point m all q ≡ after_block (point m all self.entry)) }
        ensures extents { (m : modules.Module) → HasExtents m self.entry → IfOk result (HasExtents m) }
    {
        Ok(Point {
            site: self.site,
            reg: self.reg,
            block: sum(self.block, 1)?,
            left: self.left,
            extents: self.extents,
        })
    }
}

/// What is left after so many, at most all.
fn rest<T>(items: &[T], count: usize) -> &[T]
    ensures { result.now ≡ drop count items.now }
{
    if count <= items.len() {
        &items[count..]
    } else {
        &items[items.len()..]
    }
}
