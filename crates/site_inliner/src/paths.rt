ghost use Rattle.std.specs.Prelude.{◌≡◌, ◌%◌, ◌++◌, map, IfOk, OnOk};
ghost use Rattle.ir_core.specs.Constants.{Index, width_of, walk};
ghost use Rattle.ir_core.specs.Instructions.{typed, index};
ghost use Rattle.ir_core.specs.Plain.{other_term, numbers};
ghost use Rattle.site_inliner.specs.Measured.{IsMeasured, IsMeasuredValue, AreMeasured};
ghost use Rattle.site_inliner.specs.Parts.{path_in, terms_in};
ghost use Rattle.site_inliner.specs.Steps.{path_of};

use crate::locals::Locals;
use crate::offsets::{Inward, step, step_inside};
use crate::operands::{field_number, width_of};
use ir_core::{IrType, Term, Terms, TypedOperand};
use module_rules::size_up_to;
use oi_base::{Items, NoMemory};
use std::alloc::Global;

/// What the indices of a `getelementptr` add to its base: bytes, modulo two to the 32, and terms.
#[derive(Drop)]
pub struct Path {
    pub bytes: u32,
    pub terms: Terms,
}

impl<'a> Locals<'a> {
    pub fn path(
        &self,
        alloc: Global,
        source: &IrType,
        indices: &[TypedOperand],
    ) -> Result<Path, NoMemory>
        requires measured { IsMeasured self.now.source.types.defs source.now }
        requires values { AreMeasured self.now.source.types.defs indices.now }
        ensures bytes { IfOk result (λ p. p.bytes ≡ (path_in self.now source.now indices.now).bytes % 4294967296) }
        ensures terms { IfOk result (λ p. p.terms ≡ terms_in self.now (path_in self.now source.now indices.now).terms) }
    {
        let mut terms = Items::new(alloc);
        match indices {
            [first, rest @ ..] => {
                terms.push(self.term(first, size_up_to(self.source(), source)))?;
                let bytes = self.walk(source, rest, &mut terms)?;
                Ok(Path { bytes, terms })
            }
            [] => Ok(Path { bytes: 0, terms }),
        }
    }

    /// An index over things of a size.
    fn term(&self, index: &TypedOperand, stride: u32) -> Term
        requires measured { IsMeasuredValue self.now.source.types.defs index.now.value }
        ensures { result ≡ other_term (numbers self.now.func) (record { operand = typed self.now.source index.now; width = width_of index.now.ty; stride = stride }) }
    {
        Term {
            operand: self.typed(index),
            width: width_of(&index.ty),
            stride,
        }
    }

    /// Adds the terms of the indices after the first, and gives the bytes of the fields to which they lead.
    fn walk(
        &self,
        source: &IrType,
        indices: &[TypedOperand],
        terms: &mut Terms,
    ) -> Result<u32, NoMemory>
        requires measured { IsMeasured self.now.source.types.defs source.now }
        requires values { AreMeasured self.now.source.types.defs indices.now }
        ensures bytes { IfOk result (λ b. b ≡ (walk self.now.source.types.defs source.now (map (index self.now.source) indices.now)).bytes % 4294967296) }
        ensures terms { OnOk result (terms.new ≡ terms.old ++ terms_in self.now (walk self.now.source.types.defs source.now (map (index self.now.source) indices.now)).terms) }
    {
        let mut at = source;
        let mut bytes: u32 = 0;
        for index in indices {
            let step = step(self.source(), at, field_number(self.typed(index)));
            bytes = bytes.wrapping_add(field_bytes(step));
            self.add_terms(step, index, terms)?;
            match step_inside(step) {
                Some(inner) => at = inner,
                None => return Ok(bytes),
            }
        }
        Ok(bytes)
    }

    /// Adds the terms of a step with an index.
    fn add_terms(
        &self,
        step: Inward<'_>,
        operand: &TypedOperand,
        terms: &mut Terms,
    ) -> Result<(), NoMemory>
        requires measured { IsMeasuredValue self.now.source.types.defs operand.now.value }
        ensures { OnOk result (terms.new ≡ terms.old ++ terms_in self.now (path_of step.entry (index self.now.source operand.now)).terms) }
    {
        match step {
            Inward::Elements(stride, _) => {
                terms.push(self.term(operand, stride))?;
                Ok(())
            }
            Inward::Field(_, _) => Ok(()),
        }
    }
}

/// How many bytes a step adds by itself.
fn field_bytes(step: Inward<'_>) -> u32
    ensures { (i : Index) → result ≡ (path_of step.entry i).bytes }
{
    match step {
        Inward::Elements(_, _) => 0,
        Inward::Field(bytes, _) => bytes,
    }
}
