ghost use Rattle.std.specs.Prelude.{◌≡◌, ◌∷◌, ◌++◌, [], map, IfOk, OnOk};
ghost use Rattle.std.specs.List.{flat_map, list_all};
ghost use Rattle.ir_core.specs.Parts.{count_type, types_of, values_of, op_values, end_types, end_values, const_types};
ghost use Rattle.ir_core.specs.Operands.{Does, Ends};
ghost use Rattle.ir_core.specs.ValidTypes.{value_use, value_uses, op_uses, types_in_values, step_uses};
ghost use Rattle.module_rules.specs.Faults.{with_numbers};
ghost use Rattle.module_rules.specs.TypeFaults.{state, is_laid_name, type_number, is_bad_use, with_use, with_uses, no_uses, def_use, global_uses, code_uses, block_uses, func_uses_by_block, uses_of, typed_const_types};

use crate::first::earlier_if;
use crate::numbers::Numbers;
use crate::struct_names::emptied_defs;
use crate::type_parts::{is_void_wrongly, names_in};
use ir_core::{
    Block, Const, End, Func, GlobalVar, Instr, IrType, Module, Op, Operand, Pair, Param,
    SwitchCase, TypeDef, TypeDefs, TypeName, TypedConst, TypedCount, TypedOperand,
};
use oi_base::{NoMemory, Place};
use std::alloc::Global;

/// The names that stand in the types so far, and the first place at which one of these types has a `void` or a name
/// that stands for no struct. `emptied` has the definitions by which the latter is told.
#[derive(Drop)]
pub struct Uses {
    alloc: Global,
    emptied: TypeDefs,
    used: Numbers,
    first: Option<Place>,
}

impl Uses {
    fn new(alloc: Global, emptied: TypeDefs) -> Uses
        ensures { state result ≡ no_uses emptied }
    {
        Uses {
            alloc,
            emptied,
            used: Numbers::new(alloc),
            first: None,
        }
    }

    pub fn used(&self) -> &Numbers
        ensures { result.now ≡ self.now.used }
    {
        &self.used
    }

    pub fn first(&self) -> Option<Place>
        ensures { result ≡ self.now.first }
    {
        self.first
    }

    fn add(&mut self, place: Place, t: &IrType, is_result: bool) -> Result<(), NoMemory>
        ensures { OnOk result (state self.new ≡ with_use (state self.old) (record { place = place; ty = t.now; is_result = is_result })) }
    {
        let names = names_in(self.alloc, t)?;
        let is_bad = is_void_wrongly(t, is_result) || !all_laid(&self.emptied, names.as_slice());
        self.first = earlier_if(self.first, is_bad, place);
        add_names(&mut self.used, names.as_slice())
    }

    fn add_value(&mut self, place: Place, t: &IrType) -> Result<(), NoMemory>
        ensures { OnOk result (state self.new ≡ with_use (state self.old) (value_use place t.now)) }
    {
        self.add(place, t, false)
    }
}

/// Whether each name has a layout.
fn all_laid(emptied: &TypeDefs, names: &[TypeName]) -> bool
    ensures { result ≡ list_all (is_laid_name emptied.now) names.now }
{
    for name in names {
        if !emptied.has_layout(&IrType::Named(*name)) {
            return false;
        }
    }
    true
}

fn add_names(to: &mut Numbers, names: &[TypeName]) -> Result<(), NoMemory>
    ensures { OnOk result (to.new ≡ with_numbers to.old (map type_number names.now)) }
{
    for name in names {
        to.add(name.0)?;
    }
    Ok(())
}

/// What the types in a module say.
pub fn uses_in(alloc: Global, m: &Module) -> Result<Uses, NoMemory>
    ensures { IfOk result (λ s. state s ≡ uses_of m.now) }
{
    let emptied = emptied_defs(alloc, m.types.defs.as_slice())?;
    let mut uses = Uses::new(alloc, TypeDefs::of(alloc, emptied)?);
    add_defs(&mut uses, m.types.defs.as_slice())?;
    add_globals(&mut uses, m.globals.as_slice())?;
    add_funcs(&mut uses, m.funcs.as_slice())?;
    Ok(uses)
}

fn add_defs(to: &mut Uses, defs: &[TypeDef]) -> Result<(), NoMemory>
    ensures { OnOk result (state to.new ≡ with_uses (state to.old) (map def_use defs.now)) }
{
    for def in defs {
        to.add_value(def.place, &def.ty)?;
    }
    Ok(())
}

fn add_globals(to: &mut Uses, globals: &[GlobalVar]) -> Result<(), NoMemory>
    ensures { OnOk result (state to.new ≡ with_uses (state to.old) (flat_map global_uses globals.now)) }
{
    for global in globals {
        add_global(to, global)?;
    }
    Ok(())
}

fn add_global(to: &mut Uses, global: &GlobalVar) -> Result<(), NoMemory>
    ensures { OnOk result (state to.new ≡ with_uses (state to.old) (global_uses global.now)) }
{
    to.add_value(global.place, &global.ty)?;
    add_const(to, global.place, &global.init)
}

fn add_funcs(to: &mut Uses, funcs: &[Func]) -> Result<(), NoMemory>
    ensures { OnOk result (state to.new ≡ with_uses (state to.old) (flat_map func_uses_by_block funcs.now)) }
{
    for func in funcs {
        add_func(to, func)?;
    }
    Ok(())
}

fn add_func(to: &mut Uses, func: &Func) -> Result<(), NoMemory>
    ensures { OnOk result (state to.new ≡ with_uses (state to.old) (func_uses_by_block func.now)) }
{
    to.add(func.place, &func.result, true)?;
    add_params(to, func.place, func.params.as_slice())?;
    add_blocks(to, func.blocks.as_slice())
}

fn add_params(to: &mut Uses, place: Place, params: &[Param]) -> Result<(), NoMemory>
    ensures { OnOk result (state to.new ≡ with_uses (state to.old) (value_uses place (map (λ q. q.ty) params.now))) }
{
    for param in params {
        to.add_value(place, &param.ty)?;
    }
    Ok(())
}

fn add_blocks(to: &mut Uses, blocks: &[Block]) -> Result<(), NoMemory>
    ensures { OnOk result (state to.new ≡ with_uses (state to.old) (flat_map block_uses blocks.now)) }
{
    for block in blocks {
        add_code(to, block)?;
        add_end(to, block)?;
    }
    Ok(())
}

fn add_code(to: &mut Uses, block: &Block) -> Result<(), NoMemory>
    ensures { OnOk result (state to.new ≡ with_uses (state to.old) (code_uses block.now)) }
{
    for instr in block.code.as_slice() {
        add_instr(to, instr)?;
    }
    Ok(())
}

fn add_instr(to: &mut Uses, instr: &Instr) -> Result<(), NoMemory>
    ensures { OnOk result (state to.new ≡ with_uses (state to.old) (step_uses (Does instr.now))) }
{
    add_op_types(to, instr.place, &instr.op)?;
    add_op_consts(to, instr.place, &instr.op)
}

fn add_op_types(to: &mut Uses, place: Place, op: &Op) -> Result<(), NoMemory>
    ensures { OnOk result (state to.new ≡ with_uses (state to.old) (op_uses place op.now)) }
{
    match op {
        Op::Bin(_, t, _, _) | Op::Icmp(_, t, _, _) | Op::Phi(t, _) => to.add_value(place, t),
        Op::Select(c, a, b) => {
            to.add_value(place, &c.ty)?;
            to.add_value(place, &a.ty)?;
            to.add_value(place, &b.ty)
        }
        Op::Cast(_, a, t) => {
            to.add_value(place, &a.ty)?;
            to.add_value(place, t)
        }
        Op::Alloca(t, count, _) => {
            to.add_value(place, t)?;
            add_count(to, place, count)
        }
        Op::Load(t, a, _) => {
            to.add_value(place, t)?;
            to.add_value(place, &a.ty)
        }
        Op::Store(a, p, _) => {
            to.add_value(place, &a.ty)?;
            to.add_value(place, &p.ty)
        }
        Op::Gep(t, a, indices) => {
            to.add_value(place, t)?;
            to.add_value(place, &a.ty)?;
            add_operand_types(to, place, indices.as_slice())
        }
        Op::Call(t, _, arguments) => {
            to.add(place, t, true)?;
            add_operand_types(to, place, arguments.as_slice())
        }
    }
}

fn add_count(to: &mut Uses, place: Place, count: &Option<TypedCount>) -> Result<(), NoMemory>
    ensures { OnOk result (state to.new ≡ with_uses (state to.old) (value_uses place (count_type count.now))) }
{
    match count {
        Some(count) => to.add_value(place, &count.ty),
        None => Ok(()),
    }
}

fn add_operand_types(to: &mut Uses, place: Place, operands: &[TypedOperand]) -> Result<(), NoMemory>
    ensures { OnOk result (state to.new ≡ with_uses (state to.old) (value_uses place (types_of operands.now))) }
{
    for operand in operands {
        to.add_value(place, &operand.ty)?;
    }
    Ok(())
}

fn add_op_consts(to: &mut Uses, place: Place, op: &Op) -> Result<(), NoMemory>
    ensures { OnOk result (state to.new ≡ with_uses (state to.old) (value_uses place (types_in_values (op_values op.now)))) }
{
    match op {
        Op::Bin(_, _, a, b) | Op::Icmp(_, _, a, b) => {
            add_operand(to, place, a)?;
            add_operand(to, place, b)
        }
        Op::Select(c, a, b) => {
            add_operand(to, place, &c.value)?;
            add_operand(to, place, &a.value)?;
            add_operand(to, place, &b.value)
        }
        Op::Cast(_, a, _) | Op::Load(_, a, _) => add_operand(to, place, &a.value),
        Op::Alloca(_, _, _) => Ok(()),
        Op::Store(a, p, _) => {
            add_operand(to, place, &a.value)?;
            add_operand(to, place, &p.value)
        }
        Op::Gep(_, a, indices) => {
            add_operand(to, place, &a.value)?;
            add_operands(to, place, indices.as_slice())
        }
        Op::Phi(_, entries) => add_entries(to, place, entries.as_slice()),
        Op::Call(_, _, arguments) => add_operands(to, place, arguments.as_slice()),
    }
}

fn add_operands(to: &mut Uses, place: Place, operands: &[TypedOperand]) -> Result<(), NoMemory>
    ensures { OnOk result (state to.new ≡ with_uses (state to.old) (value_uses place (types_in_values (values_of operands.now)))) }
{
    for operand in operands {
        add_operand(to, place, &operand.value)?;
    }
    Ok(())
}

fn add_entries(to: &mut Uses, place: Place, entries: &[Pair]) -> Result<(), NoMemory>
    ensures { OnOk result (state to.new ≡ with_uses (state to.old) (value_uses place (types_in_values (map (λ e. e.value) entries.now)))) }
{
    for entry in entries {
        add_operand(to, place, &entry.value)?;
    }
    Ok(())
}

fn add_operand(to: &mut Uses, place: Place, value: &Operand) -> Result<(), NoMemory>
    ensures { OnOk result (state to.new ≡ with_uses (state to.old) (value_uses place (types_in_values (value.now ∷ [])))) }
{
    match value {
        Operand::Local(_) => Ok(()),
        Operand::Const(constant) => add_const(to, place, constant),
    }
}

fn add_end(to: &mut Uses, block: &Block) -> Result<(), NoMemory>
    ensures { OnOk result (state to.new ≡ with_uses (state to.old) (step_uses (Ends block.now))) }
{
    add_end_types(to, block.end_place, &block.end)?;
    add_end_consts(to, block.end_place, &block.end)
}

fn add_end_types(to: &mut Uses, place: Place, end: &End) -> Result<(), NoMemory>
    ensures { OnOk result (state to.new ≡ with_uses (state to.old) (value_uses place (end_types end.now))) }
{
    match end {
        End::Ret(None) | End::Br(_) | End::Unreachable => Ok(()),
        End::Ret(Some(a)) | End::Cond(a, _, _) => to.add_value(place, &a.ty),
        End::Switch(a, _, cases) => {
            to.add_value(place, &a.ty)?;
            add_case_types(to, place, cases.as_slice())
        }
    }
}

fn add_case_types(to: &mut Uses, place: Place, cases: &[SwitchCase]) -> Result<(), NoMemory>
    ensures { OnOk result (state to.new ≡ with_uses (state to.old) (value_uses place (map (λ c. c.value.ty) cases.now))) }
{
    for case in cases {
        to.add_value(place, &case.value.ty)?;
    }
    Ok(())
}

fn add_end_consts(to: &mut Uses, place: Place, end: &End) -> Result<(), NoMemory>
    ensures { OnOk result (state to.new ≡ with_uses (state to.old) (value_uses place (types_in_values (end_values end.now)))) }
{
    match end {
        End::Ret(None) | End::Br(_) | End::Unreachable => Ok(()),
        End::Ret(Some(a)) | End::Cond(a, _, _) => add_operand(to, place, &a.value),
        End::Switch(a, _, cases) => {
            add_operand(to, place, &a.value)?;
            add_cases(to, place, cases.as_slice())
        }
    }
}

fn add_cases(to: &mut Uses, place: Place, cases: &[SwitchCase]) -> Result<(), NoMemory>
    ensures { OnOk result (state to.new ≡ with_uses (state to.old) (value_uses place (types_in_values (map (λ c. c.value.value) cases.now)))) }
{
    for case in cases {
        add_operand(to, place, &case.value.value)?;
    }
    Ok(())
}

#[cycle(consts)]
fn add_const(to: &mut Uses, place: Place, constant: &Const) -> Result<(), NoMemory>
    ensures { OnOk result (state to.new ≡ with_uses (state to.old) (value_uses place (const_types constant.now))) }
{
    match constant {
        Const::Gep(source, _, indices) => {
            to.add_value(place, source)?;
            add_counts(to, place, indices.as_slice())
        }
        Const::Array(items) => add_consts(to, place, items.as_slice()),
        Const::Struct(fields) => add_consts(to, place, fields.as_slice()),
        _ => Ok(()),
    }
}

#[cycle(consts)]
fn add_consts(to: &mut Uses, place: Place, constants: &[TypedConst]) -> Result<(), NoMemory>
    ensures { OnOk result (state to.new ≡ with_uses (state to.old) (value_uses place (flat_map typed_const_types constants.now))) }
{
    for constant in constants {
        to.add_value(place, &constant.ty)?;
        add_const(to, place, &constant.value)?;
    }
    Ok(())
}

fn add_counts(to: &mut Uses, place: Place, counts: &[TypedCount]) -> Result<(), NoMemory>
    ensures { OnOk result (state to.new ≡ with_uses (state to.old) (value_uses place (map (λ n. n.ty) counts.now))) }
{
    for count in counts {
        to.add_value(place, &count.ty)?;
    }
    Ok(())
}
