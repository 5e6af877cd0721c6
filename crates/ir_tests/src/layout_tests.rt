use ir_core::{
    Case, Entry, FlatBlock, FlatBody, FlatEnd, FlatInstr, FlatOp, IrType, Module, NamedTypes, Phi,
    Short, TypeDef, TypeDefs, TypeName, align_of, field_offset, size_of, weight,
};
use oi_base::{BlockId, Boxed, Items, NoMemory, Place, RegId, Width};
use std::alloc::Global;
use std::process::Abort;
use std::test::Fail;

const I1: IrType = IrType::Int(Width::W1);

const I8: IrType = IrType::Int(Width::W8);

const I16: IrType = IrType::Int(Width::W16);

const I32: IrType = IrType::Int(Width::W32);

/// A type with its size, or none where it is too large, and its alignment.
#[derive(Drop)]
struct Row {
    ty: IrType,
    size: Option<u32>,
    align: u32,
}

fn add(rows: &mut Vec<Row>, ty: IrType, size: Option<u32>, align: u32) -> Result<(), NoMemory> {
    rows.push(Row { ty, size, align })?;
    Ok(())
}

fn array(alloc: Global, count: u32, item: IrType) -> Result<IrType, NoMemory> {
    Ok(IrType::Array(count, Boxed::new(alloc, item)?))
}

fn structure<const N: usize>(alloc: Global, fields: [IrType; N]) -> Result<IrType, NoMemory> {
    Ok(IrType::Struct(Items::from_vec(Vec::from_array(alloc, fields)?)))
}

fn named(name: u32) -> IrType {
    IrType::Named(TypeName(name))
}

fn define(defs: &mut Vec<TypeDef>, name: u32, ty: IrType) -> Result<(), NoMemory> {
    let place = Place { line: 1, column: 1 };
    defs.push(TypeDef {
        place,
        name: TypeName(name),
        ty,
    })?;
    Ok(())
}

/// A module of these definitions and nothing else.
fn module(alloc: Global, defs: Vec<TypeDef>) -> Result<Module, NoMemory> {
    let types = NamedTypes {
        names: Items::new(alloc),
        defs: TypeDefs::of(alloc, Items::from_vec(defs))?,
    };
    Ok(Module {
        symbols: Items::new(alloc),
        types,
        globals: Items::new(alloc),
        funcs: Items::new(alloc),
        declared: Items::new(alloc),
        layout: None,
        triple: None,
    })
}

/// So many arrays in one another, each of so many elements.
fn nested(alloc: Global, levels: u32, count: u32) -> Result<IrType, NoMemory> {
    let mut t = I8;
    for _ in 0..levels {
        t = array(alloc, count, t)?;
    }
    Ok(t)
}

/// So many names, each of which holds the next twice, with an empty field between.
fn chain(
    alloc: Global,
    defs: &mut Vec<TypeDef>,
    first: u32,
    length: u32,
    last: IrType,
) -> Result<(), NoMemory> {
    for name in first..first.saturating_add(length) {
        let none = structure(alloc, [])?;
        let both = structure(alloc, [named(name + 1), none, named(name + 1)])?;
        define(defs, name, both)?;
    }
    define(defs, first.saturating_add(length), last)
}

fn definitions(alloc: Global) -> Result<Vec<TypeDef>, NoMemory> {
    let mut defs = Vec::new(alloc);
    define(&mut defs, 0, structure(alloc, [I8, named(1)])?)?;
    define(&mut defs, 1, named(2))?;
    define(&mut defs, 2, structure(alloc, [I16, I8])?)?;
    define(&mut defs, 2, I32)?;
    define(&mut defs, 3, structure(alloc, [I8, named(4)])?)?;
    define(&mut defs, 4, array(alloc, 0, named(3))?)?;
    define(&mut defs, 5, structure(alloc, [named(3)])?)?;
    chains(alloc, &mut defs)?;
    Ok(defs)
}

fn chains(alloc: Global, defs: &mut Vec<TypeDef>) -> Result<(), NoMemory> {
    chain(alloc, defs, 100, 64, structure(alloc, [])?)?;
    chain(alloc, defs, 200, 64, I8)?;
    chain(alloc, defs, 300, 24, I8)?;
    chain(alloc, defs, 400, 23, I16)
}

fn structs(alloc: Global, rows: &mut Vec<Row>) -> Result<(), NoMemory> {
    add(rows, structure(alloc, [])?, Some(0), 1)?;
    add(rows, structure(alloc, [I8, I32])?, Some(8), 4)?;
    add(rows, structure(alloc, [I32, I8])?, Some(8), 4)?;
    add(rows, structure(alloc, [I8, I16, I1])?, Some(6), 2)?;
    add(
        rows,
        structure(alloc, [I1, IrType::Ptr, I16, I8, I32])?,
        Some(16),
        4,
    )
}

fn arrays(alloc: Global, rows: &mut Vec<Row>) -> Result<(), NoMemory> {
    add(
        rows,
        array(alloc, 3, structure(alloc, [I16, I8])?)?,
        Some(12),
        2,
    )?;
    add(rows, array(alloc, 0, I32)?, Some(0), 4)?;
    add(
        rows,
        structure(alloc, [I8, array(alloc, 0, I32)?])?,
        Some(4),
        4,
    )?;
    add(rows, nested(alloc, 64, 4_294_967_295)?, None, 1)?;
    add(
        rows,
        array(alloc, 0, nested(alloc, 63, 4_294_967_295)?)?,
        Some(0),
        1,
    )
}

fn large(alloc: Global, rows: &mut Vec<Row>) -> Result<(), NoMemory> {
    add(rows, array(alloc, 16_777_216, I8)?, Some(16_777_216), 1)?;
    add(rows, array(alloc, 16_777_217, I8)?, None, 1)?;
    add(rows, array(alloc, 4_194_304, I32)?, Some(16_777_216), 4)?;
    add(
        rows,
        structure(alloc, [array(alloc, 16_777_213, I8)?, I32])?,
        None,
        4,
    )
}

fn names(rows: &mut Vec<Row>) -> Result<(), NoMemory> {
    add(rows, named(0), Some(6), 2)?;
    add(rows, named(100), Some(0), 1)?;
    add(rows, named(200), None, 1)?;
    add(rows, named(300), Some(16_777_216), 1)?;
    add(rows, named(400), Some(16_777_216), 2)
}

/// The type's fields, by their numbers, stand at these offsets.
fn offsets_of(rt: &impl Abort, m: &Module, t: &IrType, offsets: &[(u32, u32)]) {
    assert!(rt; m.types.defs.has_layout(t));
    assert!(rt; size_of(m, t).is_ok());
    assert_eq!(rt; m.types.defs.fields(t).len(), offsets.len());
    for (index, offset) in offsets {
        assert!(rt; (*index as usize) < m.types.defs.fields(t).len());
        assert_eq!(rt; field_offset(m, t, *index), *offset);
    }
}

fn all_rows(alloc: Global) -> Result<Vec<Row>, NoMemory> {
    let mut rows = Vec::new(alloc);
    structs(alloc, &mut rows)?;
    arrays(alloc, &mut rows)?;
    large(alloc, &mut rows)?;
    names(&mut rows)?;
    Ok(rows)
}

fn measured(rt: &impl Abort, m: &Module, row: &Row) {
    assert!(rt; m.types.defs.has_layout(&row.ty));
    assert_eq!(rt; size_of(m, &row.ty).ok(), row.size);
    assert_eq!(rt; align_of(m, &row.ty), row.align);
}

fn placed(rt: &impl Abort, alloc: Global, m: &Module) -> Result<(), NoMemory> {
    let mixed = structure(alloc, [I1, IrType::Ptr, I16, I8, I32])?;
    let places = [(0, 0), (1, 4), (2, 8), (3, 10), (4, 12)];
    offsets_of(rt, m, &mixed, &places);
    let padded = structure(alloc, [I8, array(alloc, 0, I32)?])?;
    offsets_of(rt, m, &padded, &[(0, 0), (1, 4)]);
    Ok(())
}

/// The names 3 to 5 lead back to 3, and 6 is not defined.
fn not_measured(rt: &impl Abort, alloc: Global, m: &Module) -> Result<(), NoMemory> {
    for name in [3, 4, 5, 6] {
        assert!(rt; !m.types.defs.has_layout(&named(name)));
    }
    let void = structure(alloc, [I8, IrType::Void])?;
    assert!(rt; !m.types.defs.has_layout(&void));
    Ok(())
}

#[test]
fn sizes_of_types(rt: HostRuntime) -> Result<(), Fail> {
    let alloc = rt.alloc();
    let m = module(alloc, definitions(alloc)?)?;
    let rows = all_rows(alloc)?;
    for row in &rows {
        measured(&rt, &m, row);
    }
    placed(&rt, alloc, &m)?;
    not_measured(&rt, alloc, &m)?;
    offsets_of(&rt, &m, &named(0), &[(0, 0), (1, 2)]);
    offsets_of(&rt, &m, &named(1), &[(0, 0), (1, 2)]);
    let halves = [(0, 0), (1, 8_388_608), (2, 8_388_608)];
    offsets_of(&rt, &m, &named(300), &halves);
    Ok(())
}

/// The names 0, 1, 2 and 10 stand for `i16`; 3 and 4 for one another, 5 for 3, 6 for itself, and 9 is not defined.
fn chained(alloc: Global) -> Result<TypeDefs, NoMemory> {
    let mut defs = Vec::new(alloc);
    define(&mut defs, 10, named(0))?;
    define(&mut defs, 8, structure(alloc, [named(0)])?)?;
    define(&mut defs, 2, I16)?;
    define(&mut defs, 2, I8)?;
    for (name, next) in [(0, 1), (1, 2), (3, 4), (4, 3), (5, 3), (6, 6), (7, 9)] {
        define(&mut defs, name, named(next))?;
    }
    TypeDefs::of(alloc, Items::from_vec(defs))
}

/// A name that leads to itself is followed eleven times, as many as there are definitions.
#[test]
fn ends_of_chains(rt: HostRuntime) -> Result<(), Fail> {
    let defs = chained(rt.alloc())?;
    for name in [0, 1, 2, 10] {
        let t = named(name);
        assert!(rt; matches!(defs.resolved(&t), IrType::Int(Width::W16)));
    }
    for (name, end) in [(3, 4), (4, 3), (5, 3), (6, 6), (7, 9), (9, 9), (11, 11)] {
        let t = named(name);
        match defs.resolved(&t) {
            IrType::Named(last) => assert_eq!(rt; last.0, end),
            _ => assert!(rt; false),
        }
    }
    let t = named(8);
    assert!(rt; matches!(defs.resolved(&t), IrType::Struct(_)));
    assert!(rt; matches!(defs.resolved(&IrType::Ptr), IrType::Ptr));
    Ok(())
}

fn switch(alloc: Global) -> Result<FlatEnd, NoMemory> {
    let mut cases = Items::new(alloc);
    cases.push(Case {
        word: 1,
        to: BlockId(0),
    })?;
    cases.push(Case {
        word: 2,
        to: BlockId(1),
    })?;
    Ok(FlatEnd::Switch(FlatOp::Reg(RegId(1)), Width::W8, cases, BlockId(0)))
}

#[test]
fn weights_of_bodies(rt: HostRuntime) -> Result<(), Fail> {
    let alloc = rt.alloc();
    let mut entries = Short::new(alloc);
    for from in 0..3 {
        entries.push(Entry {
            from: BlockId(from),
            value: FlatOp::Word(0),
        })?;
    }
    let mut phis = Items::new(alloc);
    phis.push(Phi {
        reg: RegId(0),
        entries,
    })?;
    let mut code = Items::new(alloc);
    code.push(FlatInstr::Get(None))?;
    code.push(FlatInstr::Copy(RegId(1), FlatOp::Reg(RegId(0))))?;
    let mut blocks = Items::new(alloc);
    blocks.push(FlatBlock {
        phis,
        code,
        end: switch(alloc)?,
    })?;
    blocks.push(FlatBlock {
        phis: Items::new(alloc),
        code: Items::new(alloc),
        end: FlatEnd::Unreachable,
    })?;
    assert_eq!(rt;
        weight(&FlatBody {
            params: 0,
            regs: 2,
            blocks
        }),
        9
    );
    Ok(())
}
