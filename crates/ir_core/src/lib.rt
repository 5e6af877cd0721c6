//! A module of the accepted IR, its types' sizes and alignments, and flat bodies.
#![tactic(auto)]

mod chains;
mod constant;
mod defs;
mod flat;
mod flat_parts;
mod func;
mod laws;
mod layout;
mod limits;
mod module;
mod nth;
mod op;
mod opcodes;
mod parts;
mod rule;
mod short;
mod sizes;
mod ty;
mod verified;
mod weigh;

pub use constant::{Const, Indices, TypedConst, TypedConsts, TypedCount};
pub use defs::TypeDefs;
pub use flat::{
    Args, BinOp, Case, Cases, CastOp, Cmp, Entries, Entry, FlatBlock, FlatBlocks, FlatBody,
    FlatCode, FlatEnd, FlatInstr, FlatOp, Phi, Phis, Scalar, Term, Terms,
};
pub use func::{Block, Blocks, Func, Funcs, Instr, Instrs, Param, Params};
pub use laws::{
    acyclic_types_have_layouts, flat_output_only_grows, plain_bodies_run_as_the_source,
    types_with_layouts_are_acyclic, worked_runs,
};
pub use limits::{
    LARGEST, MOST_DATA, MOST_FUNCTIONS, MOST_LENGTH, MOST_LEVELS, MOST_NAME_BYTES, MOST_PARAMS,
    MOST_SITES, NAME_EXTRA,
};
pub use module::{Declaration, Declared, GlobalVar, Globals, Module, NamedTypes, SymId, Texts};
pub use op::{
    End, LocalId, Op, Operand, Pair, Pairs, SwitchCase, SwitchCases, TypedOperand, TypedOperands,
};
pub use opcodes::{BIN_OPS, CAST_OPS, CMPS};
pub use parts::{ResultType, TypedRef};
pub use rule::{FuncRule, ModuleRule, Rule};
pub use short::Short;
pub use sizes::{TypeTooLarge, align_of, field_offset, size_of};
pub use ty::{IrType, TypeDef, TypeName, Types};
pub use verified::Verified;
pub use weigh::weight;
