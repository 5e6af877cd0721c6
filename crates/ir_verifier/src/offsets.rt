ghost use Rattle.std.specs.Prelude.{◌≡◌, ◌%◌, ◌+◌, ◌≤◌, ℕ, Some, map};
ghost use Rattle.ir_core.specs.declared.limits.TheConstants.{LARGEST};
ghost use Rattle.ir_core.specs.declared.ty.IrType.{IrType as types, out-IrType};
ghost use Rattle.ir_core.specs.Sizes.{IsLaid, size};
ghost use Rattle.ir_core.specs.ValidTypes.{IsTooLarge};
ghost use Rattle.ir_core.specs.ValidConsts.{FitsType, Walk, ConstWalk, IndicesFit, GoesInto, const_index, plain, index_moves, distance_by, distance_into, gep_offset};

use ir_core::{IrType, Module, TypedCount, field_offset, size_of};
use module_rules::{next_by, word_of};
use oi_base::sext;

/// How far a constant `getelementptr` leads from its global, modulo two to the 32.
pub fn gep_offset(m: &Module, source: &IrType, indices: &[TypedCount]) -> u32
    requires laid { IsLaid m.now.types.defs source.now }
    requires small { IsTooLarge m.now.types.defs source.now → ⊥ }
    requires walk { ConstWalk m.now.types.defs source.now indices.now }
    requires fit { IndicesFit indices.now }
    ensures { result ≡ gep_offset m.now.types.defs source.now indices.now }
{
    if indices.is_empty() {
        return 0;
    }
    let first = moves(m, &indices[0], source);
    first.wrapping_add(distance_into(m, source, &indices[1..]))
}

/// How far the indices after the first lead into a type.
fn distance_into(m: &Module, source: &IrType, indices: &[TypedCount]) -> u32
    requires laid { IsLaid m.now.types.defs source.now }
    requires small { IsTooLarge m.now.types.defs source.now → ⊥ }
    requires walk { Walk m.now.types.defs source.now (map const_index indices.now) }
    requires fit { IndicesFit indices.now }
    ensures { result ≡ distance_into m.now.types.defs source.now indices.now % 4294967296 }
{
    let mut at = source;
    let mut distance = 0u32;
    for index in indices {
        distance = distance.wrapping_add(distance_by(m, at, index));
        match next_by(&m.types.defs, at, index) {
            Some(inner) => at = inner,
            None => return distance,
        }
    }
    distance
}

/// How far one index leads into a type.
fn distance_by(m: &Module, at: &IrType, index: &TypedCount) -> u32
    requires laid { IsLaid m.now.types.defs at.now }
    requires small { IsTooLarge m.now.types.defs at.now → ⊥ }
    requires leads { (u : types) × GoesInto m.now.types.defs at.now (const_index index.now) u }
    requires fits { FitsType index.now.ty index.now.count }
    ensures { (u : types) → GoesInto m.now.types.defs at.now (const_index index.now) u → (on : types → ℕ) → distance_by m.now.types.defs at.now index.now on (out-IrType (plain m.now.types.defs at.now)) ≡ result + on u }
{
    match m.types.defs.resolved(at) {
        IrType::Array(_, item) => moves(m, index, item.get()),
        IrType::Struct(_) => field_offset(m, at, index.count as u32),
        _ => 0,
    }
}

/// How far an index leads over elements of a type.
fn moves(m: &Module, index: &TypedCount, t: &IrType) -> u32
    requires laid { IsLaid m.now.types.defs t.now }
    requires small { size m.now.types.defs t.now ≤ LARGEST }
    ensures { result ≡ index_moves index.now.ty index.now.count (size m.now.types.defs t.now) }
{
    match (&index.ty, size_of(m, t)) {
        (IrType::Int(w), Ok(stride)) => sext(*w, word_of(*w, index.count)).wrapping_mul(stride),
        _ => 0,
    }
}
