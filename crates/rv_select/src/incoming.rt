ghost use Rattle.std.specs.Prelude.{◌≡◌, ℕ, [], ◌&&◌, ◌==◌, if◌then◌else◌, Some, None, slice_get, IfOk, OnOk};
ghost use Rattle.ir_core.specs.Flat.{entry_for};
ghost use Rattle.rv_select.specs.Incoming.{value_at, value_for, HasIncoming};

use ir_core::{Entry, FlatBlock, FlatOp, Phi};
use oi_base::NoMemory;
use std::alloc::Global;
use std::collections::HashMap;
use std::marker::Model;

/// The values that the phis of a body take, by the number of the phi's block, the phi's position there, and the number
/// of the block that control comes from. Contracts see the list of them.
#[derive(Drop)]
pub struct Incoming {
    values: HashMap<(usize, usize, usize), FlatOp>,
}

impl Model for Incoming {
    ghost use Rattle.std.specs.Prelude.{List};
    ghost use Rattle.ir_core.specs.declared.flat.FlatOp.{FlatOp};
    ghost use Rattle.rv_select.specs.Incoming.{PhiEdge};

    ghost Value = { List (PhiEdge × FlatOp) };

    ghost view = { λ i. i.values.entries };
}

impl Incoming {
    /// The values of all phis of a body.
    pub fn of_blocks(alloc: Global, blocks: &[FlatBlock]) -> Result<Incoming, NoMemory>
        ensures { IfOk result (λ values. HasIncoming values blocks.now) }
    {
        let mut incoming = Incoming {
            values: HashMap::new(alloc),
        };
        for (to, block) in blocks.iter().enumerate() {
            incoming.add_phis(to, block.phis.as_slice())?;
        }
        Ok(incoming)
    }

    /// The value of the phi at a position of block `to` where control comes from block `from`.
    pub fn get(&self, to: usize, position: usize, from: usize) -> Option<FlatOp>
        ensures { result ≡ value_at self.now to position from }
    {
        self.values.get(&(to, position, from)).copied()
    }

    fn set(
        &mut self,
        to: usize,
        position: usize,
        from: usize,
        value: FlatOp,
    ) -> Result<(), NoMemory>
        ensures { OnOk result ((b p n : ℕ) → value_at self.new b p n ≡ (if to == b && position == p && from == n then Some value else value_at self.old b p n)) }
    {
        self.values.insert((to, position, from), value)?;
        Ok(())
    }

    /// Adds the values of the phi at a position of block `to`. The first entry for a block counts, so the last comes first.
    fn add_entries(&mut self, to: usize, position: usize, entries: &[Entry]) -> Result<(), NoMemory>
        requires { (n : ℕ) → value_at self.old to position n ≡ None }
        ensures { OnOk result ((b p n : ℕ) → value_at self.new b p n ≡ (if to == b && position == p then entry_for n entries.now else value_at self.old b p n)) }
    {
        for i in (0..entries.len()).rev() {
            let entry = entries[i];
            self.set(to, position, entry.from.0 as usize, entry.value)?;
        }
        Ok(())
    }

    /// Adds the values of the phis of block `to`.
    fn add_phis(&mut self, to: usize, phis: &[Phi]) -> Result<(), NoMemory>
        requires { (p n : ℕ) → value_at self.old to p n ≡ None }
        ensures { OnOk result ((b p n : ℕ) → value_at self.new b p n ≡ (if to == b then value_for n (slice_get phis.now p) else value_at self.old b p n)) }
    {
        for (position, phi) in phis.iter().enumerate() {
            self.add_entries(to, position, phi.entries.as_slice())?;
        }
        Ok(())
    }
}
