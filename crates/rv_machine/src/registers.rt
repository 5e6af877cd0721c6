ghost use Rattle.std.specs.Prelude.{◌≡◌, nat_eq, if◌then◌else◌};
ghost use Rattle.rv_isa.specs.Memory.{stack_end};
ghost use Rattle.rv_isa.specs.Isa.{x, with_register};
ghost use Rattle.rv_machine.specs.Bytes.{held};

use rv_isa::{STACK_END, X};
use std::marker::Model;

/// The integer registers. Contracts see the list of what was last written to each; `x0` reads zero,
/// whatever was written to it.
#[derive(Drop)]
pub struct Registers {
    words: [u32; 32],
}

impl Model for Registers {
    ghost use Rattle.std.specs.Prelude.{ℕ, List};

    ghost Value = { List ℕ };

    ghost view = { λ r. r.words };
}

impl Registers {
    /// The registers at load: `sp` has the end of the stack, and all else is zero.
    pub fn at_load() -> Registers
        ensures { held result ≡ (λ q. if nat_eq q 2 then stack_end else 0) }
    {
        let mut words = [0; 32];
        words[2] = STACK_END;
        Registers { words }
    }

    /// What a register reads.
    pub fn read(&self, register: X) -> u32
        ensures { result ≡ x (held self.now) register }
    {
        match register.number() {
            0 => 0,
            number => self.words[usize::from(number)],
        }
    }

    /// Writes a word to a register.
    pub fn write(&mut self, register: X, word: u32)
        ensures { held self.new ≡ with_register (held self.old) register word }
    {
        self.words[usize::from(register.number())] = word;
    }
}
