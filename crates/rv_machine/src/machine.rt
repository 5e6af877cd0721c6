ghost use Rattle.std.specs.Prelude.{◌≡◌, ◌≢◌, ◌+◌, ◌^◌, ◌<◌, ◌≤◌, ℕ, List, length, IfOk, IsTrue, ◌↔◌};
ghost use Rattle.std.specs.Fn.{iterate};
ghost use Rattle.rv_isa.specs.Memory.{Segments};
ghost use Rattle.rv_isa.specs.Isa as effect;
ghost use Rattle.rv_isa.specs.Isa.{Exit, stopped, sets, got, called, executed, applied, step};
ghost use Rattle.rv_machine.specs.Bytes.{size_of};
ghost use Rattle.rv_machine.specs.Effects.{effect_of, extended};
ghost use Rattle.rv_machine.specs.Memory.{segments_of, KeepsText};
ghost use Rattle.elf_object.specs.Image.{loaded_segments};
ghost use Rattle.rv_machine.specs.State.{Bounded, IsFault, advanced, bounded, machine_of, started, stop_of, told, turned, Stands};
ghost use Rattle.rv_machine.specs.declared.stop.Stop.TheVariants as halt;

use crate::bytes::Size;
use crate::effect::{Effect, Extension, effect_of};
use crate::memory::Memory;
use crate::registers::Registers;
use crate::stop::Stop;
use crate::streams::Streams;
use elf_object::Image;
use oi_base::{NoMemory, Text, Width, sext};
use rv_isa::{EBREAK_WORD, Rv, TEXT_START, X};
use std::alloc::Global;
use std::marker::Model;

/// A machine with an image in its memory.
#[derive(Drop)]
pub struct Machine {
    memory: Memory,
    registers: Registers,
    streams: Streams,
    pc: u32,
    stop: Stop,
    steps: u64,
}

impl Model for Machine {
    ghost use Rattle.std.specs.Prelude.{◌≤◌, length};
    ghost use Rattle.rv_machine.specs.State.{State, output_room};

    ghost Value = { State };

    ghost view = { λ m. record { contents = m.memory; registers = m.registers; pc = m.pc; input = m.streams.input; output = m.streams.output; stop = m.stop; steps = m.steps } };

    ghost invariant = { λ m. length m.streams.output ≤ output_room };
}

impl Machine {
    /// A machine at load of an image, with what can be got. All memory is taken here.
    pub fn load(alloc: Global, image: &Image, input: Text) -> Result<Machine, NoMemory>
        ensures state { IfOk result (λ m. Stands (loaded_segments image.now) m (started (loaded_segments image.now) input)) }
        ensures steps { IfOk result (λ m. m.steps ≡ 0) }
    {
        Ok(Machine {
            memory: Memory::at_load(alloc, image)?,
            registers: Registers::at_load(),
            streams: Streams::new(alloc, input)?,
            pc: TEXT_START,
            stop: Stop::Running,
            steps: 0,
        })
    }

    /// Takes one turn, and answers how the machine then stands. A machine that stopped does nothing.
    pub fn step(&mut self) -> Stop
        requires { self.old.steps + 1 < 2 ^ 64 }
        ensures turn { (s : Segments) (b : Bounded) → Stands s self.old b → Stands s self.new (turned s b) }
        ensures stop { result ≡ told (bounded self.new) }
        ensures stays { self.old.stop ≢ halt.Running → self.new ≡ self.old }
        ensures steps { self.new.steps ≤ self.old.steps + 1 }
    {
        if !self.is_running() {
            return self.stop;
        }
        self.turn();
        self.stop
    }

    /// Takes so many turns, and answers how the machine then stands: `Running` where each of them carried
    /// out an instruction, and none stopped.
    pub fn run(&mut self, turns: u64) -> Stop
        requires { self.old.steps + turns < 2 ^ 64 }
        ensures turns { (s : Segments) (b : Bounded) → Stands s self.old b → Stands s self.new (iterate (turned s) turns b) }
        ensures stop { result ≡ told (bounded self.new) }
        ensures stays { self.old.stop ≢ halt.Running → self.new ≡ self.old }
        ensures steps { self.new.steps ≤ self.old.steps + turns }
        ensures running { result ≡ halt.Running → self.new.steps ≡ self.old.steps + turns }
    {
        for _turn in 0..turns {
            if !self.is_running() {
                return self.stop;
            }
            self.turn();
        }
        self.stop
    }

    /// How many instructions were carried out, the exiting `ecall` included.
    pub fn steps(&self) -> u64
        ensures { result ≡ self.now.steps }
    {
        self.steps
    }

    /// What was put.
    pub fn output(&self) -> &[u8]
        ensures { result.now ≡ self.now.output }
    {
        self.streams.output()
    }

    fn is_running(&self) -> bool
        ensures { IsTrue result ↔ (self.now.stop ≡ halt.Running) }
    {
        self.stop == Stop::Running
    }

    /// Takes a turn of a machine that runs.
    #[tactic(auto, using(crate::proofs::TurnLaws::step_running, crate::proofs::TurnLaws::fetch_ok, crate::proofs::TurnLaws::fetch_err))]
    fn turn(&mut self)
        requires running { self.old.stop ≡ halt.Running }
        requires steps { self.old.steps + 1 < 2 ^ 64 }
        ensures turn { bounded self.new ≡ advanced (bounded self.old) (step (segments_of self.old.contents) (machine_of self.old)) }
        ensures keeps { KeepsText self.old.contents self.new.contents }
    {
        match self.memory.fetch(self.pc) {
            Ok(instruction) => self.execute(instruction),
            Err(stop) => self.halt(stop),
        }
    }

    /// The machine goes on at an address.
    fn go_to(&mut self, target: u32)
        requires running { self.old.stop ≡ halt.Running }
        requires steps { self.old.steps + 1 < 2 ^ 64 }
        ensures turn { bounded self.new ≡ advanced (bounded self.old) (record (machine_of self.old) { pc = target }) }
        ensures keeps { KeepsText self.old.contents self.new.contents }
    {
        self.pc = target;
        self.steps += 1;
    }

    /// A register is written, and the machine goes on with the next instruction.
    fn set(&mut self, rd: X, word: u32)
        requires running { self.old.stop ≡ halt.Running }
        requires steps { self.old.steps + 1 < 2 ^ 64 }
        requires low { self.old.pc + 4 < 2 ^ 32 }
        ensures turn { bounded self.new ≡ advanced (bounded self.old) (sets (machine_of self.old) rd word) }
        ensures keeps { KeepsText self.old.contents self.new.contents }
    {
        self.registers.write(rd, word);
        self.pc += 4;
        self.steps += 1;
    }

    /// The machine stops, and no instruction is carried out.
    fn halt(&mut self, stop: Stop)
        requires running { self.old.stop ≡ halt.Running }
        requires fault { IsFault stop }
        ensures turn { bounded self.new ≡ advanced (bounded self.old) (stopped (machine_of self.old) (stop_of stop)) }
        ensures keeps { KeepsText self.old.contents self.new.contents }
    {
        self.stop = stop;
    }

    /// The next instruction's address is written to a register, and the machine goes on at the target.
    fn jump(&mut self, rd: X, target: u32)
        requires running { self.old.stop ≡ halt.Running }
        requires steps { self.old.steps + 1 < 2 ^ 64 }
        requires low { self.old.pc + 4 < 2 ^ 32 }
        ensures turn { bounded self.new ≡ advanced (bounded self.old) (applied (segments_of self.old.contents) (machine_of self.old) (effect.Jumps rd target)) }
        ensures keeps { KeepsText self.old.contents self.new.contents }
    {
        self.registers.write(rd, self.pc + 4);
        self.pc = target;
        self.steps += 1;
    }

    /// A number is loaded into a register, or the access stops the machine.
    fn load_into(&mut self, rd: X, address: u32, size: Size, extension: Extension)
        requires running { self.old.stop ≡ halt.Running }
        requires steps { self.old.steps + 1 < 2 ^ 64 }
        requires low { self.old.pc + 4 < 2 ^ 32 }
        ensures turn { bounded self.new ≡ advanced (bounded self.old) (applied (segments_of self.old.contents) (machine_of self.old) (effect.Loads rd address (size_of size) (extended size extension))) }
        ensures keeps { KeepsText self.old.contents self.new.contents }
    {
        match self.memory.load(address, size) {
            Ok(number) => self.set(rd, extend(number, size, extension)),
            Err(stop) => self.halt(stop),
        }
    }

    /// The low bytes of a word are stored, or the access stops the machine.
    fn store(&mut self, address: u32, size: Size, word: u32)
        requires running { self.old.stop ≡ halt.Running }
        requires steps { self.old.steps + 1 < 2 ^ 64 }
        requires low { self.old.pc + 4 < 2 ^ 32 }
        ensures turn { bounded self.new ≡ advanced (bounded self.old) (applied (segments_of self.old.contents) (machine_of self.old) (effect.Stores address (size_of size) word)) }
        ensures keeps { KeepsText self.old.contents self.new.contents }
    {
        match self.memory.store(address, size, word) {
            Ok(()) => {
                self.pc += 4;
                self.steps += 1;
            }
            Err(stop) => self.stop = stop,
        }
    }

    /// The low byte of a word is put, if there is room for it, and stays in `a0` alone.
    fn put(&mut self, word: u32)
        requires running { self.old.stop ≡ halt.Running }
        requires steps { self.old.steps + 1 < 2 ^ 64 }
        requires low { self.old.pc + 4 < 2 ^ 32 }
        ensures turn { bounded self.new ≡ advanced (bounded self.old) (called (machine_of self.old) 1 word) }
        ensures keeps { KeepsText self.old.contents self.new.contents }
    {
        if self.streams.is_full() {
            self.stop = Stop::OutputFull;
            return;
        }
        let byte = word % 256;
        self.streams.put(byte as u8);
        self.registers.write(X::A0, byte);
        self.pc += 4;
        self.steps += 1;
    }

    /// The next byte is got into `a0`, or a word with all bits set at the end of the input.
    fn get(&mut self)
        requires running { self.old.stop ≡ halt.Running }
        requires steps { self.old.steps + 1 < 2 ^ 64 }
        requires low { self.old.pc + 4 < 2 ^ 32 }
        ensures turn { bounded self.new ≡ advanced (bounded self.old) (got (machine_of self.old) self.old.input) }
        ensures keeps { KeepsText self.old.contents self.new.contents }
    {
        let word = match self.streams.get() {
            Some(byte) => u32::from(byte),
            None => u32::MAX,
        };
        self.registers.write(X::A0, word);
        self.pc += 4;
        self.steps += 1;
    }

    /// The machine exits with a word.
    fn exit(&mut self, word: u32)
        requires running { self.old.stop ≡ halt.Running }
        requires steps { self.old.steps + 1 < 2 ^ 64 }
        ensures turn { bounded self.new ≡ advanced (bounded self.old) (stopped (machine_of self.old) (Exit word)) }
        ensures keeps { KeepsText self.old.contents self.new.contents }
    {
        self.stop = Stop::Exit(word);
        self.steps += 1;
    }

    /// The environment is called: `a7` has the call's number, `a0` its argument.
    fn call(&mut self)
        requires running { self.old.stop ≡ halt.Running }
        requires steps { self.old.steps + 1 < 2 ^ 64 }
        requires low { self.old.pc + 4 < 2 ^ 32 }
        ensures turn { bounded self.new ≡ advanced (bounded self.old) (applied (segments_of self.old.contents) (machine_of self.old) effect.Calls) }
        ensures keeps { KeepsText self.old.contents self.new.contents }
    {
        let argument = self.registers.read(X::A0);
        match self.registers.read(X::A7) {
            1 => self.put(argument),
            2 => self.get(),
            3 => self.exit(argument),
            number => self.halt(Stop::BadCall(number)),
        }
    }

    /// Executes an instruction that was fetched.
    fn execute(&mut self, instruction: Rv)
        requires running { self.old.stop ≡ halt.Running }
        requires steps { self.old.steps + 1 < 2 ^ 64 }
        requires low { self.old.pc + 4 < 2 ^ 32 }
        ensures turn { bounded self.new ≡ advanced (bounded self.old) (executed (segments_of self.old.contents) (machine_of self.old) instruction) }
        ensures keeps { KeepsText self.old.contents self.new.contents }
    {
        match effect_of(self.pc, &self.registers, instruction) {
            Effect::Sets(rd, word) => self.set(rd, word),
            Effect::Jumps(rd, target) => self.jump(rd, target),
            Effect::Branches(taken, target) => {
                let next = if taken { target } else { self.pc + 4 };
                self.go_to(next)
            }
            Effect::Loads(rd, address, size, extension) => {
                self.load_into(rd, address, size, extension)
            }
            Effect::Stores(address, size, word) => self.store(address, size, word),
            Effect::Continues => self.go_to(self.pc + 4),
            Effect::Calls => self.call(),
            Effect::Breaks => self.halt(Stop::Illegal(EBREAK_WORD)),
        }
    }
}

/// The word of a loaded number.
fn extend(number: u32, size: Size, extension: Extension) -> u32
    requires { number < 256 ^ size_of size }
    ensures { result ≡ extended size extension number }
{
    match (size, extension) {
        (Size::Byte, Extension::Sign) => sext(Width::W8, number),
        (Size::Half, Extension::Sign) => sext(Width::W16, number),
        _ => number,
    }
}
