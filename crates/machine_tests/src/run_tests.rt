ghost use Rattle.std.specs.Prelude.{◌%◌, ◌≤◌, ◌≡◌, ◌<◌, ◌+◌, ◌^◌, length, IfOk};

use elf_object::Image;
use oi_base::{Items, NoMemory, Text};
use rv_machine::{Machine, Stop};
use std::alloc::Global;
use std::test::*;

/// A program whose `main` returns 7.
const SEVEN: [u8; 40] = [
    0x97, 0x00, 0x00, 0x00, 0xe7, 0x80, 0x00, 0x01, 0x93, 0x08, 0x30, 0x00, 0x73, 0x00, 0x00, 0x00,
    0x13, 0x01, 0x01, 0xff, 0x23, 0x20, 0x11, 0x00, 0x13, 0x05, 0x70, 0x00, 0x83, 0x20, 0x01, 0x00,
    0x13, 0x01, 0x01, 0x01, 0x67, 0x80, 0x00, 0x00,
];

/// A program whose `main` goes round a loop that does nothing.
const SILENT: [u8; 28] = [
    0x97, 0x00, 0x00, 0x00, 0xe7, 0x80, 0x00, 0x01, 0x93, 0x08, 0x30, 0x00, 0x73, 0x00, 0x00, 0x00,
    0x13, 0x01, 0x01, 0xff, 0x23, 0x20, 0x11, 0x00, 0x6f, 0x00, 0x00, 0x00,
];

/// A machine with this text, eight bytes of data, and one byte to get.
fn loaded(alloc: Global, text: &[u8]) -> Result<Machine, NoMemory>
    requires least { 16 ≤ length text.now }
    requires most { length text.now ≤ 4194304 }
    requires words { length text.now % 4 ≡ 0 }
    ensures { IfOk result (λ m. m.steps ≡ 0) }
{
    let image = Image {
        text: Text::from_slice(alloc, text)?,
        data_bytes: Text::from_slice(alloc, &[1, 2, 3, 4, 5, 6, 7, 0x80])?,
        symbols: Items::new(alloc),
    };
    Machine::load(alloc, &image, Text::from_slice(alloc, b"h")?)
}

/// How a machine with this text stands after so many turns, and how many instructions it carried out.
fn ran(alloc: Global, text: &[u8], turns: u64) -> Result<(Stop, u64), NoMemory>
    requires least { 16 ≤ length text.now }
    requires most { length text.now ≤ 4194304 }
    requires words { length text.now % 4 ≡ 0 }
{
    let mut machine = loaded(alloc, text)?;
    let stop = machine.run(turns);
    Ok((stop, machine.steps()))
}

/// The bytes of a word.
fn put_word(bytes: &mut [u8; 20], at: usize, word: u32)
    requires { at < 5 }
{
    let word = word.to_le_bytes();
    bytes[4 * at] = word[0];
    bytes[4 * at + 1] = word[1];
    bytes[4 * at + 2] = word[2];
    bytes[4 * at + 3] = word[3];
}

/// How a machine with a text of these five words ends.
fn end(alloc: Global, words: (u32, u32, u32, u32, u32)) -> Result<(Stop, u64), NoMemory> {
    let mut bytes = [0; 20];
    put_word(&mut bytes, 0, words.0);
    put_word(&mut bytes, 1, words.1);
    put_word(&mut bytes, 2, words.2);
    put_word(&mut bytes, 3, words.3);
    put_word(&mut bytes, 4, words.4);
    ran(alloc, &bytes, 100)
}

#[test]
fn programs(rt: HostRuntime) -> Result<(), Fail> {
    let all = ran(rt.alloc(), &SEVEN, 10).ok().ok_or("memory")?;
    assert_eq!(rt; all, (Stop::Exit(7), 10));
    let nearly = ran(rt.alloc(), &SEVEN, 9).ok().ok_or("memory")?;
    assert_eq!(rt; nearly, (Stop::Running, 9));
    let silent = ran(rt.alloc(), &SILENT, 1000).ok().ok_or("memory")?;
    assert_eq!(rt; silent, (Stop::Running, 1000));
    Ok(())
}

// The words are those of an assembler, and the answers those of the manual.
#[test]
fn ends(rt: HostRuntime) -> Result<(), Fail> {
    let cases = [
        (
            (0x1000_02b7, 0x0022_a503, 0, 0, 0),
            Stop::Access(0x1000_0002),
            1,
        ), // lui x5; lw x10, 2(x5)
        (
            (0x7fef_f2b7, 0xffc2_a503, 0, 0, 0),
            Stop::Stack(0x7fef_effc),
            1,
        ), // lui x5; lw x10, -4(x5)
        ((0xffff_ffff, 0, 0, 0, 0), Stop::Illegal(0xffff_ffff), 0),
        ((0x0010_0073, 0, 0, 0, 0), Stop::Illegal(0x0010_0073), 0), // ebreak
        ((0x0090_0893, 0x0000_0073, 0, 0, 0), Stop::BadCall(9), 1), // addi x17, x0, 9; ecall
        (
            (0x0070_0513, 0x0205_4533, 0x0030_0893, 0x0000_0073, 0),
            Stop::Exit(0xffff_ffff),
            4,
        ), // 7 div 0
        (
            (0x0070_0513, 0x0205_6533, 0x0030_0893, 0x0000_0073, 0),
            Stop::Exit(7),
            4,
        ), // 7 rem 0
        (
            (
                0x8000_0537,
                0xfff0_0313,
                0x0265_4533,
                0x0030_0893,
                0x0000_0073,
            ),
            Stop::Exit(0x8000_0000),
            5,
        ), // div overflows
        (
            (
                0x8000_0537,
                0xfff0_0313,
                0x0265_6533,
                0x0030_0893,
                0x0000_0073,
            ),
            Stop::Exit(0),
            5,
        ), // rem of it
    ];
    for (words, stop, steps) in cases {
        let found = end(rt.alloc(), words).ok().ok_or("memory")?;
        assert_eq!(rt; found, (stop, steps));
    }
    Ok(())
}

/// Puts bytes, one in each two turns, and then takes one turn more: how the machine stood before and after
/// it, how many instructions it carried out, and how many bytes it put.
fn put_on(alloc: Global, turns: u64) -> Result<(Stop, Stop, u64, usize), NoMemory>
    requires { turns + 1 < 2 ^ 64 }
{
    let text = [
        0x93, 0x08, 0x10, 0x00, 0x73, 0x00, 0x00, 0x00, 0x6f, 0xf0, 0xdf, 0xff, 0, 0, 0, 0,
    ];
    let mut machine = loaded(alloc, &text)?;
    let before = machine.run(turns);
    let after = machine.step();
    Ok((before, after, machine.steps(), machine.output().len()))
}

// The byte that finds no room stops the machine.
#[test]
fn a_full_output(rt: HostRuntime) -> Result<(), Fail> {
    let found = put_on(rt.alloc(), 2_097_153).ok().ok_or("memory")?;
    assert_eq!(rt;
        found,
        (Stop::Running, Stop::OutputFull, 2_097_153, 1_048_576)
    );
    Ok(())
}
