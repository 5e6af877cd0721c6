ghost use Rattle.std.specs.Prelude.{◌≡◌, ◌<◌};

use rv_isa::{Rv, X, decode, encode};

fn x(number: u8) -> X
    requires { number < 32 }
    ensures { result ≡ number }
{
    X::new(number)
}

// The words are those that LLVM's assembler gives for riscv32 with the extension M.
#[test]
fn words_of_an_assembler(rt: HostRuntime) {
    let words = [
        (0x0000_0037, Rv::Lui(x(0), 0)), // lui x0, 0
        (0x7fff_ffb7, Rv::Lui(x(31), 524287)), // lui x31, 524287
        (0x8000_02b7, Rv::Lui(x(5), -524288)), // lui x5, 524288
        (0xffff_f0b7, Rv::Lui(x(1), -1)), // lui x1, 1048575
        (0x0000_0017, Rv::Auipc(x(0), 0)), // auipc x0, 0
        (0x7fff_ff97, Rv::Auipc(x(31), 524287)), // auipc x31, 524287
        (0x8000_0297, Rv::Auipc(x(5), -524288)), // auipc x5, 524288
        (0xffff_f097, Rv::Auipc(x(1), -1)), // auipc x1, 1048575
        (0x0000_006f, Rv::Jal(x(0), 0)), // jal x0, 0
        (0x0020_00ef, Rv::Jal(x(1), 2)), // jal x1, 2
        (0x7fff_ffef, Rv::Jal(x(31), 1048574)), // jal x31, 1048574
        (0x8000_00ef, Rv::Jal(x(1), -1048576)), // jal x1, -1048576
        (0xffff_f06f, Rv::Jal(x(0), -2)), // jal x0, -2
        (0x0010_056f, Rv::Jal(x(10), 2048)), // jal x10, 2048
        (0x0000_156f, Rv::Jal(x(10), 4096)), // jal x10, 4096
        (0x000f_f56f, Rv::Jal(x(10), 1044480)), // jal x10, 1044480
        (0x7fe0_056f, Rv::Jal(x(10), 2046)), // jal x10, 2046
        (0x0000_8067, Rv::Jalr(x(0), x(1), 0)), // jalr x0, 0(x1)
        (0x7fff_80e7, Rv::Jalr(x(1), x(31), 2047)), // jalr x1, 2047(x31)
        (0x8001_0fe7, Rv::Jalr(x(31), x(2), -2048)), // jalr x31, -2048(x2)
        (0x0020_8063, Rv::Beq(x(1), x(2), 0)), // beq x1, x2, 0
        (0x7e0f_8fe3, Rv::Beq(x(31), x(0), 4094)), // beq x31, x0, 4094
        (0x81f0_1063, Rv::Bne(x(0), x(31), -4096)), // bne x0, x31, -4096
        (0xfe62_cfe3, Rv::Blt(x(5), x(6), -2)), // blt x5, x6, -2
        (0x0083_d0e3, Rv::Bge(x(7), x(8), 2048)), // bge x7, x8, 2048
        (0x8083_d0e3, Rv::Bge(x(7), x(8), -2048)), // bge x7, x8, -2048
        (0x00a4_ef63, Rv::Bltu(x(9), x(10), 30)), // bltu x9, x10, 30
        (0x7ea4_e063, Rv::Bltu(x(9), x(10), 2016)), // bltu x9, x10, 2016
        (0x02c5_f063, Rv::Bgeu(x(11), x(12), 32)), // bgeu x11, x12, 32
        (0x8001_0083, Rv::Lb(x(1), x(2), -2048)), // lb x1, -2048(x2)
        (0x7ff0_1f83, Rv::Lh(x(31), x(0), 2047)), // lh x31, 2047(x0)
        (0x0001_2283, Rv::Lw(x(5), x(2), 0)), // lw x5, 0(x2)
        (0xffff_c003, Rv::Lbu(x(0), x(31), -1)), // lbu x0, -1(x31)
        (0x0015_d503, Rv::Lhu(x(10), x(11), 1)), // lhu x10, 1(x11)
        (0x8011_0023, Rv::Sb(x(2), x(1), -2048)), // sb x1, -2048(x2)
        (0x7ff0_1fa3, Rv::Sh(x(0), x(31), 2047)), // sh x31, 2047(x0)
        (0x0051_2fa3, Rv::Sw(x(2), x(5), 31)), // sw x5, 31(x2)
        (0xfe0f_a023, Rv::Sw(x(31), x(0), -32)), // sw x0, -32(x31)
        (0x00a5_a023, Rv::Sw(x(11), x(10), 0)), // sw x10, 0(x11)
        (0x8001_0093, Rv::Addi(x(1), x(2), -2048)), // addi x1, x2, -2048
        (0x7ff0_2f93, Rv::Slti(x(31), x(0), 2047)), // slti x31, x0, 2047
        (0xfff1_3293, Rv::Sltiu(x(5), x(2), -1)), // sltiu x5, x2, -1
        (0xffff_c013, Rv::Xori(x(0), x(31), -1)), // xori x0, x31, -1
        (0x0015_e513, Rv::Ori(x(10), x(11), 1)), // ori x10, x11, 1
        (0x0ff6_f613, Rv::Andi(x(12), x(13), 255)), // andi x12, x13, 255
        (0x0000_0013, Rv::Addi(x(0), x(0), 0)), // addi x0, x0, 0
        (0x0001_1093, Rv::Slli(x(1), x(2), 0)), // slli x1, x2, 0
        (0x01ff_1f93, Rv::Slli(x(31), x(30), 31)), // slli x31, x30, 31
        (0x0001_5093, Rv::Srli(x(1), x(2), 0)), // srli x1, x2, 0
        (0x01ff_5f93, Rv::Srli(x(31), x(30), 31)), // srli x31, x30, 31
        (0x4001_5093, Rv::Srai(x(1), x(2), 0)), // srai x1, x2, 0
        (0x41ff_5f93, Rv::Srai(x(31), x(30), 31)), // srai x31, x30, 31
        (0x0031_00b3, Rv::Add(x(1), x(2), x(3))), // add x1, x2, x3
        (0x4100_0fb3, Rv::Sub(x(31), x(0), x(16))), // sub x31, x0, x16
        (0x008f_9033, Rv::Sll(x(0), x(31), x(8))), // sll x0, x31, x8
        (0x01f0_a833, Rv::Slt(x(16), x(1), x(31))), // slt x16, x1, x31
        (0x0055_3ab3, Rv::Sltu(x(21), x(10), x(5))), // sltu x21, x10, x5
        (0x0031_40b3, Rv::Xor(x(1), x(2), x(3))), // xor x1, x2, x3
        (0x0100_5fb3, Rv::Srl(x(31), x(0), x(16))), // srl x31, x0, x16
        (0x408f_d033, Rv::Sra(x(0), x(31), x(8))), // sra x0, x31, x8
        (0x01f0_e833, Rv::Or(x(16), x(1), x(31))), // or x16, x1, x31
        (0x0055_7ab3, Rv::And(x(21), x(10), x(5))), // and x21, x10, x5
        (0x0231_00b3, Rv::Mul(x(1), x(2), x(3))), // mul x1, x2, x3
        (0x0300_1fb3, Rv::Mulh(x(31), x(0), x(16))), // mulh x31, x0, x16
        (0x028f_a033, Rv::Mulhsu(x(0), x(31), x(8))), // mulhsu x0, x31, x8
        (0x03f0_b833, Rv::Mulhu(x(16), x(1), x(31))), // mulhu x16, x1, x31
        (0x0255_4ab3, Rv::Div(x(21), x(10), x(5))), // div x21, x10, x5
        (0x0231_50b3, Rv::Divu(x(1), x(2), x(3))), // divu x1, x2, x3
        (0x0300_6fb3, Rv::Rem(x(31), x(0), x(16))), // rem x31, x0, x16
        (0x028f_f033, Rv::Remu(x(0), x(31), x(8))), // remu x0, x31, x8
        (0x0ff0_000f, Rv::Fence(x(0), x(0), 255)), // fence iorw, iorw
        (0x0310_000f, Rv::Fence(x(0), x(0), 49)), // fence rw, w
        (0x8330_000f, Rv::Fence(x(0), x(0), -1997)), // fence.tso
        (0x0000_0073, Rv::Ecall), // ecall
        (0x0010_0073, Rv::Ebreak), // ebreak
    ];
    for (word, instruction) in words {
        assert_eq!(rt; decode(word), Some(instruction));
        if let Some(same) = decode(word) {
            assert_eq!(rt; encode(same), word);
        }
    }
}

// Reserved values of the opcode, funct3 and funct7, and instructions of other extensions.
#[test]
fn words_of_no_instruction(rt: HostRuntime) {
    for word in [
        0x0000_0000,
        0xffff_ffff,
        0x4000_1013,
        0xc000_5013,
        0x0400_0033,
        0x4000_1033,
        0x4200_0033,
        0x8000_0033,
        0x0000_2063,
        0x0000_3063,
        0x0000_3003,
        0x0000_6003,
        0x0000_7003,
        0x0000_3023,
        0x0000_1067,
        0x0000_100f,
        0x0000_0173,
        0x0020_0073,
        0x0000_002f,
        0x0000_006b,
    ] {
        assert_eq!(rt; decode(word), None);
    }
}
