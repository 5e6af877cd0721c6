//! What the instructions compute on words of 32 bits (RISC-V Unprivileged ISA, "Integer Computational
//! Instructions" and "M Standard Extension for Integer Multiplication and Division").

ghost use Rattle.std.specs.Prelude.{◌≡◌, ◌+◌, ◌*◌, ◌/◌, ◌%◌, ◌^◌, ℤ, pos, ◌*ℤ◌};
ghost use Rattle.rv_isa.specs.Arithmetic.{signed as signed_of, to_word, wrapping_add, wrapping_sub, is_less, is_less_unsigned, shift_left, shift_right, shift_right_arithmetic, upper_half, quotient, quotient_unsigned, remainder, remainder_unsigned};
ghost use Rattle.rv_isa.specs.Isa.{offset};

/// A word as a signed number in two's complement.
pub fn signed(a: u32) -> i32
    ensures { result ≡ signed_of a }
{
    a.cast_signed()
}

/// The word of a signed number.
pub fn word(z: i32) -> u32
    ensures { result ≡ to_word z }
{
    z.cast_unsigned()
}

/// The sum of a word and an immediate.
pub fn offset(a: u32, immediate: i32) -> u32
    ensures { result ≡ offset a immediate }
{
    a.wrapping_add(word(immediate))
}

/// The word whose upper 20 bits are those of an immediate.
pub fn upper_immediate(immediate: i32) -> u32
    ensures { result ≡ to_word (immediate *ℤ pos (2 ^ 12)) }
{
    word(immediate) << 12
}

/// 1 where the first is less as a signed number, else 0.
pub fn is_less(a: u32, b: u32) -> u32
    ensures { result ≡ is_less a b }
{
    u32::from(signed(a) < signed(b))
}

/// 1 where the first is less as an unsigned number, else 0.
pub fn is_less_unsigned(a: u32, b: u32) -> u32
    ensures { result ≡ is_less_unsigned a b }
{
    u32::from(a < b)
}

/// The word shifted left by the low five bits of the distance.
pub fn shift_left(a: u32, distance: u32) -> u32
    ensures { result ≡ shift_left a distance }
{
    a << (distance % 32)
}

/// The word shifted right by the low five bits of the distance, with zeros from above.
pub fn shift_right(a: u32, distance: u32) -> u32
    ensures { result ≡ shift_right a distance }
{
    a >> (distance % 32)
}

/// The word shifted right by the low five bits of the distance, with copies of its sign from above.
pub fn shift_right_arithmetic(a: u32, distance: u32) -> u32
    ensures { result ≡ shift_right_arithmetic a distance }
{
    word(signed(a) >> (distance % 32))
}

/// The lower 32 bits of a product.
pub fn product(a: u32, b: u32) -> u32
    ensures { result ≡ a * b % 2 ^ 32 }
{
    a.wrapping_mul(b)
}

/// The upper 32 bits of a product.
fn upper_half(product: i64) -> u32
    ensures { result ≡ upper_half product }
{
    word((product >> 32) as i32)
}

/// The upper 32 bits of the product of two signed numbers.
pub fn upper_product(a: u32, b: u32) -> u32
    ensures { result ≡ upper_half (signed_of a *ℤ signed_of b) }
{
    upper_half(i64::from(signed(a)) * i64::from(signed(b)))
}

/// The upper 32 bits of the product of a signed and an unsigned number.
pub fn upper_product_mixed(a: u32, b: u32) -> u32
    ensures { result ≡ upper_half (signed_of a *ℤ pos b) }
{
    upper_half(i64::from(signed(a)) * i64::from(b))
}

/// The upper 32 bits of the product of two unsigned numbers.
pub fn upper_product_unsigned(a: u32, b: u32) -> u32
    ensures { result ≡ a * b / 2 ^ 32 }
{
    ((u64::from(a) * u64::from(b)) >> 32) as u32
}

/// The quotient of two signed numbers, rounded toward zero. By zero it has all bits set; where it
/// overflows, it is the dividend.
pub fn quotient(a: u32, b: u32) -> u32
    ensures { result ≡ quotient a b }
{
    if b == 0 {
        return u32::MAX;
    }
    word(signed(a).wrapping_div(signed(b)))
}

/// The quotient of two unsigned numbers. By zero it has all bits set.
pub fn quotient_unsigned(a: u32, b: u32) -> u32
    ensures { result ≡ quotient_unsigned a b }
{
    if b == 0 { u32::MAX } else { a / b }
}

/// The remainder of two signed numbers, with the dividend's sign. By zero it is the dividend; where the
/// quotient overflows, it is 0.
pub fn remainder(a: u32, b: u32) -> u32
    ensures { result ≡ remainder a b }
{
    if b == 0 {
        return a;
    }
    word(signed(a).wrapping_rem(signed(b)))
}

/// The remainder of two unsigned numbers. By zero it is the dividend.
pub fn remainder_unsigned(a: u32, b: u32) -> u32
    ensures { result ≡ remainder_unsigned a b }
{
    if b == 0 { a } else { a % b }
}
