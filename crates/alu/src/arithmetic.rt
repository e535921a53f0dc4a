// Sums and differences.
ghost use Rattle.std.specs.Prelude.{◌≡◌};
ghost use Rattle.alu.specs.Arithmetic.{carry_in, added, subtracted, negated, upper};

use crate::flags::{Flags, flagged};

// a + b, and 1 more with a carry.
pub fn add(a: u16, b: u16, carry: bool) -> (u16, Flags)
    ensures { result ≡ added a b (carry_in carry) }
{
    let (sum, c) = a.carrying_add(b, carry);
    let agree = (a >= 0x8000) == (b >= 0x8000);
    let kept = (a >= 0x8000) == (sum >= 0x8000);
    flagged(c, agree && !kept, sum)
}

// a - b, as a + (65,535 - b) + 1; without a carry, 1 less.
pub fn subtract(a: u16, b: u16, carry: bool) -> (u16, Flags)
    ensures { result ≡ subtracted a b (carry_in carry) }
{
    add(a, 0xFFFF - b, carry)
}

// 0 - a.
pub fn negate(a: u16) -> (u16, Flags)
    ensures { result ≡ negated a }
{
    subtract(0, a, true)
}

// LUI's value: the immediate in the upper ten bits. It sets no flags.
pub fn load_upper(imm: u16) -> u16
    ensures { result ≡ upper imm }
{
    imm.wrapping_mul(64)
}
