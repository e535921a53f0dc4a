// Logical operations, copies within a word and shifts by one place: Z and N tell of the result, V is 0.
ghost use Rattle.std.specs.Prelude.{◌≡◌, false};
ghost use Rattle.alu.specs.Arithmetic.{flagged};
ghost use Rattle.alu.specs.Logic.{anded, ored, xored, inverted, doubled, extended, shifted_arithmetic, shifted_logical};

use crate::flags::{Flags, flagged};

fn plain(res: u16, c: bool) -> (u16, Flags)
    ensures { result ≡ flagged c false res }
{
    flagged(c, false, res)
}

pub fn and(a: u16, b: u16) -> (u16, Flags)
    ensures { result ≡ anded a b }
{
    plain(a & b, false)
}

pub fn or(a: u16, b: u16) -> (u16, Flags)
    ensures { result ≡ ored a b }
{
    plain(a | b, false)
}

pub fn xor(a: u16, b: u16) -> (u16, Flags)
    ensures { result ≡ xored a b }
{
    plain(a ^ b, false)
}

pub fn not(a: u16) -> (u16, Flags)
    ensures { result ≡ inverted a }
{
    plain(!a, false)
}

// DUB: the upper byte copied to the lower.
pub fn dub(a: u16) -> (u16, Flags)
    ensures { result ≡ doubled a }
{
    let [high, _] = a.to_be_bytes();
    plain(u16::from_be_bytes([high, high]), false)
}

// SXT: the lower byte with its sign extended.
pub fn sxt(a: u16) -> (u16, Flags)
    ensures { result ≡ extended a }
{
    let [low, _] = a.to_le_bytes();
    plain(i16::from(low.cast_signed()).cast_unsigned(), false)
}

// SRA: one place right, bit 15 kept; C is the bit shifted out.
pub fn sra(a: u16) -> (u16, Flags)
    ensures { result ≡ shifted_arithmetic a }
{
    plain((a.cast_signed() >> 1).cast_unsigned(), a % 2 == 1)
}

// SRL: one place right, 0 into bit 15; C is the bit shifted out.
pub fn srl(a: u16) -> (u16, Flags)
    ensures { result ≡ shifted_logical a }
{
    plain(a >> 1, a % 2 == 1)
}
