// The four flags, and their bits in a word.
ghost use Rattle.std.specs.Prelude.{◌≡◌};
ghost use Rattle.alu.specs.Arithmetic.{flagged};
ghost use Rattle.alu.specs.FlagBits.{flag_bits, flags_of};

#[derive(Clone, Copy, Debug, Default, PartialEq, Eq)]
pub struct Flags {
    // carry: out of a sum, or the bit shifted out
    pub c: bool,
    // the result is 0
    pub z: bool,
    // bit 15 of the result
    pub n: bool,
    // overflow of a signed sum
    pub v: bool,
}

// C, Z, N and V in bits 0 to 3.
impl From<Flags> for u16 {
    ghost from_gives = { λ flags bits. bits ≡ flag_bits flags };

    fn from(flags: Flags) -> u16 {
        u16::from(flags.c)
            + 2 * u16::from(flags.z)
            + 4 * u16::from(flags.n)
            + 8 * u16::from(flags.v)
    }
}

// The flags that bits 0 to 3 tell; the other bits do not count.
impl From<u16> for Flags {
    ghost from_gives = { λ bits flags. flags ≡ flags_of bits };

    fn from(bits: u16) -> Flags {
        Flags {
            c: bits % 2 == 1,
            z: bits / 2 % 2 == 1,
            n: bits / 4 % 2 == 1,
            v: bits / 8 % 2 == 1,
        }
    }
}

// A result with its flags: Z and N tell of it, C and V are given.
pub(crate) fn flagged(c: bool, v: bool, value: u16) -> (u16, Flags)
    ensures { result ≡ flagged c v value }
{
    (
        value,
        Flags {
            c,
            z: value == 0,
            n: value >= 0x8000,
            v,
        },
    )
}
