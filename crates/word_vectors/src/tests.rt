// Examples that are run: what is refused, and fields at their limits.
use alu::arithmetic::{add, load_upper, negate, subtract};
use alu::flags::Flags;
use alu::logic::{dub, not, sra, srl, sxt};
use isa::decode::decode;
use isa::encode::encode;
use isa::instr::{AluOp, Condition, Instr, PairOp, Width};
use isa::refusal::Refusal;
use text::number::parse_word;
use word_laws::words::{illegal_word_count, instr_again, instruction_count};

// The number of the refusal, if the instruction has no word.
fn refusal_of(instr: Instr) -> Option<u8> {
    encode(instr).err().map(Refusal::number)
}

#[test]
fn texts_that_are_words(rt: HostRuntime) {
    assert_eq!(rt; parse_word("0"), Some(0));
    assert_eq!(rt; parse_word("65535"), Some(65535));
    assert_eq!(rt; parse_word("00017"), Some(17));
    assert_eq!(rt; parse_word("0x0"), Some(0));
    assert_eq!(rt; parse_word("0xfFfF"), Some(65535));
    assert_eq!(rt; parse_word("0x00008141"), Some(0x8141));
}

#[test]
fn texts_that_are_none(rt: HostRuntime) {
    let none = [
        "",
        "0x",
        "0X1",
        "x1",
        "65536",
        "0x10000",
        "99999999999999999999",
        "-1",
        "+1",
        " 1",
        "1 ",
        "12a",
        "0x1g",
        "1_000",
    ];
    for text in none {
        assert_eq!(rt; parse_word(text), None, "{}", text);
    }
}

#[test]
fn fields_at_their_limits(rt: HostRuntime) {
    assert_eq!(rt;
        encode(Instr::Adi {
            ra: 7,
            rb: 7,
            imm: -64,
        }),
        Ok(0x903F)
    );
    assert_eq!(rt;
        encode(Instr::Adi {
            ra: 7,
            rb: 7,
            imm: 63,
        }),
        Ok(0x8FFF)
    );
    assert_eq!(rt; encode(Instr::Lui { ra: 0, imm: 1023 }), Ok(0xBFF8));
    assert_eq!(rt;
        encode(Instr::Br {
            on: Condition::SignedLess,
            offset: -512,
        }),
        Ok(0xD007)
    );
    assert_eq!(rt;
        encode(Instr::Br {
            on: Condition::Always,
            offset: 511,
        }),
        Ok(0xCFF8)
    );
    assert_eq!(rt;
        encode(Instr::Jal {
            ra: 0,
            rb: 0,
            imm: 63,
        }),
        Ok(0xEFC0)
    );
}

#[test]
fn registers_too_wide(rt: HostRuntime) {
    let (width, op, on) = (Width::Word, AluOp::Add, PairOp::Tst);
    let wide = [
        Instr::Load {
            width,
            ra: 8,
            rb: 0,
            imm: 0,
        },
        Instr::Store {
            width,
            ra: 0,
            rb: 8,
            imm: 0,
        },
        Instr::Alu {
            op,
            ra: 0,
            rb: 0,
            rc: 8,
        },
        Instr::Pair {
            op: on,
            ra: 255,
            rb: 0,
        },
    ];
    for instr in wide {
        assert_eq!(rt; refusal_of(instr), Some(2));
    }
}

#[test]
fn immediates_too_wide(rt: HostRuntime) {
    let on = Condition::Zero;
    let wide = [
        Instr::Adi {
            ra: 0,
            rb: 0,
            imm: 64,
        },
        Instr::Adi {
            ra: 0,
            rb: 0,
            imm: -65,
        },
        Instr::Lui { ra: 0, imm: 1024 },
        Instr::Br { on, offset: 512 },
        Instr::Br { on, offset: -513 },
        Instr::Jal {
            ra: 0,
            rb: 0,
            imm: 64,
        },
        Instr::Sys { n: 8 },
    ];
    for instr in wide {
        assert_eq!(rt; refusal_of(instr), Some(2));
    }
}

#[test]
fn load_word_with_all_fields_0(rt: HostRuntime) {
    assert_eq!(rt;
        refusal_of(Instr::Load {
            width: Width::Word,
            ra: 0,
            rb: 0,
            imm: 0,
        }),
        Some(2)
    );
    assert_eq!(rt;
        encode(Instr::Load {
            width: Width::Word,
            ra: 1,
            rb: 0,
            imm: 0,
        }),
        Ok(1)
    );
    assert_eq!(rt;
        encode(Instr::Load {
            width: Width::Byte,
            ra: 0,
            rb: 0,
            imm: 0,
        }),
        Ok(0x2000)
    );
}

#[test]
fn instructions_come_back(rt: HostRuntime) {
    let sys = Instr::Sys { n: 7 };
    assert_eq!(rt; instr_again(sys), Ok(sys));
    assert_eq!(rt; decode(0xFF4B), Err(Refusal::IllegalWord));
    assert_eq!(rt; illegal_word_count(), 58);
    assert_eq!(rt; instruction_count(), 65478);
}

fn flags(c: bool, z: bool, n: bool, v: bool) -> Flags {
    Flags { c, z, n, v }
}

#[test]
fn sums_and_differences(rt: HostRuntime) {
    assert_eq!(rt; add(0xFFFF, 0, true), (0, flags(true, true, false, false)));
    assert_eq!(rt;
        add(0x8000, 0x8000, false),
        (0, flags(true, true, false, true))
    );
    assert_eq!(rt; subtract(5, 5, true), (0, flags(true, true, false, false)));
    assert_eq!(rt;
        subtract(0, 1, true),
        (0xFFFF, flags(false, false, true, false))
    );
    assert_eq!(rt; negate(0), (0, flags(true, true, false, false)));
    assert_eq!(rt; load_upper(1023), 0xFFC0);
}

#[test]
fn copies_and_shifts(rt: HostRuntime) {
    assert_eq!(rt; dub(0x12FF), (0x1212, flags(false, false, false, false)));
    assert_eq!(rt; sxt(0x1280), (0xFF80, flags(false, false, true, false)));
    assert_eq!(rt; sxt(0xFF00), (0, flags(false, true, false, false)));
    assert_eq!(rt; sra(0xFFFF), (0xFFFF, flags(true, false, true, false)));
    assert_eq!(rt; srl(0x8000), (0x4000, flags(false, false, false, false)));
    assert_eq!(rt; srl(1), (0, flags(true, true, false, false)));
    assert_eq!(rt; not(0xFFFF), (0, flags(false, true, false, false)));
}
