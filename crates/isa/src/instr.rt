// The instructions, with their registers and immediates as data.
// A field may hold a value that does not fit its bits: `encode` refuses such an instruction.

// How much a load or store moves.
#[derive(Clone, Copy, Debug, PartialEq, Eq)]
pub enum Width {
    Word,
    Byte,
}

// When a branch is taken, numbered as in the word.
#[derive(Clone, Copy, Debug, PartialEq, Eq)]
pub enum Condition {
    Always,
    // always, and LINK gets the address of the next instruction
    AlwaysLink,
    Zero,
    NotZero,
    Carry,
    NotCarry,
    // N = V
    SignedGreaterEqual,
    // N ≠ V
    SignedLess,
}

// The operations on three registers: rA gets the result of rB and rC.
#[derive(Clone, Copy, Debug, PartialEq, Eq)]
pub enum AluOp {
    Sbb,
    Adc,
    Sub,
    Add,
    Xor,
    Or,
    And,
}

// The operations on two registers; 5 in their place is the system call.
#[derive(Clone, Copy, Debug, PartialEq, Eq)]
pub enum PairOp {
    Lsp = 0,
    Lsi = 1,
    Ssp = 2,
    Ssi = 3,
    Lcw = 4,
    Tst = 6,
}

// The operations on one register, which gets the result; 6 in their place is the indirect jump.
#[derive(Clone, Copy, Debug, PartialEq, Eq)]
pub enum UnaryOp {
    Not,
    Neg,
    Dub,
    Sxt,
    Sra,
    Srl,
}

// The operations without a register.
#[derive(Clone, Copy, Debug, PartialEq, Eq)]
pub enum ControlOp {
    Ccf,
    Scf,
    Di,
    Ei,
    Hlt,
    Brk,
    Rti,
}

#[derive(Clone, Copy, Debug, PartialEq, Eq)]
pub enum Instr {
    // LDW, LDB; imm from -64 to 63
    Load {
        width: Width,
        ra: u8,
        rb: u8,
        imm: i8,
    },
    // STW, STB; imm from -64 to 63
    Store {
        width: Width,
        ra: u8,
        rb: u8,
        imm: i8,
    },
    // imm from -64 to 63
    Adi {
        ra: u8,
        rb: u8,
        imm: i8,
    },
    // imm from 0 to 1,023
    Lui {
        ra: u8,
        imm: u16,
    },
    // offset from -512 to 511
    Br {
        on: Condition,
        offset: i16,
    },
    // imm from 0 to 63
    Jal {
        ra: u8,
        rb: u8,
        imm: u8,
    },
    Alu {
        op: AluOp,
        ra: u8,
        rb: u8,
        rc: u8,
    },
    Pair {
        op: PairOp,
        ra: u8,
        rb: u8,
    },
    // system call, n from 0 to 7
    Sys {
        n: u8,
    },
    Unary {
        op: UnaryOp,
        ra: u8,
    },
    // jump to the address in rA
    Ji {
        ra: u8,
    },
    Control {
        op: ControlOp,
    },
}
