// Instructions in assembler form.
ghost use Rattle.std.specs.Prelude.{◌≡◌, ℕ, List, Some};
ghost use Rattle.text.specs.Assembly.{branch_name, alu_name, pair_name, unary_name, control_name, instr_name, assembly};

use isa::instr::{AluOp, Condition, ControlOp, Instr, PairOp, UnaryOp, Width};
use std::fmt;

// The part of an instruction that gives it its name: the operation, or a branch's condition.
trait Named {
    ghost text: { Self → List ℕ };

    fn name(self) -> &'static str
        ensures { result.now ≡ text self };
}

impl Named for Condition {
    ghost text = { branch_name };

    fn name(self) -> &'static str {
        match self {
            Condition::Always => "br",
            Condition::AlwaysLink => "brl",
            Condition::Zero => "brz",
            Condition::NotZero => "brnz",
            Condition::Carry => "brc",
            Condition::NotCarry => "brnc",
            Condition::SignedGreaterEqual => "brsge",
            Condition::SignedLess => "brslt",
        }
    }
}

impl Named for AluOp {
    ghost text = { alu_name };

    fn name(self) -> &'static str {
        match self {
            AluOp::Sbb => "sbb",
            AluOp::Adc => "adc",
            AluOp::Sub => "sub",
            AluOp::Add => "add",
            AluOp::Xor => "xor",
            AluOp::Or => "or",
            AluOp::And => "and",
        }
    }
}

impl Named for PairOp {
    ghost text = { pair_name };

    fn name(self) -> &'static str {
        match self {
            PairOp::Lsp => "lsp",
            PairOp::Lsi => "lsi",
            PairOp::Ssp => "ssp",
            PairOp::Ssi => "ssi",
            PairOp::Lcw => "lcw",
            PairOp::Tst => "tst",
        }
    }
}

impl Named for UnaryOp {
    ghost text = { unary_name };

    fn name(self) -> &'static str {
        match self {
            UnaryOp::Not => "not",
            UnaryOp::Neg => "neg",
            UnaryOp::Dub => "dub",
            UnaryOp::Sxt => "sxt",
            UnaryOp::Sra => "sra",
            UnaryOp::Srl => "srl",
        }
    }
}

impl Named for ControlOp {
    ghost text = { control_name };

    fn name(self) -> &'static str {
        match self {
            ControlOp::Ccf => "ccf",
            ControlOp::Scf => "scf",
            ControlOp::Di => "di",
            ControlOp::Ei => "ei",
            ControlOp::Hlt => "hlt",
            ControlOp::Brk => "brk",
            ControlOp::Rti => "rti",
        }
    }
}

// The mnemonic of an instruction.
pub fn mnemonic(instr: Instr) -> &'static str
    ensures { result.now ≡ instr_name instr }
{
    match instr {
        Instr::Load { width, .. } => match width {
            Width::Word => "ldw",
            Width::Byte => "ldb",
        },
        Instr::Store { width, .. } => match width {
            Width::Word => "stw",
            Width::Byte => "stb",
        },
        Instr::Adi { .. } => "adi",
        Instr::Lui { .. } => "lui",
        Instr::Br { on, .. } => on.name(),
        Instr::Jal { .. } => "jal",
        Instr::Alu { op, .. } => op.name(),
        Instr::Pair { op, .. } => op.name(),
        Instr::Sys { .. } => "sys",
        Instr::Unary { op, .. } => op.name(),
        Instr::Ji { .. } => "ji",
        Instr::Control { op } => op.name(),
    }
}

// An instruction to be shown in assembler form, as `adi r1, r0, 5`.
#[derive(Clone, Copy)]
pub struct Assembly(pub Instr);

impl fmt::Display for Assembly {
    ghost output = { λ x. Some (assembly x.0) };

    fn fmt<W: fmt::Write>(&self, f: &mut fmt::Formatter<W>) -> fmt::Result {
        let name = mnemonic(self.0);
        match self.0 {
            Instr::Load { ra, rb, imm, .. }
            | Instr::Store { ra, rb, imm, .. }
            | Instr::Adi { ra, rb, imm } => { write!(f, "{name} r{ra}, r{rb}, {imm}") }
            Instr::Lui { ra, imm } => write!(f, "{name} r{ra}, {imm}"),
            Instr::Br { offset, .. } => write!(f, "{name} {offset}"),
            Instr::Jal { ra, rb, imm } => write!(f, "{name} r{ra}, r{rb}, {imm}"),
            Instr::Alu { ra, rb, rc, .. } => write!(f, "{name} r{ra}, r{rb}, r{rc}"),
            Instr::Pair { ra, rb, .. } => write!(f, "{name} r{ra}, r{rb}"),
            Instr::Sys { n } => write!(f, "{name} {n}"),
            Instr::Unary { ra, .. } | Instr::Ji { ra } => write!(f, "{name} r{ra}"),
            Instr::Control { .. } => write!(f, "{name}"),
        }
    }
}
