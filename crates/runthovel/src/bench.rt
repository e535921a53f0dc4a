// runthovel bench: how many instructions a second the processor carries out.
use crate::failure::Failure;
use isa::encode::encode;
use isa::instr::{AluOp, Condition, Instr, Width};
use memory::{Flat, Memory};
use processor::event::Event;
use processor::processor::Processor;
use std::alloc::{AllocError, Global};
use std::rt::Clock;
use std::time::Instant;

const STEPS: u64 = 300_000_000;

// Writable memory with a program from address 0 on.
fn load(alloc: Global, program: &[Instr]) -> Result<Flat, Failure> {
    let mut memory = Flat::new(vec![in alloc; 0u8; 65536]?);
    for (address, instr) in (0..65536u64).step_by(2).zip(program) {
        let word = encode(*instr).map_err(|_| Failure::NoProgram)?;
        memory
            .write_word(address, word)
            .map_err(|_| Failure::NoProgram)?;
    }
    Ok(memory)
}

// Makes steps, each of which has to carry out an instruction.
// Both are borrowed: where this function owns them, the loop runs slower.
fn make_steps(processor: &mut Processor, memory: &mut Flat, count: u64) -> Result<(), Failure> {
    for _ in 0..count {
        let Ok(Event::Went) = processor.step(memory) else {
            return Err(Failure::NoProgram);
        };
    }
    Ok(())
}

fn measure(
    rt: &(impl Print + Clock + AllocGlobal),
    name: &str,
    program: &[Instr],
) -> Result<(), Failure> {
    let mut memory = load(rt.alloc(), program)?;
    let mut processor = Processor::new();
    let start = Instant::now(rt)?;
    make_steps(&mut processor, &mut memory, STEPS)?;
    let micros = start.elapsed(rt)?.as_micros().max(1);
    let tenths = u128::from(STEPS) * 10 / micros;
    println!(rt;
        "{name}: {}.{} million instructions per second",
        tenths / 10,
        tenths % 10
    )?;
    Ok(())
}

fn add_one(r: u8) -> Instr {
    Instr::Adi {
        ra: r,
        rb: r,
        imm: 1,
    }
}

fn back(offset: i16) -> Instr {
    Instr::Br {
        on: Condition::Always,
        offset,
    }
}

fn alu(op: AluOp, ra: u8, rb: u8, rc: u8) -> Instr {
    Instr::Alu { op, ra, rb, rc }
}

// Sixteen register operations, and a branch back.
fn alu_program(alloc: Global) -> Result<Vec<Instr>, AllocError> {
    let four = [
        alu(AluOp::Add, 3, 1, 2),
        alu(AluOp::Sub, 4, 3, 4),
        alu(AluOp::Xor, 5, 4, 3),
        alu(AluOp::And, 6, 5, 3),
    ];
    [add_one(1), add_one(2)]
        .into_iter()
        .chain(four.into_iter().cycle().take(14))
        .chain([back(-34)])
        .collect(alloc)
}

// A store, a load, a sum and a branch back; r2 holds the address.
fn memory_program() -> [Instr; 5] {
    let (width, rb, imm) = (Width::Word, 2, 0);
    [
        Instr::Lui { ra: rb, imm: 0x20 },
        Instr::Store {
            width,
            ra: 1,
            rb,
            imm,
        },
        Instr::Load {
            width,
            ra: 3,
            rb,
            imm,
        },
        add_one(1),
        back(-8),
    ]
}

pub(crate) fn run(rt: &(impl Print + Clock + AllocGlobal)) -> Result<(), Failure> {
    // a register counted up, and a branch back
    measure(rt, "count", &[add_one(1), back(-4)])?;
    measure(rt, "alu", &alu_program(rt.alloc())?)?;
    measure(rt, "memory", &memory_program())
}
