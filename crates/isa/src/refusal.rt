// Why a call is refused. Each reason has a number, by which every promise names it.
ghost use Rattle.std.specs.Prelude.{◌≡◌};
ghost use Rattle.isa.specs.Refusals.{refusal_number};

#[derive(Clone, Copy, Debug, PartialEq, Eq)]
pub enum Refusal {
    // decode: the word is none of the instructions
    IllegalWord = 1,
    // encode: a field is too wide for its bits, or the instruction is LDW with all fields 0
    NoSuchWord = 2,
    // load: the bytes handed over are not 4,096
    NotOnePage = 3,
    // load: the page is not writable; proofread: it is absent
    PageKind = 4,
    // run: the budget is above 1,000,000
    BudgetTooLarge = 5,
    // run, raise: the machine is halted
    Halted = 6,
    // raise: an interrupt is waiting already
    InterruptWaiting = 7,
    // feed: more than 256 input bytes would wait
    InputFull = 8,
    // look: no such register set, or no such item of it
    NoSuchItem = 9,
}

impl Refusal {
    // The refusal's number, from 1 to 9.
    pub fn number(self) -> u8
        ensures { result ≡ refusal_number self }
    {
        self as u8
    }
}
