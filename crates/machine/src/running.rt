// The steps of a run.
ghost use Rattle.std.specs.Prelude.{◌≡◌, false};
ghost use Rattle.processor.specs.Runs.{after_step, runs};
ghost use Rattle.machine.specs.Views.{view_of, report_of, report_at, step_of, stop_of};

use crate::fired::Fired;
use crate::report::{Reason, Report};
use memory::Memory;
use processor::event::Event;
use processor::state::Mode;

// Why a step ends the run, if it does.
fn stop_of(event: Event) -> Option<Reason>
    ensures { result ≡ stop_of event }
{
    match event {
        Event::Went => None,
        Event::Entered { from, trap } => match from {
            Mode::User => Some(Reason::Entry { trap }),
            Mode::Kernel => None,
        },
        Event::DoubleFault { trap } => Some(Reason::DoubleFault { trap }),
        Event::Halted => Some(Reason::Halt),
        Event::Broke => Some(Reason::Break),
        Event::OutputFull => Some(Reason::OutputFull),
    }
}

impl<M: Memory> Fired<M> {
    // One step of a machine that is not halted. That is required, here and of a run's loop, and no type keeps it: a step may halt.
    fn advance(&mut self) -> Event
        requires { (view_of M.Memory.model self.old).state.control.halted ≡ false }
        ensures event { result ≡ (step_of (view_of M.Memory.model self.old)).event }
        ensures machine { view_of M.Memory.model self.new ≡ after_step (step_of (view_of M.Memory.model self.old)) }
    {
        self.processor.step(&mut self.memory).unwrap()
    }

    fn report(&self, reason: Reason, steps: u64) -> Report
        ensures { report_of result ≡ report_at (view_of M.Memory.model self.now) reason steps }
    {
        Report {
            reason,
            steps,
            pc: self.processor.state.control.pc,
            mode: self.processor.state.control.mode,
        }
    }

    // Makes steps until one ends the run, at most `budget`.
    #[tactic(auto, using(crate::proofs::Turns::turns))]
    pub(crate) fn make_steps(&mut self, budget: u64) -> Report
        requires { (view_of M.Memory.model self.old).state.control.halted ≡ false }
        ensures report { report_of result ≡ (runs budget (view_of M.Memory.model self.old)).report }
        ensures machine { view_of M.Memory.model self.new ≡ (runs budget (view_of M.Memory.model self.old)).machine }
    {
        for made in 0..budget {
            if let Some(reason) = stop_of(self.advance()) {
                let steps = match reason {
                    // that step is not made
                    Reason::OutputFull => made,
                    _ => made + 1,
                };
                return self.report(reason, steps);
            }
        }
        self.report(Reason::Spent, budget)
    }
}
