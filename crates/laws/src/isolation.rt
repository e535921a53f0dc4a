// What holds of every list of calls, by the definitions alone.
ghost use Rattle.laws.specs.Isolation.{Isolation};

// User code is confined, a fault is harmless, and machines alike in what the running context sees behave alike, also where
// its pages have other numbers. A law is proved where a function's contract names it, so the function itself does nothing.
#[tactic(auto, using(crate::proofs::Proper::fired_proper, crate::proofs::Unmoved::same_behaviour, crate::proofs::Behaviour::moved_behaviour, crate::proofs::Confine::confinement, crate::proofs::Faults::harmless))]
fn isolated()
    ensures { Isolation }
{}
