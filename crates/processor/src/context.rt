// The numbers of the user contexts.
use crate::state::SET_COUNT;
use std::marker::Model;

// CONTEXT: the number of a user context, from 1 to 15. The kernel's set, 0, is none.
#[derive(Drop)]
pub struct Context {
    number: u8,
}

// A contract sees the number.
impl Model for Context {
    ghost use Rattle.std.specs.Prelude.{ℕ, ◌<◌, ◌≤◌};

    ghost Value = { ℕ };

    ghost view = { λ context. context.number };

    ghost invariant = { λ context. (1 ≤ context.number) × (context.number < 16) };
}

// A value that is the number of no user context.
#[derive(Clone, Copy, Debug, PartialEq, Eq)]
pub struct NoContext;

impl Context {
    ghost use Rattle.std.specs.Prelude.{◌≡◌, ◌<◌, ◌≤◌};

    // The first user context.
    pub(crate) fn first() -> Context
        ensures { result ≡ 1 }
    {
        Context { number: 1 }
    }

    pub fn number(&self) -> u8
        ensures is { result ≡ self.now }
        ensures low { 1 ≤ result }
        ensures high { result < 16 }
    {
        self.number
    }
}

impl TryFrom<u16> for Context {
    type Error = NoContext;

    ghost use Rattle.std.specs.Prelude.{◌≡◌, is_ok, IfOk};
    ghost use Rattle.processor.specs.Special.{is_context};

    ghost try_from_gives = { λ value r. (is_ok r ≡ is_context value) × IfOk r (λ context. context ≡ value) };

    fn try_from(value: u16) -> Result<Context, NoContext> {
        if 1 <= value && usize::from(value) < SET_COUNT {
            Ok(Context {
                number: value as u8,
            })
        } else {
            Err(NoContext)
        }
    }
}
