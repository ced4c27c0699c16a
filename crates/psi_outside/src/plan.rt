// Which calls of an object in memory fail.
ghost use Rattle.std.specs.Prelude.{◌≡◌, ◌||◌, is_err};
ghost use Rattle.psi_outside.specs.Causes.{HasCause};
ghost use Rattle.psi_outside.specs.Plans.{new_plan, is_listed, after_call};

use crate::Failed;
use std::marker::Model;

// The numbers of the calls that fail, from 0, and the counts of calls and of faults.
#[derive(Drop)]
pub(crate) struct FaultPlan {
    fails: Vec<u64>,
    calls: u64,
    faults: u64,
}

impl Model for FaultPlan {
    ghost use Rattle.psi_outside.specs.Plans.{Plan};

    ghost Value = { Plan };

    ghost view = { λ p. record { fails = p.fails.items; calls = p.calls; faults = p.faults } };
}

impl FaultPlan {
    pub(crate) fn open(fails: Vec<u64>) -> FaultPlan
        ensures { result ≡ new_plan fails.items }
    {
        FaultPlan {
            fails,
            calls: 0,
            faults: 0,
        }
    }

    // Counts a call, which fails if it is refused or its number is listed.
    pub(crate) fn call(&mut self, is_refused: bool) -> Result<(), Failed>
        ensures fails { is_err result ≡ (is_refused || is_listed self.old) }
        ensures after { self.new ≡ after_call self.old (is_err result) }
        ensures cause { HasCause self.old.faults self.new.faults result }
    {
        let number = self.calls;
        self.calls = number.saturating_add(1);
        if is_refused || self.fails.contains(&number) {
            self.faults = self.faults.saturating_add(1);
            return Err(Failed);
        }
        Ok(())
    }
}
