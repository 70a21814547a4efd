// The limits of a run, and how many variables the sheet names.
#![tactic(auto, unfolding(crate::specs::Words::loops_of, crate::specs::Words::stack_of, crate::specs::Words::budget_of, crate::specs::Words::slots_of, crate::specs::Words::limits_number))]

ghost use Rattle.std.specs.Prelude.{◌≡◌, ◌<◌};
ghost use Rattle.words.specs.Words.{loops_of, stack_of, budget_of, slots_of, limits_number};

use crate::LimitsNumber;

// How many values a part has, and what one of it counts for: as much as all parts below it.
const BUDGETS: usize = 1048576;

const LOOPS: usize = 65536;

const STACKS: usize = 16;

const SLOTS: usize = 32;

const LOOPS_UNIT: usize = BUDGETS;

const STACK_UNIT: usize = LOOPS_UNIT * LOOPS;

const SLOTS_UNIT: usize = STACK_UNIT * STACKS;

pub fn loops(limits: LimitsNumber) -> usize
    ensures { (result ≡ loops_of limits) × (result < 65536) }
{
    limits.number / LOOPS_UNIT % LOOPS
}

pub fn stack(limits: LimitsNumber) -> usize
    ensures { (result ≡ stack_of limits) × (result < 16) }
{
    limits.number / STACK_UNIT % STACKS
}

pub fn budget(limits: LimitsNumber) -> usize
    ensures { (result ≡ budget_of limits) × (result < 1048576) }
{
    limits.number % BUDGETS
}

pub fn slots(limits: LimitsNumber) -> usize
    ensures { (result ≡ slots_of limits) × (result < 32) }
{
    limits.number / SLOTS_UNIT % SLOTS
}

// The number of these limits.
pub fn limits(loops: usize, stack: usize, budget: usize, slots: usize) -> LimitsNumber
    requires { (loops < 65536) × (stack < 16) × (budget < 1048576) × (slots < 32) }
    ensures { (loops_of result ≡ loops) × (stack_of result ≡ stack) × (budget_of result ≡ budget) × (slots_of result ≡ slots) × (result ≡ limits_number loops stack budget slots) }
{
    let number = budget + LOOPS_UNIT * loops + STACK_UNIT * stack + SLOTS_UNIT * slots;
    LimitsNumber { number }
}
