//! The cycle of a running core.

ghost use Rattle.std.specs.Prelude.{◌≡◌, ◌<◌, ◌≤◌, Option, IfOk};
ghost use Rattle.std.specs.Result.{ForOk};
ghost use Rattle.soc_base.specs.declared.limits.TheConstants.{MOST_COST};
ghost use Rattle.rv_core.specs.Table.{IsInRange};
ghost use Rattle.part_model.specs.Running.{effect_with, instr_of, left_after};
ghost use Rattle.part_model.specs.inner.Steps.{cost_with};

use cycle_table::instr_cost;
use platform_model::Costs;
use rv_core::{Bus, Cause, Instr, Outcome, Regs, decode, execute};

/// Answers what stands at pc, where `word` is the word there: an instruction, or the cause for which there
/// is none, `Fetch` where there is no word.
pub fn instr_at(word: Option<u32>) -> Result<Instr, Cause>
    ensures exact { result ≡ instr_of word }
    ensures range { IfOk result IsInRange }
{
    let Some(word) = word else {
        return Err(Cause::Fetch);
    };
    let Some(instr) = decode(word) else {
        return Err(Cause::Illegal);
    };
    Ok(instr)
}

/// Answers the cost of what stands at pc, in running cycles from 1 to `MOST_COST`, by the registers as they are before
/// the instruction.
pub fn cost_at(costs: &Costs, regs: &Regs, here: Result<Instr, Cause>) -> u8
    requires { ForOk here IsInRange }
    ensures value { result ≡ cost_with costs.now regs.now here }
    ensures range { (0 < result) × (result ≤ MOST_COST) }
{
    match here {
        Ok(instr) => instr_cost(costs, regs, instr),
        Err(_) => 1,
    }
}

/// Answers how many cycles an instruction needs still that came to an outcome: one that stalled is tried again
/// in the next running cycle.
pub fn left_after(outcome: Outcome) -> u8
    ensures { result ≡ left_after outcome }
{
    match outcome {
        Outcome::Stall => 1,
        Outcome::Next | Outcome::Halt(_) | Outcome::Fault(_) => 0,
    }
}

/// Does what stands at pc, on a bus, and answers what it came to. Registers change on `Next` alone.
pub fn effect<B: Bus>(regs: &mut Regs, bus: &mut B, here: Result<Instr, Cause>) -> Outcome
    requires { ForOk here IsInRange }
    ensures outcome { Some result ≡ (effect_with B.answers regs.old (B.state bus.old) here).outcome }
    ensures regs { regs.new ≡ (effect_with B.answers regs.old (B.state bus.old) here).regs }
    ensures bus { B.state bus.new ≡ (effect_with B.answers regs.old (B.state bus.old) here).bus }
    ensures kept { B.kept bus.new ≡ B.kept bus.old }
{
    match here {
        Ok(instr) => execute(regs, bus, instr),
        Err(cause) => Outcome::Fault(cause),
    }
}
