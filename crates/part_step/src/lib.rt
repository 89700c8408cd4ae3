// The step that a unit takes, and what units of one phase in a row answer.
// A unit tests everything it meets before it writes.
#![tactic(auto)]

ghost use Rattle.std.specs.Prelude.{◌≡◌, ◌≤◌};
ghost use Rattle.machine.specs.OneUnit.{step};

use machine::Step;

// The step that a unit takes: by phase, grey head and the colour word met alone.
pub fn step(m: u32, phase: u32, grey: u32, word: u32) -> Step
    requires { m ≤ 16384 }
    ensures { result ≡ step m phase grey word }
{
    match phase {
        machine::IDLE => match word {
            machine::WHITE => Step::Begin,
            _ => Step::Damage,
        },
        machine::MARKING => match grey {
            machine::NO_GREY => Step::Turn,
            _ => match word {
                1..=machine::BLACK => {
                    if word <= m + 1 {
                        Step::Mark
                    } else {
                        Step::Damage
                    }
                }
                _ => Step::Damage,
            },
        },
        machine::SWEEPING => match word {
            machine::WHITE => Step::Reclaim,
            machine::FREE..=machine::BLACK => {
                if word == machine::BLACK {
                    Step::Whiten
                } else {
                    Step::Pass
                }
            }
            _ => Step::Damage,
        },
        _ => Step::Damage,
    }
}
