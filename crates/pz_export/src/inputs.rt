//! The inputs that a host gives, each as a byte.

ghost use Rattle.std.specs.Prelude.{◌≡◌, ◌<◌, IfErr, IfOk, List, map, take, length, nat_lt, MatchOption, true};
ghost use Rattle.std.specs.List.{list_any};
ghost use Rattle.pz_export.specs.Inputs.{number_of};
ghost use Rattle.pz_export.specs.declared.inputs.InputFault.TheVariants.{NoInput};

use pz_game::direction::Dir;
use pz_record::input::Input;
use std::alloc::{AllocError, Global};

/// Why bytes give no inputs.
#[derive(Clone, Copy, PartialEq, Eq, Debug)]
pub enum InputFault {
    /// Some byte is no input's.
    NoInput,
    /// Memory was refused.
    Memory,
}

impl From<AllocError> for InputFault {
    ghost use Rattle.std.specs.Prelude.{◌≡◌};
    ghost use Rattle.pz_export.specs.declared.inputs.InputFault.TheVariants.{Memory};

    ghost from_gives = { λ _ fault. fault ≡ Memory };

    fn from(_: AllocError) -> InputFault {
        InputFault::Memory
    }
}

/// The input of a byte: a press as a file of sessions numbers it, then undo, restart and a tick.
fn input_of(byte: u8) -> Option<Input>
    ensures { MatchOption result (nat_lt 7 byte ≡ true) (λ input. number_of input ≡ byte) }
{
    match byte {
        0 => Some(Input::Press(Dir::Up)),
        1 => Some(Input::Press(Dir::Left)),
        2 => Some(Input::Press(Dir::Down)),
        3 => Some(Input::Press(Dir::Right)),
        4 => Some(Input::Press(Dir::Action)),
        5 => Some(Input::Undo),
        6 => Some(Input::Restart),
        7 => Some(Input::Tick),
        _ => None,
    }
}

/// The inputs of bytes. Err: some byte is no input's, or memory was refused.
pub fn inputs_of(alloc: Global, bytes: &[u8]) -> Result<Vec<Input>, InputFault>
    ensures read { IfOk result (λ inputs. map number_of inputs.items ≡ bytes.now) }
    ensures refused { IfErr result (λ why. why ≡ NoInput → list_any (nat_lt 7) bytes.now ≡ true) }
{
    let mut inputs = Vec::new(alloc);
    inputs.reserve(bytes.len())?;
    for byte in bytes {
        let Some(input) = input_of(*byte) else {
            return Err(InputFault::NoInput);
        };
        if inputs.push(input).is_err() {
            return Err(InputFault::Memory);
        }
    }
    Ok(inputs)
}
