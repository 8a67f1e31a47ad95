//! Reads the inputs of a session.

ghost use Rattle.std.specs.Prelude.{◌≡◌, ◌≤◌, length, map, IfOk};
ghost use Rattle.serde_json.specs.View.{view as data_of};
ghost use Rattle.pz_base.specs.Each.{all_some};
ghost use Rattle.pz_entries.specs.Input.{input_of, inputs_of};

use pz_game::direction::Dir;
use pz_record::input::{Input, Inputs, MOST_INPUTS};
use serde_json::Value;
use std::alloc::{AllocError, Global};

/// Rule `file.inputs`.
fn read_input(value: &Value) -> Option<Input>
    ensures { result ≡ input_of (data_of value.now) }
{
    match value {
        Value::Number(number) => match number.as_u64()? {
            0 => Some(Input::Press(Dir::Up)),
            1 => Some(Input::Press(Dir::Left)),
            2 => Some(Input::Press(Dir::Down)),
            3 => Some(Input::Press(Dir::Right)),
            4 => Some(Input::Press(Dir::Action)),
            _ => None,
        },
        Value::String(text) => match text.as_str() {
            "undo" => Some(Input::Undo),
            "restart" => Some(Input::Restart),
            "tick" => Some(Input::Tick),
            _ => None,
        },
        _ => None,
    }
}

/// The inputs, if each element is one.
fn read_each(alloc: Global, list: &[Value]) -> Result<Option<Inputs>, AllocError>
    requires { length list.now ≤ MOST_INPUTS }
    ensures { IfOk result (λ inputs. inputs ≡ all_some (map (λ v. input_of (data_of v)) list.now)) }
{
    let mut items = Vec::new(alloc);
    for value in list {
        let Some(input) = read_input(value) else {
            return Ok(None);
        };
        items.push(input)?;
    }
    Ok(Some(Inputs::new(items)))
}

/// The inputs that a list gives; None: it is no list of at most `MOST_INPUTS` inputs.
pub(crate) fn read_inputs(alloc: Global, value: &Value) -> Result<Option<Inputs>, AllocError>
    ensures { IfOk result (λ inputs. inputs ≡ inputs_of (data_of value.now)) }
{
    let Some(list) = value.as_array() else {
        return Ok(None);
    };
    if list.len() > MOST_INPUTS {
        return Ok(None);
    }
    read_each(alloc, list)
}
