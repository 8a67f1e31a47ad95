//! The inputs of a session in play.

ghost use Rattle.std.specs.Prelude.{◌≡◌};

use pz_record::input::Input;
use std::marker::Model;

/// The inputs of a session, lent by its case.
#[derive(Drop)]
pub struct Tape<'a> {
    inputs: &'a [Input],
}

impl<'a> Model for Tape<'a> {
    ghost use Rattle.std.specs.Prelude.{List};
    ghost use Rattle.pz_record.specs.declared.input.Input.{Input};

    ghost Value = { List Input };

    ghost view = { λ tape. tape.inputs.now };
}

impl<'a> Tape<'a> {
    pub fn new(inputs: &'a [Input]) -> Tape<'a>
        ensures { result ≡ inputs.now }
    {
        Tape { inputs }
    }

    pub fn items(&self) -> &[Input]
        ensures { result.now ≡ self.now }
    {
        self.inputs
    }
}
