//! What is wrong with a rule line.

ghost use Rattle.std.specs.Prelude.{◌≡◌};
ghost use Rattle.pz_plan.specs.Fault.{code_of};

use pz_base::fault::Code;

/// What is wrong with a rule line.
#[derive(Clone, Copy)]
pub enum RuleFault {
    BadRule,
    OutsideProfile,
    TooLarge,
    Unknown,
    Mixed,
    Shape,
    LateMovement,
    AmbiguousRight,
    TooManyRules,
    RightClash,
}

impl RuleFault {
    /// The code with which a source is refused if one of its lines has this fault.
    pub fn code(self) -> Code
        ensures { result ≡ code_of self }
    {
        match self {
            RuleFault::BadRule => Code::BadRule,
            RuleFault::OutsideProfile => Code::OutsideProfile,
            RuleFault::TooLarge => Code::TooLarge,
            RuleFault::Unknown => Code::Unknown,
            RuleFault::Mixed => Code::Mixed,
            RuleFault::Shape => Code::Shape,
            RuleFault::LateMovement => Code::LateMovement,
            RuleFault::AmbiguousRight => Code::AmbiguousRight,
            RuleFault::TooManyRules => Code::TooManyRules,
            RuleFault::RightClash => Code::RightClash,
        }
    }
}
