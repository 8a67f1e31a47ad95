//! The set of commands that rules may give.

ghost use Rattle.std.specs.Prelude.{⊤, ◌≡◌, [], ◌∷◌, codes};
ghost use Rattle.pz_program.specs.Commands.{either};

use bitflags::{Flag, Flags, bitflag_items};

/// A set of commands.
#[derive(Clone, Copy, PartialEq, Eq, Debug)]
pub struct Commands(u8);

bitflag_items! {
    impl Commands: u8 {
        const AGAIN = 1;
        const CANCEL = 2;
        const CHECKPOINT = 4;
        const RESTART = 8;
        const WIN = 16;
    }
}

impl Flags for Commands {
    type Bits = u8;

    ghost exact = { ⊤ };

    ghost table = { (codes "AGAIN", 1) ∷ (codes "CANCEL", 2) ∷ (codes "CHECKPOINT", 4) ∷ (codes "RESTART", 8) ∷
        (codes "WIN", 16) ∷ [] };

    ghost set_of = { λ c. c.0 };

    fn flags<'a>() -> &'a [Flag<Commands>] {
        Commands::FLAGS
    }

    fn bits(&self) -> u8 {
        self.0
    }

    fn from_bits_retain(bits: u8) -> Commands {
        Commands(bits)
    }
}

/// The commands of either set.
pub fn either(a: Commands, b: Commands) -> Commands
    ensures { result ≡ either a b }
{
    a.union(b)
}
