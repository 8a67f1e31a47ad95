//! Instances of rules, and the groups, loops and programs that they form.

ghost use Rattle.std.specs.Prelude.{◌≡◌};

use crate::commands::Commands;
use crate::group::Group;
use pz_base::listed::Listed;
use pz_game::direction::Dir;
use pz_game::pattern::Rows;

/// A rule for one direction and one choice of members and words: its rows, scanned for in one direction, and the commands
/// that it gives. `below` says whose instance it is: so many lines of RULES stand below the rule's line.
pub struct Instance {
    pub scan: Dir,
    pub left: Rows,
    pub right: Rows,
    pub commands: Commands,
    pub below: usize,
}

/// Written out, so that dropping one is a single call everywhere.
impl Drop for Instance {
    fn drop(self) {
        let Instance {
            scan: _,
            left,
            right,
            commands: _,
            below: _,
        } = self;
        drop(left);
        drop(right);
    }
}

/// Groups that are run together to rest.
pub type Groups = Listed<Group>;

/// A group, or a loop of groups.
#[derive(Drop)]
pub enum Block {
    One(Group),
    Loop(Groups),
}

/// The blocks of a list, in the order in which they run.
pub type Blocks = Listed<Block>;

/// What a game's rules are: the blocks before the movement and those after it.
pub struct Program {
    pub early: Blocks,
    pub late: Blocks,
}

/// Written out, so that dropping one is a single call everywhere.
impl Drop for Program {
    fn drop(self) {
        let Program { early, late } = self;
        drop(early);
        drop(late);
    }
}

impl Program {
    /// The blocks that run before the movement.
    pub fn early(&self) -> &[Block]
        ensures { result.now ≡ self.now.early }
    {
        self.early.items()
    }

    /// The blocks that run after the movement.
    pub fn late(&self) -> &[Block]
        ensures { result.now ≡ self.now.late }
    {
        self.late.items()
    }
}
