//! Where a session stands between two inputs, apart from its plan: what is kept of a session that isn't played at the moment.

ghost use Rattle.std.specs.Prelude.{◌≡◌, IfOk};

use pz_bare::BareLevel;
use pz_bare::past::Past;
use pz_grid::Level;
use std::alloc::AllocError;
use std::marker::Model;

/// Where a session stands: the entry of LEVELS that is played, its level, the target of a restart, the past, and whether play is over.
#[derive(Drop)]
pub struct Standing {
    pub(crate) entry: usize,
    pub(crate) level: Level,
    pub(crate) target: BareLevel,
    pub(crate) past: Past,
    pub(crate) is_over: bool,
}

impl Model for Standing {
    ghost use Rattle.pz_session.specs.Standing.{Stood};

    ghost Value = { Stood };

    ghost view = { λ s. record {
      entry = s.entry;
      level = s.level.grid;
      target = s.target.grid;
      past = s.past;
      is_over = s.is_over;
    } };
}

impl Standing {
    /// A copy. Err: memory was refused.
    pub fn copy(&self) -> Result<Standing, AllocError>
        ensures { IfOk result (λ standing. standing ≡ self.now) }
    {
        let level = self.level.copied()?;
        let target = self.target.copy()?;
        let past = self.past.copy()?;
        Ok(Standing {
            entry: self.entry,
            level,
            target,
            past,
            is_over: self.is_over,
        })
    }
}
