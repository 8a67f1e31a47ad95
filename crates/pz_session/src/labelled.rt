//! Which level of a board has the labels that its writer of texts keeps.

ghost use Rattle.std.specs.Prelude.{◌≡◌, option_map};
ghost use Rattle.pz_session.specs.Labelled.{labelled_of, at_level_only, moved_to, behind};

use pz_grid::Level;

/// The level of a board whose cells have the labels that its writer of texts keeps, if one of its levels is that.
#[derive(Clone, Copy)]
pub enum Labelled {
    Level,
    Before,
    Spare,
    Nothing,
}

impl Labelled {
    /// That level, of the board's level, the one before its input, and the spare one.
    pub(crate) fn level<'l>(
        self,
        level: &'l Level,
        before: &'l Option<Level>,
        spare: &'l Option<Level>,
    ) -> Option<&'l Level>
        ensures { option_map (λ level. level.now.grid) result ≡
            labelled_of self level.now.grid (option_map (λ level. level.grid) before.now)
            (option_map (λ level. level.grid) spare.now) }
    {
        match self {
            Labelled::Level => Some(level),
            Labelled::Before => before.as_ref(),
            Labelled::Spare => spare.as_ref(),
            Labelled::Nothing => None,
        }
    }

    /// Where that level is, once only the board's level is sure to be where it was.
    pub(crate) fn at_level_only(self) -> Labelled
        ensures { result ≡ at_level_only self }
    {
        match self {
            Labelled::Level => Labelled::Level,
            _ => Labelled::Nothing,
        }
    }

    /// Where that level is, once the board's level was put aside there.
    pub(crate) fn moved_to(self, aside: Labelled) -> Labelled
        ensures { result ≡ moved_to self aside }
    {
        match self {
            Labelled::Level => aside,
            _ => Labelled::Nothing,
        }
    }

    /// Where that level is, once the board's level is another one.
    pub(crate) fn behind(self) -> Labelled
        ensures { result ≡ behind self }
    {
        match self {
            Labelled::Level => Labelled::Nothing,
            other => other,
        }
    }
}
