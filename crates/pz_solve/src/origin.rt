//! The level from which presses are tried.

ghost use Rattle.std.specs.Prelude.{◌≡◌, ◌<◌, ◌↔◌, [], true, All, IfOk, OnErr, OnOk, Some, length, slice_get};
ghost use Rattle.pz_bare.specs.Differing.{DifferWithin};
ghost use Rattle.pz_sheet.specs.Grid.{Grid, SameSize};
ghost use Rattle.pz_store.specs.Book.{AreNumbers};
ghost use Rattle.pz_store.specs.Digest.{digest_of};
ghost use Rattle.pz_store.specs.Levels.{IsRow};
ghost use Rattle.pz_solve.specs.Origin.{AreSameBut, IsAt};

use pz_bare::BareLevel;
use pz_grid::Level;
use pz_store::levels::Levels;
use std::alloc::{AllocError, Global};
use std::marker::Model;

/// A level that was found: its number, the level without marks and with them, the numbers of its cells, and its digest. `work` is a level
/// to play presses in. It differs at most in the cells `changed`, so copying these makes it equal again.
pub(crate) struct Origin {
    place: usize,
    bare: BareLevel,
    level: Level,
    numbers: Vec<u32>,
    digest: u64,
    work: Option<Level>,
    changed: Vec<usize>,
}

/// Written out, so that each place where one goes out of scope is one call.
impl Drop for Origin {
    fn drop(self) {
        let Origin {
            place: _,
            bare,
            level,
            numbers,
            digest: _,
            work,
            changed,
        } = self;
        drop(bare);
        drop(level);
        drop(numbers);
        drop(work);
        drop(changed);
    }
}

impl Model for Origin {
    ghost use Rattle.pz_solve.specs.Origin.{OriginState, IsOrigin};

    ghost Value = { OriginState };

    ghost view = { λ o. record {
      place = o.place;
      grid = o.level.grid;
      numbers = o.numbers.items;
      digest = o.digest;
      changed = o.changed.items;
    } };

    ghost invariant = { λ o. IsOrigin o.bare o.level o.work o.changed.items };
}

/// Lists the cells in which two rows of numbers may differ. Err: memory was refused.
fn note_cells(old: &[u32], new: &[u32], cells: &mut Vec<usize>) -> Result<(), AllocError>
    requires long { length new.now ≡ length old.now }
    requires none { cells.old.items ≡ [] }
    ensures within { All (λ cell. cell < length old.now) cells.new.items }
    ensures rest { OnOk result (AreSameBut cells.new.items old.now new.now) }
{
    for index in 0..old.len() {
        if old[index] != new[index] {
            cells.push(index)?;
        }
    }
    Ok(())
}

/// Puts the cells of these numbers into a level at `cells`; elsewhere it has them already.
fn put_cells(levels: &Levels, bare: &mut BareLevel, numbers: &[u32], cells: &[usize])
    requires size { SameSize levels.now.frame bare.old.grid }
    requires within { All (λ cell. cell < length bare.old.grid.cells) cells.now }
    requires row { IsRow levels.now.frame levels.now.cells numbers.now }
    requires long { length numbers.now ≡ length bare.old.grid.cells }
    ensures { (there : Grid) → SameSize levels.now.frame there → AreNumbers levels.now.cells numbers.now there →
        DifferWithin cells.now bare.old.grid there → bare.new.grid ≡ there }
{
    // (brings the proof the law of the level)
    let _ = bare.width();
    for cell in cells {
        levels.put(bare, *cell, numbers[*cell]);
    }
}

impl Origin {
    /// The first level, with the numbers of its cells and its digest. Err: memory was refused.
    pub(crate) fn new(
        alloc: Global,
        bare: BareLevel,
        numbers: Vec<u32>,
        digest: u64,
    ) -> Result<Origin, AllocError>
        ensures { IfOk result (λ origin. origin ≡
            record { place = 0; grid = bare.grid; numbers = numbers.items; digest = digest; changed = [] }) }
    {
        let level = Level::marked(alloc, bare.copy()?)?;
        Ok(Origin {
            place: 0,
            bare,
            level,
            numbers,
            digest,
            work: None,
            changed: Vec::new(alloc),
        })
    }

    /// Its number among those found.
    pub(crate) fn place(&self) -> usize
        ensures { result ≡ self.now.place }
    {
        self.place
    }

    /// The level.
    pub(crate) fn level(&self) -> &Level
        ensures { result.now.grid ≡ self.now.grid }
    {
        &self.level
    }

    /// Makes the level to play in equal again.
    fn settle(&mut self)
        ensures { self.new ≡ record self.old { changed = [] } }
    {
        if let Some(work) = &mut self.work {
            work.take_cells_of(&self.level, &self.changed);
        }
        self.changed.clear();
    }

    /// A level that equals this one, to play in. Err: memory was refused.
    pub(crate) fn take_equal(&mut self) -> Result<Level, AllocError>
        ensures equal { IfOk result (λ equal. equal.grid ≡ self.old.grid) }
        ensures kept { self.new ≡ record self.old { changed = [] } }
    {
        self.settle();
        match self.work.take() {
            Some(equal) => Ok(equal),
            None => self.level.copied(),
        }
    }

    /// Makes numbers those of a level that a move from this one led to, and gives the digest of that level. Forgets the level to play in.
    /// Err: memory was refused.
    pub(crate) fn number(
        &mut self,
        levels: &mut Levels,
        level: &BareLevel,
        numbers: &mut [u32],
    ) -> Result<u64, AllocError>
        requires at { IsAt levels.old self.old }
        requires size { SameSize self.old.grid level.now.grid }
        requires long { length numbers.old ≡ length self.old.numbers }
        ensures frame { levels.new.frame ≡ levels.old.frame }
        ensures objects { levels.new.objects ≡ levels.old.objects }
        ensures grids { levels.new.grids ≡ levels.old.grids }
        ensures at { IsAt levels.new self.new }
        ensures kept { self.new ≡ record self.old { changed = self.new.changed } }
        ensures size { OnOk result (SameSize levels.new.frame level.now.grid) }
        ensures numbers { OnOk result (AreNumbers levels.new.cells numbers.new level.now.grid) }
        ensures row { OnOk result (IsRow levels.new.frame levels.new.cells numbers.new) }
        ensures long { length numbers.new ≡ length numbers.old }
        ensures digest { IfOk result (λ digest. digest ≡ digest_of levels.new.objects level.now.grid) }
        ensures rest { OnOk result (DifferWithin self.new.changed level.now.grid self.new.grid) }
    {
        // (brings the proof the law of both levels)
        let _ = (self.bare.width(), level.width());
        self.work = None;
        self.changed.clear();
        numbers.copy_from_slice(&self.numbers);
        levels.number(&self.bare, level, numbers, self.digest, &mut self.changed)
    }

    /// Whether the level numbered last equals this one.
    pub(crate) fn has_no_change(&self) -> bool
        ensures { (result ≡ true) ↔ (self.now.changed ≡ []) }
    {
        self.changed.is_empty()
    }

    /// Keeps a level to play the next press in, which differs from this one at most in the cells that were noted.
    pub(crate) fn keep(&mut self, level: Level)
        requires size { SameSize self.old.grid level.grid }
        requires rest { DifferWithin self.old.changed level.grid self.old.grid }
        ensures { self.new ≡ self.old }
    {
        // (brings the proof the law of both levels)
        let _ = (self.level.width(), level.width());
        self.work = Some(level);
    }

    /// Goes to another level that was found, which has this digest. `numbers` is room. Err: memory was refused, and it stays at its level.
    pub(crate) fn go_to(
        &mut self,
        levels: &Levels,
        place: usize,
        digest: u64,
        numbers: &mut [u32],
    ) -> Result<(), AllocError>
        requires at { IsAt levels.now self.old }
        requires within { place < length levels.now.grids }
        requires digest { (grid : Grid) → slice_get levels.now.grids place ≡ Some grid →
            digest ≡ digest_of levels.now.objects grid }
        requires long { length numbers.old ≡ length self.old.numbers }
        ensures at { IsAt levels.now self.new }
        ensures place { OnOk result (self.new.place ≡ place) }
        ensures kept { OnErr result (self.new ≡ record self.old { changed = self.new.changed }) }
        ensures long { length numbers.new ≡ length numbers.old }
    {
        // (brings the proof the law of the level)
        let _ = self.level.width();
        levels.copy_to(place, numbers);
        self.settle();
        note_cells(&self.numbers, numbers, &mut self.changed)?;
        put_cells(levels, &mut self.bare, numbers, &self.changed);
        self.level.take_bare_cells_of(&self.bare, &self.changed);
        self.settle();
        self.numbers.copy_from_slice(numbers);
        self.place = place;
        self.digest = digest;
        Ok(())
    }
}
