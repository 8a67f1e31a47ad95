//! The levels that a search has found.

ghost use Rattle.std.specs.Prelude.{◌≡◌, ◌+◌, ◌-◌, ◌<◌, ◌≤◌, [], ◌∷◌, ◌++◌, length, IfOk, OnOk, OnErr, not, option_map, Some, slice_get};
ghost use Rattle.pz_sheet.specs.Grid.{Grid, SameSize};
ghost use Rattle.pz_bare.specs.Differing.{DifferWithin};
ghost use Rattle.pz_program.specs.Instance.{IsProgramOf};
ghost use Rattle.pz_store.specs.Book.{AreNumbers};
ghost use Rattle.pz_store.specs.Digest.{digest_of};
ghost use Rattle.pz_store.specs.Levels.{IsRow};
ghost use Rattle.pz_solve.specs.Found.{Found, start_of};
ghost use Rattle.pz_solve.specs.Origin.{IsAt};
ghost use Rattle.pz_solve.specs.Leading.{reached_by, IsMoveIn, MoveKeepsSize};
ghost use Rattle.pz_solve.specs.Moves.{move_of};
ghost use Rattle.pz_solve.specs.Trying.{AreOfGame};
ghost use Rattle.pz_solve.specs.Noted.{digests_of, entry_of, is_among, link_of, IsKept, IsNotedAs};

use crate::index::Index;
use crate::moves::{Move, play};
use crate::origin::Origin;
use pz_game::direction::Dir;
use pz_game::game::Game;
use pz_grid::Level;
use pz_program::instance::Program;
use pz_store::levels::Levels;
use std::alloc::{AllocError, Global};
use std::marker::Model;

/// How a level was found: after so many presses, from which level before it, and by which press.
#[derive(Clone, Copy)]
pub struct Link {
    pub depth: u32,
    pub parent: u32,
    pub input: Dir,
}

/// What became of a level.
#[derive(Clone, Copy)]
pub enum Noted {
    /// It had been found before.
    Known,
    /// It was added.
    Added,
    /// It is new, and there is no room for it.
    NoRoom,
}

/// The levels that a search has found, each once, in the order of their depths, and how each was found. `index` has their digests.
/// `numbers` is room for those of a level's cells, and `origin` is the level from which presses are tried.
pub struct Search {
    levels: Levels,
    links: Vec<Link>,
    index: Index,
    numbers: Vec<u32>,
    origin: Origin,
}

/// Written out, so that each place where one goes out of scope is one call.
impl Drop for Search {
    fn drop(self) {
        let Search {
            levels,
            links,
            index: _index,
            numbers,
            origin,
        } = self;
        drop(levels);
        drop(links);
        drop(numbers);
        drop(origin);
    }
}

impl Model for Search {
    ghost use Rattle.std.specs.Prelude.{List};
    ghost use Rattle.pz_solve.specs.Found.{Found};
    ghost use Rattle.pz_solve.specs.Noted.{found_in, IsStored};

    ghost Value = { List Found };

    ghost view = { λ s. found_in s.levels.grids s.links.items };

    ghost invariant = { λ s. IsStored s.levels s.links.items s.index s.numbers.items s.origin };
}

/// Whether the level of these numbers, which has this digest, isn't among the levels. Mostly it is the one at the origin.
fn is_new(origin: &Origin, levels: &Levels, index: &Index, numbers: &[u32], digest: u64) -> bool
    requires at { IsAt levels.now origin.now }
    requires indexed { index.now ≡ digests_of levels.now.objects levels.now.grids }
    requires row { IsRow levels.now.frame levels.now.cells numbers.now }
    ensures { (grid : Grid) → SameSize levels.now.frame grid → AreNumbers levels.now.cells numbers.now grid →
        digest ≡ digest_of levels.now.objects grid → DifferWithin origin.now.changed grid origin.now.grid →
        result ≡ not (is_among levels.now.grids grid) }
{
    if origin.has_no_change() {
        return false;
    }
    let mut at = index.newest(digest);
    'places: while let Some(place) = at {
        if levels.has_at(place, numbers) {
            return false;
        }
        at = index.older(place, digest);
    }
    true
}

/// Goes to the level of this number, if it isn't there. `numbers` is room. Err: memory was refused.
fn go_to(
    origin: &mut Origin,
    levels: &Levels,
    index: &Index,
    place: usize,
    numbers: &mut [u32],
) -> Result<(), AllocError>
    requires at { IsAt levels.now origin.old }
    requires indexed { index.now ≡ digests_of levels.now.objects levels.now.grids }
    requires within { place < length levels.now.grids }
    requires long { length numbers.old ≡ length origin.old.numbers }
    ensures at { IsAt levels.now origin.new }
    ensures place { OnOk result (origin.new.place ≡ place) }
    ensures long { length numbers.new ≡ length numbers.old }
{
    if origin.place() == place {
        return Ok(());
    }
    origin.go_to(levels, place, index.digest(place), numbers)
}

impl Search {
    /// A search that has found one level. Err: memory was refused.
    pub(crate) fn new(alloc: Global, level: &Level, objects: usize) -> Result<Search, AllocError>
        ensures { IfOk result (λ search. search ≡ start_of level.now.grid ∷ []) }
    {
        let level = level.bare();
        let mut levels = Levels::new(alloc, level, objects)?;
        let numbers = levels.number_all(alloc, level)?;
        let digest = levels.digest(&numbers);
        let mut index = Index::new(alloc);
        index.push(digest)?;
        levels.push(&numbers)?;
        let mut links = Vec::new(alloc);
        links.push(Link {
            depth: 0,
            parent: 0,
            input: Dir::Action,
        })?;
        let room = Vec::from_slice(alloc, &numbers)?;
        let origin = Origin::new(alloc, level.copy()?, numbers, digest)?;
        Ok(Search {
            levels,
            links,
            index,
            numbers: room,
            origin,
        })
    }

    /// How many levels were found.
    pub(crate) fn len(&self) -> usize
        ensures count { result ≡ length self.now }
        ensures kept { IsKept self.now }
    {
        self.links.len()
    }

    /// How the level of this number was found.
    pub(crate) fn link(&self, index: usize) -> Link
        requires { index < length self.now }
        ensures link { option_map link_of (slice_get self.now index) ≡ Some result }
        ensures low { result.depth ≤ index }
        ensures behind { 0 < index → result.parent < index }
    {
        self.links[index]
    }

    /// How a level is found by a press from the level of this number. Err: there is no number for its depth or for that level.
    pub(crate) fn link_behind(&self, index: usize, input: Dir) -> Result<Link, AllocError>
        requires { index < length self.now }
        ensures depth { IfOk result
            (λ link. option_map (λ found. found.depth + 1) (slice_get self.now index) ≡ Some link.depth) }
        ensures parent { IfOk result (λ link. link.parent ≡ index) }
        ensures input { IfOk result (λ link. link.input ≡ input) }
        ensures low { IfOk result (λ link. link.depth ≤ length self.now) }
    {
        let Ok(parent) = u32::try_from(index) else {
            return Err(AllocError);
        };
        let Some(depth) = self.link(index).depth.checked_add(1) else {
            return Err(AllocError);
        };
        Ok(Link {
            depth,
            parent,
            input,
        })
    }

    /// Plays a press from the level of this number. Err: memory was refused.
    pub(crate) fn play(
        &mut self,
        alloc: Global,
        game: &Game,
        program: &Program,
        index: usize,
        input: Dir,
    ) -> Result<Move, AllocError>
        requires within { index < length self.old }
        requires level_of { AreOfGame game.now self.old }
        requires program_of { IsProgramOf game.now.layers program.now }
        ensures kept { self.new ≡ self.old }
        ensures reached { IfOk result (λ end. (here : Found) → slice_get self.old index ≡ Some here →
            reached_by end ≡ move_of game.now program.now here.grid input) }
        ensures game { IfOk result (IsMoveIn game.now) }
        ensures size { IfOk result (λ end. (here : Found) → slice_get self.old index ≡ Some here →
            MoveKeepsSize here.grid end) }
    {
        go_to(
            &mut self.origin,
            &self.levels,
            &self.index,
            index,
            &mut self.numbers,
        )?;
        let equal = self.origin.take_equal()?;
        play(alloc, game, program, self.origin.level(), equal, input)
    }

    /// Adds a level that another one led to, unless it was found before, or so many levels were found already. Err: memory was refused.
    pub(crate) fn note(
        &mut self,
        level: Level,
        link: Link,
        most: usize,
    ) -> Result<Noted, AllocError>
        requires within { link.parent < length self.old }
        requires size { (before : Found) → slice_get self.old link.parent ≡ Some before → SameSize before.grid level.grid }
        requires low { link.depth ≤ length self.old }
        ensures noted { IfOk result (IsNotedAs self.old self.new most (entry_of level.grid link)) }
        ensures err { OnErr result (self.new ≡ self.old) }
    {
        go_to(
            &mut self.origin,
            &self.levels,
            &self.index,
            link.parent as usize,
            &mut self.numbers,
        )?;
        let digest = self
            .origin
            .number(&mut self.levels, level.bare(), &mut self.numbers)?;
        let is_new = is_new(
            &self.origin,
            &self.levels,
            &self.index,
            &self.numbers,
            digest,
        );
        self.origin.keep(level);
        if !is_new {
            return Ok(Noted::Known);
        }
        if self.links.len() >= most {
            return Ok(Noted::NoRoom);
        }
        self.levels.push(&self.numbers)?;
        if self.links.push(link).is_err() {
            self.levels.pop();
            return Err(AllocError);
        }
        if self.index.push(digest).is_err() {
            self.levels.pop();
            self.links.pop();
            return Err(AllocError);
        }
        Ok(Noted::Added)
    }
}
