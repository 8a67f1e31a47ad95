//! The way back from a level to the one before it.

ghost use Rattle.std.specs.Prelude.{◌≡◌, IfOk, OnOk, OnErr, All, map};
ghost use Rattle.pz_bare.specs.Past.{given_back, kept_in, Leads, IsFor};
ghost use Rattle.pz_sheet.specs.Changes.{changes_seen, IsChangeOf, with_cells_back};
ghost use Rattle.pz_sheet.specs.Grid.{SameSize};

use crate::{AnySheet, BareLevel};
use pz_sheet::changes::Change;
use std::alloc::{AllocError, Global};

/// The way back from a level to the one before it: the cells in which they differ, in as many words as the level's cells have. If the sizes
/// differ, it is the whole older level.
#[derive(Drop)]
pub(crate) enum Older {
    Small(Vec<Change<1>>),
    Middle(Vec<Change<2>>),
    Large(Vec<Change<4>>),
    Whole(Box<BareLevel>),
}

impl BareLevel {
    /// Makes this level equal to a newer one, and gives the way back. Err: memory was refused, and the level is unchanged.
    pub(crate) fn go_on(&mut self, alloc: Global, newer: &BareLevel) -> Result<Older, AllocError>
        ensures newer { OnOk result (self.new.grid ≡ newer.now.grid) }
        ensures kept { OnErr result (self.new.grid ≡ self.old.grid) }
        ensures leads { IfOk result (λ way. Leads way newer.now.grid self.old.grid) }
        ensures given { IfOk result (λ way. given_back way newer.now.grid ≡ self.old.grid) }
    {
        if newer.same_size(self) {
            return self.change_to(newer);
        }
        let whole = Box::new(alloc, self.copy()?)?;
        self.copy_from(newer)?;
        Ok(Older::Whole(whole))
    }

    /// Makes this level equal to a newer one of the same size, and gives the way back. Err: memory was refused, and the level is unchanged.
    fn change_to(&mut self, newer: &BareLevel) -> Result<Older, AllocError>
        requires size { SameSize newer.now.grid self.old.grid }
        ensures newer { OnOk result (self.new.grid ≡ newer.now.grid) }
        ensures kept { OnErr result (self.new.grid ≡ self.old.grid) }
        ensures leads { IfOk result (λ way. Leads way newer.now.grid self.old.grid) }
        ensures given { IfOk result (λ way. given_back way newer.now.grid ≡ self.old.grid) }
    {
        match (&mut *self.sheet, &*newer.sheet) {
            (AnySheet::Small(sheet), AnySheet::Small(newer)) => sheet
                .go_on(newer)
                .map(Older::Small),
            (AnySheet::Middle(sheet), AnySheet::Middle(newer)) => sheet
                .go_on(newer)
                .map(Older::Middle),
            (AnySheet::Large(sheet), AnySheet::Large(newer)) => sheet
                .go_on(newer)
                .map(Older::Large),
            _ => unreachable!(),
        }
    }

    /// Goes the way back: makes this level equal to the older one.
    pub(crate) fn give_back(&mut self, way: Older)
        requires { Leads way self.old.grid (given_back way self.old.grid) }
        ensures { self.new.grid ≡ given_back way self.old.grid }
    {
        match way {
            Older::Small(changes) => self.take_small(&changes),
            Older::Middle(changes) => self.take_middle(&changes),
            Older::Large(changes) => self.take_large(&changes),
            Older::Whole(bare) => *self = Box::into_inner(bare),
        }
    }

    fn take_small(&mut self, changes: &[Change<1>])
        requires room { IsFor 128 25 self.old.grid }
        requires of_level { All (IsChangeOf self.old.grid) changes.now }
        ensures { self.new.grid ≡ with_cells_back (changes_seen self.old.grid changes.now) self.old.grid }
    {
        match &mut *self.sheet {
            AnySheet::Small(sheet) => sheet.take_changes(changes),
            _ => unreachable!(),
        }
    }

    fn take_middle(&mut self, changes: &[Change<2>])
        requires room { (IsFor 128 25 self.old.grid → ⊥) × IsFor 256 50 self.old.grid }
        requires of_level { All (IsChangeOf self.old.grid) changes.now }
        ensures { self.new.grid ≡ with_cells_back (changes_seen self.old.grid changes.now) self.old.grid }
    {
        match &mut *self.sheet {
            AnySheet::Middle(sheet) => sheet.take_changes(changes),
            _ => unreachable!(),
        }
    }

    fn take_large(&mut self, changes: &[Change<4>])
        requires room { IsFor 256 50 self.old.grid → ⊥ }
        requires of_level { All (IsChangeOf self.old.grid) changes.now }
        ensures { self.new.grid ≡ with_cells_back (changes_seen self.old.grid changes.now) self.old.grid }
    {
        match &mut *self.sheet {
            AnySheet::Large(sheet) => sheet.take_changes(changes),
            _ => unreachable!(),
        }
    }
}

impl Older {
    /// A copy of the way. Err: memory was refused.
    fn copy(&self, alloc: Global) -> Result<Older, AllocError>
        ensures { IfOk result (λ way. kept_in way ≡ kept_in self.now) }
    {
        Ok(match self {
            Older::Small(changes) => Older::Small(Vec::from_slice(alloc, changes)?),
            Older::Middle(changes) => Older::Middle(Vec::from_slice(alloc, changes)?),
            Older::Large(changes) => Older::Large(Vec::from_slice(alloc, changes)?),
            Older::Whole(level) => Older::Whole(Box::new(alloc, level.copy()?)?),
        })
    }
}

/// Copies of the ways. Err: memory was refused.
pub(crate) fn copied(alloc: Global, ways: &[Older]) -> Result<Vec<Older>, AllocError>
    ensures { IfOk result (λ copies. map kept_in copies.items ≡ map kept_in ways.now) }
{
    let mut copies = Vec::with_capacity(alloc, ways.len())?;
    for way in ways {
        copies.push(way.copy(alloc)?)?;
    }
    Ok(copies)
}
