//! The places of a row of a rule. A row holds at a place if all its cells are on the map and fit there.

ghost use Rattle.std.specs.List.{list_all, enumerate_from};
ghost use Rattle.std.specs.Prelude.{◌≡◌, ◌≢◌, take, true, ◌+◌, ◌*◌, ◌<◌, ◌≤◌, cond, [], ◌∷◌, ◌^◌, filter, length, IfOk, IfErr, IfSome, MatchOption, Ok, Err};
ghost use Rattle.std.specs.Result.{result_map_both};
ghost use Rattle.pz_game.specs.declared.limits.TheConstants.{MOST_SIDE};
ghost use Rattle.pz_game.specs.Pattern.{AreOf, IsRowOf, AreRowsOf};
ghost use Rattle.pz_grid.specs.Admitted.{admitted_count, searches_line, starts_in, start_count};
ghost use Rattle.pz_grid.specs.Places.{Adds, position_of, distance, cell_holds, row_holds, line_count, line_length, place_in, holds_behind, pairs_at, head_of, pairs_in, places, places_or_limit, starts_with, still_holds, still_matches};
ghost use Rattle.pz_grid.specs.declared.placing.GridFault.TheVariants.{MatchLimit, Memory};
ghost use Rattle.pz_sets.specs.Next.{IsNext};
ghost use Rattle.pz_sheet.specs.Grid.{IsLawful};
ghost use Rattle.pz_sheet.specs.Line.{IsOnLine, dir_of, line_count as lines_along};

use crate::Level;
use pz_bare::AnySheet;
use pz_game::direction::Dir;
use pz_game::pattern::{Pattern, Row};
use pz_program::instance::Instance;
use pz_sheet::Sheet;
use pz_sheet::line::{Axis, Walk, Way, axis_of};
use pz_sheet::runs::RunSearch;
use std::alloc::{AllocError, Global};
use std::marker::Model;

/// The most places that a row may have. Rule `limits.places`.
pub const MATCH_LIMIT: usize = 1_048_576;

/// For how many places memory is asked at the first.
const SOME_PLACES: usize = 16;

/// Where a row starts, and how many cells its gap spans. A row without a gap has the gap 0.
#[derive(Clone, Copy, Debug, PartialEq, Eq)]
pub struct Place {
    pub x: u32,
    pub y: u32,
    pub gap: u32,
}

/// The places that a search has found so far, at most `MATCH_LIMIT`.
#[derive(Drop)]
struct Found {
    places: Vec<Place>,
}

impl Model for Found {
    ghost use Rattle.std.specs.Prelude.{◌≤◌, List, length};
    ghost use Rattle.pz_grid.specs.declared.placing.TheConstants.{MATCH_LIMIT};
    ghost use Rattle.pz_grid.specs.declared.placing.Place.{Place};

    ghost Value = { List Place };

    ghost view = { λ a. a.places.items };

    ghost invariant = { λ a. length a.places.items ≤ MATCH_LIMIT };
}

/// Why a level has no answer: memory was refused, or the row has more places than `MATCH_LIMIT`.
#[derive(Clone, Copy, Debug, PartialEq, Eq)]
pub enum GridFault {
    Memory,
    MatchLimit,
}

impl From<AllocError> for GridFault {
    ghost from_gives = { λ _ fault. fault ≡ Memory };

    fn from(_: AllocError) -> GridFault {
        GridFault::Memory
    }
}

/// A search has found more places than `MATCH_LIMIT`.
#[derive(Clone, Copy)]
struct TooManyPlaces;

/// What a call found, or else the end of the function with the fault that it found.
macro_rules! or_fault {
    ($found:expr) => {
        match $found {
            Ok(found) => found,
            Err(fault) => return Ok(Err(fault)),
        }
    };
}

impl Level {
    /// The position of the row's cell of this number, for a row that starts at the place. `None`: it is off the map. Cells are numbered
    /// from 0. `gap_at` is how many cells the row has before its gap.
    pub fn position_of(
        &self,
        dir: Dir,
        gap_at: Option<u32>,
        place: Place,
        index: usize,
    ) -> Option<(u32, u32)>
        requires near { index < 2 ^ 32 }
        ensures position { result ≡ position_of self.now.grid dir gap_at place index }
        ensures inside { IfSome result (λ at. (at.0 < self.now.grid.width) × (at.1 < self.now.grid.height)) }
    {
        let steps = distance(gap_at, place.gap, index);
        match self.bare().sheet() {
            AnySheet::Small(sheet) => sheet.along(dir, place.x, place.y, steps),
            AnySheet::Middle(sheet) => sheet.along(dir, place.x, place.y, steps),
            AnySheet::Large(sheet) => sheet.along(dir, place.x, place.y, steps),
        }
    }
}

/// How far the row's cell of this number is from its start: a cell behind the gap is farther by the gap.
fn distance(gap_at: Option<u32>, gap: u32, index: usize) -> usize
    requires { index < 2 ^ 32 }
    ensures value { result ≡ distance gap_at gap index }
    ensures near { result < 2 ^ 33 }
{
    match gap_at {
        Some(at) if at as usize <= index => index + gap as usize,
        _ => index,
    }
}

/// Whether a row, with or without a gap, holds at a place. The caller knows that its cells before the number `from` do.
fn spread_holds<const N: usize>(
    sheet: &Sheet<N>,
    row: &Row,
    dir: Dir,
    place: Place,
    from: usize,
) -> bool
    requires of_game { IsRowOf sheet.now.grid.layers row.now }
    requires begun { list_all (cell_holds sheet.now.grid row.now dir place)
        (take from (enumerate_from 0 row.now.cells)) ≡ true }
    ensures { result ≡ row_holds sheet.now.grid row.now dir place }
{
    let cells = row.cells();
    for index in from..cells.len() {
        let steps = distance(row.gap_at(), place.gap, index);
        if !sheet.holds_along(dir, place.x, place.y, steps, &cells[index]) {
            return false;
        }
    }
    true
}

/// Whether a row holds at a place. Without a gap its cells stand one after another.
fn holds_in<const N: usize>(sheet: &Sheet<N>, row: &Row, dir: Dir, place: Place) -> bool
    requires of_game { IsRowOf sheet.now.grid.layers row.now }
    ensures { result ≡ row_holds sheet.now.grid row.now dir place }
{
    match row.gap_at() {
        None => sheet.run_holds(dir, place.x, place.y, row.cells()),
        Some(_) => spread_holds(sheet, row, dir, place, 0),
    }
}

/// The direction of a walk.
fn dir_of(walk: Walk) -> Dir
    ensures { result ≡ dir_of walk }
{
    match (walk.line.axis, walk.way) {
        (Axis::Horizontal, Way::Ahead) => Dir::Right,
        (Axis::Horizontal, Way::Back) => Dir::Left,
        (Axis::Vertical, Way::Ahead) => Dir::Down,
        (Axis::Vertical, Way::Back) => Dir::Up,
    }
}

#[tactic(auto, using(crate::proofs::StartLemmas::axis_back))]
fn place_in(walk: Walk, start: u32, gap: u32) -> Place
    ensures { result ≡ place_in (dir_of walk) walk.line.number start gap }
{
    let number = walk.line.number;
    let (x, y) = match walk.line.axis {
        Axis::Horizontal => (start, number),
        Axis::Vertical => (number, start),
    };
    Place { x, y, gap }
}

/// The cells of a row before its gap, or all its cells if it has none.
fn head_of(row: &Row) -> &[Pattern]
    ensures cells { result.now ≡ head_of row.now }
    ensures some { 0 < length result.now }
{
    let cells = row.cells();
    match row.gap_at() {
        None => cells,
        Some(at) => &cells[..at as usize],
    }
}

/// The search of a line for the starts of a row: those from which its cells before its gap hold one after another.
fn search_in<'a, const N: usize>(sheet: &'a Sheet<N>, row: &'a Row, walk: Walk) -> RunSearch<'a, N>
    requires of_game { IsRowOf sheet.now.grid.layers row.now }
    requires line_in { walk.line.number < lines_along sheet.now.grid walk.line.axis }
    ensures { result ≡ record { grid = sheet.now.grid; walk = walk; patterns = head_of row.now } }
{
    RunSearch::new(sheet, walk, head_of(row))
}

impl Found {
    /// Adds a place, unless there are `MATCH_LIMIT` already. (Inlined: each place that a search finds comes here.)
    #[inline(always)]
    fn add(&mut self, place: Place) -> Result<Result<(), TooManyPlaces>, AllocError>
        ensures { IfOk result (Adds self.old (place ∷ []) self.new) }
    {
        if self.places.len() == MATCH_LIMIT {
            return Ok(Err(TooManyPlaces));
        }
        if self.places.is_empty() {
            self.places.reserve(SOME_PLACES)?;
        }
        self.places.push(place)?;
        Ok(Ok(()))
    }

    /// All of them.
    fn all(self) -> Vec<Place>
        ensures all { result.items ≡ self }
        ensures few { length result.items ≤ MATCH_LIMIT }
    {
        self.places
    }
}

/// Adds the place if the row holds there. The caller knows that its cells before the number `from` do.
fn add_place<const N: usize>(
    sheet: &Sheet<N>,
    row: &Row,
    dir: Dir,
    place: Place,
    from: usize,
    found: &mut Found,
) -> Result<Result<(), TooManyPlaces>, AllocError>
    requires of_game { IsRowOf sheet.now.grid.layers row.now }
    requires begun { list_all (cell_holds sheet.now.grid row.now dir place)
        (take from (enumerate_from 0 row.now.cells)) ≡ true }
    ensures { IfOk result (Adds found.old (filter (row_holds sheet.now.grid row.now dir) (place ∷ [])) found.new) }
{
    if spread_holds(sheet, row, dir, place, from) {
        found.add(place)
    } else {
        Ok(Ok(()))
    }
}

/// The first gap, from `from` on, for which the row's first cell behind its gap holds where the row starts in a cell. That cell has the
/// number `at`.
#[tactic(auto, using(crate::proofs::StartLemmas::axis_back))]
fn next_gap<const N: usize>(
    sheet: &Sheet<N>,
    walk: Walk,
    start: u32,
    from: u32,
    at: u32,
    behind: &Pattern,
) -> Option<u32>
    requires on_line { IsOnLine sheet.now.grid walk.line start }
    requires of_game { AreOf sheet.now.grid.layers behind.now }
    ensures next { IsNext (λ gap.
        holds_behind sheet.now.grid (dir_of walk) behind.now at
        (place_in (dir_of walk) walk.line.number start gap)) from (line_length sheet.now.grid (dir_of walk)) result }
    ensures short { IfSome result (λ gap. gap < MOST_SIDE) }
{
    let steps = at as usize + from as usize;
    if steps >= sheet.line_length(walk.line.axis) as usize {
        return None;
    }
    let ahead = steps as u32;
    match walk.way {
        Way::Ahead => match sheet.next_in_line(walk.line, start + ahead, behind) {
            Some(there) => Some(there - start - at),
            None => None,
        },
        Way::Back => {
            let end = (start + 1).saturating_sub(ahead);
            match sheet.last_in_line(walk.line, end, behind) {
                Some(there) => Some(start - at - there),
                None => None,
            }
        }
    }
}

/// Adds the places of a row with a gap that start in a cell. From there the cells before the gap hold. The gap stands before the cell of
/// the number `at`. Further cells are tested only for gaps for which that cell holds. Rule `match.gaps`.
fn add_places_with_gaps<const N: usize>(
    sheet: &Sheet<N>,
    row: &Row,
    walk: Walk,
    start: u32,
    at: u32,
    found: &mut Found,
) -> Result<Result<(), TooManyPlaces>, AllocError>
    requires of_game { IsRowOf sheet.now.grid.layers row.now }
    requires on_line { IsOnLine sheet.now.grid walk.line start }
    requires gap_at { row.now.gap_at ≡ Some at }
    requires starts { starts_with sheet.now.grid (dir_of walk) walk.line.number (head_of row.now) start ≡ true }
    ensures { IfOk result
        (Adds found.old (filter (row_holds sheet.now.grid row.now (dir_of walk))
        (pairs_at sheet.now.grid row.now (dir_of walk) walk.line.number start)) found.new) }
{
    let behind = &row.cells()[at as usize];
    let mut from = 0;
    'gaps: while let Some(gap) = next_gap(sheet, walk, start, from, at, behind) {
        let place = place_in(walk, start, gap);
        or_fault!(add_place(sheet, row, dir_of(walk), place, at as usize + 1, found)?);
        from = gap + 1;
    }
    Ok(Ok(()))
}

/// Adds the places that start in a cell. From there the row's cells before its gap hold.
fn add_places_at<const N: usize>(
    sheet: &Sheet<N>,
    row: &Row,
    walk: Walk,
    start: u32,
    found: &mut Found,
) -> Result<Result<(), TooManyPlaces>, AllocError>
    requires of_game { IsRowOf sheet.now.grid.layers row.now }
    requires on_line { IsOnLine sheet.now.grid walk.line start }
    requires starts { starts_with sheet.now.grid (dir_of walk) walk.line.number (head_of row.now) start ≡ true }
    ensures { IfOk result
        (Adds found.old (filter (row_holds sheet.now.grid row.now (dir_of walk))
        (pairs_at sheet.now.grid row.now (dir_of walk) walk.line.number start)) found.new) }
{
    match row.gap_at() {
        None => found.add(place_in(walk, start, 0)),
        Some(at) => add_places_with_gaps(sheet, row, walk, start, at, found),
    }
}

/// Adds the places that start in a line. Gaps are tried only where the row's cells before its gap hold.
#[tactic(auto, using(crate::proofs::StartLemmas::axis_back, crate::proofs::StartLemmas::starts_alike))]
fn add_places_in<const N: usize>(
    sheet: &Sheet<N>,
    row: &Row,
    walk: Walk,
    found: &mut Found,
) -> Result<Result<(), TooManyPlaces>, AllocError>
    requires of_game { IsRowOf sheet.now.grid.layers row.now }
    requires line_in { walk.line.number < lines_along sheet.now.grid walk.line.axis }
    ensures { IfOk result
        (Adds found.old (filter (row_holds sheet.now.grid row.now (dir_of walk))
        (pairs_in sheet.now.grid row.now (dir_of walk) walk.line.number)) found.new) }
{
    // (brings the proof how short a line is)
    let _ = sheet.line_length(walk.line.axis);
    let search = search_in(sheet, row, walk);
    let mut from = 0;
    'starts: while let Some(start) = search.next(from) {
        or_fault!(add_places_at(sheet, row, walk, start, found)?);
        from = start + 1;
    }
    Ok(Ok(()))
}

/// In how many cells of a line the search tests whether a row starts there, if it doesn't skip the line.
#[tactic(auto, using(crate::proofs::StartLemmas::axis_back))]
fn tested_for<const N: usize>(sheet: &Sheet<N>, row: &Row, walk: Walk) -> u32
    requires of_game { IsRowOf sheet.now.grid.layers row.now }
    requires line_in { walk.line.number < lines_along sheet.now.grid walk.line.axis }
    ensures low { starts_in (dir_of walk) (places sheet.now.grid row.now (dir_of walk))
        (line_length sheet.now.grid (dir_of walk)) walk.line.number ≤ result }
    ensures high { result ≤ line_length sheet.now.grid (dir_of walk) }
{
    search_in(sheet, row, walk).tested()
}

impl Level {
    fn line_count(&self, dir: Dir) -> u32
        ensures value { result ≡ line_count self.now.grid dir }
        ensures lawful { IsLawful self.now.grid }
    {
        match axis_of(dir) {
            Axis::Horizontal => self.height(),
            Axis::Vertical => self.width(),
        }
    }

    /// Adds the places that start in a line. A line that can't have one is skipped.
    fn add_searched(
        &self,
        row: &Row,
        dir: Dir,
        line: u32,
        found: &mut Found,
    ) -> Result<Result<(), TooManyPlaces>, AllocError>
        requires of_game { IsRowOf self.now.grid.layers row.now }
        requires line_in { line < line_count self.now.grid dir }
        ensures { IfOk result
            (Adds found.old (filter (row_holds self.now.grid row.now dir)
            (pairs_in self.now.grid row.now dir line)) found.new) }
    {
        let Some(walk) = self.walk_for(row, dir, line) else {
            return Ok(Ok(()));
        };
        match self.bare().sheet() {
            AnySheet::Small(sheet) => add_places_in(sheet, row, walk, found),
            AnySheet::Middle(sheet) => add_places_in(sheet, row, walk, found),
            AnySheet::Large(sheet) => add_places_in(sheet, row, walk, found),
        }
    }

    /// In how many cells of a line the search tests whether a row starts there. In a skipped line it tests none.
    fn tested(&self, row: &Row, dir: Dir, line: u32) -> u32
        requires of_game { IsRowOf self.now.grid.layers row.now }
        requires line_in { line < line_count self.now.grid dir }
        ensures low { starts_in dir (places self.now.grid row.now dir) (line_length self.now.grid dir) line ≤ result }
        ensures high { result ≤ cond (searches_line self.now row.now dir line) (line_length self.now.grid dir) 0 }
        ensures short { result ≤ line_length self.now.grid dir }
    {
        let Some(walk) = self.walk_for(row, dir, line) else {
            return 0;
        };
        match self.bare().sheet() {
            AnySheet::Small(sheet) => tested_for(sheet, row, walk),
            AnySheet::Middle(sheet) => tested_for(sheet, row, walk),
            AnySheet::Large(sheet) => tested_for(sheet, row, walk),
        }
    }

    /// In how many cells of the level the search tests whether a row starts there.
    fn tested_in_all(&self, row: &Row, dir: Dir) -> u64
        requires of_game { IsRowOf self.now.grid.layers row.now }
        ensures low { start_count self.now.grid dir (places self.now.grid row.now dir) ≤ result }
        ensures high { result ≤ admitted_count self.now row.now dir * line_length self.now.grid dir }
    {
        let mut tested = 0;
        for line in 0..self.line_count(dir) {
            tested += self.tested(row, dir, line) as u64;
        }
        tested
    }
}

/// The places of a row, unless there are too many. Err: memory was refused.
fn places_within_limit(
    alloc: Global,
    level: &Level,
    row: &Row,
    dir: Dir,
) -> Result<Result<Vec<Place>, TooManyPlaces>, AllocError>
    requires of_game { IsRowOf level.now.grid.layers row.now }
    ensures { IfOk result
        (λ found. result_map_both (λ places. places.items) (λ _. MatchLimit) found ≡
        places_or_limit level.now.grid row.now dir) }
{
    if !level.is_searched_for(row) {
        return Ok(Ok(Vec::new(alloc)));
    }
    let mut found = Found {
        places: Vec::new(alloc),
    };
    for line in 0..level.line_count(dir) {
        or_fault!(level.add_searched(row, dir, line, &mut found)?);
    }
    Ok(Ok(found.all()))
}

/// The places of a row in a level, in the order of the scan. Left and right scan row by row from the top, each from the left. Up and down
/// scan column by column from the left, each from the top. At one start gaps ascend. Err: `MatchLimit`, there are more than `MATCH_LIMIT`;
/// or `Memory`. Rule `match.places`.
pub fn places(alloc: Global, level: &Level, row: &Row, dir: Dir) -> Result<Vec<Place>, GridFault>
    requires of_game { IsRowOf level.now.grid.layers row.now }
    ensures found { IfOk result (λ found. places_or_limit level.now.grid row.now dir ≡ Ok found.items) }
    ensures fault { IfErr result (λ fault. fault ≢ Memory → places_or_limit level.now.grid row.now dir ≡ Err fault) }
{
    match places_within_limit(alloc, level, row, dir)? {
        Ok(found) => Ok(found),
        Err(TooManyPlaces) => Err(GridFault::MatchLimit),
    }
}

/// The places of a row as `places` gives them, and how many cells a search tests as starts of the row. It tests only lines that `admitted`
/// counts, and each cell at most once. In a line of up to 128 cells it tests only those that fit by the positions of the objects named
/// before the row's gap, headings aside. In a longer line it tests all cells, unless it skips the line. Err: as of `places`.
pub fn places_counted(
    alloc: Global,
    level: &Level,
    row: &Row,
    dir: Dir,
) -> Result<(Vec<Place>, u64), GridFault>
    requires of_game { IsRowOf level.now.grid.layers row.now }
    ensures found { IfOk result (λ both. places_or_limit level.now.grid row.now dir ≡ Ok both.0.items) }
    ensures fault { IfErr result (λ fault. fault ≢ Memory → places_or_limit level.now.grid row.now dir ≡ Err fault) }
    ensures low { IfOk result (λ both. start_count level.now.grid dir both.0.items ≤ both.1) }
    ensures high { IfOk result
        (λ both. both.1 ≤ admitted_count level.now row.now dir * line_length level.now.grid dir) }
{
    let found = places(alloc, level, row, dir)?;
    let tested = level.tested_in_all(row, dir);
    Ok((found, tested))
}

/// The number of lines that are admitted for a row: those whose marks have every object that the row's first cell names as present. A line
/// is a row of the level for left and right, and a column for up and down. No place starts in another line.
pub fn admitted(level: &Level, row: &Row, dir: Dir) -> u32
    requires of_game { IsRowOf level.now.grid.layers row.now }
    ensures { result ≡ admitted_count level.now row.now dir }
{
    let mut count = 0;
    for line in 0..level.line_count(dir) {
        if level.admits_line(row, dir, line) {
            count += 1;
        }
    }
    count
}

/// Whether a row still holds at a place. A row without a gap holds only at places with the gap 0.
fn still_holds(level: &Level, dir: Dir, row: &Row, place: Place) -> bool
    requires of_game { IsRowOf level.now.grid.layers row.now }
    ensures { result ≡ still_holds level.now.grid dir (row.now, place) }
{
    if row.gap_at().is_none() && place.gap != 0 {
        return false;
    }
    match level.bare().sheet() {
        AnySheet::Small(sheet) => holds_in(sheet, row, dir, place),
        AnySheet::Middle(sheet) => holds_in(sheet, row, dir, place),
        AnySheet::Large(sheet) => holds_in(sheet, row, dir, place),
    }
}

/// Whether the rows of an instance's left all hold, each at its place. False if the number of places differs, if a cell is off the map, or
/// if a place of a row without a gap has a gap above 0.
pub fn still_matches(level: &Level, instance: &Instance, places: &[Place]) -> bool
    requires of_game { AreRowsOf level.now.grid.layers instance.now.left }
    ensures { result ≡ still_matches level.now.grid instance.now places.now }
{
    let rows = instance.left.items();
    if places.len() != rows.len() {
        return false;
    }
    for index in 0..rows.len() {
        if !still_holds(level, instance.scan, &rows[index], places[index]) {
            return false;
        }
    }
    true
}
