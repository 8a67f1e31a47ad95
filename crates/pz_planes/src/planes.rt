//! At which positions of each row and each column the objects of a level stand, so that lines can be searched fast. Objects, columns and
//! rows are counted from 0. A position of a row is a column, and a position of a column is a row.

ghost use Rattle.std.specs.Prelude.{◌≡◌, ℕ, ◌+◌, ◌*◌, ◌/◌, ◌%◌, ◌<◌, ◌≤◌, ◌↔◌, ◌&&◌, ◌||◌, [], IsTrue, true, false, not, nat_eq, All, length, slice_index, slice_index_or, IfOk};
ghost use Rattle.pz_game.specs.declared.limits.TheConstants.{MOST_OBJECTS, MOST_SIDE};
ghost use Rattle.pz_game.specs.Items.{names};
ghost use Rattle.pz_sets.specs.Sets.{in_word, member};
ghost use Rattle.pz_sets.specs.declared.set.TheConstants.{CAPACITY};
ghost use Rattle.pz_planes.specs.Marks.{AreMarks};
ghost use Rattle.pz_planes.specs.Planes.{stands_in, AreSameAt, IsMissingIn, IsEmpty, IsChanged, AreChanged, IsInside, IsKnown, AreKnown, AreThere, HaveSameLines, HasRoomOf, IsFor, AreItemsOf, MayHold, MayRun, AreDiffering, IsNextDifferingLine, lines_of, toggled_note};

use crate::line::{Axis, Way};
use crate::{bits, notes};
use pz_game::masks::names;
use pz_game::pattern::{Item, Pattern};
use pz_sets::set::NumberSet;
use std::alloc::{AllocError, Global};
use std::marker::Model;

/// For each object and each line, exactly the positions below 128 at which the object stands. Each pair has a word, and the words of one
/// object follow one another. A set of positions is the bits of a word.
#[derive(Drop)]
pub struct LinePlanes {
    objects: usize,
    count: usize,
    words: Vec<u128>,
}

impl Model for LinePlanes {
    ghost use Rattle.pz_planes.specs.Planes.{LineSets, HasLines};

    ghost Value = { LineSets };

    ghost view = { λ p. record { objects = p.objects; count = p.count; words = p.words.items } };

    ghost invariant = { λ p. HasLines p.objects p.count p.words.items };
}

/// A line in which two levels differ, all positions at which they do, and the number of one of these. Positions are numbered line by line.
#[derive(Clone, Copy)]
pub struct Differing {
    pub line: usize,
    pub places: u128,
    pub found: usize,
}

/// The same by rows and by columns. They are exact, so a search can look for cells that have some objects and lack others.
pub struct Planes {
    rows: LinePlanes,
    columns: LinePlanes,
}

/// Written out: where planes go out of scope, the prover then sees one call, not every path through their fields.
impl Drop for Planes {
    fn drop(self) {
        let Planes { rows, columns } = self;
        drop(rows);
        drop(columns);
    }
}

impl Model for Planes {
    ghost use Rattle.pz_planes.specs.Planes.{PlaneSets};

    ghost Value = { PlaneSets };

    ghost view = { λ p. record { rows = p.rows; columns = p.columns } };
}

impl LinePlanes {
    /// Planes of this many objects and lines, with nothing noted. Err: memory was refused.
    fn empty(alloc: Global, objects: usize, count: usize) -> Result<LinePlanes, AllocError>
        requires few { objects ≤ MOST_OBJECTS }
        requires short { count ≤ MOST_SIDE }
        ensures objects { IfOk result (λ planes. planes.objects ≡ objects) }
        ensures count { IfOk result (λ planes. planes.count ≡ count) }
        ensures none { IfOk result IsEmpty }
    {
        let words = vec![in alloc; 0; objects * count]?;
        Ok(LinePlanes {
            objects,
            count,
            words,
        })
    }

    /// The number of lines.
    fn count(&self) -> usize
        ensures { result ≡ self.now.count }
    {
        self.count
    }

    /// The number of the word of an object and a line.
    fn index(&self, object: usize, line: usize) -> usize
        requires object_in { object < self.now.objects }
        requires line_in { line < self.now.count }
        ensures index { result ≡ object * self.now.count + line }
        ensures within { result < length self.now.words }
        ensures low { result < 131072 }
    {
        object * self.count + line
    }

    /// Toggles the note of an object at a position of a line: notes it, or drops the note that is there. From position 128 on nothing is
    /// noted.
    fn toggle(&mut self, object: usize, line: usize, at: usize)
        requires object_in { object < self.old.objects }
        requires line_in { line < self.old.count }
        ensures { IsChanged self.old self.new line at (λ other was. toggled_note (nat_eq other object) was) }
    {
        if at < bits::ROOM as usize {
            let index = self.index(object, line);
            self.words[index] = bits::toggled(self.words[index], at);
        }
    }

    /// Drops all notes.
    fn clear(&mut self)
        ensures objects { self.new.objects ≡ self.old.objects }
        ensures count { self.new.count ≡ self.old.count }
        ensures none { IsEmpty self.new }
    {
        clear(&mut self.words);
    }

    /// The positions of a line that an item allows: those at which its object is noted or, under `no`, all others.
    fn item_places(&self, line: usize, item: &Item) -> u128
        requires line_in { line < self.now.count }
        requires object_in { item.now.object < self.now.objects }
        ensures { (at : ℕ) → at < 128 → stands_in self.now item.now.object line at ≡ names item.now.word →
            in_word result at ≡ true }
    {
        let word = self.words[self.index(item.object, line)];
        if names(item.word) {
            word
        } else {
            bits::others(word)
        }
    }

    /// The positions of a line at which a rule's cell may hold: each object that it names as present is noted there, and none that it has
    /// under `no`.
    pub fn places(&self, line: usize, pattern: &Pattern) -> u128
        requires line_in { line < self.now.count }
        requires of_game { AreItemsOf self.now pattern.now }
        ensures { (at : ℕ) → at < 128 → MayHold self.now line at pattern.now → in_word result at ≡ true }
    {
        let mut places = bits::all();
        for item in pattern.items() {
            places = bits::both(places, self.item_places(line, item));
        }
        places
    }

    /// The positions of a line from which rules' cells may hold one after another, as the line is walked.
    #[inline(always)]
    pub fn starts(&self, line: usize, way: Way, patterns: &[Pattern]) -> u128
        requires line_in { line < self.now.count }
        requires of_game { All (AreItemsOf self.now) patterns.now }
        ensures { (at : ℕ) → at < 128 → MayRun self.now line way patterns.now at → in_word result at ≡ true }
    {
        let mut starts = bits::all();
        for index in 0..patterns.len().min(bits::ROOM as usize) {
            let places = self.places(line, &patterns[index]);
            starts = bits::both(starts, bits::from_which(places, way, index));
        }
        starts
    }

    /// Whether each object is noted at the same positions of a line as in other planes of as many objects and lines.
    fn is_same_in(&self, other: &LinePlanes, line: usize) -> bool
        requires room { HasRoomOf self.now other.now }
        requires line_in { line < self.now.count }
        ensures { result ≡ true → (at : ℕ) → at < 128 → AreSameAt self.now other.now line at }
    {
        // (steps from the word of one object to that of the next, without a product)
        let mut number = line;
        for object in 0..self.objects {
            if self.words[number] != other.words[number] {
                return false;
            }
            number += self.count;
        }
        true
    }

    /// The positions of a line at which other objects are noted than in other planes of as many objects and lines.
    fn differing(&self, other: &LinePlanes, line: usize) -> u128
        requires room { HasRoomOf self.now other.now }
        requires line_in { line < self.now.count }
        ensures { AreDiffering self.now other.now line result }
    {
        let mut places = 0;
        for object in 0..self.objects {
            // (the number of the word is the same in both, and worked out once)
            let number = self.index(object, line);
            let here = self.words[number];
            let there = other.words[number];
            places = bits::either(places, bits::differing(here, there));
        }
        places
    }

    /// The first position, from number `from` on, at which other objects are noted than in other planes of as many objects and lines. Each
    /// line has `long` positions, and they are numbered line by line.
    pub fn next_differing(&self, other: &LinePlanes, long: u32, from: usize) -> Option<Differing>
        requires room { HasRoomOf self.now other.now }
        requires some { 0 < long }
        requires short { long ≤ 128 }
        ensures { IsNextDifferingLine self.now other.now long from result }
    {
        let wide = long as usize;
        for line in from / wide..self.count {
            if self.is_same_in(other, line) {
                continue;
            }
            let start = from.saturating_sub(line * wide) as u32;
            let places = self.differing(other, line);
            if let Some(at) = bits::next(places, start, long) {
                return Some(Differing {
                    line,
                    places,
                    found: line * wide + at as usize,
                });
            }
        }
        None
    }

    /// Whether an object may be noted in a line.
    fn may_have(&self, object: usize, line: usize) -> bool
        requires { line < self.now.count }
        ensures { result ≡ false → IsMissingIn self.now line object }
    {
        object < self.objects && !bits::is_empty(self.words[self.index(object, line)])
    }

    /// Whether one of these objects may be noted in a line.
    pub fn may_have_one_of(&self, line: usize, objects: &[usize]) -> bool
        requires { line < self.now.count }
        ensures { result ≡ false → All (IsMissingIn self.now line) objects.now }
    {
        for object in objects {
            if self.may_have(*object, line) {
                return true;
            }
        }
        false
    }

    /// Sets the marks of each line to the objects that are noted in it. There is one set for each line.
    pub fn mark(&self, marks: &mut [NumberSet])
        requires { length marks.old ≡ self.now.count }
        ensures count { length marks.new ≡ length marks.old }
        ensures exact { AreMarks self.now marks.new }
    {
        let objects = self.objects;
        let words: &[u128] = &self.words;
        notes::clear(marks);
        for object in 0..objects {
            mark_object(words, object * self.count, object, marks);
        }
    }

    /// Whether another has as many objects and lines, so that it fits in this one's memory.
    fn has_room_of(&self, other: &LinePlanes) -> bool
        ensures { IsTrue result ↔ HasRoomOf self.now other.now }
    {
        self.objects == other.objects && self.count == other.count
    }

    /// Makes this equal to another of as many objects and lines.
    fn overwrite(&mut self, other: &LinePlanes)
        requires { HasRoomOf self.old other.now }
        ensures { self.new ≡ other.now }
    {
        self.words.copy_from_slice(&other.words);
    }

    /// A copy. Err: memory was refused.
    fn copy(&self) -> Result<LinePlanes, AllocError>
        ensures { IfOk result (λ planes. planes ≡ self.now) }
    {
        let alloc = *self.words.allocator();
        let words = Vec::from_slice(alloc, &self.words)?;
        Ok(LinePlanes {
            objects: self.objects,
            count: self.count,
            words,
        })
    }
}

impl Planes {
    /// Planes of this many objects for a map of this size, with nothing noted. Err: memory was refused.
    pub fn empty(
        alloc: Global,
        objects: usize,
        width: usize,
        height: usize,
    ) -> Result<Planes, AllocError>
        requires few { objects ≤ MOST_OBJECTS }
        requires narrow { width ≤ MOST_SIDE }
        requires low { height ≤ MOST_SIDE }
        ensures size { IfOk result (λ planes. IsFor objects width height planes) }
        ensures rows { IfOk result (λ planes. IsEmpty planes.rows) }
        ensures columns { IfOk result (λ planes. IsEmpty planes.columns) }
    {
        let rows = LinePlanes::empty(alloc, objects, height)?;
        let columns = LinePlanes::empty(alloc, objects, width)?;
        Ok(Planes { rows, columns })
    }

    /// The planes of the rows, or those of the columns.
    pub fn lines(&self, axis: Axis) -> &LinePlanes
        ensures { result.now ≡ lines_of self.now axis }
    {
        match axis {
            Axis::Horizontal => &self.rows,
            Axis::Vertical => &self.columns,
        }
    }

    /// Toggles the note of an object at a position of the map.
    pub fn toggle(&mut self, object: usize, x: usize, y: usize)
        requires inside { IsInside self.old x y }
        requires known { IsKnown self.old object }
        ensures { AreChanged self.old self.new x y (λ other was. toggled_note (nat_eq other object) was) }
    {
        self.rows.toggle(object, y, x);
        self.columns.toggle(object, x, y);
    }

    /// Toggles the notes of objects at a position of the map: those of one word of a set, the word of the number `index`.
    #[inline(always)]
    fn toggle_word(&mut self, x: usize, y: usize, index: usize, word: u128)
        requires low { index < 4 }
        requires inside { IsInside self.old x y }
        requires known { (bit : ℕ) → bit < 128 → in_word word bit ≡ true → IsKnown self.old (index * 128 + bit) }
        ensures { AreChanged self.old self.new x y
            (λ object was. toggled_note (nat_eq (object / 128) index && in_word word (object % 128)) was) }
    {
        let mut rest = word;
        'objects: while rest != 0 {
            let bit = bits::first(rest);
            self.toggle(index * 128 + bit, x, y);
            rest = bits::without(rest, bit);
        }
    }

    /// Notes at a position of the map the objects in `after` instead of those in `before`. Both sets have as many words, at most four.
    /// (Inlined, because the caller knows the number of words.)
    #[inline(always)]
    fn note(&mut self, x: usize, y: usize, before: &[u128], after: &[u128])
        requires short { length after.now ≤ 4 }
        requires long { length before.now ≡ length after.now }
        requires inside { IsInside self.old x y }
        requires known_before { AreKnown self.old before.now }
        requires known { AreKnown self.old after.now }
        requires there { AreThere self.old x y (member before.now) }
        ensures { AreChanged self.old self.new x y (λ object was. member after.now object) }
    {
        for index in 0..after.len() {
            self.toggle_word(x, y, index, bits::differing(before[index], after[index]));
        }
    }

    /// The same at the cell of this number. Cells are numbered row by row.
    #[inline(always)]
    pub fn note_at(&mut self, index: usize, before: &[u128], after: &[u128])
        requires short { length after.now ≤ 4 }
        requires long { length before.now ≡ length after.now }
        requires within { index < self.old.columns.count * self.old.rows.count }
        requires known_before { AreKnown self.old before.now }
        requires known { AreKnown self.old after.now }
        requires there { AreThere self.old (index % self.old.columns.count) (index / self.old.columns.count)
            (member before.now) }
        ensures { AreChanged self.old self.new (index % self.old.columns.count) (index / self.old.columns.count)
            (λ object was. member after.now object) }
    {
        let width = self.columns.count();
        self.note(index % width, index / width, before, after);
    }

    /// Drops all notes. The numbers of objects and lines stay.
    pub fn clear(&mut self)
        ensures size { HaveSameLines self.old self.new }
        ensures rows { IsEmpty self.new.rows }
        ensures columns { IsEmpty self.new.columns }
    {
        self.rows.clear();
        self.columns.clear();
    }

    /// Whether another has as many objects and lines, so that it fits in this one's memory.
    pub fn has_room_of(&self, other: &Planes) -> bool
        ensures { IsTrue result ↔
            (HasRoomOf self.now.rows other.now.rows × HasRoomOf self.now.columns other.now.columns) }
    {
        self.rows.has_room_of(&other.rows) && self.columns.has_room_of(&other.columns)
    }

    /// Makes this equal to another of as many objects and lines.
    pub fn overwrite(&mut self, other: &Planes)
        requires rows { HasRoomOf self.old.rows other.now.rows }
        requires columns { HasRoomOf self.old.columns other.now.columns }
        ensures { self.new ≡ other.now }
    {
        self.rows.overwrite(&other.rows);
        self.columns.overwrite(&other.columns);
    }

    /// A copy. Err: memory was refused.
    pub fn copy(&self) -> Result<Planes, AllocError>
        ensures { IfOk result (λ planes. planes ≡ self.now) }
    {
        let rows = self.rows.copy()?;
        let columns = self.columns.copy()?;
        Ok(Planes { rows, columns })
    }
}

/// Empties a set.
fn clear(words: &mut [u128])
    ensures length { length words.new ≡ length words.old }
    ensures none { (number : ℕ) → member words.new number ≡ false }
{
    for index in 0..words.len() {
        words[index] = 0;
    }
}

/// Adds an object to the marks of the lines in which it is noted. Its words, one for each line, begin at `start`.
#[inline(always)]
fn mark_object(words: &[u128], start: usize, object: usize, marks: &mut [NumberSet])
    requires covers { start + length marks.old ≤ length words.now }
    requires low { object < CAPACITY }
    ensures count { length marks.new ≡ length marks.old }
    ensures marked { (line other : ℕ) → line < length marks.old →
        member (slice_index_or marks.new line []) other ≡
        ((nat_eq other object && not (nat_eq (slice_index words.now (start + line)) 0)) || member
        (slice_index_or marks.old line []) other) }
{
    for line in 0..marks.len() {
        if words[start + line] != 0 {
            marks[line].insert(object);
        }
    }
}
