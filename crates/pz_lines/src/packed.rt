//! Lines that are kept packed until they are written: of each line only what differs from the line before it. The line of a frame has
//! the whole text of a level, and mostly little of it changed.

ghost use Rattle.std.specs.Prelude.{◌≡◌, ℕ, ◌++◌, ◌+◌, ◌*◌, ◌≤◌, List, [], length, take, drop, IfOk, IsTrue, OnErr, OnOk};
ghost use Rattle.pz_lines.specs.Packed.{AreChanges, HaveGrown, IsPartOf, with_chunks, line_of, next_line, with_bytes, tail_of};
ghost use Rattle.pz_lines.specs.declared.packed.TheConstants.{BLOCK, CHUNK, MOST};

use std::alloc::{AllocError, Global};
use std::marker::Model;
use std::mem::replace;
use std::simd::Simd;

/// Lines are compared in blocks of so many bytes.
const BLOCK: usize = 64;

/// Of a block that changed, chunks of so many bytes are kept.
const CHUNK: usize = 8;

/// So many first bytes of two lines are compared. Whatever stands behind them is kept as it is.
const MOST: usize = 4_294_967_295;

/// What a line is made of: how many first bytes of the last line; at how many of these a chunk is changed, by the places that are kept from
/// one on; and how many bytes of its own, which are kept from a byte on: the changed chunks and then the tail.
#[derive(Clone, Copy)]
pub(crate) struct Part {
    place: usize,
    from: usize,
    own: usize,
    front: u32,
    changes: u32,
}

/// Places in lines, and bytes, one after another: those of a line's changes, or those that are kept of all lines.
#[derive(Drop)]
pub(crate) struct Pieces {
    pub(crate) places: Vec<u32>,
    pub(crate) bytes: Vec<u8>,
}

/// Lines, kept packed. A contract sees the bytes of all of them, one after another.
#[derive(Drop)]
pub struct PackedLines {
    pub(crate) kept: Pieces,
    pub(crate) parts: Vec<Part>,
}

impl Model for PackedLines {
    ghost use Rattle.std.specs.Prelude.{List, [], ℕ};
    ghost use Rattle.pz_lines.specs.Packed.{lines_of_parts};

    ghost Value = { List ℕ };

    ghost view = { λ lines. lines_of_parts lines.kept.places.items lines.kept.bytes.items [] lines.parts.items };
}

/// Packs lines, one after another. It has the last line at hand, and room for the next and its changes.
#[derive(Drop)]
pub struct Packer {
    kept: Pieces,
    parts: Vec<Part>,
    last: Vec<u8>,
    spare: Vec<u8>,
    changes: Pieces,
}

impl Model for Packer {
    ghost use Rattle.std.specs.Prelude.{List, [], ℕ};
    ghost use Rattle.pz_lines.specs.Packed.{ArePacked, lines_of_parts};

    ghost Value = { List ℕ };

    ghost view = { λ packer. lines_of_parts packer.kept.places.items packer.kept.bytes.items [] packer.parts.items };

    ghost invariant = { λ packer.
        ArePacked packer.kept.places.items packer.kept.bytes.items packer.parts.items packer.last.items };
}

/// Whether two texts begin with the same block.
fn begin_alike(one: &[u8], other: &[u8]) -> bool
    requires one { BLOCK ≤ length one.now }
    requires other { BLOCK ≤ length other.now }
    ensures { IsTrue result → take BLOCK one.now ≡ take BLOCK other.now }
{
    let one = Simd::<u8, BLOCK>::from_slice(one);
    let other = Simd::<u8, BLOCK>::from_slice(other);
    one.simd_ne(other).to_bitmask() == 0
}

/// The end of the alike blocks that stand from a place on in two texts which both reach to `end`. How far it goes is not promised.
fn alike_to(last: &[u8], line: &[u8], from: usize, end: usize) -> usize
    requires from { from ≤ end }
    requires last { end ≤ length last.now }
    requires line { end ≤ length line.now }
    ensures onward { from ≤ result }
    ensures within { result ≤ end }
    ensures alike { (places bytes : List ℕ) → AreChanges last.now line.now from places bytes →
        AreChanges last.now line.now result places bytes }
{
    let mut at = from;
    while BLOCK <= end - at && begin_alike(&last[at..], &line[at..]) {
        at += BLOCK;
    }
    at
}

impl Pieces {
    fn none(alloc: Global) -> Pieces
        ensures places { result.places.items ≡ [] }
        ensures bytes { result.bytes.items ≡ [] }
    {
        Pieces {
            places: Vec::new(alloc),
            bytes: Vec::new(alloc),
        }
    }

    /// Forgets them, and keeps their room.
    fn clear(&mut self)
        ensures places { self.new.places.items ≡ [] }
        ensures bytes { self.new.bytes.items ≡ [] }
    {
        self.places.clear();
        self.bytes.clear();
    }

    /// Adds the chunk of a line at a place, if it differs from that of the last line. Those before it were added.
    fn add_chunk(&mut self, last: &[u8], line: &[u8], at: usize) -> Result<(), AllocError>
        requires before { AreChanges last.now line.now at self.old.places.items self.old.bytes.items }
        requires last { at + CHUNK ≤ length last.now }
        requires line { at + CHUNK ≤ length line.now }
        requires few { at + CHUNK ≤ MOST }
        ensures { OnOk result (AreChanges last.now line.now (at + CHUNK) self.new.places.items self.new.bytes.items) }
    {
        let chunk = &line[at..at + CHUNK];
        if chunk != &last[at..at + CHUNK] {
            self.places.push(at as u32)?;
            self.bytes.extend_from_slice(chunk)?;
        }
        Ok(())
    }

    /// Adds, of so many chunks from a place on, those that differ. Those before them were added.
    fn add_chunks(
        &mut self,
        last: &[u8],
        line: &[u8],
        at: usize,
        count: usize,
    ) -> Result<(), AllocError>
        requires before { AreChanges last.now line.now at self.old.places.items self.old.bytes.items }
        requires last { at + count * CHUNK ≤ length last.now }
        requires line { at + count * CHUNK ≤ length line.now }
        requires few { at + count * CHUNK ≤ MOST }
        ensures { OnOk result (AreChanges last.now line.now
            (at + count * CHUNK) self.new.places.items self.new.bytes.items) }
    {
        for chunk in 0..count {
            self.add_chunk(last, line, at + chunk * CHUNK)?;
        }
        Ok(())
    }

    /// Finds the changes of a line, in place of those of another: blocks that are alike are passed over, and of others the chunks compared.
    /// Answers for how many first bytes they stand: for none, and there are none, if they would take more room than these bytes.
    fn find(&mut self, last: &[u8], line: &[u8]) -> Result<usize, AllocError>
        ensures changes { IfOk result
            (λ front. AreChanges last.now line.now front self.new.places.items self.new.bytes.items) }
        ensures last { IfOk result (λ front. front ≤ length last.now) }
        ensures line { IfOk result (λ front. front ≤ length line.now) }
        ensures few { IfOk result (λ front. front ≤ MOST) }
    {
        self.clear();
        let end = last.len().min(line.len()).min(MOST);
        let mut at = 0;
        while CHUNK <= end - at {
            at = alike_to(last, line, at, end);
            let count = BLOCK.min(end - at) / CHUNK;
            self.add_chunks(last, line, at, count)?;
            at += count * CHUNK;
        }
        // (each place takes half as much room as its chunk)
        if at < self.bytes.len() + self.bytes.len() / 2 {
            self.clear();
            return Ok(0);
        }
        Ok(at)
    }

    /// Keeps the changes of a line and its tail behind so many first bytes, and answers what the line is made of.
    fn keep(&mut self, changes: &Pieces, line: &[u8], front: usize) -> Result<Part, AllocError>
        requires front { front ≤ length line.now }
        requires few { front ≤ MOST }
        requires places { length changes.now.places.items ≤ MOST }
        ensures part { IfOk result
            (IsPartOf self.new.places.items self.new.bytes.items changes.now.places.items
            (changes.now.bytes.items ++ drop front line.now) front) }
        ensures grown { HaveGrown self.old.places.items self.old.bytes.items self.new.places.items
            self.new.bytes.items }
    {
        let (_, tail) = line.split_at(front);
        let place = self.places.len();
        let from = self.bytes.len();
        self.places.extend_from_slice(&changes.places)?;
        self.bytes.extend_from_slice(&changes.bytes)?;
        self.bytes.extend_from_slice(tail)?;
        Ok(Part {
            place,
            from,
            own: changes.bytes.len() + tail.len(),
            front: front as u32,
            changes: changes.places.len() as u32,
        })
    }
}

/// What a text has before a place and from there on. If it ends before the place, it has nothing there.
fn cut(text: &[u8], place: usize) -> (&[u8], &[u8])
    ensures before { result.0.now ≡ take place text.now }
    ensures behind { result.1.now ≡ drop place text.now }
{
    text.split_at(place.min(text.len()))
}

/// Replaces bytes of a line from a place on, if so many are there.
fn put(line: &mut [u8], place: u32, own: &[u8])
    ensures { line.new ≡ with_bytes line.old place own.now }
{
    let place = place as usize;
    if own.len() <= line.len() && place <= line.len() - own.len() {
        line[place..place + own.len()].copy_from_slice(own);
    }
}

/// The same as `put`, for a chunk. As its length is known, its bytes are moved at once.
fn put_chunk(line: &mut [u8], place: u32, own: &[u8])
    ensures { line.new ≡ with_bytes line.old place own.now }
{
    let at = place as usize;
    if own.len() == CHUNK && CHUNK <= line.len() && at <= line.len() - CHUNK {
        line[at..at + CHUNK].copy_from_slice(own);
    } else {
        put(line, place, own);
    }
}

/// Changes a chunk of a line at each place, by the bytes that are kept, and answers those that are left.
fn change<'a>(line: &mut [u8], places: &[u32], own: &'a [u8]) -> &'a [u8]
    ensures changed { line.new ≡ with_chunks CHUNK line.old places.now own.now }
    ensures tail { result.now ≡ tail_of CHUNK places.now own.now }
{
    let mut rest = own;
    for place in places {
        let (chunk, later) = cut(rest, CHUNK);
        put_chunk(line, *place, chunk);
        rest = later;
    }
    rest
}

/// Makes the last line the next one.
#[tactic(auto, unfolding(crate::specs::Packed::line_of))]
fn advance(last: &mut Vec<u8>, places: &[u32], own: &[u8], front: u32) -> Result<(), AllocError>
    ensures { OnOk result (last.new.items ≡ line_of last.old.items places.now own.now front) }
{
    last.truncate(front as usize);
    let tail = change(last.as_mut_slice(), places, own);
    last.extend_from_slice(tail)
}

/// The places at which a part changes the last line.
fn places_of(places: &[u32], part: Part) -> &[u32]
    ensures { result.now ≡ take part.changes (drop part.place places.now) }
{
    let (_, behind) = places.split_at(part.place.min(places.len()));
    let (here, _) = behind.split_at((part.changes as usize).min(behind.len()));
    here
}

/// Puts the line of a part behind others, and makes it the last line.
pub(crate) fn unpack(
    kept: &Pieces,
    part: Part,
    last: &mut Vec<u8>,
    lines: &mut Vec<u8>,
) -> Result<(), AllocError>
    ensures added { OnOk result (lines.new.items ≡ lines.old.items ++
        next_line kept.now.places.items kept.now.bytes.items last.old.items part) }
    ensures last { OnOk result
        (last.new.items ≡ next_line kept.now.places.items kept.now.bytes.items last.old.items part) }
{
    let (own, _) = cut(cut(&kept.bytes, part.from).1, part.own);
    advance(last, places_of(&kept.places, part), own, part.front)?;
    lines.extend_from_slice(&*last)?;
    Ok(())
}

impl PackedLines {
    /// Puts the lines behind others.
    pub fn append_to(&self, lines: Vec<u8>) -> Result<Vec<u8>, AllocError>
        ensures { IfOk result (λ all. all.items ≡ lines.items ++ self.now) }
    {
        let mut lines = lines;
        let mut last = Vec::new(*lines.allocator());
        for part in &self.parts {
            unpack(&self.kept, *part, &mut last, &mut lines)?;
        }
        Ok(lines)
    }
}

impl Packer {
    /// A packer of no lines.
    pub fn new(alloc: Global) -> Packer
        ensures { result ≡ [] }
    {
        Packer {
            kept: Pieces::none(alloc),
            parts: Vec::new(alloc),
            last: Vec::new(alloc),
            spare: Vec::new(alloc),
            changes: Pieces::none(alloc),
        }
    }

    /// Room for the next line: where a line stood before, if there were two.
    pub fn room(&mut self) -> Vec<u8>
        ensures empty { result.items ≡ [] }
        ensures same { self.new ≡ self.old }
    {
        let alloc = *self.spare.allocator();
        let mut room = replace(&mut self.spare, Vec::new(alloc));
        room.clear();
        room
    }

    /// Packs one line more. Err: memory was refused, and the lines are as they were.
    pub fn push(&mut self, line: Vec<u8>) -> Result<(), AllocError>
        ensures ok { OnOk result (self.new ≡ self.old ++ line.items) }
        ensures err { OnErr result (self.new ≡ self.old) }
    {
        let front = self.changes.find(&self.last, &line)?;
        let part = self.kept.keep(&self.changes, &line, front)?;
        self.parts.push(part)?;
        self.spare = replace(&mut self.last, line);
        Ok(())
    }

    /// The lines. What only a packer needs is let go of, and so is room for more lines.
    pub fn finish(self) -> PackedLines
        ensures { result ≡ self }
    {
        let Packer {
            mut kept,
            mut parts,
            ..
        } = self;
        kept.places.shrink_to_fit();
        kept.bytes.shrink_to_fit();
        parts.shrink_to_fit();
        PackedLines { kept, parts }
    }
}
