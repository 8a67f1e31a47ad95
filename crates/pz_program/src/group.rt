//! Groups of instances, with their segments: runs of instances that may be left out together.

ghost use Rattle.std.specs.Prelude.{◌≡◌, ◌<◌, length, true, IfSome, IfOk};
ghost use Rattle.pz_sets.specs.Sets.{IsWithin};
ghost use Rattle.pz_sets.specs.declared.set.TheConstants.{CAPACITY};
ghost use Rattle.pz_program.specs.Segments.{IsIdle, AsksFor, IsLeftOut, IsSegmentOf, AreSegmentsOf, instances_in};

use crate::headings::Headings;
use crate::instance::Instance;
use bitflags::Flags;
use pz_base::listed::Listed;
use pz_sets::words::next;
use std::alloc::{AllocError, Global};
use std::marker::Model;

/// Instances of a group that stand together: from the number `start` to before `end`. If it needs headings, none of its instances does
/// anything while nothing has one of those in `asked`.
#[derive(Clone, Copy)]
pub struct Segment {
    pub start: usize,
    pub end: usize,
    pub needs_headings: bool,
    pub asked: Headings,
}

/// Instances that are run together to rest. Contracts see them as one list.
#[derive(Drop)]
pub struct Group {
    instances: Vec<Instance>,
    segments: Vec<Segment>,
}

impl Model for Group {
    ghost use Rattle.std.specs.Prelude.{List};
    ghost use Rattle.pz_program.specs.declared.instance.Instance.{Instance};
    ghost use Rattle.pz_program.specs.Segments.{AreSegmentsOf};

    ghost Value = { List Instance };

    ghost view = { λ g. g.instances.items };

    ghost invariant = { λ g. AreSegmentsOf g.instances.items g.segments.items };
}

impl Group {
    /// These instances, cut into segments.
    pub fn new(instances: Listed<Instance>) -> Result<Group, AllocError>
        ensures { IfOk result (λ group. group ≡ instances) }
    {
        let instances = instances.into_items();
        let segments = cut(*instances.allocator(), instances.as_slice())?;
        Ok(Group {
            instances,
            segments,
        })
    }

    /// The instances, in the order in which they are applied.
    pub fn instances(&self) -> &[Instance]
        ensures { result.now ≡ self.now }
    {
        self.instances.as_slice()
    }

    /// The segments, in the order of their instances. Every instance is in one.
    pub fn segments(&self) -> &[Segment]
        ensures { AreSegmentsOf self.now result.now }
    {
        self.segments.as_slice()
    }

    /// The instances of one of its segments.
    pub fn instances_in(&self, segment: &Segment) -> &[Instance]
        requires { IsSegmentOf self.now segment.now }
        ensures { result.now ≡ instances_in self.now segment.now }
    {
        &self.instances[segment.start..segment.end]
    }
}

/// Cuts the instances of a group into segments.
fn cut(alloc: Global, instances: &[Instance]) -> Result<Vec<Segment>, AllocError>
    ensures { IfOk result (λ segments. AreSegmentsOf instances.now segments.items) }
{
    let mut segments = Vec::new(alloc);
    let mut end = 0;
    'segments: while end < instances.len() {
        let segment = segment_at(instances, end);
        end = segment.end;
        segments.push(segment)?;
    }
    Ok(segments)
}

/// The segment that begins with the instance of this number. Its instances are all idle, or are all scanned in one direction.
fn segment_at(instances: &[Instance], start: usize) -> Segment
    requires { start < length instances.now }
    ensures segment { IsSegmentOf instances.now result }
    ensures start { result.start ≡ start }
    ensures onward { start < result.end }
{
    let first = &instances[start];
    let mut asked = Headings::none();
    let mut end = start;
    'instances: while end < instances.len() {
        if !joins(&mut asked, first, &instances[end]) {
            break;
        }
        end += 1;
    }
    let needs_headings = start < end;
    Segment {
        start,
        end: if needs_headings { end } else { start + 1 },
        needs_headings,
        asked,
    }
}

/// Whether an instance joins the segment that begins with `first`, which asks for `asked` so far. If it does, what it asks for is added.
fn joins(asked: &mut Headings, first: &Instance, instance: &Instance) -> bool
    ensures joins { result ≡ true → IsLeftOut asked.new instance.now }
    ensures wider { IsWithin asked.old asked.new }
{
    if is_idle(instance) {
        return is_idle(first);
    }
    if is_idle(first) || instance.scan != first.scan {
        return false;
    }
    match asked_by(instance) {
        None => false,
        Some(number) => {
            asked.insert(number);
            true
        }
    }
}

/// Whether an instance does nothing on any level, like a rule that only plays a sound.
fn is_idle(instance: &Instance) -> bool
    ensures { result ≡ true → IsIdle instance.now }
{
    if !instance.right.items().is_empty() || !instance.commands.is_empty() {
        return false;
    }
    match instance.left.items() {
        [row] => row.gap_at().is_none(),
        _ => false,
    }
}

/// A direction of a layer for which the first row of an instance asks, if it asks for any.
fn asked_by(instance: &Instance) -> Option<usize>
    ensures { IfSome result (λ number. (number < CAPACITY) × AsksFor number instance.now) }
{
    let (row, _) = instance.left.items().split_first()?;
    next(row.required().words(), 0)
}
