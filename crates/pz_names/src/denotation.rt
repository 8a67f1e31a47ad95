//! What a name denotes.

ghost use Rattle.std.specs.Prelude.{Option, ◌≡◌, ◌<◌, ◌==◌, ◌||◌, not, ℕ, length, [], OnOk, IfOk, option_copied, option_map, is_some, None, Some, false, if◌then◌else◌};
ghost use Rattle.std.specs.List.{list_all, list_any};
ghost use Rattle.pz_names.specs.Meaning.{parts_of, StaysInside};
ghost use Rattle.pz_names.specs.Denotation.{AreMarked, with_mention, with_mentions, members_of_parts, known_at, IsBelow, denotation_of, denotation_next, value_at, known_after, IsRound};

use crate::meaning::Meaning;
use pz_base::listed::Listed;
use pz_game::denotation::{Denotation, Kind};
use pz_game::limits::MOST_OBJECTS;
use std::alloc::{AllocError, Global};

/// Whether a number is mentioned. Numbers below the count of the marks are looked up there.
pub fn is_mentioned(mentions: &[usize], marks: &[bool], number: usize) -> bool
    requires { AreMarked marks.now mentions.now }
    ensures { result ≡ list_any (λ other. other == number) mentions.now }
{
    match marks.get(number) {
        Some(mark) => *mark,
        None => mentions.contains(&number),
    }
}

fn add_mention(
    mentions: &mut Vec<usize>,
    marks: &mut [bool],
    number: usize,
) -> Result<(), AllocError>
    requires { AreMarked marks.old mentions.old.items }
    ensures mentions { OnOk result (mentions.new.items ≡ with_mention mentions.old.items number) }
    ensures marked { OnOk result (AreMarked marks.new mentions.new.items) }
{
    if is_mentioned(mentions.as_slice(), marks, number) {
        return Ok(());
    }
    mentions.push(number)?;
    if number < marks.len() {
        marks[number] = true;
    }
    Ok(())
}

/// Adds numbers to those that are mentioned. Repeats are dropped.
pub fn add_mentions(
    mentions: &mut Vec<usize>,
    marks: &mut [bool],
    more: &[usize],
) -> Result<(), AllocError>
    requires { AreMarked marks.old mentions.old.items }
    ensures mentions { OnOk result (mentions.new.items ≡ with_mentions mentions.old.items more.now) }
    ensures marked { OnOk result (AreMarked marks.new mentions.new.items) }
{
    for number in more {
        add_mention(mentions, marks, *number)?;
    }
    Ok(())
}

/// Marks for this many numbers, none of them mentioned yet.
pub fn no_marks(alloc: Global, count: usize) -> Result<Vec<bool>, AllocError>
    ensures none { IfOk result (λ marks. AreMarked marks.items []) }
    ensures count { IfOk result (λ marks. length marks.items ≡ count) }
{
    vec![in alloc; false; count]
}

/// What the name of this number denotes, if it is known.
pub fn entry(known: &[Option<Denotation>], number: usize) -> Option<&Denotation>
    ensures { option_copied result ≡ known_at known.now number }
{
    match known.get(number) {
        Some(Some(denotation)) => Some(denotation),
        _ => None,
    }
}

/// Adds the members of the parts to those that are mentioned, in order of first mention, up to the first part that isn't known. True: all
/// parts are known.
fn gather(
    mentions: &mut Vec<usize>,
    marks: &mut [bool],
    parts: &[usize],
    known: &[Option<Denotation>],
) -> Result<bool, AllocError>
    requires { AreMarked marks.old mentions.old.items }
    ensures { IfOk result (λ all. members_of_parts (known_at known.now) mentions.old.items parts.now ≡
        (if all then Some mentions.new.items else None)) }
{
    for part in parts {
        let Some(denotation) = entry(known, *part) else {
            return Ok(false);
        };
        add_mentions(mentions, marks, denotation.members.items())?;
    }
    Ok(true)
}

/// The members of all parts, in order of first mention, if each part is known. Rule `legend.members`.
fn gathered(
    alloc: Global,
    parts: &[usize],
    known: &[Option<Denotation>],
) -> Result<Option<Listed<usize>>, AllocError>
    ensures { IfOk result (λ r. r ≡ members_of_parts (known_at known.now) [] parts.now) }
{
    let mut marks = no_marks(alloc, MOST_OBJECTS)?;
    let mut mentions = Vec::new(alloc);
    if gather(&mut mentions, marks.as_mut_slice(), parts, known)? {
        Ok(Some(Listed::new(mentions)))
    } else {
        Ok(None)
    }
}

/// What the name of this number denotes, if it is an aggregate or a property of parts that are all known.
fn group(
    alloc: Global,
    kind: Kind,
    number: usize,
    parts: &[usize],
    known: &[Option<Denotation>],
) -> Result<Option<Denotation>, AllocError>
    ensures { IfOk result (λ r. r ≡
        option_map (λ members. record { kind = kind; members = members; number = number })
        (members_of_parts (known_at known.now) [] parts.now)) }
{
    let Some(members) = gathered(alloc, parts, known)? else {
        return Ok(None);
    };
    Ok(Some(Denotation {
        kind,
        members,
        number,
    }))
}

/// What the line of the name of this number makes it denote, if the names on its right are known. Rule `legend.synonyms`.
fn denote(
    alloc: Global,
    number: usize,
    meaning: &Meaning,
    known: &[Option<Denotation>],
) -> Result<Option<Denotation>, AllocError>
    ensures { IfOk result (λ r. r ≡ denotation_of (known_at known.now) number meaning.now) }
{
    match meaning {
        Meaning::Itself(place, first) => Ok(Some(Denotation {
            kind: Kind::Object,
            members: Listed::new(vec![in alloc; *place]?),
            number: *first,
        })),
        Meaning::Same(other) => match entry(known, *other) {
            Some(denotation) => Ok(Some(Denotation {
                kind: denotation.kind,
                members: Listed::new(denotation.members.items().to_vec(alloc)?),
                number: denotation.number,
            })),
            None => Ok(None),
        },
        Meaning::AllOf(parts) => group(alloc, Kind::Aggregate, number, parts.items(), known),
        Meaning::AnyOf(parts) => group(alloc, Kind::Property, number, parts.items(), known),
    }
}

/// Whether it is known what each of the names denotes.
fn are_known(parts: &[usize], known: &[Option<Denotation>]) -> bool
    ensures { result ≡ list_all (λ part. is_some (known_at known.now part)) parts.now }
{
    parts.iter().all(|part| entry(known, *part).is_some())
}

/// Whether a look at the line of a name finds nothing: either what the name denotes is known already, or a name on its right isn't known
/// yet.
fn is_settled(number: usize, meaning: &Meaning, known: &[Option<Denotation>]) -> bool
    ensures { result ≡ (is_some (known_at known.now number) || not
        (list_all (λ part. is_some (known_at known.now part)) (parts_of meaning.now))) }
{
    entry(known, number).is_some() || !are_known(meaning.parts(), known)
}

/// Looks at the line of a name. What the name denotes is noted if it isn't known yet and the names on its right are. True: it was noted.
fn settle(
    alloc: Global,
    number: usize,
    meaning: &Meaning,
    known: &mut [Option<Denotation>],
) -> Result<bool, AllocError>
    requires { number < length known.old }
    ensures each { IfOk result
        (λ _. (k : ℕ) → known_at known.new k ≡
        (if k == number then known_after (known_at known.old) number meaning.now else known_at known.old k)) }
    ensures same { IfOk result (λ found. found ≡ false → (k : ℕ) → known_at known.new k ≡ known_at known.old k) }
{
    if is_settled(number, meaning, known) {
        return Ok(false);
    }
    let found = denote(alloc, number, meaning, known)?;
    known[number] = found;
    Ok(true)
}

/// Looks at each line once, and says whether something was noted.
fn round(
    alloc: Global,
    meanings: &[Meaning],
    known: &mut [Option<Denotation>],
) -> Result<bool, AllocError>
    requires { length known.old ≡ length meanings.now }
    ensures { IfOk result (λ found.
        IsRound meanings.now (known_at known.old) (known_at known.new) (length meanings.now) found) }
{
    let mut found = false;
    for (number, meaning) in meanings.iter().enumerate() {
        let noted = settle(alloc, number, meaning, known)?;
        found = noted || found;
    }
    Ok(found)
}

/// Notes what each name denotes, in rounds over all lines, until one finds nothing.
fn fill(
    alloc: Global,
    meanings: &[Meaning],
    known: &mut [Option<Denotation>],
) -> Result<(), AllocError>
    requires inside { StaysInside meanings.now }
    requires count { length known.old ≡ length meanings.now }
    requires empty { (k : ℕ) → known_at known.old k ≡ None }
    ensures { OnOk result ((k : ℕ) → known_at known.new k ≡ value_at (length meanings.now) meanings.now k) }
{
    for _rank in 0..meanings.len() {
        if !round(alloc, meanings, known)? {
            return Ok(());
        }
    }
    Ok(())
}

fn nothing_known(alloc: Global, count: usize) -> Result<Vec<Option<Denotation>>, AllocError>
    ensures empty { IfOk result (λ known. (k : ℕ) → known_at known.items k ≡ None) }
    ensures count { IfOk result (λ known. length known.items ≡ count) }
{
    let mut known = Vec::new(alloc);
    for _number in 0..count {
        known.push(None)?;
    }
    Ok(known)
}

/// What each name denotes, or `None` for a name that leads to itself or to such a name. No line may name something unknown.
/// Rules `legend.synonyms`, `legend.members`.
pub fn denotations(
    alloc: Global,
    meanings: &[Meaning],
) -> Result<Vec<Option<Denotation>>, AllocError>
    requires { StaysInside meanings.now }
    ensures each { IfOk result
        (λ known. (number : ℕ) → known_at known.items number ≡ value_at (length meanings.now) meanings.now number) }
    ensures count { IfOk result (λ known. length known.items ≡ length meanings.now) }
{
    let mut known = nothing_known(alloc, meanings.len())?;
    fill(alloc, meanings, known.as_mut_slice())?;
    Ok(known)
}

/// What names denote is the least assignment that satisfies each line of OBJECTS and LEGEND: it satisfies them, and any other assignment
/// that does gives the same to each name that denotes something here.
pub fn values_are_least(meanings: &[Meaning])
    requires { StaysInside meanings.now }
    ensures lawful { (k : ℕ) →
        denotation_next (value_at (length meanings.now) meanings.now) meanings.now k ≡
        value_at (length meanings.now) meanings.now k }
    ensures least { (g : ℕ → Option Denotation) → ((k : ℕ) → denotation_next g meanings.now k ≡ g k) →
        IsBelow (value_at (length meanings.now) meanings.now) g }
{}
