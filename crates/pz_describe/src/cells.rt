//! The cells of a level text.

ghost use Rattle.std.specs.Prelude.{◌≡◌, ◌<◌, ◌++◌, [], All, IfOk, OnOk, flat_map, fold, length, map, slice_index_or};
ghost use Rattle.pz_describe.specs.Recordings.{AreKnown, cells_tokens, level_description_of, level_tokens, numbered_tokens, place_in};
ghost use Rattle.pz_describe.specs.Values.{numbers_array, numeral};
ghost use Rattle.pz_json_text.specs.CellTexts.{text_of_names, with_cell};

use crate::distinct::Distinct;
use crate::page::Page;
use pz_base::text::Text;
use pz_entries::reading::read_level_text;
use pz_record::cell_names::CellNames;
use pz_record::recorded::Recorded;
use std::alloc::{AllocError, Global};
use std::str::from_utf8;

/// The names as texts. A name that is no text is answered by want of memory: none is, where names are cut out of a text.
fn words_of(alloc: Global, names: &[Vec<u8>]) -> Result<Vec<&str>, AllocError>
    ensures { IfOk result (λ words. map (λ word. word.now) words.items ≡ map (λ name. name.items) names.now) }
{
    let mut words = Vec::new(alloc);
    for name in names {
        let Ok(word) = from_utf8(name) else {
            return Err(AllocError);
        };
        words.push(word)?;
    }
    Ok(words)
}

/// The names of a cell, separated by spaces.
fn text_of(alloc: Global, names: &CellNames) -> Result<Text, AllocError>
    ensures { IfOk result (λ text. text ≡ text_of_names names.now) }
{
    let words = words_of(alloc, names.names())?;
    Ok(Text::new(words.join(alloc, " ")?))
}

/// The texts of sets of names.
fn texts_of(alloc: Global, sets: &[CellNames]) -> Result<Vec<Text>, AllocError>
    ensures { IfOk result (λ texts. texts.items ≡ map text_of_names sets.now) }
{
    let mut texts = Vec::new(alloc);
    for set in sets {
        texts.push(text_of(alloc, set)?)?;
    }
    Ok(texts)
}

/// Adds the text at a place, if it is new. It is looked for only if it isn't noted.
fn add_at(
    alloc: Global,
    distinct: &mut Distinct,
    noted: &mut [bool],
    texts: &[Text],
    place: usize,
) -> Result<(), AllocError>
    requires within { place < length texts.now }
    requires count { length noted.old ≡ length texts.now }
    requires known { AreKnown noted.old distinct.old texts.now }
    ensures added { OnOk result (distinct.new ≡ with_cell distinct.old (slice_index_or texts.now place [])) }
    ensures count { length noted.new ≡ length texts.now }
    ensures known { OnOk result (AreKnown noted.new distinct.new texts.now) }
{
    if !noted[place] {
        distinct.add(alloc, texts[place].as_str())?;
        noted[place] = true;
    }
    Ok(())
}

/// Adds the text of each cell, if it is new.
fn add_each(
    alloc: Global,
    distinct: &mut Distinct,
    texts: &[Text],
    places: &[u32],
) -> Result<(), AllocError>
    requires { All (λ place. place < length texts.now) places.now }
    ensures { OnOk result (distinct.new ≡
        fold with_cell distinct.old (map (λ place. slice_index_or texts.now place []) places.now)) }
{
    let mut noted = vec![in alloc; false; texts.len()]?;
    for place in places {
        add_at(alloc, distinct, &mut noted, texts, *place as usize)?;
    }
    Ok(())
}

/// The place of each text among others.
fn places_of(alloc: Global, distinct: &Distinct, texts: &[Text]) -> Result<Vec<usize>, AllocError>
    ensures { IfOk result (λ places. places.items ≡ map (place_in distinct.now) texts.now) }
{
    texts
        .iter()
        .map(|text| distinct.place_of(text.as_str()))
        .collect(alloc)
}

/// Puts the number of each cell.
fn put_numbers(page: &mut Page, numbers: &[usize], places: &[u32]) -> Result<(), AllocError>
    requires { All (λ place. place < length numbers.now) places.now }
    ensures { OnOk result (page.new ≡
        page.old ++ flat_map (λ place. numeral (slice_index_or numbers.now place 0)) places.now) }
{
    for place in places {
        page.number(numbers[*place as usize] as u64)?;
    }
    Ok(())
}

/// Puts for each cell the place of its text among the known ones.
fn put_places(
    alloc: Global,
    page: &mut Page,
    known: &Distinct,
    texts: &[Text],
    places: &[u32],
) -> Result<(), AllocError>
    requires { All (λ place. place < length texts.now) places.now }
    ensures { OnOk result (page.new ≡
        page.old ++ numbers_array
        (map (place_in known.now) (map (λ place. slice_index_or texts.now place []) places.now))) }
{
    let numbers = places_of(alloc, known, texts)?;
    page.begin_array()?;
    put_numbers(page, &numbers, places)?;
    page.end_array()
}

/// Puts the cells that have these of the texts, which are known.
fn put_numbered(
    alloc: Global,
    page: &mut Page,
    known: &Distinct,
    texts: &[Text],
    places: &[u32],
) -> Result<(), AllocError>
    requires { All (λ place. place < length texts.now) places.now }
    ensures { OnOk result (page.new ≡
        page.old ++ numbered_tokens known.now (map (λ place. slice_index_or texts.now place []) places.now)) }
{
    page.begin_object()?;
    page.key("cells")?;
    put_places(alloc, page, known, texts, places)?;
    page.key("sets")?;
    known.put(page)?;
    page.end_object()
}

/// Puts the cells that have these of the texts.
fn put_cells(
    alloc: Global,
    page: &mut Page,
    texts: &[Text],
    places: &[u32],
) -> Result<(), AllocError>
    requires { All (λ place. place < length texts.now) places.now }
    ensures { OnOk result (page.new ≡
        page.old ++ cells_tokens (map (λ place. slice_index_or texts.now place []) places.now)) }
{
    let mut known = Distinct::new(alloc);
    add_each(alloc, &mut known, texts, places)?;
    put_numbered(alloc, page, &known, texts, places)
}

/// Puts a level.
pub(crate) fn put_level(alloc: Global, page: &mut Page, level: &Recorded) -> Result<(), AllocError>
    ensures { OnOk result (page.new ≡ page.old ++ level_tokens level.now) }
{
    let (sets, places) = level.parts();
    let texts = texts_of(alloc, sets)?;
    put_cells(alloc, page, &texts, places)
}

/// The cells that the engine has read of a level text, as JSON without spaces: the number of each cell's set of names, and the sets, each once and
/// in the order of first appearance; null of what is no level text. The answer has no more than some bytes a byte of the text. Err: memory was
/// refused.
pub fn describe_level(alloc: Global, text: &str) -> Result<Vec<u8>, AllocError>
    ensures { IfOk result (λ told. told.items ≡ level_description_of text.now) }
{
    let mut page = Page::new(alloc);
    match read_level_text(alloc, text)? {
        Some(level) => put_level(alloc, &mut page, &level)?,
        None => page.null()?,
    }
    Ok(page.into_text())
}
