//! The objects of OBJECTS.

ghost use Rattle.std.specs.Prelude.{◌++◌, ◌∷◌, ◌≡◌, OnOk, codes, flat_map, length, map, take};
ghost use Rattle.std.specs.List.{enumerate_from};
ghost use Rattle.json.specs.Token.{key};
ghost use Rattle.pz_text.specs.Words.{words};
ghost use Rattle.pz_describe.specs.Sections.{colour_words, layer_member, layer_of, lines_from, names_and_sprite, object_tokens, objects_array, paragraph_tokens, sprite_lines};
ghost use Rattle.pz_describe.specs.Values.{text, texts_array};

use crate::page::Page;
use crate::reading::Reading;
use pz_game::limits::MOST_OBJECTS;
use pz_names::objects::{Paragraph, is_blank, paragraphs_of, sprite_rows};
use pz_text::line::Line;
use pz_text::words::words;
use std::alloc::{AllocError, Global};

/// The lines from the one of a number on.
fn lines_from(number: u32, lines: &[Line]) -> &[Line]
    ensures { result.now ≡ lines_from number lines.now }
{
    let mut rest = lines;
    while let Some((line, others)) = rest.split_first() {
        if line.number == number {
            break;
        }
        rest = others;
    }
    rest
}

/// Puts texts as a list.
pub(crate) fn put_texts(alloc: Global, page: &mut Page, texts: &[&[char]]) -> Result<(), AllocError>
    ensures { OnOk result (page.new ≡ page.old ++ texts_array (map (λ text. text.now) texts.now)) }
{
    page.begin_array()?;
    put_each(alloc, page, texts)?;
    page.end_array()
}

fn put_each(alloc: Global, page: &mut Page, texts: &[&[char]]) -> Result<(), AllocError>
    ensures { OnOk result (page.new ≡ page.old ++ flat_map text (map (λ text. text.now) texts.now)) }
{
    for text in texts {
        page.text(alloc, text)?;
    }
    Ok(())
}

fn put_each_row(alloc: Global, page: &mut Page, rows: &[Line]) -> Result<(), AllocError>
    ensures { OnOk result (page.new ≡ page.old ++ flat_map text (map (λ row. row.text) rows.now)) }
{
    for row in rows {
        page.text(alloc, row.text.items())?;
    }
    Ok(())
}

/// Puts the texts of lines as a list.
pub(crate) fn put_rows(alloc: Global, page: &mut Page, rows: &[Line]) -> Result<(), AllocError>
    ensures { OnOk result (page.new ≡ page.old ++ texts_array (map (λ row. row.text) rows.now)) }
{
    page.begin_array()?;
    put_each_row(alloc, page, rows)?;
    page.end_array()
}

/// Puts the words of a text as a member.
pub(crate) fn put_words(
    alloc: Global,
    page: &mut Page,
    name: &str,
    text: &[char],
) -> Result<(), AllocError>
    ensures { OnOk result (page.new ≡ page.old ++ key name.now ∷ texts_array (words text.now)) }
{
    let words = words(alloc, text)?;
    page.key(name)?;
    put_texts(alloc, page, &words)
}

/// Puts the words of the colours, which stand on the first line below a name line.
fn put_colours(alloc: Global, page: &mut Page, below: &[Line]) -> Result<(), AllocError>
    ensures { OnOk result (page.new ≡ page.old ++ texts_array (colour_words below.now)) }
{
    match below.split_first() {
        Some((line, _)) => put_texts(alloc, page, &words(alloc, line.text.items())?),
        None => put_texts(alloc, page, &[]),
    }
}

/// The rows of a sprite, which stand below the colours.
fn sprite_lines(below: &[Line]) -> &[Line]
    ensures { result.now ≡ sprite_lines below.now }
{
    match below.split_first() {
        Some((colours, more)) if !is_blank(colours) => sprite_rows(more),
        _ => &[],
    }
}

/// The layer of an object, by its place among the objects of a game.
fn layer_of(reading: &Reading, place: usize) -> Option<usize>
    ensures { result ≡ layer_of reading.now place }
{
    match reading.game() {
        Some(game) => game.layers().get(place).copied(),
        None => None,
    }
}

/// Puts the layer of an object, if it is known.
fn put_layer(page: &mut Page, layer: Option<usize>) -> Result<(), AllocError>
    ensures { OnOk result (page.new ≡ page.old ++ layer_member layer) }
{
    match layer {
        Some(layer) => {
            page.key("layer")?;
            page.number(layer as u64)
        }
        None => Ok(()),
    }
}

/// Puts the number of a name line, its names, and the sprite below it.
fn put_names_and_sprite(
    alloc: Global,
    page: &mut Page,
    line: &Line,
    below: &[Line],
) -> Result<(), AllocError>
    ensures { OnOk result (page.new ≡ page.old ++ names_and_sprite line.now below.now) }
{
    page.line(line.number)?;
    put_words(alloc, page, "names", line.text.items())?;
    page.key("sprite")?;
    put_rows(alloc, page, sprite_lines(below))
}

/// Puts the object whose name line and what is below it these lines are.
fn put_object(
    alloc: Global,
    page: &mut Page,
    reading: &Reading,
    place: usize,
    lines: &[Line],
) -> Result<(), AllocError>
    ensures { OnOk result (page.new ≡ page.old ++ object_tokens reading.now place lines.now) }
{
    let Some((line, below)) = lines.split_first() else {
        return Ok(());
    };
    page.begin_object()?;
    page.key("colours")?;
    put_colours(alloc, page, below)?;
    put_layer(page, layer_of(reading, place))?;
    put_names_and_sprite(alloc, page, line, below)?;
    page.end_object()
}

fn put_paragraphs(
    alloc: Global,
    page: &mut Page,
    reading: &Reading,
    lines: &[Line],
    paragraphs: &[Paragraph],
) -> Result<(), AllocError>
    ensures { OnOk result (page.new ≡
        page.old ++ flat_map (paragraph_tokens reading.now lines.now) (enumerate_from 0 paragraphs.now)) }
{
    for (place, paragraph) in paragraphs.iter().enumerate() {
        put_object(
            alloc,
            page,
            reading,
            place,
            lines_from(paragraph.line.number, lines),
        )?;
    }
    Ok(())
}

/// The first paragraphs, at most so many.
fn first_of(paragraphs: &[Paragraph], most: usize) -> &[Paragraph]
    ensures { result.now ≡ take most paragraphs.now }
{
    if most < paragraphs.len() {
        &paragraphs[..most]
    } else {
        paragraphs
    }
}

/// Puts the objects, at most as many as a game may have.
pub(crate) fn put_objects(
    alloc: Global,
    page: &mut Page,
    reading: &Reading,
    lines: &[Line],
) -> Result<(), AllocError>
    ensures { OnOk result (page.new ≡ page.old ++ key (codes "objects") ∷ objects_array reading.now lines.now) }
{
    let paragraphs = paragraphs_of(alloc, lines)?;
    page.key("objects")?;
    page.begin_array()?;
    put_paragraphs(
        alloc,
        page,
        reading,
        lines,
        first_of(&paragraphs, MOST_OBJECTS),
    )?;
    page.end_array()
}
