//! Reads the text of a level.

ghost use Rattle.std.specs.Prelude.{◌≡◌, ◌<◌, ◌++◌, ◌∷◌, [], filter, length, take, IfOk, IfSome, OnOk, MatchOption, Some, None, slice_index_or};
ghost use Rattle.pz_entries.specs.Reading.{no_line_end, read_piece, reading};

use crate::cutting::{cut_first, cut_last, number_below, writes_number};
use crate::names::read_names;
use pz_record::cell_names::CellNames;
use pz_record::recorded::Recorded;
use std::alloc::{AllocError, Global};

/// The text without its line ends.
fn joined_lines(alloc: Global, text: &str) -> Result<Vec<u8>, AllocError>
    ensures { IfOk result (λ joined. joined.items ≡ filter no_line_end text.now) }
{
    text.bytes()
        .filter(|byte| !(*byte == b'\n' || *byte == b'\r'))
        .collect(alloc)
}

/// Where the names of a piece stand among the sets. A new set is added.
fn read_piece(
    alloc: Global,
    sets: &mut Vec<CellNames>,
    piece: &[u8],
) -> Result<Option<usize>, AllocError>
    ensures reads { IfOk result (λ answer. MatchOption answer (read_piece sets.old.items piece.now ≡ None)
        (λ place. read_piece sets.old.items piece.now ≡ Some
        (slice_index_or sets.new.items place [], sets.new.items))) }
    ensures within { IfOk result (λ answer. IfSome answer (λ place. place < length sets.new.items)) }
    ensures kept { IfOk result
        (λ answer. IfSome answer (λ _. take (length sets.old.items) sets.new.items ≡ sets.old.items)) }
{
    let count = sets.len();
    match cut_last(piece) {
        Some((names, number)) => {
            if !writes_number(count, number) {
                return Ok(None);
            }
            let set = read_names(alloc, names)?;
            sets.push(set)?;
            Ok(Some(count))
        }
        None => Ok(number_below(count, piece)),
    }
}

/// Adds the place of a cell's names. If no `u32` holds it, the answer is want of memory; no text has so many sets of names.
fn add_cell(cells: &mut Vec<u32>, place: usize) -> Result<(), AllocError>
    ensures { OnOk result (cells.new.items ≡ cells.old.items ++ place ∷ []) }
{
    let Ok(place) = u32::try_from(place) else {
        return Err(AllocError);
    };
    cells.push(place)?;
    Ok(())
}

/// The names of the cells that a level text gives; None: it is no level text. Rule `texts.read`.
pub fn read_level_text(alloc: Global, text: &str) -> Result<Option<Recorded>, AllocError>
    ensures { IfOk result (λ recorded. recorded ≡ reading text.now) }
{
    let joined = joined_lines(alloc, text)?;
    let mut sets = Vec::new(alloc);
    let mut cells = Vec::new(alloc);
    let mut rest = joined.as_slice();
    'pieces: while let Some((piece, later)) = cut_first(rest, b',') {
        let Some(place) = read_piece(alloc, &mut sets, piece)? else {
            return Ok(None);
        };
        add_cell(&mut cells, place)?;
        rest = later;
    }
    if rest.is_empty() {
        // all recorded levels are kept until the last session is played
        sets.shrink_to_fit();
        cells.shrink_to_fit();
        Ok(Some(Recorded::new(sets, cells)))
    } else {
        Ok(None)
    }
}
