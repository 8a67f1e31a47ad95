//! The last text of a level, and the cells that have changed since.

ghost use Rattle.std.specs.Prelude.{ℕ, ◌+◌, ◌<◌, List, length, map, All, IfSome};
ghost use Rattle.pz_json_text.specs.Labels.{text_at};
ghost use Rattle.pz_json_text.specs.Written.{IsSameBut};
ghost use Rattle.pz_level_text.specs.LastText.{IsLastOf};

use pz_json_text::changed::Changed;
use pz_json_text::labels::KnownTexts;
use pz_json_text::text_room::TextRoom;

/// What the room has: the text of a level of this width whose cells were as they are now, but for those that have changed since.
#[derive(Clone, Copy)]
pub(crate) struct LastText {
    pub width: u32,
    pub changed: Changed,
}

/// Follows a change of one cell. Its digit in the text is replaced where that is enough, and it counts as changed otherwise.
pub(crate) fn follow(
    last: Option<LastText>,
    room: &mut TextRoom,
    texts: &KnownTexts,
    labels: &[usize],
    cell: usize,
) -> Option<LastText>
    requires within { All (λ label. label < length texts.now) labels.now }
    requires last { IfSome last
        (λ last. (before : List (List ℕ)) × IsLastOf before texts.now room.old last ×
        IsSameBut cell (cell + 1) before (map (text_at texts.now) labels.now)) }
    ensures { IfSome result (IsLastOf (map (text_at texts.now) labels.now) texts.now room.new) }
{
    match last {
        Some(last) => {
            let changed = room.follow(texts, labels, last.width as usize, last.changed, cell);
            Some(LastText {
                width: last.width,
                changed,
            })
        }
        None => None,
    }
}
