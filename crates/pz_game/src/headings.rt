//! Where the objects of layers head, as sets of numbers: five for each layer, those of 25 layers in a word.

ghost use Rattle.std.specs.Prelude.{◌≡◌, ℕ, ◌+◌, ◌/◌, ◌%◌, ◌<◌, not, ◌&&◌, ◌||◌, nat_eq, length};
ghost use Rattle.pz_game.specs.declared.limits.TheConstants.{MOST_LAYERS};
ghost use Rattle.pz_sets.specs.declared.set.TheConstants.{CAPACITY};
ghost use Rattle.pz_game.specs.declared.direction.Dir.{Dir};
ghost use Rattle.pz_game.specs.Direction.{same_dir};
ghost use Rattle.pz_game.specs.Headings.{dir_bit, flag, heads, heading_in, IsProper};

use crate::direction::Dir;
use pz_sets::words;

fn bit(dir: Dir) -> usize
    ensures number { result ≡ dir_bit dir }
    ensures low { result < 5 }
{
    match dir {
        Dir::Up => 0,
        Dir::Down => 1,
        Dir::Left => 2,
        Dir::Right => 3,
        Dir::Action => 4,
    }
}

/// The number of a layer's direction in the words.
pub fn flag(layer: usize, dir: Dir) -> usize
    requires { layer < MOST_LAYERS }
    ensures number { result ≡ flag layer dir }
    ensures word { result / 128 ≡ layer / 25 }
    ensures field { result % 128 < 125 }
    ensures low { result < CAPACITY }
{
    layer / 25 * 128 + layer % 25 * 5 + bit(dir)
}

/// Whether the layer heads in the direction.
pub fn heads(set: &[u128], layer: usize, dir: Dir) -> bool
    requires { layer < MOST_LAYERS }
    ensures { result ≡ heads set.now layer dir }
{
    words::contains(set, flag(layer, dir))
}

/// Where the layer heads: the first of its directions.
pub fn heading(set: &[u128], layer: usize) -> Option<Dir>
    requires { layer < MOST_LAYERS }
    ensures { result ≡ heading_in set.now layer }
{
    if heads(set, layer, Dir::Up) {
        Some(Dir::Up)
    } else if heads(set, layer, Dir::Down) {
        Some(Dir::Down)
    } else if heads(set, layer, Dir::Left) {
        Some(Dir::Left)
    } else if heads(set, layer, Dir::Right) {
        Some(Dir::Right)
    } else if heads(set, layer, Dir::Action) {
        Some(Dir::Action)
    } else {
        None
    }
}

/// Lets a layer head in a direction.
pub fn set(set: &mut [u128], layer: usize, dir: Dir)
    requires low { layer < MOST_LAYERS }
    requires within { layer / 25 < length set.old }
    ensures heads { (other : ℕ) (way : Dir) →
        heads set.new other way ≡ ((nat_eq other layer && same_dir dir way) || heads set.old other way) }
    ensures proper { IsProper set.old → IsProper set.new }
{
    words::insert(set, flag(layer, dir));
}

/// Takes a direction from a layer.
fn unset(set: &mut [u128], layer: usize, dir: Dir)
    requires { layer < MOST_LAYERS }
    ensures heads { (other : ℕ) (way : Dir) →
        heads set.new other way ≡ (not (nat_eq other layer && same_dir dir way) && heads set.old other way) }
    ensures proper { IsProper set.old → IsProper set.new }
{
    words::remove(set, flag(layer, dir));
}

/// Ends the movement of a layer.
pub fn clear(set: &mut [u128], layer: usize)
    requires { layer < MOST_LAYERS }
    ensures heads { (other : ℕ) (way : Dir) →
        heads set.new other way ≡ (not (nat_eq other layer) && heads set.old other way) }
    ensures proper { IsProper set.old → IsProper set.new }
{
    unset(set, layer, Dir::Up);
    unset(set, layer, Dir::Down);
    unset(set, layer, Dir::Left);
    unset(set, layer, Dir::Right);
    unset(set, layer, Dir::Action);
}
