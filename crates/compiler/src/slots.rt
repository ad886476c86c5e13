// The slot of each structure.
ghost use Rattle.std.specs.Prelude.{◌≡◌, ◌+◌, ◌<◌, ◌≤◌, length};
ghost use Rattle.compiler.specs.Lines.{Slotted, structures};
ghost use Rattle.compiler.specs.Tables.{items_of, slots_of};

use crate::flat::Place;
use crate::items::{ITEM_LIMIT, Item};
use arrayvec::ArrayVec;

// Numbers the structures from `vars` on, and answers the places of the items and how many slots there are.
pub(crate) fn number_slots(vars: u8, items: &[Item]) -> (ArrayVec<Place, ITEM_LIMIT>, u8)
    requires few { vars + structures items.now < 256 }
    requires room { length items.now ≤ ITEM_LIMIT }
    ensures items { items_of result.0.items ≡ items.now }
    ensures slotted { Slotted vars items.now (slots_of result.0.items) }
    ensures count { result.1 ≡ vars + structures items.now }
{
    let mut places = ArrayVec::new();
    let mut next = vars;
    for &item in items {
        places.push(Place {
            item,
            after: 0,
            slot: next,
        });
        next += item.structures();
    }
    (places, next)
}
