ghost use Rattle.std.specs.Prelude.{◌≡◌, ◌≤◌, ◌*◌, All, length};
ghost use Rattle.rv_select.specs.declared.selecting.TheConstants.{LARGEST_CODE};
ghost use Rattle.rv_select.specs.Pending.{IsItem};

use crate::item::Item;
use std::marker::Model;

/// The code of a function, as the list of its items, of at most `LARGEST_CODE` bytes.
#[derive(Debug, Drop)]
pub struct Code {
    items: Vec<Item>,
}

impl Model for Code {
    ghost use Rattle.std.specs.Prelude.{◌≤◌, ◌*◌, List, All, length};
    ghost use Rattle.rv_select.specs.declared.item.Item.{Item};
    ghost use Rattle.rv_select.specs.declared.selecting.TheConstants.{LARGEST_CODE};

    ghost Value = { List Item };

    ghost use Rattle.rv_select.specs.Pending.{IsItem};

    ghost view = { λ c. c.items.items };

    ghost invariant = { λ c. All IsItem c.items.items × (4 * length c.items.items ≤ LARGEST_CODE) };
}

impl Code {
    pub(crate) fn of(items: Vec<Item>) -> Code
        requires items { All IsItem items.items }
        requires fits { 4 * length items.items ≤ LARGEST_CODE }
        ensures { result ≡ items.items }
    {
        Code { items }
    }

    /// The items, each of four bytes. Each instruction among them has a word.
    pub fn as_slice(&self) -> &[Item]
        ensures all { result.now ≡ self.now }
        ensures items { All IsItem result.now }
        ensures fits { 4 * length self.now ≤ LARGEST_CODE }
    {
        &self.items
    }

    /// How many items.
    pub fn len(&self) -> usize
        ensures count { result ≡ length self.now }
        ensures fits { 4 * result ≤ LARGEST_CODE }
    {
        self.items.len()
    }
}
