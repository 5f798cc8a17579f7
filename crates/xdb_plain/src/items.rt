ghost use Rattle.std.specs.Prelude.{◌≡◌, List};

use std::alloc::Global;
use std::marker::Model;

/// A list of parts of an act, a reply or a command, seen as a list.
#[derive(Debug, Drop)]
pub struct Items<T> {
    items: Vec<T>,
}

impl<T> Model for Items<T> {
    ghost use Rattle.std.specs.Coded.{coded_list};
    ghost use Rattle.std.specs.Prelude.{List};

    ghost Value = { List T };

    ghost coded = { coded_list T.code };

    ghost view = { λ a. a.items.items };
}

impl<T> Items<T> {
    pub fn new(items: Vec<T>) -> Self
        ensures { result ≡ items.items }
    {
        Items { items }
    }

    pub fn list(&self) -> &[T]
        ensures { result.now ≡ self.now }
    {
        &self.items
    }

    /// The allocator of the list, for what is made beside it.
    pub fn allocator(&self) -> Global {
        *self.items.allocator()
    }

    /// Gives the items back, without memory.
    pub fn into_list(self) -> Vec<T>
        ensures { result.items ≡ self }
    {
        self.items
    }
}
