// Lists that keep one element in place. A `smallvec` of the kit wants a blank element for each
// place that is not used, which neither a term nor a node has, and its length beside the tag takes 8
// bytes more a list.
ghost use Rattle.std.specs.Prelude.{◌≡◌, ◌++◌, ◌∷◌, [], IfOk, OnErr, OnOk, true};
ghost use Rattle.std.specs.Mem.{FitsInMemory};
ghost use Rattle.linear_program.specs.Fews.{few_items};

use std::alloc::{AllocError, Global};
use std::slice;

// The room of a list at first.
const FIRST_ROOM: usize = 4;

/// Where elements are kept: one in place, or any number of them in a list.
#[derive(Drop)]
pub enum Place<T> {
    Alone(T),
    Listed(Vec<T>),
}

/// A list that allocates nothing for one element.
#[derive(Drop)]
pub struct Few<T> {
    alloc: Global,
    place: Place<T>,
}

// Whether a list has neither elements nor room.
fn is_unused<T>(items: &Vec<T>) -> bool
    ensures { result ≡ true → items.now.items ≡ [] }
{
    items.is_empty() && items.capacity() == 0
}

impl<T: Copy + Drop> Few<T> {
    /// No elements.
    pub fn new(alloc: Global) -> Self
        ensures { few_items result ≡ [] }
    {
        Few {
            alloc,
            place: Place::Listed(Vec::new(alloc)),
        }
    }

    /// These elements.
    pub fn of_slice(alloc: Global, items: &[T]) -> Result<Self, AllocError>
        ensures { IfOk result (λ few. few_items few ≡ items.now) }
    {
        if let [item] = items {
            let place = Place::Alone(*item);
            return Ok(Few { alloc, place });
        }
        let list = Vec::from_slice(alloc, items)?;
        let place = Place::Listed(list);
        Ok(Few { alloc, place })
    }

    /// Adds an element at the end.
    #[inline]
    pub fn push(&mut self, item: T) -> Result<(), AllocError>
        ensures ok { OnOk result (few_items self.new ≡ few_items self.old ++ item ∷ []) }
        ensures err { OnErr result (few_items self.new ≡ few_items self.old) }
    {
        if self.is_unused() {
            self.place = Place::Alone(item);
            return Ok(());
        }
        match &mut self.place {
            Place::Listed(items) => {
                items.push(item)?;
                Ok(())
            }
            Place::Alone(first) => {
                let first = *first;
                self.list(first, item)
            }
        }
    }

    fn is_unused(&self) -> bool
        ensures { result ≡ true → few_items self.now ≡ [] }
    {
        match &self.place {
            Place::Alone(_) => false,
            Place::Listed(items) => is_unused(items),
        }
    }

    // Lists two elements in place of those that are there.
    fn list(&mut self, first: T, second: T) -> Result<(), AllocError>
        ensures ok { OnOk result (few_items self.new ≡ first ∷ second ∷ []) }
        ensures err { OnErr result (self.new ≡ self.old) }
    {
        let mut items = Vec::with_capacity(self.alloc, FIRST_ROOM)?;
        items.push(first)?;
        items.push(second)?;
        self.place = Place::Listed(items);
        Ok(())
    }

    /// Makes room for so many elements more, where none is in place.
    pub fn make_room(&mut self, count: usize) -> Result<(), AllocError>
        ensures { few_items self.new ≡ few_items self.old }
    {
        if count < 2 {
            return Ok(());
        }
        match &mut self.place {
            Place::Alone(_) => Ok(()),
            Place::Listed(items) => items.reserve_exact(count),
        }
    }

    /// The elements in order.
    pub fn items(&self) -> &[T]
        requires { FitsInMemory T.row }
        ensures { result.now ≡ few_items self.now }
    {
        match &self.place {
            Place::Alone(item) => slice::from_ref(item),
            Place::Listed(items) => items,
        }
    }

    pub(crate) fn allocator(&self) -> Global {
        self.alloc
    }
}
