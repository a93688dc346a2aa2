//! A vector that remembers a refused push.

use std::alloc::Global;
use std::marker::Model;
use std::mem::replace;

/// Elements in the order in which they came. It remembers whether memory was refused for one, so that no push has to be checked by
/// itself: `is_short` tells.
#[derive(Drop)]
pub struct Growing<T: Drop> {
    items: Vec<T>,
    /// Whether memory was refused, so that an element is missing.
    is_short: bool,
}

impl<T: Drop> Model for Growing<T> {
    ghost use Rattle.std.specs.Prelude.{List, Option, Some, None, if◌then◌else◌};

    ghost Value = { Option (List T) };

    ghost view = { λ g. if g.is_short then None else Some g.items.items };
}

impl<T: Drop> Growing<T> {
    ghost use Rattle.std.specs.Prelude.{◌≡◌, ◌↔◌, [], IsTrue, Some, None};
    ghost use Rattle.text9.specs.Growing.{IsPushed};

    /// Nothing yet.
    pub fn new(alloc: Global) -> Growing<T>
        ensures { result ≡ Some [] }
    {
        Growing {
            items: Vec::new(alloc),
            is_short: false,
        }
    }

    /// Puts an element behind the others.
    pub fn push(&mut self, item: T)
        ensures { IsPushed self.old self.new item }
    {
        self.is_short |= self.items.push(item).is_err();
    }

    /// Hands out the elements, and begins anew. Where one was missing, it stays short.
    pub fn take_all(&mut self) -> Vec<T>
        ensures { self.old ≡ None → self.new ≡ None }
    {
        let alloc = *self.items.allocator();
        replace(&mut self.items, Vec::new(alloc))
    }

    /// Takes the last one out.
    pub fn pop(&mut self) -> Option<T> {
        self.items.pop()
    }

    /// Whether an element is missing, since memory was refused for it.
    pub fn is_short(&self) -> bool
        ensures { IsTrue result ↔ (self.now ≡ None) }
    {
        self.is_short
    }

    /// How many there are.
    pub fn len(&self) -> usize {
        self.items.len()
    }

    /// Whether there is none.
    pub fn is_empty(&self) -> bool {
        self.items.is_empty()
    }

    /// The last one.
    pub fn last(&self) -> Option<&T> {
        self.items.last()
    }

    /// The last one, to change it.
    pub fn last_mut(&mut self) -> Option<&mut T> {
        self.items.last_mut()
    }

    /// All that it has.
    pub fn as_slice(&self) -> &[T] {
        self.items.as_slice()
    }

    /// All that it has, to change them.
    pub fn as_mut_slice(&mut self) -> &mut [T] {
        self.items.as_mut_slice()
    }
}
