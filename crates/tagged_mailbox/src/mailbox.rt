ghost use Rattle.std.specs.Prelude.{◌≡◌, ◌↔◌, ◌%◌, ◌+◌, ◌<◌, ◌≤◌, false, [], ◌∷◌, ◌++◌, length};
ghost use Rattle.std.specs.Prelude.{IsTrue, OnOk, OnErr, IfErr, IsNone, vec_len, vec_capacity};
ghost use Rattle.std.specs.Option.{option_to_list};
ghost use Rattle.std.specs.List.{remove, slice_index_or};
ghost use Rattle.tagged_mailbox.specs.Mail.{reserved, AddsPlace, UsesPlace, counted, is_full, handed_back};
ghost use Rattle.tagged_mailbox.specs.Pick.{pick, left_by_pick};

use crate::places::use_place;
use crate::wanted::first_wanted;
use crate::{PutRefused, Tagged};
use memory_refusal::NoMemory;
use std::alloc::Global;
use std::marker::Model;

/// How many items that count a mailbox holds at most.
const LIMIT: usize = 1024;

/// The items that arrived and were not received yet.
///
/// An item need not be droppable: each one is handed back or handed on.
#[derive(Drop)]
pub struct Mailbox<M: Tagged> {
    items: Vec<M>,
    places: Vec<u64>,
    count: usize,
}

impl<M: Tagged> Model for Mailbox<M> {
    ghost use Rattle.std.specs.Prelude.{◌≡◌, ◌+◌, ◌≤◌, vec_len, vec_capacity};
    ghost use Rattle.tagged_mailbox.specs.Mail.{Mail, counted};

    ghost Value = { Mail M };

    ghost view = { λ a. record { items = a.items.items; places = a.places.items } };

    ghost invariant = { λ a.
        (a.count ≡ counted M.counts a.items.items)
        × (a.count ≤ 1024)
        × (vec_len a.items + vec_len a.places ≤ vec_capacity a.items) };
}

impl<M: Tagged> Mailbox<M> {
    /// An empty mailbox without reserved places. It takes no memory yet.
    pub fn new(alloc: Global) -> Mailbox<M>
        ensures items { result.items ≡ [] }
        ensures places { result.places ≡ [] }
    {
        Mailbox {
            items: Vec::new(alloc),
            places: Vec::new(alloc),
            count: 0,
        }
    }

    /// Reserves one place more for an item of this tag. `NoMemory` comes for want of memory alone, and
    /// then the mailbox is as it was.
    pub fn reserve(&mut self, tag: u64) -> Result<(), NoMemory>
        ensures items { self.new.items ≡ self.old.items }
        ensures ok { OnOk result (AddsPlace self.old.places self.new.places tag) }
        ensures err { OnErr result (self.new ≡ self.old) }
    {
        let wanted = self.places.len().saturating_add(1);
        self.items.reserve(wanted)?;
        self.places.push(tag)?;
        Ok(())
    }

    /// Whether 1,024 of the items count. More never do.
    pub fn full(&self) -> bool
        ensures full { result ≡ is_full M.counts self.now.items }
        ensures bounded { counted M.counts self.now.items ≤ 1024 }
    {
        self.count == LIMIT
    }

    /// Adds an item at the end, in a place that was reserved for its tag. It takes no memory.
    pub fn put_reserved(&mut self, message: M)
        requires reserved { 0 < reserved self.old.places (M.tag message) }
        requires not_full { IsTrue (M.counts message) → is_full M.counts self.old.items ≡ false }
        ensures items { self.new.items ≡ self.old.items ++ message ∷ [] }
        ensures used { UsesPlace self.old.places self.new.places (M.tag message) }
    {
        use_place(&mut self.places, message.tag());
        add(&mut self.items, &mut self.count, message);
    }

    /// Adds an item at the end, in a place of its own: no reserved place is used.
    ///
    /// `Full` comes exactly where the mailbox is full, whatever the item is, and is judged first;
    /// `NoMemory` comes for want of memory. Both hand the item back and leave the mailbox.
    pub fn put(&mut self, message: M) -> Result<(), PutRefused<M>>
        ensures ok { OnOk result (self.new.items ≡ self.old.items ++ message ∷ []) }
        ensures places { self.new.places ≡ self.old.places }
        ensures full { (result ≡ Err (PutRefused.Full message)) ↔ IsTrue (is_full M.counts self.old.items) }
        ensures back { IfErr result (λ refused. handed_back refused ≡ message) }
        ensures err { OnErr result (self.new ≡ self.old) }
    {
        if self.full() {
            return Err(PutRefused::Full(message));
        }
        let wanted = self.places.len().saturating_add(1);
        if self.items.reserve(wanted).is_err() {
            return Err(PutRefused::NoMemory(message));
        }
        add(&mut self.items, &mut self.count, message);
        Ok(())
    }

    /// Takes out the first item, in the order of arrival, whose tag is wanted; None exactly where none is.
    ///
    /// `tags` names the wanted tags by eight little-endian bytes each; an empty list wants any.
    pub fn pick(&mut self, tags: &[u8]) -> Option<M>
        requires { length tags.now % 8 ≡ 0 }
        ensures picked { result ≡ pick M.tag tags.now self.old.items }
        ensures left { self.new.items ≡ left_by_pick M.tag tags.now self.old.items }
        ensures places { self.new.places ≡ self.old.places }
    {
        let index = first_wanted(&self.items, tags)?;
        Some(take_out(&mut self.items, &mut self.count, index))
    }

    /// Takes out the first item in the order of arrival; None exactly where the mailbox is empty.
    pub fn pop(&mut self) -> Option<M>
        ensures popped { self.old.items ≡ option_to_list result ++ self.new.items }
        ensures none { IsNone result ↔ (self.old.items ≡ []) }
        ensures places { self.new.places ≡ self.old.places }
    {
        if self.items.is_empty() {
            return None;
        }
        Some(take_out(&mut self.items, &mut self.count, 0))
    }

    /// Lets go of an empty mailbox whose items cannot be dropped.
    pub fn destroy_empty(self)
        requires { self.items ≡ [] }
    {
        let Mailbox {
            items,
            places: _,
            count: _,
        } = self;
        items.destroy_empty();
    }
}

/// Adds an item to a list that has room for it, and counts it.
fn add<M: Tagged>(items: &mut Vec<M>, count: &mut usize, message: M)
    requires room { vec_len items.old < vec_capacity items.old }
    requires counted { count.old ≡ counted M.counts items.old.items }
    requires not_full { IsTrue (M.counts message) → count.old < 1024 }
    requires bounded { count.old ≤ 1024 }
    ensures items { items.new.items ≡ items.old.items ++ message ∷ [] }
    ensures len { vec_len items.new ≡ vec_len items.old + 1 }
    ensures capacity { vec_capacity items.old ≤ vec_capacity items.new }
    ensures counted { count.new ≡ counted M.counts items.new.items }
    ensures bounded { count.new ≤ 1024 }
{
    if message.counts() {
        *count += 1;
    }
    match items.push(message) {
        Ok(()) => {}
        Err(_) => unreachable!(),
    }
}

/// Takes the item at `index` out of a list, and no longer counts it.
fn take_out<M: Tagged>(items: &mut Vec<M>, count: &mut usize, index: usize) -> M
    requires index { index < vec_len items.old }
    requires counted { count.old ≡ counted M.counts items.old.items }
    ensures taken { result ≡ slice_index_or items.old.items index result }
    ensures items { items.new.items ≡ remove items.old.items index }
    ensures len { vec_len items.new + 1 ≡ vec_len items.old }
    ensures capacity { vec_capacity items.new ≡ vec_capacity items.old }
    ensures counted { count.new ≡ counted M.counts items.new.items }
    ensures fewer { count.new ≤ count.old }
{
    let message = items.remove(index);
    if message.counts() {
        *count -= 1;
    }
    message
}
