ghost use Rattle.std.specs.Prelude.{◌≡◌, ◌+◌, ◌<◌, ◌^◌, false, IfOk, nat_le, length, option_map, ◌==◌};
ghost use Rattle.std.specs.Prelude.{◌≤◌, ◌↔◌, IfSome, IsNone, map, vec_len, vec_capacity};
ghost use Rattle.std.specs.List.{position};
ghost use Rattle.world_rules.specs.Part.{is_among};
ghost use Rattle.outside.specs.Makes.{GoesNotBack};
ghost use Rattle.outside.specs.Streams.{IsFresh};
ghost use Rattle.host_calls.specs.OutsideSteps.{Accepts};
ghost use Rattle.host_calls.specs.Listening.{no_listeners, listener_numbers, listener_of, with_listener, without_listener};

use memory_refusal::NoMemory;
use outside::{AcceptStep, Listener, Outside};
use std::alloc::Global;
use std::marker::Model;

/// How many listeners a process has at most.
const PLACES: usize = 16;

/// A listener with its number.
#[derive(Drop)]
struct Bound<L: Listener> {
    number: u64,
    listener: L,
}

impl<L: Listener> Model for Bound<L> {
    ghost use Rattle.host_calls.specs.Listening.{Bound as BoundShown};

    ghost Value = { BoundShown L };

    ghost view = { λ a. record { number = a.number; listener = a.listener } };
}

/// The listeners of a process, by their numbers, which count from 0 and aren't used again. There are 16 places.
#[derive(Drop)]
pub struct Listeners<L: Listener> {
    bound: Vec<Bound<L>>,
    next: u64,
}

impl<L: Listener> Model for Listeners<L> {
    ghost use Rattle.std.specs.Prelude.{◌≤◌, ◌<◌, All, vec_len, vec_capacity};
    ghost use Rattle.host_calls.specs.Listening.{Listening, AreRising};

    ghost Value = { Listening L };

    ghost view = { λ a. record { bound = a.bound.items; next = a.next } };

    ghost invariant = { λ a.
        (vec_len a.bound ≤ 16)
        × (16 ≤ vec_capacity a.bound)
        × AreRising a.next a.bound.items };
}

impl<L: Listener> Listeners<L> {
    /// No listeners yet. Room for all is made.
    pub fn new(alloc: Global) -> Result<Listeners<L>, NoMemory>
        ensures { IfOk result (λ listeners. listeners ≡ no_listeners) }
    {
        Ok(Listeners {
            bound: Vec::with_capacity(alloc, PLACES)?,
            next: 0,
        })
    }

    /// There is no place for one more.
    pub fn full(&self) -> bool
        ensures full { result ≡ nat_le 16 (length self.now.bound) }
    {
        self.bound.len() == PLACES
    }

    /// A listener of this number is there.
    pub fn has(&self, number: u64) -> bool
        ensures { result ≡ is_among (listener_numbers self.now) number }
    {
        place_of(&self.bound, number).is_some()
    }

    /// The number of the next listener.
    pub fn next(&self) -> u64
        ensures { result ≡ self.now.next }
    {
        self.next
    }

    /// The port of the listener of this number; None exactly where it isn't there.
    pub fn port(&self, number: u64) -> Option<u16>
        ensures { result ≡ option_map (λ b. L.number b.listener) (listener_of number self.now) }
    {
        let bound = self.bound.iter().find(|bound| bound.number == number)?;
        Some(bound.listener.port())
    }

    /// Takes a listener, with the next number.
    pub fn add(&mut self, listener: L)
        requires place { nat_le 16 (length self.old.bound) ≡ false }
        requires number { self.old.next + 1 < 2 ^ 64 }
        ensures { self.new ≡ with_listener listener self.old }
    {
        self.bound.push_reserved(Bound {
            number: self.next,
            listener,
        });
        self.next += 1;
    }

    /// Shuts the listener of this number, and lets go of it; where it isn't there, nothing changes.
    pub fn drop_one(&mut self, number: u64)
        ensures { self.new ≡ without_listener number self.old }
    {
        if let Some(place) = place_of(&self.bound, number) {
            let mut bound = self.bound.remove(place);
            bound.listener.shut();
        }
    }

    /// Shuts all, and lets go of them.
    pub fn shut_all(self) {
        let Listeners { mut bound, next: _ } = self;
        while let Some(mut last) = bound.pop() {
            last.listener.shut();
        }
    }
}

/// The place of the listener of this number.
fn place_of<L: Listener>(bound: &[Bound<L>], number: u64) -> Option<usize>
    ensures { result ≡ position (λ b. b.number == number) bound.now }
{
    bound.iter().position(|b| b.number == number)
}

/// The next connection that arrived at the listener of this number; None exactly where the listener isn't there.
pub(crate) fn accept_on<O: Outside>(
    listeners: &mut Listeners<O::Listener>,
    number: u64,
    outside: &mut O,
) -> Option<AcceptStep<O::Stream>>
    ensures none { IsNone result ↔ (is_among (listener_numbers listeners.old) number ≡ false) }
    ensures numbers { listener_numbers listeners.new ≡ listener_numbers listeners.old }
    ensures next { listeners.new.next ≡ listeners.old.next }
    ensures accepted { IfSome result (λ step. Accepts
        (O.faults outside.old) (O.faults outside.new) (O.waits outside.old) (O.waits outside.new) step
        (λ s. IsFresh (O.Stream.down s) (O.Stream.taken s) (O.Stream.put s))) }
    ensures rests { O.rests outside.old ≤ O.rests outside.new }
    ensures clock { GoesNotBack (O.clock outside.old) (O.clock outside.new) }
    ensures entered { O.entered outside.new ≡ O.entered outside.old }
{
    let place = place_of(&listeners.bound, number)?;
    Some(accept_at(&mut listeners.bound, place, outside))
}

/// The next connection that arrived at the listener at this place.
fn accept_at<O: Outside>(
    bound: &mut Vec<Bound<O::Listener>>,
    place: usize,
    outside: &mut O,
) -> AcceptStep<O::Stream>
    requires { place < vec_len bound.old }
    ensures numbers { map (λ b. b.number) bound.new.items ≡ map (λ b. b.number) bound.old.items }
    ensures len { vec_len bound.new ≡ vec_len bound.old }
    ensures capacity { vec_capacity bound.new ≡ vec_capacity bound.old }
    ensures accepted { Accepts
        (O.faults outside.old) (O.faults outside.new) (O.waits outside.old) (O.waits outside.new) result
        (λ s. IsFresh (O.Stream.down s) (O.Stream.taken s) (O.Stream.put s)) }
    ensures rests { O.rests outside.old ≤ O.rests outside.new }
    ensures clock { GoesNotBack (O.clock outside.old) (O.clock outside.new) }
    ensures entered { O.entered outside.new ≡ O.entered outside.old }
{
    outside.accept(&mut bound[place].listener)
}
