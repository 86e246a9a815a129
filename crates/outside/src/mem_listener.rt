ghost use Rattle.std.specs.Prelude.{◌≡◌, [], ◌∷◌, IfSome, MatchOption};
ghost use Rattle.outside.specs.MemListener.{AllOfferNew, OffersNew, closed, new_desk};

use crate::{Listener, MemStream};
use std::collections::VecDeque;
use std::marker::Model;

/// What an accept on a [`MemListener`] finds.
#[derive(Drop)]
pub enum Offer {
    /// This stream.
    Stream(MemStream),
    /// Nobody, once.
    Wait,
}

/// A listener in memory, which gives its offers in order. An accept on one with nothing left finds nobody.
#[derive(Drop)]
pub struct MemListener {
    port: u16,
    offers: VecDeque<Offer>,
    down: bool,
}

impl Model for MemListener {
    ghost use Rattle.outside.specs.MemListener.{Desk, AllOfferNew};

    ghost Value = { Desk };

    ghost view = { λ l. record { number = l.port; offers = l.offers.items; down = l.down } };

    ghost invariant = { λ l. AllOfferNew l.offers.items };
}

impl MemListener {
    /// A listener at this port, with these offers. Their streams are new: nothing was read or written, and none was shut.
    pub fn new(port: u16, offers: Vec<Offer>) -> MemListener
        requires { AllOfferNew offers.items }
        ensures { result ≡ new_desk port offers.items }
    {
        MemListener {
            port,
            offers: VecDeque::from_vec(offers),
            down: false,
        }
    }

    /// The next offer.
    pub(crate) fn next_offer(&mut self) -> Option<Offer>
        ensures first { MatchOption result ((self.old.offers ≡ []) × (self.new.offers ≡ []))
            (λ offer. self.old.offers ≡ offer ∷ self.new.offers) }
        ensures new { IfSome result OffersNew }
        ensures number { self.new.number ≡ self.old.number }
        ensures down { self.new.down ≡ self.old.down }
    {
        self.offers.pop_front()
    }
}

impl Listener for MemListener {
    ghost number = { λ l. l.number };

    ghost down = { λ l. l.down };

    fn port(&self) -> u16
        ensures { result ≡ self.now.number }
    {
        self.port
    }

    fn shut(&mut self)
        ensures { self.new ≡ closed self.old }
    {
        self.down = true;
    }
}
