ghost use Rattle.std.specs.Prelude.{◌≡◌, ◌≤◌};

use std::marker::Model;

/// What a process may use.
#[derive(Clone, Copy, Debug)]
pub struct Limits {
    pages: u32,
    fuel: u64,
    traffic: u64,
}

impl Model for Limits {
    ghost use Rattle.std.specs.Prelude.{◌≤◌};
    ghost use Rattle.host_port.specs.Allowance.{Allowance};

    ghost Value = { Allowance };

    ghost view = { λ a. record { pages = a.pages; fuel = a.fuel; traffic = a.traffic } };

    ghost invariant = { λ a. a.pages ≤ 1024 };

    ghost inverse = { λ b. record { pages = b.pages; fuel = b.fuel; traffic = b.traffic } };
}

impl Limits {
    /// The most pages that a process may be allowed.
    pub const MOST_PAGES: u32 = 1024;

    /// At most `pages` pages of memory, `fuel` burnt in a life, and `traffic` bytes that
    /// host calls move.
    pub fn new(pages: u32, fuel: u64, traffic: u64) -> Limits
        requires { pages ≤ Self.MOST_PAGES }
        ensures { result ≡ record { pages = pages; fuel = fuel; traffic = traffic } }
    {
        Limits {
            pages,
            fuel,
            traffic,
        }
    }

    /// The most pages of memory; a page has 65,536 bytes.
    pub fn pages(&self) -> u32
        ensures pages { result ≡ self.now.pages }
        ensures few { result ≤ Self.MOST_PAGES }
    {
        self.pages
    }

    /// The most fuel that is burnt in a life.
    pub fn fuel(&self) -> u64
        ensures { result ≡ self.now.fuel }
    {
        self.fuel
    }

    /// The most bytes that the host calls of a life move.
    pub fn traffic(&self) -> u64
        ensures { result ≡ self.now.traffic }
    {
        self.traffic
    }
}
