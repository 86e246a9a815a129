ghost use Rattle.std.specs.Prelude.{
  ◌≡◌,
  ◌↔◌,
  [],
  ◌∷◌,
  ◌++◌,
  ◌&&◌,
  ◌||◌,
  ℕ,
  nat_lt,
  nat_le,
  true,
  IsTrue,
  IfOk,
  OnOk,
  filter,
  filter_map,
  flat_map,
  option_map,
  not,
};
ghost use Rattle.std.specs.List.{list_any};
ghost use Rattle.std.specs.Option.{option_to_list};
ghost use Rattle.world_rules.specs.Part.{is_among};
ghost use Rattle.world_rules.specs.World.{is_live, link_between};
ghost use Rattle.world_rules.specs.Links.{
  are_linked,
  falls_with,
  spread,
  spread_times,
  fallen_with,
  signals_from,
  signals_of,
};
ghost use Rattle.plain_world.specs.Fall.{IsFall, HasEnds, AreNear, AreToTell, signals_to};
ghost use Rattle.plain_world.specs.Shown.{shown_world};

use crate::population::is_drawn;
use crate::{Numbers, PlainLink, PlainWorld, Told};
use memory_refusal::NoMemory;
use plain_part::{is_among, without_number};
use world_rules::End;

/// The others who fall with a process that ends, and who is told.
#[derive(Debug, Drop)]
pub struct Fall {
    /// Those who fall, by rising number.
    pub others: Vec<u64>,
    /// The signals, in their order.
    pub told: Vec<Told>,
}

/// They are the same numbers in the same order.
fn are_same(some: &[u64], others: &[u64]) -> bool
    ensures { IsTrue result ↔ (some.now ≡ others.now) }
{
    some == others
}

/// Puts a signal behind the others, if there is one.
fn push_signal(told: &mut Vec<Told>, signal: Option<Told>) -> Result<(), NoMemory>
    ensures { OnOk result (told.new.items ≡ told.old.items ++ option_to_list signal) }
{
    if let Some(signal) = signal {
        told.push(signal)?;
    }
    Ok(())
}

/// Adds the other end of a link, where one end is among these.
fn add_ends(near: &mut Numbers, members: &[u64], link: &PlainLink) -> Result<(), NoMemory>
    ensures { OnOk result (HasEnds near.old members.now link.now near.new) }
{
    if is_among(members, link.low) {
        near.add(link.high)?;
    }
    if is_among(members, link.high) {
        near.add(link.low)?;
    }
    Ok(())
}

/// Adds these numbers.
fn add_all(numbers: &mut Numbers, more: &[u64]) -> Result<(), NoMemory>
    ensures { OnOk result ((pid : ℕ) →
        (is_among numbers.old pid || is_among more.now pid) ≡ true → is_among numbers.new pid ≡ true) }
{
    for pid in more {
        numbers.add(*pid)?;
    }
    Ok(())
}

impl PlainWorld {
    /// The process dies with links.
    fn dies(&self, pid: u64) -> bool
        ensures { result ≡ ((shown_world self.now).process pid).dies }
    {
        match self.at(pid) {
            Some(process) => process.dies,
            None => true,
        }
    }

    /// Two processes are linked.
    fn are_linked(&self, a: u64, b: u64) -> bool
        ensures { result ≡ are_linked (shown_world self.now) a b }
    {
        self.link_between(a, b).is_some()
    }

    /// The process is linked with one of these.
    fn is_linked_with(&self, members: &[u64], pid: u64) -> bool
        ensures { result ≡ list_any (λ member. are_linked (shown_world self.now) member pid) members.now }
    {
        for member in members {
            if self.are_linked(*member, pid) {
                return true;
            }
        }
        false
    }

    /// A live process that dies with links falls with a process that it is linked with.
    fn falls_with(&self, members: &[u64], pid: u64) -> bool
        ensures { result ≡ falls_with (shown_world self.now) members.now pid }
    {
        self.is_live(pid) && self.dies(pid) && self.is_linked_with(members, pid)
    }

    /// Numbers among which each is whose process is linked with one of these.
    fn neighbours(&self, members: &[u64]) -> Result<Numbers, NoMemory>
        ensures { IfOk result (λ near. AreNear (shown_world self.now) members.now near) }
    {
        let mut near = Numbers::new(self.alloc());
        for link in &self.links {
            add_ends(&mut near, members, link)?;
        }
        Ok(near)
    }

    /// A number that was drawn is among the members, or its process falls with one of them.
    fn is_spread_to(&self, members: &[u64], pid: u64) -> bool
        ensures { result ≡ ((nat_lt 0 pid && nat_le pid self.now.numbers_drawn) &&
            (is_among members.now pid || falls_with (shown_world self.now) members.now pid)) }
    {
        is_drawn(self.numbers_drawn, pid)
            && (is_among(members, pid) || self.falls_with(members, pid))
    }

    /// The members and those that fall with one of them, by rising number.
    fn spread(&self, members: &[u64]) -> Result<Vec<u64>, NoMemory>
        ensures { IfOk result (λ more. more.items ≡ spread (shown_world self.now) members.now) }
    {
        let mut near = self.neighbours(members)?;
        add_all(&mut near, members)?;
        let mut more = Vec::new(self.alloc());
        for pid in near.as_slice() {
            if self.is_spread_to(members, *pid) {
                more.push(*pid)?;
            }
        }
        Ok(more)
    }

    /// The process and those that fall with it, by rising number.
    fn spread_from(&self, pid: u64) -> Result<Vec<u64>, NoMemory>
        ensures { IfOk result (λ members. members.items ≡
            spread_times (shown_world self.now).numbers_drawn (shown_world self.now) (pid ∷ [])) }
    {
        let mut members = Vec::new(self.alloc());
        members.push(pid)?;
        for _round in 0..self.numbers_drawn {
            let more = self.spread(&members)?;
            if are_same(&more, &members) {
                return Ok(members);
            }
            members = more;
        }
        Ok(members)
    }

    /// The others who fall with the process.
    fn fallen_with(&self, pid: u64, end: End) -> Result<Vec<u64>, NoMemory>
        ensures { IfOk result (λ others. others.items ≡ fallen_with (shown_world self.now) pid end) }
    {
        match end {
            End::Done => Ok(Vec::new(self.alloc())),
            _ => without_number(self.alloc(), pid, &self.spread_from(pid)?),
        }
    }

    /// A number that was drawn is of a live process, and not among these.
    fn is_outsider(&self, members: &[u64], pid: u64) -> bool
        ensures { result ≡ ((nat_lt 0 pid && nat_le pid self.now.numbers_drawn) &&
            (not (is_among members.now pid) && is_live ((shown_world self.now).process pid).stage)) }
    {
        is_drawn(self.numbers_drawn, pid) && !is_among(members, pid) && self.is_live(pid)
    }

    /// The live processes that are not among these, by rising number, as far as one of these has to tell them.
    fn outsiders(&self, members: &[u64]) -> Result<Vec<u64>, NoMemory>
        ensures { IfOk result (λ others. AreToTell (shown_world self.now) members.now others.items) }
    {
        let near = self.neighbours(members)?;
        let mut others = Vec::new(self.alloc());
        for pid in near.as_slice() {
            if self.is_outsider(members, *pid) {
                others.push(*pid)?;
            }
        }
        Ok(others)
    }

    /// The signal of a member to a process, if they are linked.
    fn signal_to(&self, member: u64, pid: u64) -> Option<Told>
        ensures { result ≡
            option_map (λ tag. record { to = pid; tag = tag }) (link_between (shown_world self.now) member pid) }
    {
        match self.link_between(member, pid) {
            Some(tag) => Some(Told::new(pid, tag)),
            None => None,
        }
    }

    /// Puts the signals of a member to those of these processes that it is linked with behind the others.
    fn push_signals(
        &self,
        told: &mut Vec<Told>,
        member: u64,
        outsiders: &[u64],
    ) -> Result<(), NoMemory>
        ensures { OnOk result (told.new.items ≡
            told.old.items ++ signals_to (shown_world self.now) member outsiders.now) }
    {
        for pid in outsiders {
            push_signal(told, self.signal_to(member, *pid))?;
        }
        Ok(())
    }

    /// The signals of the members, member by member.
    fn signals_of(&self, members: &[u64], end: End) -> Result<Vec<Told>, NoMemory>
        ensures { IfOk result (λ told. told.items ≡ signals_of (shown_world self.now) members.now end) }
    {
        match end {
            End::Done => Ok(Vec::new(self.alloc())),
            _ => self.signals_from_all(members),
        }
    }

    /// The signals of the members, member by member, whatever the end.
    fn signals_from_all(&self, members: &[u64]) -> Result<Vec<Told>, NoMemory>
        ensures { IfOk result (λ told. told.items ≡
            flat_map (signals_from (shown_world self.now) members.now) members.now) }
    {
        let outsiders = self.outsiders(members)?;
        let mut told = Vec::new(self.alloc());
        for member in members {
            self.push_signals(&mut told, *member, &outsiders)?;
        }
        Ok(told)
    }

    /// Who falls with a process that ends so, and who is told, read before anyone ends.
    pub(crate) fn fall_of(&self, pid: u64, end: End) -> Result<Fall, NoMemory>
        ensures { IfOk result (IsFall (shown_world self.now) pid end) }
    {
        let others = self.fallen_with(pid, end)?;
        let mut members = Vec::new(self.alloc());
        members.push(pid)?;
        members.extend_from_slice(&others)?;
        let told = self.signals_of(&members, end)?;
        Ok(Fall { others, told })
    }
}
