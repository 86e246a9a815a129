ghost use Rattle.std.specs.Prelude.{◌≡◌, ◌≤◌, ◌∷◌, [], All, IfOk, map, true, vec_capacity};
ghost use Rattle.std.specs.FinMap.{empty, insert};
ghost use Rattle.process_store.specs.declared.place.Place.TheVariants as PlaceIs;
ghost use Rattle.process_store.specs.Begins.{HoldsFirst, StoreBegins};
ghost use Rattle.process_store.specs.Keeps.{IsVacant, StoreKeeps};

use super::Store;
use crate::place::let_go;
use crate::{Item, Place};
use host_calls::Proc;
use host_port::{Engine, Start};
use link_signals::Links;
use memory_refusal::NoMemory;
use name_registry::Registry;
use outside::{Outside, Stream};
use resource_table::{Owned, Shed};
use run_queue::Queue;
use std::alloc::Global;
use tagged_mailbox::Mailbox;

/// The number of the first process.
const FIRST: u64 = 1;

/// How many numbers there are, from 0 on.
const NUMBERS: usize = 2;

/// The places and mailboxes of a store, and the shed through which the streams of mailboxes are closed.
struct Holdings<E: Engine, O: Outside> {
    places: Vec<Place<E, O>>,
    mail: Vec<Mailbox<Item<O::Stream>>>,
    shed: Shed<O::Stream>,
}

/// The places of the numbers 0 and 1: process 1 is at home.
fn fill_places<E: Engine, O: Outside>(places: &mut Vec<Place<E, O>>, proc: Proc<E, O>)
    requires empty { places.old.items ≡ [] }
    requires room { 2 ≤ vec_capacity places.old }
    ensures { places.new.items ≡ PlaceIs.Nobody ∷ PlaceIs.Home proc ∷ [] }
{
    places.push_reserved(Place::Nobody);
    places.push_reserved(Place::Home(proc));
}

/// An empty mailbox for each of the numbers 0 and 1.
fn fill_mail<S: Stream>(alloc: Global, mail: &mut Vec<Mailbox<Item<S>>>)
    requires empty { mail.old.items ≡ [] }
    requires room { 2 ≤ vec_capacity mail.old }
    ensures { map (λ box. box.items) mail.new.items ≡ [] ∷ [] ∷ [] }
{
    mail.push_reserved(Mailbox::new(alloc));
    mail.push_reserved(Mailbox::new(alloc));
}

/// Process 1 at home, with this engine and this start, and an empty mailbox.
fn first_holdings<E: Engine, O: Outside>(
    alloc: Global,
    engine: E,
    start: Start,
) -> Result<Holdings<E, O>, NoMemory>
    ensures { IfOk result (λ holdings. HoldsFirst engine start holdings) }
{
    let shed = Shed::new(alloc)?;
    let mut places = match Vec::with_capacity(alloc, NUMBERS) {
        Ok(places) => places,
        Err(_) => {
            shed.destroy_empty();
            return Err(NoMemory);
        }
    };
    let mut mail = match Vec::with_capacity(alloc, NUMBERS) {
        Ok(mail) => mail,
        Err(_) => {
            shed.destroy_empty();
            places.destroy_empty();
            return Err(NoMemory);
        }
    };
    let proc = match Proc::new(alloc, engine, start) {
        Ok(proc) => proc,
        Err(NoMemory) => {
            shed.destroy_empty();
            places.destroy_empty();
            mail.destroy_empty();
            return Err(NoMemory);
        }
    };
    fill_places(&mut places, proc);
    fill_mail(alloc, &mut mail);
    Ok(Holdings { places, mail, shed })
}

/// A queue in which process 1 is ready and nobody waits.
fn first_queue(alloc: Global) -> Result<Queue, NoMemory>
    ensures ready { IfOk result (λ queue. queue.ready ≡ 1 ∷ []) }
    ensures deadlines { IfOk result (λ queue. queue.deadlines ≡ empty) }
    ensures room { IfOk result (λ queue. 2 ≤ queue.room) }
{
    let mut queue = Queue::new(alloc);
    queue.reserve(NUMBERS as u32)?;
    queue.push_reserved(FIRST);
    Ok(queue)
}

/// Links of process 1, which has none.
fn first_links(alloc: Global) -> Result<Links, NoMemory>
    ensures processes { IfOk result (λ links. links.processes ≡ insert empty 1 true) }
    ensures tags { IfOk result (λ links. links.tags ≡ empty) }
    ensures signals { IfOk result (λ links. links.signals ≡ []) }
{
    let mut links = Links::new(alloc);
    links.add(FIRST)?;
    Ok(links)
}

impl<E: Engine, O: Outside> Store<E, O> {
    /// A store in which process 1 is at home with this engine and this start, and nothing else is. `NoMemory` comes for
    /// want of memory alone.
    pub fn new(alloc: Global, engine: E, start: Start) -> Result<Store<E, O>, NoMemory>
        ensures begins { IfOk result (λ store. StoreBegins engine start store) }
    {
        let queue = first_queue(alloc)?;
        let links = first_links(alloc)?;
        let Ok(came) = Vec::with_capacity(alloc, NUMBERS) else {
            return Err(NoMemory);
        };
        let Holdings { places, mail, shed } = first_holdings(alloc, engine, start)?;
        Ok(Store {
            alloc,
            places,
            mail,
            queue,
            came,
            giver: None,
            names: Registry::new(alloc),
            links,
            births: 1,
            unended: 1,
            out: 0,
            sends: 0,
            time: 0,
            row: 0,
            over: false,
            streams: 0,
            closed: Vec::new(alloc),
            shed,
        })
    }

    /// Gives up a store in which no process is and no item lies. The closed streams are handed out, in order.
    pub fn close(self) -> Vec<Owned<O::Stream>>
        requires keeps { StoreKeeps self }
        requires vacant { All IsVacant self.places.items }
        requires empty { All (λ mail. mail.items ≡ []) self.mail.items }
        ensures closed { result.items ≡ self.closed.items }
    {
        let Store {
            alloc: _,
            places,
            mail,
            queue: _,
            came: _,
            giver: _,
            names: _,
            links: _,
            births: _,
            unended: _,
            out: _,
            sends: _,
            time: _,
            row: _,
            over: _,
            streams: _,
            closed,
            shed,
        } = self;
        let mut left = places;
        while let Some(place) = left.pop() {
            let_go(place);
        }
        left.destroy_empty();
        let mut boxes = mail;
        while let Some(empty) = boxes.pop() {
            empty.destroy_empty();
        }
        boxes.destroy_empty();
        shed.destroy_empty();
        closed
    }
}
