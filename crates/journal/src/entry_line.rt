use crate::words::{push_field, push_words, word_of_fault, word_of_limit, word_of_trap};
use memory_refusal::NoMemory;
use std::alloc::Global;
use world_rules::{Entry, Halt, Side};

fn push_halt(text: &mut String, halt: &Halt) -> Result<(), NoMemory> {
    match halt {
        Halt::Slice => push_words(text, " Slice", ""),
        Halt::Asks(request) => push_field(text, " Asks ", u64::from(request.ask.call)),
        Halt::Done => push_words(text, " Done", ""),
        Halt::Trap(trap) => push_words(text, " Trap ", word_of_trap(*trap)),
        Halt::Spent(spent) => push_words(text, " Spent ", word_of_limit(*spent)),
        Halt::Host(fault, request) => {
            push_words(text, " Host ", word_of_fault(*fault))?;
            push_field(text, " ", u64::from(request.ask.call))
        }
        Halt::NoMemory => push_words(text, " NoMemory", ""),
        Halt::Again => push_words(text, " Again", ""),
    }
}

fn push_side(text: &mut String, side: &Side) -> Result<(), NoMemory> {
    match side {
        Side::Nothing => push_words(text, " Nothing", ""),
        Side::Clock(now) => push_field(text, " Clock ", *now),
        Side::Pending => push_words(text, " Pending", ""),
        Side::Answer(reply) => match reply.result {
            Some(result) => push_field(text, " Answer ", result),
            None => push_words(text, " Answer", ""),
        },
        Side::Opened => push_words(text, " Opened", ""),
        Side::NoMemory => push_words(text, " NoMemory", ""),
    }
}

/// A line for reading alone, without a line feed: the variant's name and its numbers. Of the local calls it has the
/// count, of a request the number of its call, of an answer from outside its result.
pub fn entry_text(alloc: Global, entry: &Entry) -> Result<Vec<u8>, NoMemory> {
    let mut text = String::new(alloc);
    match entry {
        Entry::Take { worker, pid } => {
            push_field(&mut text, "Take worker ", u64::from(*worker))?;
            push_field(&mut text, " pid ", *pid)?;
        }
        Entry::Give {
            worker,
            pid,
            calls,
            fuel,
            halt,
            side,
        } => {
            push_field(&mut text, "Give worker ", u64::from(*worker))?;
            push_field(&mut text, " pid ", *pid)?;
            push_field(&mut text, " calls ", calls.len() as u64)?;
            push_field(&mut text, " fuel ", *fuel)?;
            push_halt(&mut text, halt)?;
            push_side(&mut text, side)?;
        }
        Entry::Tick { worker, now } => {
            push_field(&mut text, "Tick worker ", u64::from(*worker))?;
            push_field(&mut text, " now ", *now)?;
        }
        Entry::Stall { worker } => push_field(&mut text, "Stall worker ", u64::from(*worker))?,
        Entry::Idle { worker } => push_field(&mut text, "Idle worker ", u64::from(*worker))?,
        Entry::Starve { worker } => push_field(&mut text, "Starve worker ", u64::from(*worker))?,
    }
    Ok(text.into_bytes())
}
