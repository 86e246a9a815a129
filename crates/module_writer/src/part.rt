//! What vectors are made of.

ghost use Rattle.std.specs.Prelude.{◌≡◌, ℕ, List, OnOk, sum_by};
ghost use Rattle.wasm_form.specs.Values.{SpellsItems, SpellsVector};
ghost use Rattle.wasm_form.specs.Least.{least_vector};
ghost use Rattle.module_writer.specs.Writing.{HasSpelling, Appends};

use crate::numbers::write_u32;
use memory_refusal::NoMemory;
use wasm_form::{LeastLength, Vector};

/// What is written by itself, in as few bytes as spell it.
pub trait Part: LeastLength {
    ghost spells: { List ℕ → Self → Type 0 };

    /// Writes it after the other bytes. For want of memory a part of it may stand there.
    fn write(&self, out: &mut Vec<u8>) -> Result<(), NoMemory>
        requires { HasSpelling spells self.now }
        ensures { OnOk result (Appends spells Self.least self.now out.old.items out.new.items) };
}

/// These values, one after another.
pub fn write_items<T: Part>(items: &[T], out: &mut Vec<u8>) -> Result<(), NoMemory>
    requires { HasSpelling (SpellsItems T.spells) items.now }
    ensures { OnOk result (Appends (SpellsItems T.spells) (sum_by T.least) items.now
        out.old.items out.new.items) }
{
    for item in items {
        item.write(out)?;
    }
    Ok(())
}

/// These values, with their number before them (Core 1.0, 5.1.3).
pub fn write_vector<T: Part>(items: &Vector<T>, out: &mut Vec<u8>) -> Result<(), NoMemory>
    requires { HasSpelling (SpellsVector T.spells) items.now }
    ensures { OnOk result (Appends (SpellsVector T.spells) (least_vector T.least) items.now
        out.old.items out.new.items) }
{
    write_u32(items.len() as u32, out)?;
    write_items(items.as_slice(), out)?;
    Ok(())
}

impl Part for u32 {
    ghost use Rattle.wasm_form.specs.Values.{SpellsU32};

    ghost spells = { SpellsU32 };

    fn write(&self, out: &mut Vec<u8>) -> Result<(), NoMemory> {
        write_u32(*self, out)?;
        Ok(())
    }
}
