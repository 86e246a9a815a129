ghost use Rattle.std.specs.Prelude.{◌≡◌, ◌<◌, ◌^◌, ℕ, List, length};
ghost use Rattle.body_reader.specs.Reading.{Answers};
ghost use Rattle.wasm_form.specs.Values.{SpellsItems, SpellsVector};

use crate::ReadFault;
use crate::numbers::u32_at;
use leb_read::Cursor;
use std::alloc::Global;
use wasm_form::Vector;

/// What vectors are made of: a value that is read by itself.
pub trait Part {
    ghost spells: { List ℕ → Self → Type 0 };

    /// The value at the cursor, which is passed over.
    fn read(alloc: Global, cursor: &mut Cursor<'_>) -> Result<Self, ReadFault>
        requires { length cursor.old.left < 2 ^ 32 }
        ensures { Answers spells cursor.old cursor.new result };
}

impl Part for u32 {
    ghost use Rattle.wasm_form.specs.Values.{SpellsU32};

    ghost spells = { SpellsU32 };

    fn read(_alloc: Global, cursor: &mut Cursor<'_>) -> Result<u32, ReadFault> {
        u32_at(cursor)
    }
}

/// So many values at the cursor, one after another, which are passed over.
fn read_items<T: Part + Drop>(
    alloc: Global,
    cursor: &mut Cursor<'_>,
    count: u32,
) -> Result<Vector<T>, ReadFault>
    requires { length cursor.old.left < 2 ^ 32 }
    ensures { Answers (λ s xs. SpellsItems T.spells s xs × (length xs ≡ count))
        cursor.old cursor.new result }
{
    let mut items = Vector::new(alloc);
    for _ in 0..count {
        let item = T::read(alloc, cursor)?;
        items.push(item)?;
    }
    Ok(items)
}

/// The vector at the cursor, which is passed over: a number, and so many values (Core 1.0, 5.1.3).
pub fn read_vector<T: Part + Drop>(
    alloc: Global,
    cursor: &mut Cursor<'_>,
) -> Result<Vector<T>, ReadFault>
    requires { length cursor.old.left < 2 ^ 32 }
    ensures { Answers (SpellsVector T.spells) cursor.old cursor.new result }
{
    let count = u32_at(cursor)?;
    read_items(alloc, cursor, count)
}
