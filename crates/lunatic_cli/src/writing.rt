ghost use Rattle.std.specs.Prelude.{◌≤◌, OnOk, OnErr};
ghost use Rattle.outside.specs.Causes.{RoseOrFull, Stayed};
ghost use Rattle.lunatic_cli.specs.Writing.{AppendsAll, AppendsFront};

use outside::{Failed, Sink};

/// Writes the whole text, however short the pieces are that the sink takes.
///
/// `Failed` comes where the sink failed, or took nothing of a piece that has bytes, and only there: with `Ok` no write
/// failed.
pub fn write_all<K: Sink>(out: &mut K, text: &[u8]) -> Result<(), Failed>
    ensures all { OnOk result (AppendsAll (K.written out.old) (K.written out.new) text.now) }
    ensures front { AppendsFront (K.written out.old) (K.written out.new) text.now }
    ensures later { K.faults out.old ≤ K.faults out.new }
    ensures failed { OnErr result (RoseOrFull (K.faults out.old) (K.faults out.new)) }
    ensures stayed { OnOk result (Stayed (K.faults out.old) (K.faults out.new)) }
{
    let mut done = 0;
    while done < text.len() {
        match out.write(&text[done..]) {
            Ok(count) => {
                if count == 0 {
                    return Err(Failed);
                }
                done += count;
            }
            Err(Failed) => return Err(Failed),
        }
    }
    Ok(())
}
