//! What a reply to an ask writes.
ghost use Rattle.std.specs.Prelude.{◌≡◌, ◌+◌, ◌≤◌, length, IfSome};
ghost use Rattle.wasm_ops.specs.Table.{IsAccessWidth};
ghost use Rattle.host_port.specs.declared.reply.Text.{Text};
ghost use Rattle.host_port.specs.declared.reply.Word.{Word};
ghost use Rattle.tree_machine.specs.Config.{bytes_of, with_bytes};
ghost use Rattle.flat_machine.specs.Shown.{memory_where};
ghost use Rattle.flat_machine.specs.Halts.{replied_to, with_text, with_word};
ghost use Rattle.flat_stepper.specs.States.{flat_of, IsSound};
ghost use Rattle.flat_machine.specs.Stands.{ReplyFits};

use crate::stacks::{lengthen, push};
use crate::state::State;
use host_port::{Reply, Text, Word};
use linear_memory::Memory;

/// Writes the text and the word of the reply, and puts its result on the values.
pub(crate) fn resume(state: &mut State, reply: &Reply)
    requires sound { IsSound state.old }
    requires writable { ReplyFits reply.now (flat_of state.old) }
    ensures sound { IsSound state.new }
    ensures replied { flat_of state.new ≡ replied_to reply.now (flat_of state.old) }
{
    write(&mut state.memory, state.has_memory, reply);
    match reply.result {
        Some(value) => {
            let sp = state.sp;
            lengthen(&mut state.values, sp + state.place.opens + 1);
            push(state.values.as_mut_slice(), sp, value);
            state.sp = sp + 1;
        }
        None => {}
    }
}

/// Writes the text, and then the word, where there is a memory.
fn write(memory: &mut Memory, has: bool, reply: &Reply)
    requires text { IfSome reply.now.text (λ (t : Text).
        t.addr + length t.bytes ≤ length (bytes_of (memory_where has memory.old))) }
    requires word { IfSome reply.now.word (λ (w : Word). IsAccessWidth w.width
        × (w.addr + w.width ≤ length (bytes_of (memory_where has memory.old)))) }
    ensures { memory_where has memory.new ≡ with_bytes (with_word reply.now.word (with_text reply.now.text
        (bytes_of (memory_where has memory.old)))) (memory_where has memory.old) }
{
    if !has {
        return;
    }
    write_text(memory, &reply.text);
    write_word(memory, reply.word);
}

/// Writes the text, where there is one.
fn write_text(memory: &mut Memory, text: &Option<Text>)
    requires { IfSome text.now (λ (t : Text). t.addr + length t.bytes ≤ length memory.old.bytes) }
    ensures written { memory.new ≡ record memory.old { bytes = with_text text.now memory.old.bytes } }
    ensures size { length memory.new.bytes ≡ length memory.old.bytes }
{
    match text {
        Some(text) => memory.fill_from(text.addr, text.bytes.as_slice()),
        None => {}
    }
}

/// Writes the word, where there is one.
fn write_word(memory: &mut Memory, word: Option<Word>)
    requires { IfSome word (λ (w : Word).
        IsAccessWidth w.width × (w.addr + w.width ≤ length memory.old.bytes)) }
    ensures { memory.new ≡ record memory.old { bytes = with_word word memory.old.bytes } }
{
    match word {
        Some(word) => {
            let _written = memory.store(u64::from(word.addr), word.width, word.value);
        }
        None => {}
    }
}
