ghost use Rattle.std.specs.Prelude.{◌≡◌, IfOk};
ghost use Rattle.world_rules.specs.Answers.{empty_reply, number_reply, written_reply};

use host_port::{Reply, Word};
use memory_refusal::NoMemory;

/// The reply that says nothing.
pub(crate) fn empty_reply() -> Reply
    ensures { result ≡ empty_reply }
{
    Reply {
        result: None,
        word: None,
        text: None,
    }
}

/// The reply of a number.
pub(crate) fn number_reply(n: u64) -> Reply
    ensures { result ≡ number_reply n }
{
    Reply {
        result: Some(n),
        word: None,
        text: None,
    }
}

/// The reply of a number, with eight bytes written at this address. `NoMemory` comes exactly where the address is none
/// of a memory, which an i32 always is.
pub(crate) fn written_reply(result_number: u64, addr: u64, value: u64) -> Result<Reply, NoMemory>
    ensures { IfOk result (λ reply. reply ≡ written_reply result_number addr value) }
{
    let Ok(addr) = u32::try_from(addr) else {
        return Err(NoMemory);
    };
    Ok(Reply {
        result: Some(result_number),
        word: Some(Word {
            addr,
            width: 8,
            value,
        }),
        text: None,
    })
}
