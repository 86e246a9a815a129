ghost use Rattle.std.specs.Prelude.{◌≡◌, ◌++◌, string_bytes, OnOk};
ghost use Rattle.std.specs.Fmt.{decimal};
ghost use Rattle.world_rules.specs.Report.{trap_word, spent_word, fault_word};

use host_port::Spent;
use memory_refusal::NoMemory;
use wasm_ops::Trap;
use world_rules::HostFault;

/// The word that a report has for a trap.
pub fn word_of_trap(trap: Trap) -> &'static str
    ensures { result.now ≡ trap_word trap }
{
    match trap {
        Trap::Unreachable => "unreachable",
        Trap::DivideByZero => "divide",
        Trap::Overflow => "overflow",
        Trap::Bounds => "bounds",
        Trap::TableBounds => "table",
        Trap::NoElement => "element",
        Trap::WrongType => "type",
    }
}

/// The word that a report has for a limit.
pub fn word_of_limit(spent: Spent) -> &'static str
    ensures { result.now ≡ spent_word spent }
{
    match spent {
        Spent::Fuel => "fuel",
        Spent::Frames => "frames",
        Spent::Values => "values",
        Spent::Traffic => "traffic",
    }
}

/// The word that a report has for a fault.
pub fn word_of_fault(fault: HostFault) -> &'static str
    ensures { result.now ≡ fault_word fault }
{
    match fault {
        HostFault::NoMessage => "nomessage",
        HostFault::BadPointer => "badpointer",
        HostFault::NoSuchHandle => "nosuchhandle",
        HostFault::EmptyPlace => "emptyplace",
        HostFault::PlacesFull => "placesfull",
        HostFault::TableFull => "tablefull",
        HostFault::BadSeek => "badseek",
        HostFault::NoSuchConfig => "nosuchconfig",
        HostFault::NoSuchListener => "nosuchlistener",
    }
}

/// A number in decimal digits.
pub fn push_number(text: &mut String, number: u64) -> Result<(), NoMemory>
    ensures { OnOk result (string_bytes text.new ≡ string_bytes text.old ++ decimal number) }
{
    write!(text, "{number}")?;
    Ok(())
}

/// One word, or two with a space between them.
pub fn push_words(text: &mut String, first: &str, second: &str) -> Result<(), NoMemory>
    ensures { OnOk result (string_bytes text.new ≡ string_bytes text.old ++ (first.now ++ second.now)) }
{
    text.push_str(first)?;
    text.push_str(second)?;
    Ok(())
}

/// A text and a number behind it.
pub fn push_field(text: &mut String, name: &str, number: u64) -> Result<(), NoMemory>
    ensures { OnOk result (string_bytes text.new ≡ string_bytes text.old ++ (name.now ++ decimal number)) }
{
    text.push_str(name)?;
    push_number(text, number)?;
    Ok(())
}
