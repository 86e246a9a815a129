ghost use Rattle.std.specs.Prelude.{◌≡◌, map, option_map, option_copied, slice_get};
ghost use Rattle.world_rules.specs.Calls.{all_calls, call_numbered, call_of, arg};
ghost use Rattle.plain_part.specs.Shown.{shown_call};

use host_port::Request;

/// The host calls by their names.
#[derive(Clone, Copy, Debug, PartialEq, Eq)]
pub enum HostCall {
    /// A new scratch message.
    CreateData,
    /// Bytes behind those of the scratch message.
    WriteData,
    /// Bytes of the scratch message.
    ReadData,
    /// The place from which the scratch message is read.
    SeekData,
    /// How many bytes the scratch message has.
    DataSize,
    /// The tag of the scratch message.
    GetTag,
    /// A stream into the next slot of the scratch message.
    PushStream,
    /// A stream out of a slot of the scratch message.
    TakeStream,
    /// The scratch message to a process.
    Send,
    /// The first item of the mailbox that is wanted.
    Receive,
    /// The own number.
    ProcessId,
    /// Whether a process lives.
    Exists,
    /// A new process.
    Spawn,
    /// The end of a process.
    Kill,
    /// A link with a process.
    Link,
    /// No link with a process.
    Unlink,
    /// Whether the process ends with those that it is linked with.
    DieWhenLinkDies,
    /// A wait of so many milliseconds.
    SleepMs,
    /// A new config.
    CreateConfig,
    /// A config is no more.
    DropConfig,
    /// The pages of a config.
    SetMaxMemory,
    /// The fuel of a config.
    SetMaxFuel,
    /// The pages that a config has.
    GetMaxMemory,
    /// The fuel that a config has.
    GetMaxFuel,
    /// A process under a name.
    RegistryPut,
    /// The process of a name.
    RegistryGet,
    /// No process under a name.
    RegistryRemove,
    /// A new listener.
    Bind,
    /// The port of a listener.
    LocalPort,
    /// A stream that a listener gets.
    Accept,
    /// A stream to a host.
    Connect,
    /// Bytes from a stream.
    ReadStream,
    /// Bytes to a stream.
    WriteStream,
    /// A stream is closed.
    DropStream,
    /// A listener is closed.
    DropListener,
    /// A line of text.
    Print,
}

static CALLS: [HostCall; 36] = [
    HostCall::CreateData,
    HostCall::WriteData,
    HostCall::ReadData,
    HostCall::SeekData,
    HostCall::DataSize,
    HostCall::GetTag,
    HostCall::PushStream,
    HostCall::TakeStream,
    HostCall::Send,
    HostCall::Receive,
    HostCall::ProcessId,
    HostCall::Exists,
    HostCall::Spawn,
    HostCall::Kill,
    HostCall::Link,
    HostCall::Unlink,
    HostCall::DieWhenLinkDies,
    HostCall::SleepMs,
    HostCall::CreateConfig,
    HostCall::DropConfig,
    HostCall::SetMaxMemory,
    HostCall::SetMaxFuel,
    HostCall::GetMaxMemory,
    HostCall::GetMaxFuel,
    HostCall::RegistryPut,
    HostCall::RegistryGet,
    HostCall::RegistryRemove,
    HostCall::Bind,
    HostCall::LocalPort,
    HostCall::Accept,
    HostCall::Connect,
    HostCall::ReadStream,
    HostCall::WriteStream,
    HostCall::DropStream,
    HostCall::DropListener,
    HostCall::Print,
];

/// All calls, each at the place of its number.
fn calls() -> &'static [HostCall]
    ensures { map shown_call result.now ≡ all_calls }
{
    &CALLS
}

/// The call at this place, if there is one.
fn at_place(calls: &'static [HostCall], place: usize) -> Option<HostCall>
    ensures { result ≡ slice_get calls.now place }
{
    calls.get(place).copied()
}

/// The call of this number, if there is one.
pub fn call_numbered(number: u8) -> Option<HostCall>
    ensures { option_map shown_call result ≡ call_numbered number }
{
    at_place(calls(), usize::from(number))
}

/// The call that a request asks for, if there is one of its number.
pub fn call_of(request: &Request) -> Option<HostCall>
    ensures { option_map shown_call result ≡ call_of request.now }
{
    call_numbered(request.ask.call)
}

/// An argument of a request, counted from 0; 0 where there is none.
pub fn argument(request: &Request, place: u8) -> u64
    ensures { result ≡ arg request.now place }
{
    match request.ask.args.get(usize::from(place)) {
        Some(value) => *value,
        None => 0,
    }
}
