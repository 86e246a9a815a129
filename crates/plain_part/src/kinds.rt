ghost use Rattle.std.specs.Prelude.{◌≡◌, ◌<◌, ◌^◌, Some, sum_by, map, slice_index};
ghost use Rattle.std.specs.Option.{option_to_list};
ghost use Rattle.host_port.specs.HostTable.{Area, is_local_kind, area_read, areas_in, area_of_text, area_of_word};
ghost use Rattle.world_rules.specs.Kinds.{is_local, may_come, is_refusable, area_bytes};
ghost use Rattle.world_rules.specs.Judge.{cost_of};

use host_port::{
    Holds, Kind, MayCome, ReadArea, Reads, Request, WrittenText, WrittenWord, known_row,
};

/// The turn itself answers the request.
pub fn is_local(request: &Request) -> bool
    ensures { result ≡ is_local request.now }
{
    match known_row(request.ask.call) {
        Some(row) => is_local_kind(row.kind),
        None => false,
    }
}

/// The turn itself performs calls of this kind.
fn is_local_kind(kind: Kind) -> bool
    ensures { result ≡ is_local_kind (Some kind) }
{
    match kind {
        Kind::Local => true,
        Kind::World => false,
        Kind::Outside => false,
    }
}

/// What may come beside the request in an entry; None exactly where there is no such call.
pub fn may_come(request: &Request) -> Option<MayCome>
    ensures { result ≡ may_come request.now }
{
    match known_row(request.ask.call) {
        Some(row) => Some(row.may_come),
        None => None,
    }
}

/// The world may refuse memory to the request, and then answers 12.
pub fn is_refusable(request: &Request) -> bool
    ensures { result ≡ is_refusable request.now }
{
    match known_row(request.ask.call) {
        Some(row) => row.refusable,
        None => false,
    }
}

/// An argument as a length.
fn length_at(args: &[u64; 8], place: u8) -> u128
    ensures value { result ≡ slice_index args.now place }
    ensures small { result < 2 ^ 64 }
{
    match args.get(usize::from(place)) {
        Some(value) => u128::from(*value),
        None => 0,
    }
}

/// How many bytes an area has that is read.
fn bytes_read(args: &[u64; 8], form: ReadArea) -> u128
    ensures value { result ≡ (area_read args.now form).len }
    ensures small { result < 2 ^ 67 }
{
    let length = length_at(args, form.length);
    match form.holds {
        Holds::Plain => length,
        Holds::Tags => 8 * length,
        Holds::Name => length,
    }
}

/// How many bytes the areas have that are read.
fn all_bytes_read(args: &[u64; 8], reads: Reads) -> u128
    ensures value { result ≡ sum_by (λ (area : Area). area.len) (map (area_read args.now) (areas_in reads)) }
    ensures small { result < 2 ^ 68 }
{
    match reads {
        Reads::NoArea => 0,
        Reads::OneArea(form) => bytes_read(args, form),
        Reads::TwoAreas(first, second) => bytes_read(args, first) + bytes_read(args, second),
    }
}

/// How many bytes the area has of a text that is written, if one is.
fn bytes_of_text(args: &[u64; 8], text: Option<WrittenText>) -> u128
    ensures value { result ≡ sum_by (λ (area : Area). area.len) (map (area_of_text args.now) (option_to_list text)) }
    ensures small { result < 2 ^ 64 }
{
    match text {
        Some(form) => length_at(args, form.length),
        None => 0,
    }
}

/// How many bytes the area has of a word that is written, if one is.
fn bytes_of_word(args: &[u64; 8], word: Option<WrittenWord>) -> u128
    ensures value { result ≡ sum_by (λ (area : Area). area.len) (map (area_of_word args.now) (option_to_list word)) }
    ensures small { result < 2 ^ 8 }
{
    match word {
        Some(form) => u128::from(form.width.bytes()),
        None => 0,
    }
}

/// How many bytes the areas have that the request reads or writes.
pub fn area_bytes(request: &Request) -> u128
    ensures value { result ≡ area_bytes request.now }
    ensures small { result < 2 ^ 69 }
{
    match known_row(request.ask.call) {
        Some(row) => {
            all_bytes_read(&request.ask.args, row.reads)
                + bytes_of_text(&request.ask.args, row.text)
                + bytes_of_word(&request.ask.args, row.word)
        }
        None => 0,
    }
}

/// What the request costs: 64 bytes of traffic, and the lengths of the areas that it names.
pub fn cost_of(request: &Request) -> u128
    ensures value { result ≡ cost_of request.now }
    ensures small { result < 2 ^ 70 }
{
    64 + area_bytes(request)
}
