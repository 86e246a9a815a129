ghost use Rattle.std.specs.Prelude.{◌≡◌, ◌↔◌, IfOk, IsTrue};
ghost use Rattle.spawn_config.specs.Spelling.{Spells};

use host_port::{Limits, Param};
use memory_refusal::NoMemory;
use spawn_config::{ParamFault, decode_params};
use std::alloc::Global;

/// Two parameters are the same.
fn is_same_param(one: &Param, other: &Param) -> bool
    ensures { IsTrue result ↔ (one.now ≡ other.now) }
{
    one.num() == other.num() && one.value() == other.value()
}

/// Two lists of parameters are the same.
fn are_same_params(ones: &[Param], others: &[Param]) -> bool
    ensures { IsTrue result ↔ (ones.now ≡ others.now) }
{
    if ones.len() != others.len() {
        return false;
    }
    for place in 0..ones.len() {
        if !is_same_param(&ones[place], &others[place]) {
            return false;
        }
    }
    true
}

/// The bytes spell these parameters.
pub(crate) fn spells(alloc: Global, bytes: &[u8], params: &[Param]) -> Result<bool, NoMemory>
    ensures { IfOk result (λ same. IsTrue same ↔ Spells bytes.now params.now) }
{
    match decode_params(alloc, bytes) {
        Ok(spelled) => Ok(are_same_params(spelled.as_slice(), params)),
        Err(ParamFault::BadParams) => Ok(false),
        Err(ParamFault::NoMemory) => Err(NoMemory),
    }
}

/// Two limits are the same.
pub(crate) fn are_same_limits(one: Limits, other: Limits) -> bool
    ensures { IsTrue result ↔ (one ≡ other) }
{
    one.pages() == other.pages() && one.fuel() == other.fuel() && one.traffic() == other.traffic()
}
