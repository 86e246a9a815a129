ghost use Rattle.std.specs.Prelude.{◌≡◌, ◌≢◌, ◌↔◌, ℕ, List, length, All, IsTrue, IfOk, MatchOption};
ghost use Rattle.std.specs.Bool.{OnTrue, OnFalse};
ghost use Rattle.host_port.specs.TypedValue.{TypedValue};
ghost use Rattle.spawn_config.specs.Spelling.{Spells, AreParams, IsValueOf, spelling, param_bytes};

use host_port::{Param, Params};
use memory_refusal::NoMemory;
use std::alloc::Global;
use thiserror::Error;
use wasm_ops::Num;

/// Why parameters were not decoded.
#[derive(Clone, Copy, Debug, PartialEq, Eq, Error)]
pub enum ParamFault {
    /// The bytes spell no parameters.
    #[error("the bytes spell no parameters")]
    BadParams,
    /// The machine refused memory.
    #[error("out of memory")]
    NoMemory,
}

impl From<NoMemory> for ParamFault {
    ghost use Rattle.std.specs.Prelude.{◌≡◌};
    ghost use Rattle.spawn_config.specs.declared.params.ParamFault.TheVariants as Fault;

    ghost from_gives = { λ _ fault. fault ≡ Fault.NoMemory };

    fn from(_refused: NoMemory) -> ParamFault {
        ParamFault::NoMemory
    }
}

/// The bytes of a parameter.
const PARAM_LEN: usize = 17;

/// The parameters that the bytes spell.
///
/// `BadParams` comes exactly where they spell none: where the length is no multiple of 17, a type's
/// byte is neither 7F nor 7E, or a byte past the value's four or eight is not zero. `NoMemory`
/// comes for want of memory, and only where the bytes are parameters.
pub fn decode_params(alloc: Global, bytes: &[u8]) -> Result<Params, ParamFault>
    ensures ok { IfOk result (Spells bytes.now) }
    ensures bad { result ≡ Err ParamFault.BadParams → (params : List TypedValue) → bytes.now ≢ spelling params }
    ensures wants { result ≡ Err ParamFault.NoMemory → AreParams bytes.now }
{
    // all pieces are judged before memory is taken, so that want of it never hides a bad one
    if !are_params(bytes) {
        return Err(ParamFault::BadParams);
    }
    let mut params = Params::new(alloc);
    let mut left = bytes;
    while !left.is_empty() {
        let (piece, rest) = left.split_at(PARAM_LEN);
        match decode_param(piece) {
            Some(param) => params.push(param)?,
            None => unreachable!(),
        }
        left = rest;
    }
    Ok(params)
}

/// Whether the bytes are parameters.
fn are_params(bytes: &[u8]) -> bool
    ensures are { OnTrue result (AreParams bytes.now) }
    ensures bad { OnFalse result ((params : List TypedValue) → bytes.now ≢ spelling params) }
{
    let mut left = bytes;
    while !left.is_empty() {
        if left.len() < PARAM_LEN {
            return false;
        }
        let (piece, rest) = left.split_at(PARAM_LEN);
        match decode_param(piece) {
            Some(_) => left = rest,
            None => return false,
        }
    }
    true
}

/// The parameter that seventeen bytes spell, if they spell one.
fn decode_param(bytes: &[u8]) -> Option<Param>
    requires { length bytes.now ≡ 17 }
    ensures { MatchOption result ((param : TypedValue) → bytes.now ≢ param_bytes param)
        (λ param. (bytes.now ≡ param_bytes param) × IsValueOf param.num param.value) }
{
    match bytes {
        [0x7F, a, b, c, d, zeros @ ..] => {
            if !are_zero(zeros) {
                return None;
            }
            let value = u32::from_le_bytes([*a, *b, *c, *d]);
            Some(Param::new(Num::I32, u64::from(value)))
        }
        [0x7E, a, b, c, d, e, f, g, h, zeros @ ..] => {
            if !are_zero(zeros) {
                return None;
            }
            let value = u64::from_le_bytes([*a, *b, *c, *d, *e, *f, *g, *h]);
            Some(Param::new(Num::I64, value))
        }
        _ => None,
    }
}

/// Whether every byte is zero.
fn are_zero(bytes: &[u8]) -> bool
    ensures { IsTrue result ↔ All (λ byte. byte ≡ 0) bytes.now }
{
    bytes.iter().all(|byte| *byte == 0)
}
