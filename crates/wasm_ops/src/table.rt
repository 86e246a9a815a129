//! The table of the instructions, once.

ghost use Rattle.std.specs.Prelude.{◌≡◌, ◌↔◌, IsSome, IsTrue, IfSome};
ghost use Rattle.wasm_ops.specs.Table.{is_instruction, IsTable, IsRowOf, HasOperands, IsAccessWidth};

use crate::instruction::{Kind, Row};
use crate::num::Num;

/// Gives the rows of a group of instructions to the macro `$each`, as `$each! { (WITH) { ROWS } }`, or, where the group is
/// `all`, the groups by rising code, as `$each! { (WITH) GROUP { ROWS } GROUP { ROWS } .. }`.
///
/// A row is `CODE OPERATION "NAME" KIND FIRST SECOND RESULT WIDTH;`, as `Row` has them: `OPERATION` is an identifier, and
/// a type is `I32`, `I64` or, where there is none, `_`. So match arms and patterns come from the table, in a body:
///
/// ```text
/// macro_rules! arms {
///     (($code:ident) {
///         $($n:literal $operation:ident $name:literal $kind:ident $first:tt $second:tt $result:tt $width:literal;)*
///     }) => {
///         match $code { $($n => effect!($operation),)* _ => .. }
///     };
/// }
/// instructions!(control arms code)
/// ```
#[macro_export]
macro_rules! instructions {
    ($group:ident $each:ident $($with:tt)*) => {
        $crate::group_of_instructions! {
            ($group $each $($with)*)
            // Core 1.0, 5.4.1 to 5.4.3: control, parametric and variable instructions.
            control {
                0x00 unreachable "unreachable" Control _ _ _ 0;
                0x01 nop "nop" Control _ _ _ 0;
                0x02 block "block" Control _ _ _ 0;
                0x03 loop_ "loop" Control _ _ _ 0;
                0x04 if_ "if" Control _ _ _ 0;
                0x05 else_ "else" Control _ _ _ 0;
                0x0b end "end" Control _ _ _ 0;
                0x0c br "br" Control _ _ _ 0;
                0x0d br_if "br_if" Control _ _ _ 0;
                0x0e br_table "br_table" Control _ _ _ 0;
                0x0f return_ "return" Control _ _ _ 0;
                0x10 call "call" Control _ _ _ 0;
                0x11 call_indirect "call_indirect" Control _ _ _ 0;
                0x1a drop "drop" Control _ _ _ 0;
                0x1b select "select" Control _ _ _ 0;
                0x20 local_get "local.get" Control _ _ _ 0;
                0x21 local_set "local.set" Control _ _ _ 0;
                0x22 local_tee "local.tee" Control _ _ _ 0;
                0x23 global_get "global.get" Control _ _ _ 0;
                0x24 global_set "global.set" Control _ _ _ 0;
            }
            // Core 1.0, 5.4.4: loads.
            load {
                0x28 load "i32.load" Load I32 _ I32 4;
                0x29 load "i64.load" Load I32 _ I64 8;
                0x2a f32_load "f32.load" Float _ _ _ 0;
                0x2b f64_load "f64.load" Float _ _ _ 0;
                0x2c load8_s "i32.load8_s" Load I32 _ I32 1;
                0x2d load8_u "i32.load8_u" Load I32 _ I32 1;
                0x2e load16_s "i32.load16_s" Load I32 _ I32 2;
                0x2f load16_u "i32.load16_u" Load I32 _ I32 2;
                0x30 load8_s "i64.load8_s" Load I32 _ I64 1;
                0x31 load8_u "i64.load8_u" Load I32 _ I64 1;
                0x32 load16_s "i64.load16_s" Load I32 _ I64 2;
                0x33 load16_u "i64.load16_u" Load I32 _ I64 2;
                0x34 load32_s "i64.load32_s" Load I32 _ I64 4;
                0x35 load32_u "i64.load32_u" Load I32 _ I64 4;
            }
            // Core 1.0, 5.4.4: stores.
            store {
                0x36 store "i32.store" Store I32 I32 _ 4;
                0x37 store "i64.store" Store I32 I64 _ 8;
                0x38 f32_store "f32.store" Float _ _ _ 0;
                0x39 f64_store "f64.store" Float _ _ _ 0;
                0x3a store8 "i32.store8" Store I32 I32 _ 1;
                0x3b store16 "i32.store16" Store I32 I32 _ 2;
                0x3c store8 "i64.store8" Store I32 I64 _ 1;
                0x3d store16 "i64.store16" Store I32 I64 _ 2;
                0x3e store32 "i64.store32" Store I32 I64 _ 4;
            }
            // Core 1.0, 5.4.4: the size of the memory.
            size {
                0x3f memory_size "memory.size" Control _ _ _ 0;
                0x40 memory_grow "memory.grow" Control _ _ _ 0;
            }
            // Core 1.0, 5.4.5: constants.
            constant {
                0x41 i32_const "i32.const" Control _ _ _ 0;
                0x42 i64_const "i64.const" Control _ _ _ 0;
                0x43 f32_const "f32.const" Float _ _ _ 0;
                0x44 f64_const "f64.const" Float _ _ _ 0;
            }
            // Core 1.0, 5.4.5: the test of an i32.
            test32 {
                0x45 eqz "i32.eqz" Plain I32 _ I32 0;
            }
            // Core 1.0, 5.4.5: comparisons of two i32.
            compare32 {
                0x46 eq "i32.eq" Plain I32 I32 I32 0;
                0x47 ne "i32.ne" Plain I32 I32 I32 0;
                0x48 lt_s "i32.lt_s" Plain I32 I32 I32 0;
                0x49 lt_u "i32.lt_u" Plain I32 I32 I32 0;
                0x4a gt_s "i32.gt_s" Plain I32 I32 I32 0;
                0x4b gt_u "i32.gt_u" Plain I32 I32 I32 0;
                0x4c le_s "i32.le_s" Plain I32 I32 I32 0;
                0x4d le_u "i32.le_u" Plain I32 I32 I32 0;
                0x4e ge_s "i32.ge_s" Plain I32 I32 I32 0;
                0x4f ge_u "i32.ge_u" Plain I32 I32 I32 0;
            }
            // Core 1.0, 5.4.5: the test of an i64.
            test64 {
                0x50 eqz "i64.eqz" Plain I64 _ I32 0;
            }
            // Core 1.0, 5.4.5: comparisons of two i64.
            compare64 {
                0x51 eq "i64.eq" Plain I64 I64 I32 0;
                0x52 ne "i64.ne" Plain I64 I64 I32 0;
                0x53 lt_s "i64.lt_s" Plain I64 I64 I32 0;
                0x54 lt_u "i64.lt_u" Plain I64 I64 I32 0;
                0x55 gt_s "i64.gt_s" Plain I64 I64 I32 0;
                0x56 gt_u "i64.gt_u" Plain I64 I64 I32 0;
                0x57 le_s "i64.le_s" Plain I64 I64 I32 0;
                0x58 le_u "i64.le_u" Plain I64 I64 I32 0;
                0x59 ge_s "i64.ge_s" Plain I64 I64 I32 0;
                0x5a ge_u "i64.ge_u" Plain I64 I64 I32 0;
            }
            // Core 1.0, 5.4.5: comparisons of floats.
            float_compare {
                0x5b f32_eq "f32.eq" Float _ _ _ 0;
                0x5c f32_ne "f32.ne" Float _ _ _ 0;
                0x5d f32_lt "f32.lt" Float _ _ _ 0;
                0x5e f32_gt "f32.gt" Float _ _ _ 0;
                0x5f f32_le "f32.le" Float _ _ _ 0;
                0x60 f32_ge "f32.ge" Float _ _ _ 0;
                0x61 f64_eq "f64.eq" Float _ _ _ 0;
                0x62 f64_ne "f64.ne" Float _ _ _ 0;
                0x63 f64_lt "f64.lt" Float _ _ _ 0;
                0x64 f64_gt "f64.gt" Float _ _ _ 0;
                0x65 f64_le "f64.le" Float _ _ _ 0;
                0x66 f64_ge "f64.ge" Float _ _ _ 0;
            }
            // Core 1.0, 5.4.5: counts of the bits of an i32.
            count32 {
                0x67 clz "i32.clz" Plain I32 _ I32 0;
                0x68 ctz "i32.ctz" Plain I32 _ I32 0;
                0x69 popcnt "i32.popcnt" Plain I32 _ I32 0;
            }
            // Core 1.0, 5.4.5: sums and products of two i32.
            arithmetic32 {
                0x6a add "i32.add" Plain I32 I32 I32 0;
                0x6b sub "i32.sub" Plain I32 I32 I32 0;
                0x6c mul "i32.mul" Plain I32 I32 I32 0;
            }
            // Core 1.0, 5.4.5: quotients and remainders of two i32.
            divide32 {
                0x6d div_s "i32.div_s" Plain I32 I32 I32 0;
                0x6e div_u "i32.div_u" Plain I32 I32 I32 0;
                0x6f rem_s "i32.rem_s" Plain I32 I32 I32 0;
                0x70 rem_u "i32.rem_u" Plain I32 I32 I32 0;
            }
            // Core 1.0, 5.4.5: bits, shifts and rotations of an i32.
            bitwise32 {
                0x71 and "i32.and" Plain I32 I32 I32 0;
                0x72 or "i32.or" Plain I32 I32 I32 0;
                0x73 xor "i32.xor" Plain I32 I32 I32 0;
                0x74 shl "i32.shl" Plain I32 I32 I32 0;
                0x75 shr_s "i32.shr_s" Plain I32 I32 I32 0;
                0x76 shr_u "i32.shr_u" Plain I32 I32 I32 0;
                0x77 rotl "i32.rotl" Plain I32 I32 I32 0;
                0x78 rotr "i32.rotr" Plain I32 I32 I32 0;
            }
            // Core 1.0, 5.4.5: counts of the bits of an i64.
            count64 {
                0x79 clz "i64.clz" Plain I64 _ I64 0;
                0x7a ctz "i64.ctz" Plain I64 _ I64 0;
                0x7b popcnt "i64.popcnt" Plain I64 _ I64 0;
            }
            // Core 1.0, 5.4.5: sums and products of two i64.
            arithmetic64 {
                0x7c add "i64.add" Plain I64 I64 I64 0;
                0x7d sub "i64.sub" Plain I64 I64 I64 0;
                0x7e mul "i64.mul" Plain I64 I64 I64 0;
            }
            // Core 1.0, 5.4.5: quotients and remainders of two i64.
            divide64 {
                0x7f div_s "i64.div_s" Plain I64 I64 I64 0;
                0x80 div_u "i64.div_u" Plain I64 I64 I64 0;
                0x81 rem_s "i64.rem_s" Plain I64 I64 I64 0;
                0x82 rem_u "i64.rem_u" Plain I64 I64 I64 0;
            }
            // Core 1.0, 5.4.5: bits, shifts and rotations of an i64.
            bitwise64 {
                0x83 and "i64.and" Plain I64 I64 I64 0;
                0x84 or "i64.or" Plain I64 I64 I64 0;
                0x85 xor "i64.xor" Plain I64 I64 I64 0;
                0x86 shl "i64.shl" Plain I64 I64 I64 0;
                0x87 shr_s "i64.shr_s" Plain I64 I64 I64 0;
                0x88 shr_u "i64.shr_u" Plain I64 I64 I64 0;
                0x89 rotl "i64.rotl" Plain I64 I64 I64 0;
                0x8a rotr "i64.rotr" Plain I64 I64 I64 0;
            }
            // Core 1.0, 5.4.5: arithmetic of floats.
            float_arithmetic {
                0x8b f32_abs "f32.abs" Float _ _ _ 0;
                0x8c f32_neg "f32.neg" Float _ _ _ 0;
                0x8d f32_ceil "f32.ceil" Float _ _ _ 0;
                0x8e f32_floor "f32.floor" Float _ _ _ 0;
                0x8f f32_trunc "f32.trunc" Float _ _ _ 0;
                0x90 f32_nearest "f32.nearest" Float _ _ _ 0;
                0x91 f32_sqrt "f32.sqrt" Float _ _ _ 0;
                0x92 f32_add "f32.add" Float _ _ _ 0;
                0x93 f32_sub "f32.sub" Float _ _ _ 0;
                0x94 f32_mul "f32.mul" Float _ _ _ 0;
                0x95 f32_div "f32.div" Float _ _ _ 0;
                0x96 f32_min "f32.min" Float _ _ _ 0;
                0x97 f32_max "f32.max" Float _ _ _ 0;
                0x98 f32_copysign "f32.copysign" Float _ _ _ 0;
                0x99 f64_abs "f64.abs" Float _ _ _ 0;
                0x9a f64_neg "f64.neg" Float _ _ _ 0;
                0x9b f64_ceil "f64.ceil" Float _ _ _ 0;
                0x9c f64_floor "f64.floor" Float _ _ _ 0;
                0x9d f64_trunc "f64.trunc" Float _ _ _ 0;
                0x9e f64_nearest "f64.nearest" Float _ _ _ 0;
                0x9f f64_sqrt "f64.sqrt" Float _ _ _ 0;
                0xa0 f64_add "f64.add" Float _ _ _ 0;
                0xa1 f64_sub "f64.sub" Float _ _ _ 0;
                0xa2 f64_mul "f64.mul" Float _ _ _ 0;
                0xa3 f64_div "f64.div" Float _ _ _ 0;
                0xa4 f64_min "f64.min" Float _ _ _ 0;
                0xa5 f64_max "f64.max" Float _ _ _ 0;
                0xa6 f64_copysign "f64.copysign" Float _ _ _ 0;
            }
            // Core 1.0, 5.4.5: i64 to i32.
            wrap {
                0xa7 wrap "i32.wrap_i64" Plain I64 _ I32 0;
            }
            // Core 1.0, 5.4.5: floats to i32.
            float_truncate {
                0xa8 i32_trunc_f32_s "i32.trunc_f32_s" Float _ _ _ 0;
                0xa9 i32_trunc_f32_u "i32.trunc_f32_u" Float _ _ _ 0;
                0xaa i32_trunc_f64_s "i32.trunc_f64_s" Float _ _ _ 0;
                0xab i32_trunc_f64_u "i32.trunc_f64_u" Float _ _ _ 0;
            }
            // Core 1.0, 5.4.5: i32 to i64.
            extend {
                0xac extend_s "i64.extend_i32_s" Plain I32 _ I64 0;
                0xad extend_u "i64.extend_i32_u" Plain I32 _ I64 0;
            }
            // Core 1.0, 5.4.5: conversions to and from floats.
            float_convert {
                0xae i64_trunc_f32_s "i64.trunc_f32_s" Float _ _ _ 0;
                0xaf i64_trunc_f32_u "i64.trunc_f32_u" Float _ _ _ 0;
                0xb0 i64_trunc_f64_s "i64.trunc_f64_s" Float _ _ _ 0;
                0xb1 i64_trunc_f64_u "i64.trunc_f64_u" Float _ _ _ 0;
                0xb2 f32_convert_i32_s "f32.convert_i32_s" Float _ _ _ 0;
                0xb3 f32_convert_i32_u "f32.convert_i32_u" Float _ _ _ 0;
                0xb4 f32_convert_i64_s "f32.convert_i64_s" Float _ _ _ 0;
                0xb5 f32_convert_i64_u "f32.convert_i64_u" Float _ _ _ 0;
                0xb6 f32_demote_f64 "f32.demote_f64" Float _ _ _ 0;
                0xb7 f64_convert_i32_s "f64.convert_i32_s" Float _ _ _ 0;
                0xb8 f64_convert_i32_u "f64.convert_i32_u" Float _ _ _ 0;
                0xb9 f64_convert_i64_s "f64.convert_i64_s" Float _ _ _ 0;
                0xba f64_convert_i64_u "f64.convert_i64_u" Float _ _ _ 0;
                0xbb f64_promote_f32 "f64.promote_f32" Float _ _ _ 0;
                0xbc i32_reinterpret_f32 "i32.reinterpret_f32" Float _ _ _ 0;
                0xbd i64_reinterpret_f64 "i64.reinterpret_f64" Float _ _ _ 0;
                0xbe f32_reinterpret_i32 "f32.reinterpret_i32" Float _ _ _ 0;
                0xbf f64_reinterpret_i64 "f64.reinterpret_i64" Float _ _ _ 0;
            }
        }
    };
}

/// Finds the group for `instructions!`.
#[macro_export]
macro_rules! group_of_instructions {
    ((all $each:ident $($with:tt)*) $($groups:tt)*) => { $each! { ($($with)*) $($groups)* } };
    ((control $each:ident $($with:tt)*) control $rows:tt $($others:tt)*) => { $each! { ($($with)*) $rows } };
    ((load $each:ident $($with:tt)*) load $rows:tt $($others:tt)*) => { $each! { ($($with)*) $rows } };
    ((store $each:ident $($with:tt)*) store $rows:tt $($others:tt)*) => { $each! { ($($with)*) $rows } };
    ((size $each:ident $($with:tt)*) size $rows:tt $($others:tt)*) => { $each! { ($($with)*) $rows } };
    ((constant $each:ident $($with:tt)*) constant $rows:tt $($others:tt)*) => { $each! { ($($with)*) $rows } };
    ((test32 $each:ident $($with:tt)*) test32 $rows:tt $($others:tt)*) => { $each! { ($($with)*) $rows } };
    ((compare32 $each:ident $($with:tt)*) compare32 $rows:tt $($others:tt)*) => { $each! { ($($with)*) $rows } };
    ((test64 $each:ident $($with:tt)*) test64 $rows:tt $($others:tt)*) => { $each! { ($($with)*) $rows } };
    ((compare64 $each:ident $($with:tt)*) compare64 $rows:tt $($others:tt)*) => { $each! { ($($with)*) $rows } };
    ((float_compare $each:ident $($with:tt)*) float_compare $rows:tt $($others:tt)*) => { $each! { ($($with)*) $rows } };
    ((count32 $each:ident $($with:tt)*) count32 $rows:tt $($others:tt)*) => { $each! { ($($with)*) $rows } };
    ((arithmetic32 $each:ident $($with:tt)*) arithmetic32 $rows:tt $($others:tt)*) => { $each! { ($($with)*) $rows } };
    ((divide32 $each:ident $($with:tt)*) divide32 $rows:tt $($others:tt)*) => { $each! { ($($with)*) $rows } };
    ((bitwise32 $each:ident $($with:tt)*) bitwise32 $rows:tt $($others:tt)*) => { $each! { ($($with)*) $rows } };
    ((count64 $each:ident $($with:tt)*) count64 $rows:tt $($others:tt)*) => { $each! { ($($with)*) $rows } };
    ((arithmetic64 $each:ident $($with:tt)*) arithmetic64 $rows:tt $($others:tt)*) => { $each! { ($($with)*) $rows } };
    ((divide64 $each:ident $($with:tt)*) divide64 $rows:tt $($others:tt)*) => { $each! { ($($with)*) $rows } };
    ((bitwise64 $each:ident $($with:tt)*) bitwise64 $rows:tt $($others:tt)*) => { $each! { ($($with)*) $rows } };
    ((float_arithmetic $each:ident $($with:tt)*) float_arithmetic $rows:tt $($others:tt)*) => { $each! { ($($with)*) $rows } };
    ((wrap $each:ident $($with:tt)*) wrap $rows:tt $($others:tt)*) => { $each! { ($($with)*) $rows } };
    ((float_truncate $each:ident $($with:tt)*) float_truncate $rows:tt $($others:tt)*) => { $each! { ($($with)*) $rows } };
    ((extend $each:ident $($with:tt)*) extend $rows:tt $($others:tt)*) => { $each! { ($($with)*) $rows } };
    ((float_convert $each:ident $($with:tt)*) float_convert $rows:tt $($others:tt)*) => { $each! { ($($with)*) $rows } };
    ($wanted:tt $group:ident $rows:tt $($others:tt)*) => { $crate::group_of_instructions! { $wanted $($others)* } };
}

macro_rules! num {
    (_) => {
        None
    };
    ($num:ident) => {
        Some(Num::$num)
    };
}

macro_rules! as_rows {
    (() $($group:ident { $($code:literal $operation:ident $name:literal $kind:ident $first:tt $second:tt $result:tt $width:literal;)* })*) => {
        [$($(Row {
            code: $code,
            name: $name,
            kind: Kind::$kind,
            first: num!($first),
            second: num!($second),
            result: num!($result),
            width: $width,
        },)*)*]
    };
}

static ROWS: [Row; 172] = instructions!(all as_rows);

/// The table: the rows of all instructions, by rising code.
pub fn rows() -> &'static [Row]
    ensures { IsTable result.now }
{
    &ROWS
}

/// The row of the instruction with this code; `None` exactly where no instruction has it.
pub fn row(code: u8) -> Option<&'static Row>
    ensures there { IsSome result ↔ IsTrue (is_instruction code) }
    ensures row { IfSome result (λ r. IsRowOf code r.now) }
    ensures plain { IfSome result (λ r. r.now.kind ≡ Kind.Plain → HasOperands r.now) }
    ensures load { IfSome result (λ r. r.now.kind ≡ Kind.Load → IsAccessWidth r.now.width) }
    ensures store { IfSome result (λ r. r.now.kind ≡ Kind.Store → IsAccessWidth r.now.width) }
{
    let place = match code {
        0x00..=0x05 => code,
        0x0b..=0x11 => code - 5,
        0x1a..=0x1b => code - 13,
        0x20..=0x24 => code - 17,
        0x28..=0xbf => code - 20,
        _ => return None,
    };
    let table = rows();
    Some(&table[place as usize])
}
