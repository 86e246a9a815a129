ghost use Rattle.std.specs.Prelude.{◌≡◌, ◌<◌, ◌+◌, ◌^◌, ◌++◌, length, map, IfOk, OnOk};
ghost use Rattle.code_map.specs.Callees.{IsClass, AreClasses};
ghost use Rattle.code_map.specs.Keys.{value_code, type_key, AreFirsts};

use memory_refusal::NoMemory;
use std::alloc::Global;
use std::collections::BTreeMap;
use wasm_form::{FuncType, Indexes, ValType};

/// For each of these types its class: the least index of a type that is equal.
///
/// `NoMemory` comes for want of memory alone.
pub fn classes_of(alloc: Global, types: &[FuncType]) -> Result<Indexes, NoMemory>
    requires { length types.now < 2 ^ 32 }
    ensures { IfOk result (λ classes. AreClasses types.now classes) }
{
    let mut classes = Indexes::new(alloc);
    let mut firsts = BTreeMap::new(alloc);
    for index in 0..types.len() {
        classes.push(class_of(alloc, types, index, &mut firsts)?)?;
    }
    Ok(classes)
}

/// The class of the type with this index, by the first indexes of the types before it; this type is
/// put among them.
fn class_of(
    alloc: Global,
    types: &[FuncType],
    index: usize,
    firsts: &mut BTreeMap<Vec<u8>, u32>,
) -> Result<u32, NoMemory>
    requires few { length types.now < 2 ^ 32 }
    requires there { index < length types.now }
    requires before { AreFirsts types.now index firsts.old }
    ensures class { IfOk result (λ class. IsClass types.now index class) }
    ensures after { OnOk result (AreFirsts types.now (index + 1) firsts.new) }
{
    let key = key_of(alloc, &types[index])?;
    if let Some(first) = firsts.get(&key) {
        return Ok(*first);
    }
    firsts.insert(key, index as u32)?;
    Ok(index as u32)
}

/// The key of a type.
fn key_of(alloc: Global, ty: &FuncType) -> Result<Vec<u8>, NoMemory>
    ensures { IfOk result (λ key. key.items ≡ type_key ty.now) }
{
    let mut key = Vec::new(alloc);
    add_codes(&mut key, ty.params.as_slice())?;
    key.push(0)?;
    add_codes(&mut key, ty.results.as_slice())?;
    Ok(key)
}

/// Puts the codes of these value types behind a key.
fn add_codes(key: &mut Vec<u8>, values: &[ValType]) -> Result<(), NoMemory>
    ensures { OnOk result (key.new.items ≡ key.old.items ++ map value_code values.now) }
{
    for value in values {
        key.push(value_code(*value))?;
    }
    Ok(())
}

/// The code of a value type in a key.
fn value_code(value: ValType) -> u8
    ensures { result ≡ value_code value }
{
    match value {
        ValType::I32 => 1,
        ValType::I64 => 2,
        ValType::F32 => 3,
        ValType::F64 => 4,
    }
}
