ghost use Rattle.std.specs.Prelude.{◌≡◌, ◌+◌, ◌<◌, ◌^◌, [], length, IfOk};
ghost use Rattle.wasm_form.specs.Validity.{KeepsRules};
ghost use Rattle.wasm_form.specs.Profile.{HasFewLocals, HasFewParameters};
ghost use Rattle.wasm_form.specs.declared.parts.Parts.{Parts};
ghost use Rattle.code_map.specs.Callees.{imported_of};

use super::*;
use crate::body::map_body;
use memory_refusal::NoMemory;
use std::alloc::Global;
use std::test::Fail;
use wasm_form::{
    Expr, Imm, Indexes, Instr, Instrs, Module, PartsFault, ValType, match_blocks, start_module,
};

// Block, loop, local.get 0, if, br 2, else, br 1, end, local.get 0, br_table 1 0 2, and three ends.
const NESTED: [Instr; 13] = [
    Instr {
        code: 0x02,
        imm: Imm::Block(None),
    },
    Instr {
        code: 0x03,
        imm: Imm::Block(None),
    },
    Instr {
        code: 0x20,
        imm: Imm::Index(0),
    },
    Instr {
        code: 0x04,
        imm: Imm::Block(None),
    },
    Instr {
        code: 0x0C,
        imm: Imm::Index(2),
    },
    Instr {
        code: 0x05,
        imm: Imm::None,
    },
    Instr {
        code: 0x0C,
        imm: Imm::Index(1),
    },
    Instr {
        code: 0x0B,
        imm: Imm::None,
    },
    Instr {
        code: 0x20,
        imm: Imm::Index(0),
    },
    Instr {
        code: 0x0E,
        imm: Imm::Table {
            first: 0,
            count: 2,
            last: 2,
        },
    },
    Instr {
        code: 0x0B,
        imm: Imm::None,
    },
    Instr {
        code: 0x0B,
        imm: Imm::None,
    },
    Instr {
        code: 0x0B,
        imm: Imm::None,
    },
];

// I32.const 7, block with a result, i32.const 5, br 0, end, drop, drop, return, end.
const CARRIED: [Instr; 9] = [
    Instr {
        code: 0x41,
        imm: Imm::I32(7),
    },
    Instr {
        code: 0x02,
        imm: Imm::Block(Some(ValType::I32)),
    },
    Instr {
        code: 0x41,
        imm: Imm::I32(5),
    },
    Instr {
        code: 0x0C,
        imm: Imm::Index(0),
    },
    Instr {
        code: 0x0B,
        imm: Imm::None,
    },
    Instr {
        code: 0x1A,
        imm: Imm::None,
    },
    Instr {
        code: 0x1A,
        imm: Imm::None,
    },
    Instr {
        code: 0x0F,
        imm: Imm::None,
    },
    Instr {
        code: 0x0B,
        imm: Imm::None,
    },
];

/// The map of a body over so many locals, which gives nothing.
fn mapped(
    alloc: Global,
    code: &[Instr],
    labels: &[u32],
    locals: usize,
) -> Result<BodyMap, PartsFault>
    requires short { length code.now + length labels.now < 2 ^ 32 }
    requires few { locals < 2 ^ 32 }
{
    let mut instrs = Instrs::new(alloc);
    instrs.extend(code)?;
    let mut pool = Indexes::new(alloc);
    pool.extend(labels)?;
    let matches = match_blocks(alloc, instrs.as_slice(), pool.as_slice())?;
    let expr = Expr {
        code: instrs,
        labels: pool,
        matches,
    };
    let signatures = Signatures {
        types: &[],
        functions: &[],
    };
    let map = map_body(alloc, &signatures, locals, false, &expr)?;
    Ok(map)
}

/// The target at this place.
fn target_at(map: &BodyMap, place: usize) -> Option<Target> {
    let slot = map.slots.as_slice().get(place)?;
    map.targets.as_slice().get(*slot as usize).copied()
}

/// A target that carries nothing.
fn target(to: u32, height: usize, opens: u32) -> Option<Target> {
    Some(Target {
        to,
        height,
        opens,
        carries: false,
    })
}

// The block ends at 11, the loop stands at 1, the if at 3 ends at 7 and has its else at 5.
#[test]
fn branches_lead_to_their_labels(rt: HostRuntime) -> Result<(), Fail> {
    let map = mapped(rt.alloc(), &NESTED, &[1, 0], 1)?;
    assert_eq!(rt; target_at(&map, 3), target(6, 1, 3));
    assert_eq!(rt; target_at(&map, 4), target(12, 1, 0));
    assert_eq!(rt; target_at(&map, 5), target(8, 1, 2));
    assert_eq!(rt; target_at(&map, 6), target(1, 1, 1));
    assert_eq!(rt; map.slots.as_slice().get(9).copied(), Some(0));
    let tables = map.tables.as_slice();
    assert_eq!(rt; tables.get(0).copied(), target(12, 1, 0));
    assert_eq!(rt; tables.get(1).copied(), target(1, 1, 1));
    assert_eq!(rt; tables.get(2).copied(), target(13, 1, 0));
    Ok(())
}

// The branch carries 5 over the 7 below its block; the return leads behind the body.
#[test]
fn a_branch_keeps_what_lies_below_its_block(rt: HostRuntime) -> Result<(), Fail> {
    let map = mapped(rt.alloc(), &CARRIED, &[], 0)?;
    let carrying = Target {
        to: 5,
        height: 1,
        opens: 0,
        carries: true,
    };
    assert_eq!(rt; target_at(&map, 3), Some(carrying));
    assert_eq!(rt; target_at(&map, 7), target(9, 0, 0));
    Ok(())
}

/// The small module that does nothing.
fn nothing(alloc: Global) -> Result<Module, NoMemory>
    ensures rules { IfOk result KeepsRules }
    ensures locals { IfOk result HasFewLocals }
    ensures parameters { IfOk result HasFewParameters }
    ensures imports { IfOk result (λ m. imported_of m ≡ []) }
{
    let mut code = Instrs::new(alloc);
    code.push(Instr {
        code: 0x01,
        imm: Imm::None,
    })?;
    code.push(Instr {
        code: 0x0B,
        imm: Imm::None,
    })?;
    let module = start_module(alloc, code)?;
    Ok(module)
}

#[test]
fn a_module_has_its_callees_and_classes(rt: HostRuntime) -> Result<(), Fail> {
    let module = nothing(rt.alloc())?;
    let map = CodeMap::of(rt.alloc(), &module, &[])?;
    let callee = Callee::Own {
        body: 0,
        params: 0,
        locals: 0,
        gives: false,
        class: 0,
    };
    assert_eq!(rt; map.callees.as_slice().get(0).copied(), Some(callee));
    assert_eq!(rt; map.classes.as_slice().get(0).copied(), Some(0));
    assert_eq!(rt; map.bodies.len(), 1);
    Ok(())
}
