ghost use Rattle.std.specs.Prelude.{IfOk};
ghost use Rattle.wasm_form.specs.Validity.{HasSingleResults};

use super::*;
use crate::code::check_code;
use memory_refusal::NoMemory;
use std::alloc::Global;
use std::test::Fail;
use wasm_form::{
    Expr, Imm, Indexes, Instr, Instrs, LocalRun, Matches, Module, ValType, start_module,
};

// Br 0, i32.add, drop.
const AFTER_BRANCH: [Instr; 3] = [
    Instr {
        code: 0x0C,
        imm: Imm::Index(0),
    },
    Instr {
        code: 0x6A,
        imm: Imm::None,
    },
    Instr {
        code: 0x1A,
        imm: Imm::None,
    },
];

// I64.const 1, i32.eqz, drop.
const AFTER_CONSTANT: [Instr; 3] = [
    Instr {
        code: 0x42,
        imm: Imm::I64(1),
    },
    Instr {
        code: 0x45,
        imm: Imm::None,
    },
    Instr {
        code: 0x1A,
        imm: Imm::None,
    },
];

// Unreachable, select, i64.eqz, drop.
const SELECTED_UNKNOWN: [Instr; 4] = [
    Instr {
        code: 0x00,
        imm: Imm::None,
    },
    Instr {
        code: 0x1B,
        imm: Imm::None,
    },
    Instr {
        code: 0x50,
        imm: Imm::None,
    },
    Instr {
        code: 0x1A,
        imm: Imm::None,
    },
];

// Unreachable, i64.const 1, i32.const 0, select, i32.eqz, drop.
const SELECTED_KNOWN: [Instr; 6] = [
    Instr {
        code: 0x00,
        imm: Imm::None,
    },
    Instr {
        code: 0x42,
        imm: Imm::I64(1),
    },
    Instr {
        code: 0x41,
        imm: Imm::I32(0),
    },
    Instr {
        code: 0x1B,
        imm: Imm::None,
    },
    Instr {
        code: 0x45,
        imm: Imm::None,
    },
    Instr {
        code: 0x1A,
        imm: Imm::None,
    },
];

// A br_table to the block, in which there is an i32.
const SAME_LABELS: [Instr; 6] = [
    Instr {
        code: 0x02,
        imm: Imm::Block(Some(ValType::I32)),
    },
    Instr {
        code: 0x41,
        imm: Imm::I32(1),
    },
    Instr {
        code: 0x41,
        imm: Imm::I32(0),
    },
    Instr {
        code: 0x0E,
        imm: Imm::Table {
            first: 0,
            count: 1,
            last: 0,
        },
    },
    Instr {
        code: 0x0B,
        imm: Imm::None,
    },
    Instr {
        code: 0x1A,
        imm: Imm::None,
    },
];

// The same, where nothing is known of the operands.
const OTHER_LABELS: [Instr; 5] = [
    Instr {
        code: 0x02,
        imm: Imm::Block(Some(ValType::I32)),
    },
    Instr {
        code: 0x00,
        imm: Imm::None,
    },
    Instr {
        code: 0x0E,
        imm: Imm::Table {
            first: 0,
            count: 1,
            last: 0,
        },
    },
    Instr {
        code: 0x0B,
        imm: Imm::None,
    },
    Instr {
        code: 0x1A,
        imm: Imm::None,
    },
];

// An if with an else gives an i32.
const IF_ELSE: [Instr; 7] = [
    Instr {
        code: 0x41,
        imm: Imm::I32(1),
    },
    Instr {
        code: 0x04,
        imm: Imm::Block(Some(ValType::I32)),
    },
    Instr {
        code: 0x41,
        imm: Imm::I32(2),
    },
    Instr {
        code: 0x05,
        imm: Imm::None,
    },
    Instr {
        code: 0x41,
        imm: Imm::I32(3),
    },
    Instr {
        code: 0x0B,
        imm: Imm::None,
    },
    Instr {
        code: 0x1A,
        imm: Imm::None,
    },
];

// An if without an else.
const IF_ALONE: [Instr; 5] = [
    Instr {
        code: 0x41,
        imm: Imm::I32(1),
    },
    Instr {
        code: 0x04,
        imm: Imm::Block(Some(ValType::I32)),
    },
    Instr {
        code: 0x41,
        imm: Imm::I32(2),
    },
    Instr {
        code: 0x0B,
        imm: Imm::None,
    },
    Instr {
        code: 0x1A,
        imm: Imm::None,
    },
];

// A block that gives nothing keeps an i32.
const KEPT: [Instr; 4] = [
    Instr {
        code: 0x02,
        imm: Imm::Block(None),
    },
    Instr {
        code: 0x41,
        imm: Imm::I32(1),
    },
    Instr {
        code: 0x0B,
        imm: Imm::None,
    },
    Instr {
        code: 0x1A,
        imm: Imm::None,
    },
];

// I32.load aligned to four.
const ALIGNED: [Instr; 3] = [
    Instr {
        code: 0x41,
        imm: Imm::I32(0),
    },
    Instr {
        code: 0x28,
        imm: Imm::Mem {
            align: 2,
            offset: 0,
        },
    },
    Instr {
        code: 0x1A,
        imm: Imm::None,
    },
];

// I32.load aligned to eight.
const ABOVE: [Instr; 3] = [
    Instr {
        code: 0x41,
        imm: Imm::I32(0),
    },
    Instr {
        code: 0x28,
        imm: Imm::Mem {
            align: 3,
            offset: 0,
        },
    },
    Instr {
        code: 0x1A,
        imm: Imm::None,
    },
];

/// Whether this code, to which the end is added, is typed as a body that gives nothing, in a module
/// with a memory and nothing else.
fn is_typed(alloc: Global, instrs: &[Instr], labels: &[u32]) -> Result<bool, NoMemory> {
    let mut code = Instrs::new(alloc);
    code.extend(instrs)?;
    code.push(Instr {
        code: 0x0B,
        imm: Imm::None,
    })?;
    let mut pool = Indexes::new(alloc);
    pool.extend(labels)?;
    let expr = Expr {
        code,
        labels: pool,
        matches: Matches::new(alloc),
    };
    let locals = Locals::new(alloc, &[], &[])?;
    let function = Function {
        types: &[],
        functions: &[],
        has_table: false,
        has_memory: true,
        globals: &[],
        locals: &locals,
        results: None,
    };
    check_code(alloc, &function, &expr)
}

// br 0, i32.add, drop leaves nothing; i64.const 1, i32.eqz finds no i32.
#[test]
fn code_after_a_branch_finds_any_operands(rt: HostRuntime) -> Result<(), Fail> {
    assert_eq!(rt; is_typed(rt.alloc(), &AFTER_BRANCH, &[])?, true);
    assert_eq!(rt; is_typed(rt.alloc(), &AFTER_CONSTANT, &[])?, false);
    Ok(())
}

// The result of a select of two unknown operands is unknown; of one that is known it is that.
#[test]
fn a_select_gives_what_is_known(rt: HostRuntime) -> Result<(), Fail> {
    assert_eq!(rt; is_typed(rt.alloc(), &SELECTED_UNKNOWN, &[])?, true);
    assert_eq!(rt; is_typed(rt.alloc(), &SELECTED_KNOWN, &[])?, false);
    Ok(())
}

// The labels of a br_table carry the same, also where nothing is known of the operands.
#[test]
fn labels_that_differ_are_refused(rt: HostRuntime) -> Result<(), Fail> {
    assert_eq!(rt; is_typed(rt.alloc(), &SAME_LABELS, &[0])?, true);
    assert_eq!(rt; is_typed(rt.alloc(), &OTHER_LABELS, &[1])?, false);
    Ok(())
}

// An if that gives something has an else; a block leaves just what it gives.
#[test]
fn blocks_give_what_they_say(rt: HostRuntime) -> Result<(), Fail> {
    assert_eq!(rt; is_typed(rt.alloc(), &IF_ELSE, &[])?, true);
    assert_eq!(rt; is_typed(rt.alloc(), &IF_ALONE, &[])?, false);
    assert_eq!(rt; is_typed(rt.alloc(), &KEPT, &[])?, false);
    Ok(())
}

// A load of four bytes is aligned to four at most.
#[test]
fn an_alignment_above_the_width_is_refused(rt: HostRuntime) -> Result<(), Fail> {
    assert_eq!(rt; is_typed(rt.alloc(), &ALIGNED, &[])?, true);
    assert_eq!(rt; is_typed(rt.alloc(), &ABOVE, &[])?, false);
    Ok(())
}

/// So many blocks in one another, and a branch out of all of them.
fn nested(alloc: Global, depth: u32) -> Result<Vec<Instr>, NoMemory> {
    let mut code = Vec::new(alloc);
    for _ in 0..depth {
        code.push(Instr {
            code: 0x02,
            imm: Imm::Block(None),
        })?;
    }
    code.push(Instr {
        code: 0x0C,
        imm: Imm::Index(depth),
    })?;
    for _ in 0..depth {
        code.push(Instr {
            code: 0x0B,
            imm: Imm::None,
        })?;
    }
    Ok(code)
}

#[test]
fn blocks_nest_ten_thousand_deep(rt: HostRuntime) -> Result<(), Fail> {
    let code = nested(rt.alloc(), 10_000)?;
    assert_eq!(rt; is_typed(rt.alloc(), code.as_slice(), &[])?, true);
    Ok(())
}

const PARAMETERS: [ValType; 2] = [ValType::I64, ValType::I32];

const RUNS: [LocalRun; 2] = [
    LocalRun {
        count: 0,
        ty: ValType::I32,
    },
    LocalRun {
        count: 3,
        ty: ValType::I64,
    },
];

// Two parameters, no local of the first run, three of the second.
#[test]
fn locals_are_found_in_their_runs(rt: HostRuntime) -> Result<(), Fail> {
    let locals = Locals::new(rt.alloc(), &PARAMETERS, &RUNS)?;
    assert_eq!(rt; locals.get(1), Some(ValType::I32));
    assert_eq!(rt; locals.get(2), Some(ValType::I64));
    assert_eq!(rt; locals.get(5), None);
    Ok(())
}

/// The small module that does nothing.
fn nothing(alloc: Global) -> Result<Module, NoMemory>
    ensures { IfOk result HasSingleResults }
{
    let mut code = Instrs::new(alloc);
    code.push(Instr {
        code: 0x01,
        imm: Imm::None,
    })?;
    code.push(Instr {
        code: 0x0B,
        imm: Imm::None,
    })?;
    let module = start_module(alloc, code)?;
    Ok(module)
}

#[test]
fn functions_are_checked_by_their_place(rt: HostRuntime) -> Result<(), Fail> {
    let module = nothing(rt.alloc())?;
    assert_eq!(rt; check_body(rt.alloc(), &module, 0)?, true);
    assert_eq!(rt; check_body(rt.alloc(), &module, 1)?, false);
    Ok(())
}
