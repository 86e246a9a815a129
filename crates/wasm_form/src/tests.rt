use super::*;
use memory_refusal::NoMemory;
use std::alloc::Global;
use std::test::Fail;

#[test]
fn lists_and_modules_give_back_what_was_put_in(rt: HostRuntime) -> Result<(), Fail> {
    let alloc = rt.alloc();
    let mut code = Instrs::new(alloc);
    code.push(Instr {
        code: 0x1A,
        imm: Imm::None,
    })?;
    assert_eq!(rt; (code.len(), code.is_empty()), (1, false));
    let mut labels = Indexes::new(alloc);
    labels.push(7)?;
    let mut matches = Matches::new(alloc);
    matches.push(Match {
        at: 0,
        other: None,
        end: 3,
    })?;
    let mut locals = Runs::new(alloc);
    locals.push(LocalRun {
        count: 2,
        ty: ValType::I64,
    })?;
    let mut bodies = Bodies::new(alloc);
    bodies.push(Body {
        locals,
        expr: Expr {
            code,
            labels,
            matches,
        },
    })?;
    assert_eq!(rt; bodies.len(), 1);
    let body = &bodies.as_slice()[0];
    assert_eq!(rt;
        body.expr.code.as_slice(),
        [Instr {
            code: 0x1A,
            imm: Imm::None
        }]
        .as_slice()
    );
    assert_eq!(rt; body.expr.labels.as_slice(), [7].as_slice());
    assert_eq!(rt;
        body.expr.matches.as_slice(),
        [Match {
            at: 0,
            other: None,
            end: 3
        }]
        .as_slice()
    );
    assert_eq!(rt;
        body.locals.as_slice(),
        [LocalRun {
            count: 2,
            ty: ValType::I64
        }]
        .as_slice()
    );
    Ok(())
}

#[test]
fn names_give_back_their_text(rt: HostRuntime) -> Result<(), Fail> {
    let name = Name::new(String::from_str(rt.alloc(), "_start")?);
    assert_eq!(rt; name.as_str(), "_start");
    assert_eq!(rt; name.into_text().as_str(), "_start");
    Ok(())
}

#[test]
fn codes_have_their_immediates(rt: HostRuntime) {
    let table = [
        (0x01, Some(Immediates::Bare)),
        (0x02, None),
        (0x0B, None),
        (0x0D, Some(Immediates::Index)),
        (0x0E, None),
        (0x11, Some(Immediates::TypeAndZero)),
        (0x12, None),
        (0x28, Some(Immediates::Memory)),
        (0x40, Some(Immediates::Zero)),
        (0x41, Some(Immediates::S32)),
        (0x44, Some(Immediates::F64)),
        (0xBF, Some(Immediates::Bare)),
        (0xC0, None),
    ];
    for (code, want) in table {
        assert_eq!(rt; Immediates::after(code), want);
    }
}

/// An instruction with no immediates.
fn bare(code: u8) -> Instr {
    Instr {
        code,
        imm: Imm::None,
    }
}

#[test]
fn blocks_are_matched(rt: HostRuntime) -> Result<(), Fail> {
    let alloc = rt.alloc();
    let mut labels = Indexes::new(alloc);
    labels.extend(&[7, 8])?;
    let opened = Imm::Block(None);
    let code = [
        Instr {
            code: 0x04,
            imm: opened,
        },
        bare(0x01),
        bare(0x05),
        Instr {
            code: 0x03,
            imm: opened,
        },
        bare(0x0B),
        bare(0x0B),
        Instr {
            code: 0x0E,
            imm: Imm::Table {
                first: 0,
                count: 2,
                last: 9,
            },
        },
        bare(0x0B),
    ];
    let matches = match_blocks(alloc, &code, labels.as_slice())?;
    assert_eq!(rt; matches.len(), 2);
    let want = [
        Match {
            at: 0,
            other: Some(2),
            end: 5,
        },
        Match {
            at: 3,
            other: None,
            end: 4,
        },
    ];
    assert_eq!(rt; matches.into_vec().as_slice(), want.as_slice());
    let open = match_blocks(alloc, &code[..7], labels.as_slice()).err();
    assert_eq!(rt; open, Some(PartsFault::Unmatched));
    let fewer = match_blocks(alloc, &code, &[7]).err();
    assert_eq!(rt; fewer, Some(PartsFault::Unmatched));
    Ok(())
}

/// The parts of a module of one type, whose one function is exported and has this code and these
/// matching places.
fn parts_with(alloc: Global, code: &[Instr], found: &[Match]) -> Result<Parts, NoMemory> {
    let mut types = FuncTypes::new(alloc);
    types.push(FuncType {
        params: ValTypes::new(alloc),
        results: ValTypes::new(alloc),
    })?;
    let mut functions = Indexes::new(alloc);
    functions.push(0)?;
    let mut exports = Exports::new(alloc);
    exports.push(Export {
        name: Name::new(String::from_str(alloc, "_start")?),
        kind: ExportKind::Function,
        index: 0,
    })?;
    let mut instrs = Instrs::new(alloc);
    instrs.extend(code)?;
    let mut matches = Matches::new(alloc);
    matches.extend(found)?;
    let mut bodies = Bodies::new(alloc);
    bodies.push(Body {
        locals: Runs::new(alloc),
        expr: Expr {
            code: instrs,
            labels: Indexes::new(alloc),
            matches,
        },
    })?;
    Ok(Parts {
        types,
        imports: Imports::new(alloc),
        functions,
        tables: Limits::new(alloc),
        memories: Limits::new(alloc),
        globals: Globals::new(alloc),
        exports,
        start: None,
        elements: Elements::new(alloc),
        segments: Segments::new(alloc),
        bodies,
    })
}

/// The expression without instructions.
fn one_end(alloc: Global) -> Result<Expr, NoMemory> {
    let mut code = Instrs::new(alloc);
    code.push(bare(0x0B))?;
    Ok(Expr {
        code,
        labels: Indexes::new(alloc),
        matches: Matches::new(alloc),
    })
}

/// What `from_parts` says of the matching places, or why there is no module.
fn matches_of(alloc: Global, parts: Parts) -> Result<Vec<Match>, PartsFault> {
    let module = Module::from_parts(alloc, parts)?;
    let mut found = Vec::new(alloc);
    if let [body] = module.bodies() {
        found.extend_from_slice(body.expr.matches.as_slice())?;
    }
    Ok(found)
}

#[test]
fn parts_are_matched_anew(rt: HostRuntime) -> Result<(), Fail> {
    let alloc = rt.alloc();
    let wrong = Match {
        at: 7,
        other: Some(8),
        end: 9,
    };
    let constant = Instr {
        code: 0x41,
        imm: Imm::I32(42),
    };
    let line = [constant, bare(0x1A), bare(0x0B)];
    let parts = parts_with(alloc, &line, &[wrong])?;
    assert_eq!(rt; matches_of(alloc, parts)?.as_slice(), [].as_slice());
    let block = Instr {
        code: 0x02,
        imm: Imm::Block(None),
    };
    let nested = [block, bare(0x01), bare(0x0B), bare(0x0B)];
    let parts = parts_with(alloc, &nested, &[wrong, wrong])?;
    let want = [Match {
        at: 0,
        other: None,
        end: 2,
    }];
    assert_eq!(rt; matches_of(alloc, parts)?.as_slice(), want.as_slice());
    Ok(())
}

#[test]
fn parts_that_no_bytes_spell_are_unmatched(rt: HostRuntime) -> Result<(), Fail> {
    let alloc = rt.alloc();
    let block = Instr {
        code: 0x02,
        imm: Imm::Block(None),
    };
    let other = Instr {
        code: 0x41,
        imm: Imm::Index(3),
    };
    let table: [&[Instr]; 4] = [
        &[block, bare(0x0B)],
        &[bare(0x0B), bare(0x0B)],
        &[other, bare(0x0B)],
        &[],
    ];
    for code in table {
        let parts = parts_with(alloc, code, &[])?;
        let refused = Module::from_parts(alloc, parts).err();
        assert_eq!(rt; refused, Some(PartsFault::Unmatched), "{code:?}");
    }
    let mut fewer = parts_with(alloc, &[bare(0x0B)], &[])?;
    fewer.functions = Indexes::new(alloc);
    let refused = Module::from_parts(alloc, fewer).err();
    assert_eq!(rt; refused, Some(PartsFault::Unmatched));
    let mut many = parts_with(alloc, &[bare(0x0B)], &[])?;
    let mut locals = Runs::new(alloc);
    locals.push(LocalRun {
        count: 0xFFFF_FFFF,
        ty: ValType::I32,
    })?;
    locals.push(LocalRun {
        count: 1,
        ty: ValType::F64,
    })?;
    let mut bodies = Bodies::new(alloc);
    bodies.push(Body {
        locals,
        expr: one_end(alloc)?,
    })?;
    many.bodies = bodies;
    let refused = Module::from_parts(alloc, many).err();
    assert_eq!(rt; refused, Some(PartsFault::Unmatched));
    Ok(())
}

#[test]
fn lengths_are_least(rt: HostRuntime) {
    let numbers: [(u32, u32); 7] = [
        (0x7F, 1),
        (0x80, 2),
        (0x3FFF, 2),
        (0x4000, 3),
        (0xFFF_FFFF, 4),
        (0x1000_0000, 5),
        (0xFFFF_FFFF, 5),
    ];
    for (n, want) in numbers {
        let length = n.least_length();
        assert_eq!(rt; length, Some(want), "{n}");
    }
    let instrs = [
        (bare(0x1A), 1),
        (bare(0x3F), 2),
        (
            Instr {
                code: 0x11,
                imm: Imm::Index(0),
            },
            3,
        ),
        (
            Instr {
                code: 0x41,
                imm: Imm::I32(0xFFFF_FFFF),
            },
            2,
        ),
        (
            Instr {
                code: 0x41,
                imm: Imm::I32(0x8000_0000),
            },
            6,
        ),
        (
            Instr {
                code: 0x42,
                imm: Imm::I64(0x8000_0000_0000_0000),
            },
            11,
        ),
    ];
    for (instr, want) in instrs {
        assert_eq!(rt; instr.least_length(), Some(want), "{instr:?}");
    }
}
