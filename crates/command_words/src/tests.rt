use crate::{Command, Options, WordsFault, command};
use std::alloc::Global;
use std::test::Fail;

/// What the words ask for.
fn read(alloc: Global, words: &[&str]) -> Result<Result<Command, WordsFault>, Fail> {
    let mut texts = Vec::new(alloc);
    for word in words {
        texts.push(String::from_str(alloc, *word)?)?;
    }
    Ok(command(alloc, texts.as_slice()))
}

/// The words are refused as words.
fn is_refused(alloc: Global, words: &[&str]) -> Result<bool, Fail> {
    Ok(match read(alloc, words)? {
        Err(WordsFault::Words) => true,
        _ => false,
    })
}

#[test]
fn refuses_the_rows(rt: HostRuntime) -> Result<(), Fail> {
    let alloc = rt.alloc();
    assert!(rt; is_refused(alloc, &[])?);
    assert!(rt; is_refused(alloc, &["frob"])?);
    assert!(rt; is_refused(alloc, &["run"])?);
    assert!(rt; is_refused(alloc, &["run", "--fuel", "0", "a"])?);
    assert!(rt; is_refused(alloc, &["run", "--fuel=5", "--fuel=6", "a"])?);
    assert!(rt; is_refused(alloc, &["run", "--fuel", "+5", "a"])?);
    assert!(rt; is_refused(alloc, &["run", "-x", "a"])?);
    assert!(rt; is_refused(alloc, &["gen", "1"])?);
    assert!(rt; is_refused(alloc, &["run", "--help"])?);
    assert!(rt; is_refused(alloc, &["run", "--entry", "-x", "a"])?);
    assert!(rt; is_refused(alloc, &["run", "--fuel", "--", "5"])?);
    assert!(rt; is_refused(alloc, &["--", "run", "a"])?);
    assert!(rt; is_refused(alloc, &["solo", "5"])?);
    assert!(rt; is_refused(alloc, &["solo", "--workers", "1", "5", "a"])?);
    Ok(())
}

#[test]
fn reads_a_file_after_the_dashes(rt: HostRuntime) -> Result<(), Fail> {
    let asked = read(rt.alloc(), &["run", "--", "-a", "--"])?;
    match &asked {
        Ok(Command::Run { names, options }) => {
            assert!(rt; names.len() == 2 && names.as_slice()[0].as_str() == "-a");
            assert!(rt; names.as_slice()[1].as_str() == "--");
            assert!(rt; options.workers == 1 && options.entry.as_slice() == b"_start".as_slice());
        }
        _ => assert!(rt; false),
    }
    Ok(())
}

#[test]
fn reads_options(rt: HostRuntime) -> Result<(), Fail> {
    let asked = read(
        rt.alloc(),
        &[
            "run",
            "--fuel",
            "007",
            "a",
            "--entry=-x",
            "-",
            "--workers",
            "3",
        ],
    )?;
    match &asked {
        Ok(Command::Run { names, options }) => {
            assert!(rt; names.len() == 2 && names.as_slice()[1].as_str() == "-");
            assert!(rt;
                options.limits.fuel() == 7
                    && options.entry.as_slice() == b"-x".as_slice()
                    && options.workers == 3
            );
        }
        _ => assert!(rt; false),
    }
    Ok(())
}

#[test]
fn reads_the_other_commands(rt: HostRuntime) -> Result<(), Fail> {
    let asked = read(rt.alloc(), &["check", "a"])?;
    match &asked {
        Ok(Command::Check { name }) => assert!(rt; name.as_str() == "a"),
        _ => assert!(rt; false),
    }
    let asked = read(rt.alloc(), &["gen", "1000"])?;
    match &asked {
        Ok(Command::Gen { n }) => assert!(rt; *n == 1_000),
        _ => assert!(rt; false),
    }
    let asked = read(rt.alloc(), &["solo", "--live=2", "5", "a"])?;
    match &asked {
        Ok(
            Command::Solo {
                pid,
                names,
                options,
            },
        ) => assert!(rt; *pid == 5 && names.len() == 1 && options.live == 2),
        _ => assert!(rt; false),
    }
    Ok(())
}

#[test]
fn gives_the_defaults(rt: HostRuntime) -> Result<(), Fail> {
    match Options::defaults(rt.alloc()) {
        Ok(options) => assert!(rt;
            options.entry.as_slice() == b"_start".as_slice() && options.idle == 100_000
        ),
        Err(_) => assert!(rt; false),
    }
    Ok(())
}
