//! The program `tickmonel`: makes the real store of files and standard output, calls `lunatic`, and ends with the
//! status that it answers.
//!
//! Each of the sixteen workers that a run may have gets an outside of its own, with the machine's sockets and clock. What
//! the program does is `lunatic`'s contract, in the crate `lunatic_cli`. What real files, standard output, sockets and the
//! clock hold is told by no clause.
#![tactic(auto)]

ghost use Rattle.std.specs.Prelude.{◌≡◌, IfOk, vec_len};

use lunatic_cli::lunatic;
use memory_refusal::NoMemory;
use real_outside::{RealFiles, RealOut, RealOutside};
use std::alloc::Global;
use std::env;
use std::io::{self, ErrorKind};
use std::net::{Net, TcpListener, TcpStream};
use std::process::ExitCode;
use std::rt::Env;
use std::time::{Clock, Instant};

/// The status for want of memory.
const MEMORY: u8 = 8;

/// The most workers of a run.
const WORKERS: u64 = 16;

fn main(rt: HostRuntime) -> ExitCode {
    let Ok(words) = given_words(&rt) else {
        return ExitCode::from(MEMORY);
    };
    let Ok(mut outsides) = all_outsides(&rt) else {
        return ExitCode::from(MEMORY);
    };
    let mut files = RealFiles::new(&rt);
    let mut out = RealOut::new(io::writer(&rt));
    let finish = lunatic(
        rt.alloc(),
        words.as_slice(),
        &mut files,
        &mut out,
        &mut outsides,
    );
    ExitCode::from(finish.status)
}

/// An outside for each worker. Their clocks begin together.
fn all_outsides<R: Clock + Net<Listener = TcpListener, Stream = TcpStream> + AllocGlobal>(
    rt: &R,
) -> Result<Vec<RealOutside<'_, R>>, NoMemory>
    ensures { IfOk result (λ outsides. vec_len outsides ≡ 16) }
{
    let began = Instant::now(rt).ok();
    let mut outsides = Vec::new(rt.alloc());
    for _worker in 0..WORKERS {
        outsides.push(RealOutside::new(rt, began))?;
    }
    Ok(outsides)
}

/// The words after the program's name. Where they are no text there are none, and so they are refused.
fn given_words(rt: &(impl Env + AllocGlobal)) -> Result<Vec<String>, NoMemory> {
    let mut words = Vec::new(rt.alloc());
    match env::args(rt) {
        Ok(args) => {
            for word in args.skip(1) {
                words.push(word)?;
            }
        }
        Err(error) if error.kind() == ErrorKind::OutOfMemory => return Err(NoMemory),
        Err(_) => {}
    }
    Ok(words)
}
