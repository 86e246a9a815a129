ghost use Rattle.std.specs.Prelude.{◌≡◌, true, false, Ok, [], option_to_list};
ghost use Rattle.wasm_form.specs.Trees.{Code, IsFlat};
ghost use Rattle.wasm_form.specs.Matching.{HasPlain};
ghost use Rattle.wasm_form.specs.Context.{Context};
ghost use Rattle.wasm_form.specs.Typing.{Types};
ghost use Rattle.body_validator.specs.Functions.{IsBodyContext};

use crate::{Checker, Function};
use memory_refusal::NoMemory;
use std::alloc::Global;
use wasm_form::Expr;

/// Whether the instructions of a function's body lead from no operands to what the function gives.
pub fn check_code(alloc: Global, function: &Function<'_>, expr: &Expr) -> Result<bool, NoMemory>
    ensures yes { result ≡ Ok true → (context : Context) (tree : Code) → IsBodyContext function.now context
        → HasPlain tree → IsFlat expr.now tree → Types context tree [] (option_to_list function.now.results) }
    ensures no { result ≡ Ok false → (context : Context) (tree : Code) → IsBodyContext function.now context
        → HasPlain tree → IsFlat expr.now tree → ¬ Types context tree [] (option_to_list function.now.results) }
{
    let mut checker = Checker::new(alloc, function.results)?;
    let mut left = expr.code.as_slice();
    while let Some((instr, rest)) = left.split_first() {
        let goes_on = checker.step(function, expr.labels.as_slice(), *instr)?;
        if !goes_on {
            return Ok(false);
        }
        left = rest;
    }
    Ok(true)
}
