ghost use Rattle.std.specs.Prelude.{◌≡◌, ℕ, List};
ghost use Rattle.wasm_form.specs.Verdict as is;
ghost use Rattle.module_validator.specs.Host.{host};
ghost use Rattle.module_validator.specs.Answers.{meant_by};
ghost use Rattle.module_validator.specs.declared.answer.Verdict.{Verdict as Said};

use crate::Verdict;
use wasm_form::one_module;

/// Bytes that are accepted have no other verdict. It computes nothing.
pub fn accepted_alone()
    ensures { (bytes : List ℕ) (said : Said) → is.IsVerdict host bytes is.Accepted
        → is.IsVerdict host bytes (meant_by said) → said ≡ Verdict.Accepted }
{
    one_module();
}
