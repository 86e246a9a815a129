ghost use Rattle.std.specs.Prelude.{◌≡◌, ℕ, List, [], ◌∷◌, slice_get, Some};
ghost use Rattle.wasm_form.specs.Trees.{Empty, Then};
ghost use Rattle.wasm_form.specs.Context.{Context};
ghost use Rattle.wasm_form.specs.Typing.{Types};
ghost use Rattle.wasm_form.specs.Profile.{Host};
ghost use Rattle.wasm_form.specs.Verdict.{Verdict, IsVerdict};
ghost use Rattle.wasm_form.specs.declared.value_type.ValType.{ValType};
ghost use Rattle.body_validator.specs.Examples.{br_0, i32_add, drop, i64_const_1, i32_eqz};

/// Two bodies, one of which is typed. It computes nothing.
pub fn typing_examples()
    // After a branch an operation finds its operands.
    ensures typed { (context : Context) → slice_get context.labels 0 ≡ Some []
        → Types context (Then br_0 (Then i32_add (Then drop Empty))) [] [] }
    // An operation on an i32 finds no i64.
    ensures untyped { (context : Context) (after : List ValType)
        → ¬ Types context (Then i64_const_1 (Then i32_eqz (Then drop Empty))) [] after }
{}

/// The same bytes have one verdict at most, whatever the host offers. It computes nothing.
pub fn one_verdict()
    ensures { (host : Host) (bytes : List ℕ) (v w : Verdict) → IsVerdict host bytes v
        → IsVerdict host bytes w → v ≡ w }
{
    wasm_form::one_module();
}
