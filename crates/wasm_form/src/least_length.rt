//! What takes bytes in a module, each value with the least number of bytes that spell it.

ghost use Rattle.std.specs.Prelude.{ℕ, All, sum_by};
ghost use Rattle.wasm_form.specs.Least.{least_vector, least_table_type, least_function};
ghost use Rattle.wasm_form.specs.Least.{least_imported};
ghost use Rattle.wasm_form.specs.Lengths.{IsLength};
ghost use Rattle.wasm_form.specs.Ranges.{HasBoundsRange, HasImportedRange, HasBodyRange};

use crate::lengths::{
    bytes_length, imm_length, sized_length, together, unsigned_length, zero_length,
};
use crate::{
    Body, Bounds, Element, Export, Expr, FuncType, GlobalDef, Immediates, Import, Imported, Instr,
    Limits, LocalRun, Name, Segment, ValType, Vector,
};

/// What has bytes of its own in a module.
pub trait LeastLength {
    ghost least: { Self → ℕ };

    ghost in_range: { Self → Type 0 };

    /// The least number of bytes that spell it, whatever its matching places; none exactly where
    /// that is 2 ^ 32 or more.
    fn least_length(&self) -> Option<u32>
        ensures { IsLength (least self.now) (in_range self.now) result };
}

/// Of these values, one after another.
pub fn items_length<T: LeastLength>(items: &[T]) -> Option<u32>
    ensures { IsLength (sum_by T.least items.now) (All T.in_range items.now) result }
{
    let mut total = 0;
    for item in items {
        let length = item.least_length()?;
        total = together(total, length)?;
    }
    Some(total)
}

/// Of these values with their number before them.
pub fn vector_length<T: LeastLength>(items: &Vector<T>) -> Option<u32>
    ensures { IsLength (least_vector T.least items.now) (All T.in_range items.now) result }
{
    let length = items_length(items.as_slice())?;
    together(unsigned_length(items.len() as u64), length)
}

/// Of these table types with their number before them.
pub fn tables_length(tables: &Limits) -> Option<u32>
    ensures { IsLength (least_vector least_table_type tables.now) (All HasBoundsRange tables.now) result }
{
    let length = table_types_length(tables.as_slice())?;
    together(unsigned_length(tables.len() as u64), length)
}

fn table_types_length(tables: &[Bounds]) -> Option<u32>
    ensures { IsLength (sum_by least_table_type tables.now) (All HasBoundsRange tables.now) result }
{
    let mut total = 0;
    for bounds in tables {
        let length = table_type_length(bounds)?;
        total = together(total, length)?;
    }
    Some(total)
}

fn table_type_length(bounds: &Bounds) -> Option<u32>
    ensures { IsLength (least_table_type bounds.now) (HasBoundsRange bounds.now) result }
{
    let limits = bounds.least_length()?;
    together(1, limits)
}

impl LeastLength for u32 {
    ghost use Rattle.wasm_form.specs.Least.{least_unsigned};
    ghost use Rattle.wasm_form.specs.Ranges.{IsU32};

    ghost least = { least_unsigned };

    ghost in_range = { IsU32 };

    fn least_length(&self) -> Option<u32> {
        Some(unsigned_length(u64::from(*self)))
    }
}

impl LeastLength for ValType {
    ghost use Rattle.std.specs.Prelude.{⊤};
    ghost use Rattle.wasm_form.specs.Least.{least_val_type};

    ghost least = { least_val_type };

    ghost in_range = { λ _. ⊤ };

    fn least_length(&self) -> Option<u32> {
        Some(1)
    }
}

impl LeastLength for LocalRun {
    ghost use Rattle.wasm_form.specs.Least.{least_run};
    ghost use Rattle.wasm_form.specs.Ranges.{HasRunRange};

    ghost least = { least_run };

    ghost in_range = { HasRunRange };

    fn least_length(&self) -> Option<u32> {
        Some(unsigned_length(u64::from(self.count)) + 1)
    }
}

impl LeastLength for FuncType {
    ghost use Rattle.std.specs.Prelude.{⊤};
    ghost use Rattle.wasm_form.specs.Least.{least_func_type};

    ghost least = { least_func_type };

    ghost in_range = { λ _. ⊤ };

    fn least_length(&self) -> Option<u32> {
        let params = vector_length(&self.params)?;
        let results = vector_length(&self.results)?;
        let both = together(params, results)?;
        together(1, both)
    }
}

impl LeastLength for Bounds {
    ghost use Rattle.wasm_form.specs.Least.{least_limits};
    ghost use Rattle.wasm_form.specs.Ranges.{HasBoundsRange};

    ghost least = { least_limits };

    ghost in_range = { HasBoundsRange };

    fn least_length(&self) -> Option<u32> {
        let min = unsigned_length(u64::from(self.min));
        match self.max {
            None => Some(1 + min),
            Some(max) => Some(1 + min + unsigned_length(u64::from(max))),
        }
    }
}

impl LeastLength for Instr {
    ghost use Rattle.wasm_form.specs.Least.{least_instr};
    ghost use Rattle.wasm_form.specs.Ranges.{HasInstrRange};

    ghost least = { least_instr };

    ghost in_range = { HasInstrRange };

    fn least_length(&self) -> Option<u32> {
        let zero = zero_length(Immediates::after(self.code));
        Some(1 + imm_length(self.imm) + zero)
    }
}

impl LeastLength for Expr {
    ghost use Rattle.wasm_form.specs.Least.{least_expr};
    ghost use Rattle.wasm_form.specs.Ranges.{HasExprRange};

    ghost least = { least_expr };

    ghost in_range = { HasExprRange };

    fn least_length(&self) -> Option<u32> {
        let code = items_length(self.code.as_slice())?;
        let labels = items_length(self.labels.as_slice())?;
        together(code, labels)
    }
}

impl LeastLength for Name {
    ghost use Rattle.wasm_form.specs.Least.{least_bytes};
    ghost use Rattle.wasm_form.specs.Ranges.{IsText};

    ghost least = { least_bytes };

    ghost in_range = { IsText };

    fn least_length(&self) -> Option<u32> {
        bytes_length(self.as_str().as_bytes())
    }
}

impl LeastLength for Import {
    ghost use Rattle.wasm_form.specs.Least.{least_import};
    ghost use Rattle.wasm_form.specs.Ranges.{HasImportRange};

    ghost least = { least_import };

    ghost in_range = { HasImportRange };

    fn least_length(&self) -> Option<u32> {
        let module = self.module.least_length()?;
        let name = self.name.least_length()?;
        let what = imported_length(self.what)?;
        let after = together(name, what)?;
        together(module, after)
    }
}

fn imported_length(what: Imported) -> Option<u32>
    ensures { IsLength (least_imported what) (HasImportedRange what) result }
{
    match what {
        Imported::Function(ty) => Some(1 + unsigned_length(u64::from(ty))),
        Imported::Table(bounds) => {
            let ty = table_type_length(&bounds)?;
            together(1, ty)
        }
        Imported::Memory(bounds) => {
            let limits = bounds.least_length()?;
            together(1, limits)
        }
        Imported::Global(_) => Some(3),
    }
}

impl LeastLength for GlobalDef {
    ghost use Rattle.wasm_form.specs.Least.{least_global};
    ghost use Rattle.wasm_form.specs.Ranges.{HasGlobalRange};

    ghost least = { least_global };

    ghost in_range = { HasGlobalRange };

    fn least_length(&self) -> Option<u32> {
        let init = self.init.least_length()?;
        together(2, init)
    }
}

impl LeastLength for Export {
    ghost use Rattle.wasm_form.specs.Least.{least_export};
    ghost use Rattle.wasm_form.specs.Ranges.{HasExportRange};

    ghost least = { least_export };

    ghost in_range = { HasExportRange };

    fn least_length(&self) -> Option<u32> {
        let name = self.name.least_length()?;
        together(name, 1 + unsigned_length(u64::from(self.index)))
    }
}

impl LeastLength for Element {
    ghost use Rattle.wasm_form.specs.Least.{least_element};
    ghost use Rattle.wasm_form.specs.Ranges.{HasElementRange};

    ghost least = { least_element };

    ghost in_range = { HasElementRange };

    fn least_length(&self) -> Option<u32> {
        let offset = self.offset.least_length()?;
        let functions = vector_length(&self.functions)?;
        let after = together(offset, functions)?;
        together(unsigned_length(u64::from(self.table)), after)
    }
}

impl LeastLength for Body {
    ghost use Rattle.wasm_form.specs.Least.{least_body};
    ghost use Rattle.wasm_form.specs.Ranges.{HasBodyRange};

    ghost least = { least_body };

    ghost in_range = { HasBodyRange };

    fn least_length(&self) -> Option<u32> {
        let function = function_length(self)?;
        sized_length(function)
    }
}

/// Of a body without its size.
pub fn function_length(body: &Body) -> Option<u32>
    ensures { IsLength (least_function body.now) (HasBodyRange body.now) result }
{
    let locals = vector_length(&body.locals)?;
    let expr = body.expr.least_length()?;
    together(locals, expr)
}

impl LeastLength for Segment {
    ghost use Rattle.wasm_form.specs.Least.{least_segment};
    ghost use Rattle.wasm_form.specs.Ranges.{HasSegmentRange};

    ghost least = { least_segment };

    ghost in_range = { HasSegmentRange };

    fn least_length(&self) -> Option<u32> {
        let offset = self.offset.least_length()?;
        let bytes = bytes_length(self.bytes.as_slice())?;
        let after = together(offset, bytes)?;
        together(unsigned_length(u64::from(self.memory)), after)
    }
}
