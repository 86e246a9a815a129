//! Why a module does not start so.
ghost use Rattle.std.specs.Prelude.{◌≡◌, ℕ};
ghost use Rattle.wasm_form.specs.Verdict.{IsAccepted};
ghost use Rattle.module_validator.specs.Host.{host};
ghost use Rattle.tree_machine.specs.Begin.{begin};
ghost use Rattle.tree_machine.specs.Instantiation.{segments_lie_in};

use crate::entry::entry_type;
use crate::memory::least_pages;
use crate::params::are_types_of;
use crate::segments::{data_lie_in, elements_lie_in};
use crate::table::table_size;
use host_port::{Start, StartRefusal};
use wasm_form::Module;

/// The bytes of a page (Core 1.0, 4.2.8).
const PAGE: u64 = 65_536;

/// The first refusal that applies, or none. It takes no memory.
pub(crate) fn refusal(module: &Module, start: &Start) -> Option<StartRefusal>
    requires { IsAccepted host «module».now }
    ensures { result ≡ begin «module».now start.now }
{
    let Some(ty) = entry_type(module, start.entry.as_slice()) else {
        return Some(StartRefusal::NoExport);
    };
    if !are_types_of(ty.params.as_slice(), start.params.as_slice()) {
        return Some(StartRefusal::BadParams);
    }
    if least_pages(module) > start.limits.pages() {
        return Some(StartRefusal::PagesOver);
    }
    if !segments_lie_in(module) {
        return Some(StartRefusal::SegmentOut);
    }
    None
}

/// Each element segment lies in the table, and each data segment in the memory, whatever the limit of pages is.
fn segments_lie_in(module: &Module) -> bool
    requires { IsAccepted host «module».now }
    ensures { (limit : ℕ) → result ≡ segments_lie_in limit «module».now }
{
    let places = u64::from(table_size(module));
    let bytes = u64::from(least_pages(module)) * PAGE;
    elements_lie_in(places, module.elements()) && data_lie_in(bytes, module.segments())
}
