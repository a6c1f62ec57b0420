// The hoard list for C, in a library of its own. It takes any cells at all; its contract gives the answer, packed in one
// number, and every cell of the list by the definitions of the call that it wraps. A slice is a pointer and then a length.
#![tactic(auto)]

ghost use Rattle.std.specs.Prelude.{◌≡◌};
ghost use Rattle.packing.specs.Packing.{packed_number};
ghost use Rattle.printing.specs.Call.{hoard_list_of, hoard_list_cells};

use packing::word;

// Lists the entered pieces of a catalogue: their number, or the refusal.
#[unsafe(no_mangle)]
pub extern "C" fn hoard_list(catalogue: &[u32], list: &mut [u32]) -> u64
    ensures { (result ≡ packed_number (hoard_list_of catalogue.now list.old))
        × (list.new ≡ hoard_list_cells catalogue.now list.old) }
{
    // `as` keeps the number: std has no From of a usize for a u64.
    word(printing::hoard_list(catalogue, list).map(|n| n as u64))
}
