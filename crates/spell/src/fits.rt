// Whether a group's bytes are the spelling of the form, the list or the names that its row is.
ghost use Rattle.std.specs.Prelude.{◌≡◌, ◌≤◌, length};
ghost use Rattle.spell.specs.Spell.{fits_form, fits_list, fits_names};
ghost use Rattle.spell.specs.Internal.Writes.{PrintedAs, fits};

use crate::entries::{print_list, print_names};
use crate::whole::print_row;
use form::answer::{Limit, ListKind};

// What a row is printed as.
#[derive(Clone, Copy)]
enum Reading {
    OneForm,
    Entries(ListKind),
    Names,
}

fn print_as(reading: Reading, row: &[u32], bytes: &mut [u8]) -> Option<usize>
    requires { length row.now ≤ 8192 }
    ensures { PrintedAs reading row.now bytes.old bytes.new result }
{
    match reading {
        Reading::OneForm => print_row(row, bytes),
        Reading::Entries(kind) => print_list(row, bytes, kind),
        Reading::Names => Some(print_names(row, bytes)),
    }
}

// The spelling is printed to a buffer of so many bytes, at least as many as the text has, which lies in a frame of its own.
#[inline(never)]
fn fits_within<const BYTES: usize>(text: &[u8], row: &[u32], reading: Reading) -> bool
    requires { (length text.now ≤ BYTES) × (BYTES ≤ 65535) }
    ensures { result ≡ fits reading text.now row.now }
{
    if Limit::WORDS < row.len() {
        return false;
    }
    let mut bytes = [0u8; BYTES];
    let Some(n) = print_as(reading, row, &mut bytes) else {
        return false;
    };
    n == text.len() && text == &bytes[..n]
}

// Whether the text is the spelling, which is printed to a buffer that is not much longer than the text.
fn is_spelling(text: &[u8], row: &[u32], reading: Reading) -> bool
    ensures { result ≡ fits reading text.now row.now }
{
    match text.len() {
        0..=256 => fits_within::<256>(text, row, reading),
        257..=2048 => fits_within::<2048>(text, row, reading),
        2049..=12288 => fits_within::<12288>(text, row, reading),
        12289..=65535 => fits_within::<65535>(text, row, reading),
        _ => false,
    }
}

// Whether the text is the spelling of the one form that the row is.
pub fn fits_form(text: &[u8], row: &[u32]) -> bool
    ensures { result ≡ fits_form text.now row.now }
{
    is_spelling(text, row, Reading::OneForm)
}

// Whether the text is the spelling of the list that the row is.
pub fn fits_list(text: &[u8], row: &[u32], kind: ListKind) -> bool
    ensures { result ≡ fits_list kind text.now row.now }
{
    is_spelling(text, row, Reading::Entries(kind))
}

// Whether the text is the spelling of the row as a list of names.
pub fn fits_names(text: &[u8], row: &[u32]) -> bool
    ensures { result ≡ fits_names text.now row.now }
{
    is_spelling(text, row, Reading::Names)
}
