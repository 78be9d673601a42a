// Printing the answer to a line: a form, or a refusal.
ghost use Rattle.std.specs.Prelude.{◌≡◌, ◌+◌, ◌*◌, ◌^◌, ◌≤◌, ◌<◌, length};
ghost use Rattle.form.specs.Answer.{told, written};
ghost use Rattle.spell.specs.Spell.{print_outcome, ending, spell_no, print_no};
ghost use Rattle.spell.specs.Internal.Writes.{Wrote};

use crate::decimal::{put_byte, put_decimal};
use crate::whole::print_row;
use broken::position::broken_at;
use form::answer::{Answer, Kind, Refusal};

// The spelling is printed to a buffer of so many bytes first, as a refusal leaves the output as it was.
fn print_through<const BYTES: usize>(row: &[u32], out: &mut [u8]) -> Answer
    requires { (length row.now ≤ 8192) × (13 * length row.now ≤ BYTES) × (BYTES ≤ 106496) }
    ensures value { result ≡ told (print_outcome row.now (length out.old)) }
    ensures out_after { out.new ≡ written (print_outcome row.now (length out.old)) out.old }
{
    let mut bytes = [0u8; BYTES];
    let Some(n) = print_row(row, &mut bytes) else {
        return Err(Refusal::Broken(broken_at(row, Kind::Either)));
    };
    if out.len() < n {
        return Err(Refusal::OutputTooShort);
    }
    out[..n].copy_from_slice(&bytes[..n]);
    Ok(n)
}

// The spelling of the form that the row is.
pub fn print_form(row: &[u32], out: &mut [u8]) -> Answer
    ensures value { result ≡ told (print_outcome row.now (length out.old)) }
    ensures out_after { out.new ≡ written (print_outcome row.now (length out.old)) out.old }
{
    match row.len() {
        0..=64 => print_through::<832>(row, out),
        65..=512 => print_through::<6656>(row, out),
        513..=2048 => print_through::<26624>(row, out),
        2049..=8192 => print_through::<106496>(row, out),
        _ => Err(Refusal::TooLong),
    }
}

// The position of a refusal by 2, and the bracket.
fn put_ending(out: &mut [u8], o: usize, k: u32, p: u32) -> usize
    requires { o + 20 < 2 ^ 64 }
    ensures { Wrote o (ending k p) out.old out.new result }
{
    if k != 2 {
        return put_byte(out, o, b']');
    }
    let from = put_byte(out, o, b' ');
    let q = put_decimal(out, from, p);
    put_byte(out, q, b']')
}

// `[no k]` or `[no 2 p]`, at the front of the output.
fn put_no(out: &mut [u8], k: u32, p: u32) -> usize
    ensures { Wrote 0 (spell_no k p) out.old out.new result }
{
    put_byte(out, 0, b'[');
    put_byte(out, 1, b'n');
    put_byte(out, 2, b'o');
    put_byte(out, 3, b' ');
    let q = put_decimal(out, 4, k);
    put_ending(out, q, k, p)
}

// The spelling of a refusal.
pub fn print_no(k: u32, p: u32, out: &mut [u8]) -> Answer
    ensures value { result ≡ told (print_no k p (length out.old)) }
    ensures out_after { out.new ≡ written (print_no k p (length out.old)) out.old }
{
    let mut none = [0u8; 1];
    let n = put_no(&mut none, k, p);
    if out.len() < n {
        return Err(Refusal::OutputTooShort);
    }
    put_no(out, k, p);
    Ok(n)
}
