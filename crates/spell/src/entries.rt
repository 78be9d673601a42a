// The printers of lists: pairs, places and names.
ghost use Rattle.std.specs.Prelude.{◌+◌, ◌-◌, ◌*◌, ◌^◌, ◌<◌, ◌≤◌, length, drop};
ghost use Rattle.form.specs.Lists.{entry_of, list_of};
ghost use Rattle.form.specs.declared.answer.ListKind.TheVariants.{Pairs, Places};
ghost use Rattle.spell.specs.Spell.{spell_names};
ghost use Rattle.spell.specs.Internal.Writes.{Wrote, PrintedEntry, PrintedEntries, PrintedList, AtMost};

use crate::decimal::{put_byte, put_decimal, put_spaced};
use crate::print::{Spot, print_node};
use form::answer::{Limit, ListKind};

// A name and its expression.
fn print_pair(row: &[u32], out: &mut [u8], at: Spot) -> Option<Spot>
    requires { at.out + 13 * (length row.now - at.row) < 2 ^ 64 }
    ensures { PrintedEntry Pairs at.row at.out (entry_of Pairs (drop at.row row.now)) out.old out.new result }
{
    if row.len() <= at.row {
        return None;
    }
    let i = put_byte(out, at.out, b'[');
    let j = put_decimal(out, i, row[at.row]);
    let k = put_byte(out, j, b' ');
    let from = Spot {
        row: at.row + 1,
        out: k,
    };
    let ends = print_node(row, out, from, true, Limit::DEPTH)?;
    Some(Spot {
        row: ends.row,
        out: put_byte(out, ends.out, b']'),
    })
}

// A kept place, or the expression that fills it.
fn print_place(row: &[u32], out: &mut [u8], at: Spot) -> Option<Spot>
    requires { at.out + 13 * (length row.now - at.row) < 2 ^ 64 }
    ensures { PrintedEntry Places at.row at.out (entry_of Places (drop at.row row.now)) out.old out.new result }
{
    if row.len() <= at.row {
        return None;
    }
    let after = at.row + 1;
    match row[at.row] {
        0 => {
            let i = put_byte(out, at.out, b'[');
            Some(Spot {
                row: after,
                out: put_byte(out, i, b']'),
            })
        }
        1 => print_node(row, out, Spot { row: after, ..at }, true, Limit::DEPTH),
        _ => None,
    }
}

fn print_entry(row: &[u32], out: &mut [u8], at: Spot, kind: ListKind) -> Option<Spot>
    requires { at.out + 13 * (length row.now - at.row) < 2 ^ 64 }
    ensures { PrintedEntry kind at.row at.out (entry_of kind (drop at.row row.now)) out.old out.new result }
{
    match kind {
        ListKind::Pairs => print_pair(row, out, at),
        ListKind::Places => print_place(row, out, at),
    }
}

// The entries to the end of the row: the first after a bracket, the others after a space.
fn print_entries(row: &[u32], out: &mut [u8], kind: ListKind) -> Option<usize>
    requires { length row.now ≤ 8192 }
    ensures at_most { AtMost (13 * length row.now) result }
    ensures printed_entries { PrintedEntries 91 kind 0 (list_of kind row.now) out.old out.new result }
{
    let mut spot = Spot { row: 0, out: 0 };
    let mut before = b'[';
    while spot.row < row.len() {
        let from = Spot {
            row: spot.row,
            out: put_byte(out, spot.out, before),
        };
        spot = print_entry(row, out, from, kind)?;
        before = b' ';
    }
    Some(spot.out)
}

// The whole list.
pub(crate) fn print_list(row: &[u32], out: &mut [u8], kind: ListKind) -> Option<usize>
    requires { length row.now ≤ 8192 }
    ensures { PrintedList kind (list_of kind row.now) out.old out.new result }
{
    let o = print_entries(row, out, kind)?;
    if o == 0 {
        let i = put_byte(out, 0, b'[');
        return Some(put_byte(out, i, b']'));
    }
    Some(put_byte(out, o, b']'))
}

// The whole list of names.
pub(crate) fn print_names(row: &[u32], out: &mut [u8]) -> usize
    requires { length row.now ≤ 8192 }
    ensures { Wrote 0 (spell_names row.now) out.old out.new result }
{
    let i = put_byte(out, 0, b'[');
    if row.is_empty() {
        return put_byte(out, i, b']');
    }
    let j = put_decimal(out, i, row[0]);
    let k = put_spaced(&row[1..], out, j);
    put_byte(out, k, b']')
}
