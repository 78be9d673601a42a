// An element in a comprehension, by the positions of its parts in the row.
ghost use Rattle.std.specs.Prelude.{◌≡◌, [], ◌+◌, ◌≤◌, ◌<◌, length};
ghost use Rattle.tree.specs.Form.{Form};
ghost use Rattle.tree.specs.Tag.{pred};
ghost use Rattle.form.specs.Decode.{got, decode};
ghost use Rattle.member.specs.Internal.Member.{set_tag, guard_at, SetTold};

use decls::ends::decls_end;
use places::positions::{expr_end, skip_pred};
use tree::tag::Tag;

// Where the comprehension stands, how many declarations it has, and where its guard and its value start.
#[derive(Clone, Copy)]
pub struct Comprehension {
    pub at: usize,
    pub n: u32,
    pub guard: usize,
    pub value: usize,
}

// A membership that was found: its row, the marks of the row's words, and where the comprehension lies.
#[derive(Clone, Copy)]
pub(crate) struct Membership<'a> {
    pub row: &'a [u32],
    pub marks: &'a [u32],
    pub set: Comprehension,
}

// Whether a tag is that of a comprehension with a guard and a value, with or without annotations.
fn is_set(tag: u32) -> bool
    ensures { result ≡ set_tag tag }
{
    matches!(tag, Tag::COMPREHENSION_SET | Tag::NOTED_COMPREHENSION_SET)
}

// Where the guard of the comprehension at `at` starts, behind its n declarations.
#[tactic(auto, unfolding(crate::specs::Internal::Member::guard_at))]
fn guard_at(row: &[u32], at: usize, n: u32) -> usize
    requires { (at + 2 < length row.now) × (n ≤ 32) }
    ensures { result ≡ guard_at row.now at n }
{
    if row[at] == Tag::COMPREHENSION_SET {
        at + 3 + n as usize
    } else {
        decls_end(row, at + 3, n)
    }
}

// The comprehension on the right of 107.
pub(crate) fn membership_of(row: &[u32]) -> Option<Comprehension>
    requires { (f : Form) × (decode 64 pred row.now ≡ got f []) }
    ensures { SetTold row.now result }
{
    if row[0] != Tag::IN {
        return None;
    }
    let at = expr_end(row, 1);
    if !is_set(row[at]) {
        return None;
    }
    let n = row[at + 2];
    let guard = guard_at(row, at, n);
    let value = skip_pred(row, guard, 62)?;
    Some(Comprehension {
        at,
        n,
        guard,
        value,
    })
}
