// Words of the row that is made.
ghost use Rattle.std.specs.Prelude.{◌≡◌, ◌+◌, ◌-◌, ◌≤◌, ◌<◌, length, take, drop};
ghost use Rattle.tree.specs.Form.{leaf, encode};
ghost use Rattle.rules.specs.Named.{occurrence};
ghost use Rattle.named.specs.Internal.Scope.{Sized, scope_of, Held};
ghost use Rattle.shift.specs.Internal.Items.{store};

use crate::scope::level_of;
use tree::tag::Tag;

// The words from `at` up to `end`, copied. They are few, and a loop of its own is faster than a call of the library for them.
pub(crate) fn copy_words(row: &[u32], made: &mut [u32], at: usize, end: usize)
    requires { (end ≤ length row.now) × (end ≤ length made.old) }
    ensures { made.new ≡ store made.old at (take (end - at) (drop at row.now)) }
{
    for i in at..end {
        made[i] = row[i];
    }
}

// An occurrence of a name: its index, where a declaration binds it.
pub(crate) fn put_name(made: &mut [u32], scope: &[u32], at: usize, m: u32, under: u32)
    requires { (at + 1 < length made.old) × Sized under (length scope.now) × Held scope.now under }
    ensures { made.new ≡ store made.old at (encode (leaf (occurrence (scope_of scope.now under) m))) }
{
    let level = level_of(scope, m, under);
    if level == 0 {
        made[at] = Tag::FREE_IDENT;
        made[at + 1] = m;
    } else {
        made[at] = Tag::BOUND_IDENT;
        made[at + 1] = under - level;
    }
}
