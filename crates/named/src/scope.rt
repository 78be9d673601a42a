// The declarations that are open, in one row of words, so that the innermost one of a name is found without a walk over all of them. The
// declaration at level l, from 0 outwards in, has the words from 4 * l on. At the end of the row stand the slots. Names share a slot; the
// outermost declarations of its names are linked from it, one for each name, and each has the innermost level of its name. So an occurrence
// passes at most as many declarations as there are names to a slot: 262, 33 or 17, by the number of slots.
ghost use Rattle.std.specs.Prelude.{◌≡◌, ◌+◌, ◌*◌, ◌≤◌, ◌<◌, length};
ghost use Rattle.named.specs.Internal.Scope.{slot_of, scope_of, level_in, first_in, cell_in, Sized, opens, open_all, closes, Held};

// Where the slot of a name stands in a row of n words. Names share slots by their remainder by a prime number, so that names at equal distances
// fall into different ones.
fn slot_of(n: usize, m: u32) -> usize
    requires { 256 ≤ n }
    ensures value { result ≡ slot_of n m }
    ensures upper_bound { result < n }
{
    if n < 2048 {
        return n - 256 + (m % 251) as usize;
    }
    if n < 8192 {
        return n - 2048 + (m % 2039) as usize;
    }
    n - 4096 + (m % 4093) as usize
}

// One more than the level of the outermost declaration of the name, or 0 where it has none.
fn first_of(scope: &[u32], m: u32, under: u32) -> u32
    requires { Sized under (length scope.now) × Held scope.now under }
    ensures { result ≡ first_in (scope_of scope.now under) m }
{
    let slot = slot_of(scope.len(), m);
    let mut l = scope[slot];
    while 0 < l {
        let at = 4 * ((l - 1) as usize);
        if scope[at] == m {
            return l;
        }
        l = scope[at + 1];
    }
    0
}

// The word that holds the innermost level of the name, or its slot where the name has no declaration.
fn cell_of(scope: &[u32], m: u32, under: u32) -> usize
    requires { Sized under (length scope.now) × Held scope.now under }
    ensures { result ≡ cell_in scope.now under m }
{
    let first = first_of(scope, m, under);
    if first == 0 {
        return slot_of(scope.len(), m);
    }
    4 * ((first - 1) as usize) + 2
}

// One declaration more, at the level `under`.
fn open_name(scope: &mut [u32], m: u32, under: u32)
    requires { Sized (under + 1) (length scope.old) × Held scope.old under }
    ensures { scope.new ≡ opens m under scope.old }
{
    let cell = cell_of(scope, m, under);
    let at = 4 * (under as usize);
    let before = scope[cell];
    scope[at] = m;
    scope[at + 1] = before;
    scope[at + 2] = under + 1;
    scope[at + 3] = cell as u32;
    scope[cell] = under + 1;
}

// The declarations of a quantifier, the first at the level `under`.
pub(crate) fn open_names(scope: &mut [u32], declared: &[u32], under: u32)
    requires { Sized (under + length declared.now) (length scope.old) × Held scope.old under }
    ensures { scope.new ≡ open_all declared.now under scope.old }
{
    for (i, m) in declared.iter().enumerate() {
        open_name(scope, *m, under + i as u32);
    }
}

// The n innermost declarations closed again, down to the level `under`.
pub(crate) fn close_names(scope: &mut [u32], under: u32, n: u32)
    requires { Sized (under + n) (length scope.old) × Held scope.old (under + n) }
    ensures { scope.new ≡ closes under n scope.old }
{
    for l in (0..n).rev() {
        let at = 4 * ((under + l) as usize);
        let cell = scope[at + 3] as usize;
        scope[cell] = scope[at + 1];
    }
}

// One more than the level of the innermost declaration of the name, or 0 where it has none.
pub(crate) fn level_of(scope: &[u32], m: u32, under: u32) -> u32
    requires { Sized under (length scope.now) × Held scope.now under }
    ensures { result ≡ level_in (scope_of scope.now under) m }
{
    let first = first_of(scope, m, under);
    if first == 0 {
        return 0;
    }
    scope[4 * ((first - 1) as usize) + 2]
}
