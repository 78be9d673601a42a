// Bytes and decimal words, written at a position of the output. Nothing is written past its end; positions are counted on.
ghost use Rattle.std.specs.Prelude.{[], ◌∷◌, ◌+◌, ◌*◌, ◌^◌, ◌<◌, length};
ghost use Rattle.spell.specs.Spell.{digits, decimal, spaced};
ghost use Rattle.spell.specs.Internal.Writes.{Wrote};

// One byte at `o`.
pub(crate) fn put_byte(out: &mut [u8], o: usize, byte: u8) -> usize
    requires { o + 1 < 2 ^ 64 }
    ensures { Wrote o (byte ∷ []) out.old out.new result }
{
    if out.len() <= o {
        return o + 1;
    }
    out[o] = byte;
    o + 1
}

// At most so many digits of n.
fn put_digits(out: &mut [u8], o: usize, n: u32, places: u32) -> usize
    requires { o + places < 2 ^ 64 }
    ensures { Wrote o (digits places n) out.old out.new result }
{
    if places == 0 {
        return o;
    }
    if n < 10 {
        return put_byte(out, o, 48 + (n as u8));
    }
    let p = put_digits(out, o, n / 10, places - 1);
    put_byte(out, p, 48 + ((n % 10) as u8))
}

// A word: up to three digits at once, more by recursion.
pub(crate) fn put_decimal(out: &mut [u8], o: usize, n: u32) -> usize
    requires { o + 10 < 2 ^ 64 }
    ensures { Wrote o (decimal n) out.old out.new result }
{
    if n < 10 {
        return put_byte(out, o, 48 + (n as u8));
    }
    let tens = n / 10;
    if n < 100 {
        let p = put_byte(out, o, 48 + (tens as u8));
        return put_byte(out, p, 48 + ((n % 10) as u8));
    }
    if n < 1000 {
        let p = put_byte(out, o, 48 + ((tens / 10) as u8));
        let q = put_byte(out, p, 48 + ((tens % 10) as u8));
        return put_byte(out, q, 48 + ((n % 10) as u8));
    }
    put_digits(out, o, n, 10)
}

// Words, each after a space.
pub(crate) fn put_spaced(words: &[u32], out: &mut [u8], o: usize) -> usize
    requires { o + 11 * length words.now < 2 ^ 64 }
    ensures { Wrote o (spaced words.now) out.old out.new result }
{
    let mut q = o;
    for word in words {
        q = put_byte(out, q, b' ');
        q = put_decimal(out, q, *word);
    }
    q
}
