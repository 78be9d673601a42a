// Which line comes next in the bytes that were read.
ghost use Rattle.std.specs.Prelude.{◌≡◌};
ghost use Rattle.reply.specs.Split.{newline_in, next_of};

// A whole line of so many bytes; the end of a line that was too long, after so many; a line that is too long already; or nothing yet.
#[derive(Clone, Copy)]
pub enum Next {
    Line(usize),
    Skipped(usize),
    Long,
    More,
}

// The number of bytes before the first newline, or of all.
fn newline(bytes: &[u8]) -> usize
    ensures { result ≡ newline_in bytes.now }
{
    bytes
        .iter()
        .position(|byte| *byte == b'\n')
        .unwrap_or(bytes.len())
}

// What is to be done with the bytes that are not answered yet, where a line that is too long is being skipped or not.
pub fn next_line(bytes: &[u8], skipping: bool) -> Next
    ensures { result ≡ next_of skipping bytes.now }
{
    let n = newline(bytes);
    if n < bytes.len() {
        if skipping {
            return Next::Skipped(n);
        }
        return Next::Line(n);
    }
    if skipping {
        return Next::More;
    }
    if 65535 < n {
        return Next::Long;
    }
    Next::More
}
