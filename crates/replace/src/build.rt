// The words that a source makes of a form: counted where they may be too many, built, checked as a form where they may be none, and answered.
ghost use Rattle.std.specs.Prelude.{◌≡◌, false, ◌+◌, ◌≤◌, length};
ghost use Rattle.form.specs.Answer.{told, written};
ghost use Rattle.shift.specs.Internal.Items.{store};
ghost use Rattle.replace.specs.Internal.Pieces.{short_words};
ghost use Rattle.replace.specs.Internal.Job.{Readied, job_size, headed_words, headed_row};

use crate::emit::{copy, emit, emit_short};
use crate::length::{check_length, fit_work};
use crate::pieces::Job;
use crate::splice::write_spliced;
use form::answer::{Answer, Kind, Limit};

// The head and what stands for the job's items, stored at the start of a row: how many words they are.
fn write_words(head: &[u32], job: Job, out: &mut [u32]) -> usize
    requires ready { Readied job }
    requires marks_in_bounds { length head.now + job_size job ≤ length out.old }
    ensures value { result ≡ length head.now + job_size job.entry }
    ensures out_after { out.new ≡ store out.old 0 (headed_words head.now job.entry) }
{
    copy(head, out, 0);
    write_spliced(job, out, head.len())
}

// The same as an answer, of which only the number of words is checked, before they are written.
fn replace_counted(head: &[u32], job: Job, out: &mut [u32]) -> Answer
    requires { Readied job }
    ensures value { result ≡ told (short_words (headed_words head.now job.entry) (length out.old)) }
    ensures out_after { out.new ≡ written (short_words (headed_words head.now job.entry) (length out.old)) out.old }
{
    check_length(head.len(), job, out.len())?;
    Ok(write_words(head, job, out))
}

// The same, built in a work row, so that nothing is counted first. The row lies in a frame of its own.
#[inline(never)]
fn replace_built(head: &[u32], job: Job, out: &mut [u32]) -> Answer
    requires ready { Readied job }
    requires marks_len_bound { length head.now + job_size job ≤ 32768 }
    ensures value { result ≡ told (short_words (headed_words head.now job.entry) (length out.old)) }
    ensures out_after { out.new ≡ written (short_words (headed_words head.now job.entry) (length out.old)) out.old }
{
    let mut work = [0u32; 32768];
    let n = write_words(head, job, &mut work);
    emit_short(&work[..n], out)
}

// The same, checked as a form of the kind.
#[inline(never)]
fn replace_checked(kind: Kind, head: &[u32], job: Job, out: &mut [u32]) -> Answer
    requires { Readied job }
    ensures value { result ≡ told (headed_row false kind head.now job.entry (length out.old)) }
    ensures out_after { out.new ≡ written (headed_row false kind head.now job.entry (length out.old)) out.old }
{
    check_length(head.len(), job, Limit::WORDS)?;
    let mut work = [0u32; Limit::WORDS];
    let n = write_words(head, job, &mut work);
    emit(kind, &work[..n], out)
}

// The head and what stands for the job's items, as a form of the kind. Where it is sure to be one, only its length is checked. What
// stands for a short row is counted, so that the call lays out no row of its own.
pub(crate) fn replace(sure: bool, kind: Kind, head: &[u32], job: Job, out: &mut [u32]) -> Answer
    requires { Readied job }
    ensures value { result ≡ told (headed_row sure kind head.now job.entry (length out.old)) }
    ensures out_after { out.new ≡ written (headed_row sure kind head.now job.entry (length out.old)) out.old }
{
    if !sure {
        return replace_checked(kind, head, job, out);
    }
    if 1024 < job.left() && fit_work(head.len(), job, out.len()) {
        return replace_built(head, job, out);
    }
    replace_counted(head, job, out)
}
