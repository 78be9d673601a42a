// How long a result may be: when it is sure to fit, and when its length is refused.
ghost use Rattle.std.specs.Prelude.{◌≡◌, not, ◌&&◌, ◌+◌, ◌*◌, ◌≤◌, min, leb};
ghost use Rattle.replace.specs.Internal.Pieces.{half, checked_length, Tabled};
ghost use Rattle.replace.specs.Internal.Job.{job_plan, job_size, most_words};

use crate::pieces::{Job, longest_part, words_needed};
use form::answer::{Limit, Refusal};

// Whether a head and what stands for so many words, at most half of the longest part for each, are at most so many.
fn always_fit(head: usize, words: usize, longest: usize, most: usize) -> bool
    requires { 2 ≤ longest }
    ensures { result ≡ leb (head + words * half longest) most }
{
    head <= most && words <= (most - head) / (longest - longest / 2)
}

// Whether a head and what stands for the job's items are at most 8,192 words, and fit in a row of so many. They are counted only
// where they may be too many.
pub(crate) fn check_length(head: usize, job: Job, room: usize) -> Result<(), Refusal>
    requires { Tabled (job_plan job) }
    ensures { result ≡ checked_length (head + job_size job.entry) room }
{
    let longest = longest_part(job.source.table);
    if always_fit(head, job.left(), longest, room.min(Limit::WORDS)) {
        return Ok(());
    }
    let body = words_needed(job);
    if Limit::WORDS < body || Limit::WORDS - body < head {
        return Err(Refusal::OutOfLimits);
    }
    if room < head + body {
        return Err(Refusal::OutputTooShort);
    }
    Ok(())
}

// Whether a head and what stands for the job's items may be too many words for an answer, but fit in a work row of 32,768.
pub(crate) fn fit_work(head: usize, job: Job, room: usize) -> bool
    requires { Tabled (job_plan job) }
    ensures { result ≡ (not (leb (most_words head job.entry) (min room 8192)) && leb (most_words head job.entry) 32768) }
{
    let longest = longest_part(job.source.table);
    let words = job.left();
    !always_fit(head, words, longest, room.min(Limit::WORDS))
        && always_fit(head, words, longest, 32768)
}
