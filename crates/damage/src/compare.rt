// Comparing what was sent with what was received.
ghost use Rattle.std.specs.Prelude.{◌≡◌, ◌≢◌, ◌<◌, ℕ, length, slice_index, MatchOption};
ghost use Rattle.bits.specs.Part.{lent, within};
ghost use Rattle.damage.specs.Compare.{compare, differing};
ghost use Rattle.damage.specs.Answers.{told_compared};

use bits::refusal::Refusal;

// The run from the first to the last differing byte, of no bytes if there is none.
#[derive(Clone, Copy, Debug, PartialEq, Eq)]
pub struct Run {
    pub start: usize,
    pub count: usize,
}

// The part of the received bytes from the first to the last that differs from the sent ones: empty, at their start, if
// they are equal or their lengths are not. `compare` tells these two apart.
pub fn differing<'a, 'b>(sent: &'a [u8], received: &'b [u8]) -> &'b [u8]
    ensures { lent result.ref_ptr result.now ≡ within received.entry.ref_ptr (differing sent.now received.now) }
{
    let Ok(run) = compare(sent, received) else {
        return &received[0..0];
    };
    &received[run.start..run.start + run.count]
}

// Compares two areas of one length, else Size.
pub fn compare(sent: &[u8], received: &[u8]) -> Result<Run, Refusal>
    ensures { told_compared result ≡ compare sent.now received.now }
{
    if sent.len() != received.len() {
        return Err(Refusal::Size);
    }
    let Some(start) = first(sent, received) else {
        return Ok(Run { start: 0, count: 0 });
    };
    let Some(last) = last(sent, received) else {
        return Ok(Run { start: 0, count: 0 });
    };
    Ok(Run {
        start,
        count: last + 1 - start,
    })
}

// The first place at which two areas of one length differ. By place: `position` of a zip, which was tried, takes longer.
fn first(sent: &[u8], received: &[u8]) -> Option<usize>
    requires { length sent.now ≡ length received.now }
    ensures { MatchOption result ((k : ℕ) → k < length received.now → slice_index sent.now k ≡ slice_index received.now k) (λ i. (i < length received.now) × (slice_index sent.now i ≢ slice_index received.now i) × ((k : ℕ) → k < i → slice_index sent.now k ≡ slice_index received.now k)) }
{
    for i in 0..sent.len() {
        if sent[i] != received[i] {
            return Some(i);
        }
    }
    None
}

// The last one. By place, counted from the end: `rposition` of a zip, which was tried, says nothing of the place that it finds,
// and a `for` over the places turned round takes longer.
fn last(sent: &[u8], received: &[u8]) -> Option<usize>
    requires { length sent.now ≡ length received.now }
    ensures { MatchOption result ((k : ℕ) → k < length received.now → slice_index sent.now k ≡ slice_index received.now k) (λ i. (i < length received.now) × (slice_index sent.now i ≢ slice_index received.now i) × ((k : ℕ) → i < k → k < length received.now → slice_index sent.now k ≡ slice_index received.now k)) }
{
    let n = sent.len();
    for k in 0..n {
        let i = n - 1 - k;
        if sent[i] != received[i] {
            return Some(i);
        }
    }
    None
}
