//! Numbers handed out to threads: each thread takes the least that is left.

ghost use Rattle.std.specs.Prelude.{◌≡◌, ◌⊎◌, ℕ, ◌<◌, All, Contains, Some, None, IfOk, IfSome, length, slice_index_or, vec_len};
ghost use denote.Param.Send.{IsSync, IsSend};
ghost use Rattle.rg_pool.specs.Inner.Deals.{Fills};

use std::alloc::{AllocError, Global};
use std::sync::atomic::{AtomicU64, Ordering};
use std::thread;
use std::thread::Threads;

/// No more threads are started side by side than that.
const MOST_THREADS: usize = 256;

/// The answers for numbers below `count`, which are taken one by one until none is left, each with its number.
fn take_turns<X: Drop, F: Fn(usize) -> Option<X>>(
    alloc: Global,
    count: usize,
    next: &AtomicU64,
    f: &F,
) -> Result<Vec<(usize, X)>, AllocError>
    requires { (i : ℕ) → i < count → F.pre f.now i }
    ensures { IfOk result (λ v. All (λ a. (a.0 < count) × F.post f.now a.0 (Some a.1)) v.items) }
{
    let mut answers = Vec::new(alloc);
    for _ in 0..count {
        let index = next.fetch_add(1, Ordering::SeqCst) as usize;
        if index >= count {
            break;
        }
        if let Some(answer) = f(index) {
            answers.push((index, answer))?;
        }
    }
    Ok(answers)
}

/// So many places with nothing in them.
fn empty_places<X: Drop>(alloc: Global, count: usize) -> Result<Vec<Option<X>>, AllocError>
    ensures len { IfOk result (λ v. vec_len v ≡ count) }
    ensures empty { IfOk result (λ v. All (λ a. a ≡ None) v.items) }
{
    let mut places = Vec::with_capacity(alloc, count)?;
    for _ in 0..count {
        places.push(None)?;
    }
    Ok(places)
}

/// Puts each answer at the place of its number.
fn put_all<X: Drop>(places: &mut Vec<Option<X>>, answers: Vec<(usize, X)>)
    requires { All (λ a. a.0 < vec_len places.old) answers.items }
    ensures { Fills answers.items places.old.items places.new.items }
{
    let mut answers = answers;
    while let Some((index, answer)) = answers.pop() {
        places[index] = Some(answer);
    }
}

/// What `f` answers for numbers below `count`, in at most so many threads, and at most `MOST_THREADS`, where each thread takes the least number that is left. Where `f` has no
/// answer, nothing stands at the number's place.
///
/// # Errors
///
/// Only where memory is refused. All threads are joined then too.
pub fn deal<R: Threads + Sync, X: Send + Drop, F: Fn(usize) -> Option<X> + Sync>(
    rt: &R,
    alloc: Global,
    threads: usize,
    count: usize,
    f: &F,
) -> Result<Vec<Option<X>>, AllocError>
    requires { (i : ℕ) → i < count → F.pre f.now i }
    ensures len { IfOk result (λ v. vec_len v ≡ count) }
    // An answer is one that the call with its number gave.
    ensures each { IfOk result (λ v. (i : ℕ) → i < count → IfSome (slice_index_or v.items i None) (λ x. F.post f.now i (Some x))) }
{
    let next = AtomicU64::new(0);
    let shared = &next;
    let worker = move |_: usize| -> Result<Vec<(usize, X)>, AllocError>
        requires { (i : ℕ) → i < count → F.pre f.now i }
        ensures { IfOk result (λ v. All (λ a. (a.0 < count) × F.post f.entry.now a.0 (Some a.1)) v.items) }
    { take_turns(alloc, count, shared, f) };
    let most = threads.min(count).min(MOST_THREADS).max(1);
    let mut parts = thread::map_indices(rt, alloc, most, &worker)?;
    let mut places = empty_places(alloc, count)?;
    while let Some(part) = parts.pop() {
        put_all(&mut places, part?);
    }
    Ok(places)
}
