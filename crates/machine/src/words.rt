// The threads in words: each has a part of the lent words, its frames and its own words after them.
ghost use Rattle.std.specs.Prelude.{◌≡◌, ℕ, ◌<◌, length, get_or};
ghost use Rattle.semantics.specs.Machine.{most_threads};
ghost use Rattle.store.specs.Frames.{threads_words};
ghost use Rattle.thread.specs.Own.{own_in, Owned};
ghost use Rattle.machine.specs.Scheduled.{part_of, idle, PutAt};

use store::{MOST_THREADS, THREAD_WORDS};
use thread::{Thread, own, put_thread};

// Thread i.
pub(crate) fn thread_at(words: &[u64], i: usize) -> Thread
    requires { (i < most_threads) × (length words.now ≡ threads_words) }
    ensures { result ≡ own_in (part_of words.now i) }
{
    own(&words[i * THREAD_WORDS..(i + 1) * THREAD_WORDS])
}

// Thread i is t; its frames stay, and so does every other thread.
pub(crate) fn put_at(words: &mut [u64], i: usize, t: Thread)
    requires { (i < most_threads) × (length words.old ≡ threads_words) }
    ensures { PutAt words.old words.new i t }
{
    let part = &mut words[i * THREAD_WORDS..(i + 1) * THREAD_WORDS];
    put_thread(part, t);
}

// The threads are those given; their frames stay.
pub(crate) fn put_threads(threads: [Thread; MOST_THREADS], words: &mut [u64])
    requires { length words.old ≡ threads_words }
    ensures { (j : ℕ) → j < most_threads → Owned (part_of words.old j) (part_of words.new j) (get_or threads j idle) }
{
    for i in 0..MOST_THREADS {
        put_at(words, i, threads[i]);
    }
}

// The threads that the words stand for.
pub(crate) fn threads_in(words: &[u64]) -> [Thread; MOST_THREADS]
    requires { length words.now ≡ threads_words }
    ensures { (j : ℕ) → j < most_threads → get_or result j idle ≡ own_in (part_of words.now j) }
{
    let mut threads = [thread_at(words, 0); MOST_THREADS];
    for i in 1..MOST_THREADS {
        threads[i] = thread_at(words, i);
    }
    threads
}
