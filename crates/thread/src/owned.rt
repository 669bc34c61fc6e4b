// A thread's own words, after its frames: 1 where it hands on a value and 0 where it enters an expression, that value or expression, its bindings, its enabled keys in two, and how many
// frames are used. A step works on them in place, so that of all threads each finds its words where it left them.
ghost use Rattle.std.specs.Prelude.{◌≡◌, length};
ghost use Rattle.store.specs.Frames.{thread_words};
ghost use Rattle.thread.specs.Own.{control_at, flag_of, word_of, own_in, with_control, with_place, with_count, Owned};

use crate::Thread;
use acts::{Control, Now};
use store::{Keys, MOST_FRAMES};
use table::{Expr, get_or, set_at};

const FLAG: usize = MOST_FRAMES as usize * 6;

const WORD: usize = FLAG + 1;

const ENV: usize = FLAG + 2;

const ON: usize = FLAG + 3;

const MORE: usize = FLAG + 4;

const COUNT: usize = FLAG + 5;

fn control_of(flag: u64, word: u64) -> Control
    ensures { result ≡ control_at flag word }
{
    if flag == 0 {
        Control::Enter(Expr((word % 65536) as u16))
    } else {
        Control::Hand(word)
    }
}

fn flag_of(c: Control) -> u64
    ensures { result ≡ flag_of c }
{
    match c {
        Control::Enter(_) => 0,
        Control::Hand(_) => 1,
    }
}

fn word_of(c: Control) -> u64
    ensures { result ≡ word_of c }
{
    match c {
        Control::Enter(e) => e.0 as u64,
        Control::Hand(w) => w,
    }
}

// The thread that the words of its part stand for.
pub fn own(t: &[u64]) -> Thread
    ensures { result ≡ own_in t.now }
{
    Thread {
        now: Now {
            control: control_of(get_or(t, FLAG, 0), get_or(t, WORD, 0)),
            env: (get_or(t, ENV, 0) % 65536) as u16,
            on: Keys(get_or(t, ON, 0), get_or(t, MORE, 0)),
        },
        frames: get_or(t, COUNT, 0),
    }
}

pub(crate) fn put_control(t: &mut [u64], c: Control)
    requires { length t.old ≡ thread_words }
    ensures { Owned t.old t.new (with_control (own_in t.old) c) }
{
    set_at(t, FLAG, flag_of(c));
    set_at(t, WORD, word_of(c));
}

pub(crate) fn put_place(t: &mut [u64], env: u16, on: Keys)
    requires { length t.old ≡ thread_words }
    ensures { Owned t.old t.new (with_place (own_in t.old) env on) }
{
    set_at(t, ENV, env as u64);
    set_at(t, ON, on.0);
    set_at(t, MORE, on.1);
}

pub(crate) fn put_count(t: &mut [u64], n: u64)
    requires { length t.old ≡ thread_words }
    ensures { Owned t.old t.new (with_count (own_in t.old) n) }
{
    set_at(t, COUNT, n);
}

pub fn put_thread(t: &mut [u64], x: Thread)
    requires { length t.old ≡ thread_words }
    ensures { Owned t.old t.new x }
{
    put_control(t, x.now.control);
    put_place(t, x.now.env, x.now.on);
    put_count(t, x.frames);
}
