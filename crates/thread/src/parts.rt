// A thread and what its store uses, as the state that an act works on.
ghost use Rattle.std.specs.Prelude.{◌≡◌};
ghost use Rattle.thread.specs.View.{state_of};
ghost use Rattle.thread.specs.Inner.{thread_of, used_of};

use crate::Thread;
use acts::State;
use store::Used;

// The state of a thread over a store that uses so much.
pub(crate) fn joined(thread: Thread, used: Used) -> State
    ensures { result ≡ state_of thread used }
{
    State {
        now: thread.now,
        frames: thread.frames,
        cells: used.cells,
        keys: used.keys,
        pairs: used.pairs,
        functions: used.functions,
        bindings: used.bindings,
    }
}

// The thread of a state, and what its store uses.
pub(crate) fn thread_of(s: State) -> Thread
    ensures { result ≡ thread_of s }
{
    Thread {
        now: s.now,
        frames: s.frames,
    }
}

pub(crate) fn used_of(s: State) -> Used
    ensures { result ≡ used_of s }
{
    Used {
        cells: s.cells,
        keys: s.keys,
        pairs: s.pairs,
        functions: s.functions,
        bindings: s.bindings,
    }
}
