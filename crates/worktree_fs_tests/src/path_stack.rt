//! Lookups of a stack of paths, with a delegate that keeps what it is told.
ghost use Rattle.std.specs.Prelude.{◌≡◌, ◌+◌, ◌-◌, ◌^◌, ◌<◌, ◌≤◌, ◌++◌, ◌∷◌, [], min, if◌then◌else◌, length, map, take};
ghost use Rattle.worktree_fs.specs.PathStack.{push_directory, push, pop_directory, call_with_refusal};

use gitbase_core::{OutOfMemory, PathText};
use std::alloc::Global;
use std::process::Abort;
use test_cases::split_at_byte;
use worktree_fs::{PathDelegate, PathStack, PathStackError, next_component};

/// A call that a recorder was given.
#[derive(Drop)]
struct Told {
    is_pop: bool,
    is_directory: bool,
    is_last: bool,
    path: PathText,
    is_refused: bool,
}

/// The one reason to refuse.
#[derive(Clone, Copy, Debug)]
struct Planned;

/// Keeps the calls that it is given, and refuses one by its number, from 1.
#[derive(Drop)]
struct Recorder<'a, A: Abort> {
    rt: &'a A,
    alloc: Global,
    calls: Vec<Told>,
    refused: usize,
    refusals: u64,
}

impl<'a, A: Abort> Recorder<'a, A> {
    fn new(rt: &'a A, alloc: Global, refused: usize) -> Recorder<'a, A> {
        Recorder {
            rt,
            alloc,
            calls: Vec::new(alloc),
            refused,
            refusals: 0,
        }
    }

    /// Whether the next call is to be refused.
    fn is_due(&self) -> bool {
        self.calls.len() + 1 == self.refused
    }

    /// Keeps a call.
    fn keep(
        &mut self,
        path: &[u8],
        is_pop: bool,
        is_directory: bool,
        is_last: bool,
        is_refused: bool,
    )
        ensures calls { self.new.calls.items ≡ self.old.calls.items ++ record {
          is_pop = is_pop;
          is_directory = is_directory;
          is_last = is_last;
          path = path.now;
          is_refused = is_refused;
        } ∷ [] }
        ensures refusals { self.new.refusals
            ≡ (if is_refused then min (self.old.refusals + 1) (2 ^ 64 - 1) else self.old.refusals) }
        ensures later { self.old.refusals ≤ self.new.refusals }
        ensures refused { self.new.refused ≡ self.old.refused }
    {
        let path = PathText::from_bytes(self.alloc, path).expect(self.rt, "memory");
        let told = Told {
            is_pop,
            is_directory,
            is_last,
            path,
            is_refused,
        };
        self.calls.push(told).expect(self.rt, "memory");
        if is_refused {
            self.refusals = self.refusals.saturating_add(1);
        }
    }

    /// The calls as a text: `d` a directory, `p` a path on the way, `l` the last one, `^` a pop,
    /// `!` a refusal.
    fn text(&self) -> Result<Vec<u8>, OutOfMemory> {
        let mut text = Vec::new(self.alloc);
        for told in &self.calls {
            if told.is_refused {
                text.push(b'!')?;
            }
            text.push(sign(told))?;
            text.extend_from_slice(told.path.as_bytes())?;
            text.push(b' ')?;
        }
        Ok(text)
    }
}

fn sign(told: &Told) -> u8 {
    if told.is_pop {
        b'^'
    } else if told.is_directory {
        b'd'
    } else if told.is_last {
        b'l'
    } else {
        b'p'
    }
}

impl<'a, A: Abort> PathDelegate for Recorder<'a, A> {
    type Error = Planned;

    ghost given = { λ r. map (λ t. call_with_refusal
        (if t.is_pop then pop_directory else if t.is_directory then push_directory t.path
        else push t.path t.is_last)
        t.is_refused) r.calls.items };

    ghost refusals = { λ r. r.refusals };

    ghost causes = { λ r _. 0 < r.refusals };

    ghost rule = { λ first now. (now.refused ≡ first.refused)
        × (take (length first.calls.items) now.calls.items ≡ first.calls.items) };

    #[tactic(auto, using(crate::proofs::Mapped::map_push, crate::proofs::Mapped::front_push))]
    fn push_directory(&mut self, _alloc: Global, dir: &[u8]) -> Result<(), Planned> {
        let is_refused = self.is_due();
        self.keep(dir, false, true, false, is_refused);
        if is_refused {
            return Err(Planned);
        }
        Ok(())
    }

    #[tactic(auto, using(crate::proofs::Mapped::map_push, crate::proofs::Mapped::front_push))]
    fn push(&mut self, _alloc: Global, path: &[u8], is_last: bool) -> Result<(), Planned> {
        let is_refused = self.is_due();
        self.keep(path, false, false, is_last, is_refused);
        if is_refused {
            return Err(Planned);
        }
        Ok(())
    }

    #[tactic(auto, using(crate::proofs::Mapped::map_push, crate::proofs::Mapped::front_push))]
    fn pop_directory(&mut self) {
        self.keep(b"", true, false, false, false);
    }
}

/// What a lookup answered: `+`, `n` for a path that is not normal, `!` for a delegate's refusal,
/// `m` for want of memory.
fn answer(looked: Result<(), PathStackError<Planned>>) -> u8 {
    match looked {
        Ok(()) => b'+',
        Err(PathStackError::NotNormal) => b'n',
        Err(PathStackError::Delegate(_)) => b'!',
        Err(PathStackError::OutOfMemory) => b'm',
    }
}

/// One lookup after another, parted by bars: the path, a stroke for each call up to the one that is
/// refused, the answer, the calls, a stroke for each directory that is pushed then, and the current
/// path.
const ROWS: &[u8] = b"\
a/b`i`!`!d ``/w|a/b/c``+`d pa da pa/b da/b la/b/c `iii`/w/a/b/c|a/b``+`^ la/b `ii`/w/a/b|\
a/x//y``+`pa/x da/x la/x/y `iii`/w/a/x/y|../x``n``iii`/w/a/x/y|/a``n``iii`/w/a/x/y|./a``n``iii`/w/a/x/y|\
a/.``n``iii`/w/a/x/y|a/x/y/``+`la/x/y `iii`/w/a/x/y|c/d/e`iiiiii`!`^ ^ pc dc pc/d !dc/d `ii`/w/c|\
c/d/e`i`!`!pc/d `ii`/w/c|c/d/e`iii`!`pc/d dc/d !lc/d/e `iii`/w/c/d|``+`^ ^ `i`/w|...``+`l... `i`/w/...";

/// Whether a lookup gives this answer and these calls.
fn looks_up<A: Abort>(
    rt: &A,
    alloc: Global,
    stack: &mut PathStack,
    path: &[u8],
    refused: usize,
    want: &[u8],
    calls: &[u8],
) -> bool {
    let mut recorder = Recorder::new(rt, alloc, refused);
    let looked = stack.make_relative_path_current(alloc, path, &mut recorder);
    let is_answered = want == [answer(looked)].as_slice();
    match recorder.text() {
        Ok(text) => is_answered && text.as_slice() == calls,
        Err(_) => false,
    }
}

fn holds<A: Abort>(rt: &A, alloc: Global, stack: &mut PathStack, row: &[u8]) -> bool {
    let (path, rest) = split_at_byte(row, b'`');
    let (refused, rest) = split_at_byte(rest, b'`');
    let (want, rest) = split_at_byte(rest, b'`');
    let (calls, rest) = split_at_byte(rest, b'`');
    let (pushed, current) = split_at_byte(rest, b'`');
    looks_up(rt, alloc, stack, path, refused.len(), want, calls)
        && stack.count_pushed_directories() == pushed.len()
        && stack.current() == current
}

/// A stack at a root.
fn stack_at(alloc: Global, root: &[u8]) -> Option<PathStack> {
    match PathText::from_bytes(alloc, root) {
        Ok(root) => Some(PathStack::new(alloc, root)),
        Err(_) => None,
    }
}

#[test]
fn lookups(rt: HostRuntime) {
    let alloc = rt.alloc();
    match stack_at(alloc, b"/w") {
        Some(new) => {
            let mut stack = new;
            for row in ROWS.split(|byte| *byte == b'|') {
                assert!(rt; holds(&rt, alloc, &mut stack, row), "{row:?}");
            }
        }
        None => assert!(rt; false),
    }
}

/// Goes down along a path without a delegate.
fn goes_down(alloc: Global, stack: &mut PathStack, path: &[u8]) -> bool {
    stack.push_root_without_delegate();
    let mut rest = path;
    for _ in 0..3u8 {
        let Some(next) = next_component(rest) else {
            return false;
        };
        if stack.set_current_to_child(alloc, next.name).is_err() {
            return false;
        }
        if !next.is_last {
            stack.push_current_as_directory();
        }
        rest = next.rest;
    }
    true
}

fn stands(stack: &PathStack) -> bool {
    stack.root() == b"/".as_slice()
        && stack.current() == b"/a/b/c".as_slice()
        && stack.current_relative() == b"a/b/c".as_slice()
        && stack.deepest_pushed_directory() == b"a/b".as_slice()
        && stack.count_directories_to_pop(b"a/c") == 1
}

fn goes_up(stack: &mut PathStack) -> bool {
    stack.make_deepest_current();
    let is_left = stack.current() == b"/a/b".as_slice();
    let is_popped = stack.pop() && stack.components_to_push(b"a/b/c") == b"/b/c".as_slice();
    let is_root = stack.pop() && stack.pop() && !stack.pop();
    is_left
        && is_popped
        && is_root
        && stack.count_pushed_directories() == 0
        && stack.current() == b"/".as_slice()
}

/// The steps that a caller takes without a delegate.
fn steps(alloc: Global) -> bool {
    match stack_at(alloc, b"/") {
        Some(new) => {
            let mut stack = new;
            !stack.is_root_pushed()
                && goes_down(alloc, &mut stack, b"a//b/c")
                && stack.is_root_pushed()
                && stands(&stack)
                && goes_up(&mut stack)
        }
        None => false,
    }
}

#[test]
fn a_stack_is_stepped_along(rt: HostRuntime) {
    assert!(rt; steps(rt.alloc()));
}
