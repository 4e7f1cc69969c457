//! A worktree that notes what is listed over it and over its forks, and a store that notes how
//! often it and its forks are asked.
ghost use Rattle.std.specs.Prelude.{◌≡◌, ◌≤◌, false, Ok, IsErrOf};
ghost use Rattle.worktree_fs.specs.Answers.{HoldsUnlessFileRead, HoldsUnlessFault};
ghost use Rattle.worktree_fs.specs.Causes.{CountIncrementedOrSaturated, CountIncreasedOrSaturated};

use gitbase_core::{Bytes, Find, FindError, Found, MemoryStore, ObjectId, OutOfMemory, PathText};
use std::alloc::Global;
use worktree_fs::{
    ListError, MakeAnswer, MemoryWorktree, NameList, NodeKind, ReadAnswer, ReadError, RemoveAnswer,
    Worktree,
};

/// A worktree that tells nothing, and hands each call on to one in memory. It notes the paths that
/// it listed, each with a `;` behind it, and of each fork that it absorbed those that the fork
/// noted, with a `|` behind them.
#[derive(Drop)]
pub struct Noted {
    pub tree: MemoryWorktree,
    pub listed: Vec<u8>,
    pub absorbed: Vec<u8>,
}

impl Noted {
    pub fn new(alloc: Global, tree: MemoryWorktree) -> Noted {
        Noted {
            tree,
            listed: Vec::new(alloc),
            absorbed: Vec::new(alloc),
        }
    }
}

/// Adds some bytes, and a mark behind them.
fn note(to: &mut Vec<u8>, bytes: &[u8], mark: u8) -> Result<(), OutOfMemory> {
    to.extend_from_slice(bytes)?;
    to.push(mark)?;
    Ok(())
}

/// Reads over any worktree, as each of them does.
fn read_over<W: Worktree>(
    alloc: Global,
    tree: &mut W,
    path: &[u8],
    follow: bool,
    into: &mut Bytes,
) -> Result<ReadAnswer, ReadError>
    ensures into { HoldsUnlessFileRead result (into.new ≡ into.old) }
    ensures link { result ≡ Ok ReadAnswer.IsLink → follow ≡ false }
    ensures cause { IsErrOf result ReadError.Fault
        → CountIncreasedOrSaturated (W.faults tree.old) (W.faults tree.new) }
    ensures unfaulted { HoldsUnlessFault result (W.faults tree.new ≡ W.faults tree.old) }
    ensures faults { W.faults tree.old ≤ W.faults tree.new }
    ensures list_faults { W.list_faults tree.new ≡ W.list_faults tree.old }
    ensures reads { CountIncrementedOrSaturated (W.reads tree.old) (W.reads tree.new) }
    ensures reads_later { W.reads tree.old ≤ W.reads tree.new }
    ensures lists { W.lists tree.new ≡ W.lists tree.old }
    ensures precomposes { W.precomposes tree.new ≡ W.precomposes tree.old }
{
    tree.read(alloc, path, follow, into)
}

impl Worktree for Noted {
    ghost use Rattle.std.specs.Prelude.{None};

    ghost told = { λ _. None };

    ghost faults = { λ noted. noted.tree.faults };

    ghost list_faults = { λ noted. noted.tree.list_faults };

    ghost reads = { λ noted. noted.tree.reads };

    ghost lists = { λ noted. noted.tree.lists };

    ghost precomposes = { λ noted. noted.tree.composes };

    ghost is_tree = { λ noted t e. Prim.cc };

    fn precomposes(&self) -> bool {
        self.tree.precomposes()
    }

    fn kind(&mut self, alloc: Global, path: &[u8]) -> Result<Option<NodeKind>, ReadError> {
        self.tree.kind(alloc, path)
    }

    fn kind_following(
        &mut self,
        alloc: Global,
        path: &[u8],
    ) -> Result<Option<NodeKind>, ReadError> {
        self.tree.kind_following(alloc, path)
    }

    fn list(&mut self, alloc: Global, path: &[u8], follow: bool) -> Result<NameList, ListError> {
        let names = self.tree.list(alloc, path, follow)?;
        match note(&mut self.listed, path, b';') {
            Ok(()) => Ok(names),
            Err(_) => Err(ListError::OutOfMemory),
        }
    }

    fn read(
        &mut self,
        alloc: Global,
        path: &[u8],
        follow: bool,
        into: &mut Bytes,
    ) -> Result<ReadAnswer, ReadError> {
        read_over(alloc, &mut self.tree, path, follow, into)
    }

    fn real_path(
        &mut self,
        alloc: Global,
        path: &[u8],
        cwd: &[u8],
    ) -> Result<Option<PathText>, ReadError> {
        self.tree.real_path(alloc, path, cwd)
    }

    fn make_dir(&mut self, alloc: Global, path: &[u8]) -> Result<MakeAnswer, ReadError> {
        self.tree.make_dir(alloc, path)
    }

    fn remove_node(&mut self, alloc: Global, path: &[u8]) -> Result<RemoveAnswer, ReadError> {
        self.tree.remove_node(alloc, path)
    }

    fn fork(&self, alloc: Global) -> Result<Noted, OutOfMemory> {
        Ok(Noted {
            tree: self.tree.fork(alloc)?,
            listed: Vec::new(alloc),
            absorbed: Vec::new(alloc),
        })
    }

    /// What a fork noted is not kept where memory is refused.
    fn absorb(&mut self, other: Noted) {
        let Noted {
            tree,
            listed,
            absorbed: _,
        } = other;
        self.tree.absorb(tree);
        let _kept = note(&mut self.absorbed, &listed, b'|').is_ok();
    }
}

/// A store that tells nothing, and hands each call on to one in memory. It counts how often it was
/// asked, and notes that number of each fork that it absorbed.
#[derive(Drop)]
pub struct NotedStore {
    pub objects: MemoryStore,
    pub asked: u8,
    pub absorbed: Vec<u8>,
}

impl NotedStore {
    pub fn new(alloc: Global, objects: MemoryStore) -> NotedStore {
        NotedStore {
            objects,
            asked: 0,
            absorbed: Vec::new(alloc),
        }
    }
}

impl Find for NotedStore {
    ghost use Rattle.std.specs.Prelude.{None};

    ghost holds = { λ _. None };

    ghost faults = { λ _. 0 };

    fn find_blob(
        &mut self,
        alloc: Global,
        id: &ObjectId,
        into: &mut Bytes,
    ) -> Result<Found, FindError> {
        self.asked = self.asked.saturating_add(1);
        self.objects.find_blob(alloc, id, into)
    }

    fn fork(&self, alloc: Global) -> Result<NotedStore, OutOfMemory> {
        Ok(NotedStore::new(alloc, self.objects.fork(alloc)?))
    }

    /// What a fork noted is not kept where memory is refused.
    fn absorb(&mut self, other: NotedStore) {
        let NotedStore {
            objects,
            asked,
            absorbed: _,
        } = other;
        self.objects.absorb(objects);
        let _kept = self.absorbed.push(asked).is_ok();
    }
}
