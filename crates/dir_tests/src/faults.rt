//! Walks that are refused, and walks that meet a fault, case by case.
use crate::cases::lie_of;
use bstr::ByteSlice;

/// Cases of rules that cannot be read, of an interrupt, of the depth limit and of faults, as those
/// of walks are written. The interrupt is asked before the depth is tested, and both come before a
/// directory is listed. Repositories are not looked for where a fault is planned.
const FAULTS: &[u8] = b"\
@ a rules file that is a link to itself``
  file`/w/d/f
  link`/w/d/.gitignore`.gitignore
  walk`/w`link limit`/w/d/.gitignore
@ a rules file that is no file``
  file`/w/d/f
  other`/w/d/.gitignore
  walk`/w`special`/w/d/.gitignore
@ a rules file that is not read``
  file`/w/d/f
  file`/w/d/.gitignore`f
  fail`read`2
  ask`options`recursing
  walk`/w`unread`/w/d/.gitignore
  faults`1
@ an interrupt`-
  file`/w/d/a
  ask`raised`2
  walk`/w`interrupted
@ a limit before the listing`-
  file`/w/d
  index`d/t`file`up to date
  ask`depth`0
  walk`/w`too deep`/w/d
@ an interrupt before the limit`-
  directory`/w/d
  ask`depth`0
  ask`raised`2
  walk`/w`interrupted
@ a fault at the root's kind`-
  file`/w/d/f
  fail`kind`1
  walk`/w`no root`/w
  faults`1
@ a fault at the root's link`-
  directory`/x
  link`/l`x
  fail`kind following`1
  walk`/l`no root`/l
  faults`1
@ a fault at a component's kind`-
  file`/w/d/f
  fail`kind`1
  ask`root`d
  walk`/w`unknown component`/w/d
  faults`1
@ a fault at the common directory`-
  file`/w/d/a1
  file`/w/d/b
  fail`kind following`1
  ask`options`recursing
  ask`specs`d/a*
  walk`/w`/w`2`2`untracked file - wildcard - - - d/a1
  faults`1
@ a fault of a listing`-
  file`/w/d/f
  fail`list open`1
  walk`/w`fault`/w
  faults`1
@ a fault of a listing below`-
  file`/w/d/f
  fail`list open`2
  walk`/w`fault`/w/d
  faults`1
@ a fault of a name`-
  file`/w/d/f
  fail`list entry`2
  walk`/w`no entry`/w/d
  faults`1
@ a fault of a kind`-
  file`/w/d/f
  fail`kind`2
  ask`options`recursing
  walk`/w`/w`1`1
  faults`1";

#[test]
fn refusals_and_faults(rt: HostRuntime) {
    for case in FAULTS.split_str(b"\n@ ") {
        assert_eq!(rt; lie_of(rt.alloc(), case), None, "{case:?}");
    }
}
