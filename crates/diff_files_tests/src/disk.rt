//! The stats of the files of the system.
use diff_files::{DiskStats, NodeStat, Stats};
use std::alloc::Global;
use std::fs::{File, hard_link};
use std::io::Write;
use std::os::unix::fs::chown;
use std::rt::HostRuntime;
use std::time::{Duration, UNIX_EPOCH};
use worktree_fs::ReadError;

fn told(stats: &mut DiskStats<'_>, path: &[u8]) -> Option<NodeStat> {
    match stats.stat(path) {
        Ok(found) => found,
        Err(_) => None,
    }
}

fn has_size(stats: &mut DiskStats<'_>, path: &[u8], size: u64) -> bool {
    match told(stats, path) {
        Some(at) => at.size == size && at.mode / 4096 == 8 && at.mtime != 0 && at.ctime >= at.mtime,
        None => false,
    }
}

fn is_written(rt: &HostRuntime, path: &str, text: &[u8]) -> bool {
    match File::create(rt, path) {
        Ok(file) => {
            let mut file = file;
            file.write_all(text).is_ok()
        }
        Err(_) => false,
    }
}

fn tells_nothing(stats: &mut DiskStats<'_>, path: &[u8]) -> bool {
    stats.stat(path) == Ok(None)
}

fn fails(stats: &mut DiskStats<'_>, path: &[u8]) -> bool {
    stats.stat(path) == Err(ReadError::Fault)
}

/// Whether a link leads somewhere, and a file does not.
fn follows(alloc: Global, stats: &mut DiskStats<'_>) -> bool {
    match stats.target(alloc, b"/proc/self/root") {
        Ok(Some(target)) => target.as_bytes() == b"/".as_slice(),
        _ => false,
    }
}

#[test]
fn the_disk_tells_sizes_and_counts_faults(rt: HostRuntime) {
    let mut stats = DiskStats::new(&rt);
    assert!(rt; is_written(&rt, "stats-of-a-file", b"seven b"));
    assert!(rt; has_size(&mut stats, b"stats-of-a-file", 7));
    assert!(rt; tells_nothing(&mut stats, b"/nowhere-at-all"));
    assert!(rt; tells_nothing(&mut stats, b"stats-of-a-file/x"));
    assert!(rt; follows(rt.alloc(), &mut stats));
    assert_eq!(rt; stats.fault_count(), 0);
    assert!(rt; fails(&mut stats, b"\xff"));
    assert_eq!(rt; stats.fault_count(), 1);
}

/// Whether a file has this user and this group.
fn is_owned(stats: &mut DiskStats<'_>, path: &[u8], uid: u32, gid: u32) -> bool {
    match told(stats, path) {
        Some(at) => at.uid == uid && at.gid == gid,
        None => false,
    }
}

/// Whether a file of the system is the root user's where it is the root user's or of the root
/// group.
fn is_of_root(stats: &mut DiskStats<'_>, path: &[u8]) -> bool {
    match told(stats, path) {
        Some(at) => at.uid == 0 || at.gid != 0,
        None => true,
    }
}

/// Files that are the root user's, and of another group on most systems.
const OF_ROOT: &[u8] =
    b"/etc/shadow /etc/gshadow /usr/bin/chage /usr/bin/expiry /var/local /var/mail";

#[test]
fn the_owner_is_not_the_group(rt: HostRuntime) {
    let mut stats = DiskStats::new(&rt);
    assert!(rt; is_written(&rt, "stats-of-an-owner", b""));
    if chown(&rt, "stats-of-an-owner", Some(11), Some(22)).is_ok() {
        assert!(rt; is_owned(&mut stats, b"stats-of-an-owner", 11, 22));
    }
    for path in OF_ROOT.split(|byte| *byte == b' ') {
        assert!(rt; is_of_root(&mut stats, path));
    }
}

fn is_dated(rt: &HostRuntime, path: &str, seconds: u64) -> bool {
    let Some(time) = UNIX_EPOCH.checked_add(Duration::from_secs(seconds)) else {
        return false;
    };
    match File::create(rt, path) {
        Ok(file) => file.set_modified(time).is_ok(),
        Err(_) => false,
    }
}

fn has_times(stats: &mut DiskStats<'_>, path: &[u8], mtime: u32) -> bool {
    match told(stats, path) {
        Some(at) => at.mtime == mtime && at.ctime != mtime,
        None => false,
    }
}

#[test]
fn the_mtime_is_not_the_ctime(rt: HostRuntime) {
    let mut stats = DiskStats::new(&rt);
    assert!(rt; is_dated(&rt, "stats-of-a-time", 1_234_567));
    assert!(rt; has_times(&mut stats, b"stats-of-a-time", 1_234_567));
    assert!(rt; is_dated(&rt, "stats-of-a-time", 4_294_967_301));
    assert!(rt; has_times(&mut stats, b"stats-of-a-time", 5));
}

fn number_of(stats: &mut DiskStats<'_>, path: &[u8]) -> u64 {
    match told(stats, path) {
        Some(at) => at.ino,
        None => 0,
    }
}

#[test]
fn two_files_have_two_numbers_and_one_by_two_names_has_one(rt: HostRuntime) {
    let mut stats = DiskStats::new(&rt);
    assert!(rt; is_written(&rt, "stats-of-one", b"1"));
    assert!(rt; is_written(&rt, "stats-of-two", b"2"));
    let one = number_of(&mut stats, b"stats-of-one");
    assert!(rt; one != 0);
    assert!(rt; one != number_of(&mut stats, b"stats-of-two"));
    assert!(rt; hard_link(&rt, "stats-of-one", "stats-of-one-again").is_ok());
    assert!(rt; one == number_of(&mut stats, b"stats-of-one-again"));
}
