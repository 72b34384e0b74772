//! Sessions of scripts in threads.
use crate::gates::{Late, Meeting, Open};
use host_answers::{Entry, EntryKind};
use script_grammar::MOST_SCRIPT_BYTES;
use session_grammar::read_session;
use session_threads::sides::Gate;
use session_threads::{ThreadsReport, run_threads};
use std::alloc::Global;
use std::process::Abort;
use std::sync::Wait;
use std::thread::Threads;
use tree_model::{Reply, put_tree};

// How a session ended: how many calls were answered ok and how many else, and how many files had an `fsync` that was answered ok
// and are not whole in the tree, or are.
#[derive(Clone, Copy)]
struct Told {
    ok: u32,
    others: u32,
    lost: u32,
    kept: u32,
}

// Each of four threads makes a directory, and in it so many files, each of 1,000 bytes, which it syncs; then it syncs all.
fn script_of(rt: &impl Abort, alloc: Global, header: &str, files: u32) -> String {
    let mut text = format!(in alloc; "volume inodes 256 zones 512 journal 256\n{header}").expect(
        rt,
        "no memory",
    );
    for t in 1..5u32 {
        let put: Result<_, _> = write!(&mut text, "thread {t}\nmkdir /t{t}\n");
        put.expect(rt, "no memory");
        for k in 0..files {
            let put: Result<_, _> = write!(
                &mut text,
                "create /t{t}/m{k}\nwrite /t{t}/m{k} 0 1000 61\nfsync /t{t}/m{k}\n"
            );
            put.expect(rt, "no memory");
        }
        let put: Result<_, _> = text.push_str("sync\n");
        put.expect(rt, "no memory");
    }
    let put: Result<_, _> = text.push_str("events\n");
    put.expect(rt, "no memory");
    text
}

// What the tree has of a file with all its bytes.
fn put_file(rt: &impl Abort, text: &mut String, t: u32, k: u32) {
    let put: Result<_, _> = write!(text, "file /t{t}/m{k} size 1000 links 1\nblock 0 1000x61\n");
    put.expect(rt, "no memory");
}

// Fifty numbers, in the order of their bytes.
static FIFTY: [u32; 50] = [
    0, 1, 10, 11, 12, 13, 14, 15, 16, 17, 18, 19, 2, 20, 21, 22, 23, 24, 25, 26, 27, 28, 29, 3, 30,
    31, 32, 33, 34, 35, 36, 37, 38, 39, 4, 40, 41, 42, 43, 44, 45, 46, 47, 48, 49, 5, 6, 7, 8, 9,
];

// The tree of fifty files a thread.
fn tree_of_fifty(rt: &impl Abort, alloc: Global) -> String {
    let mut text = format!(in alloc; "dir /\n").expect(rt, "no memory");
    for t in 1..5u32 {
        let put: Result<_, _> = write!(&mut text, "dir /t{t}\n");
        put.expect(rt, "no memory");
        for k in &FIFTY {
            put_file(rt, &mut text, t, *k);
        }
    }
    text
}

// The number of the file that the call at this place of a program syncs: each third one does, from 3 on, but for the last.
fn synced_file(call: u32) -> Option<u32> {
    if call < 3 || call % 3 != 0 {
        return None;
    }
    Some(call / 3 - 1)
}

// What the entries of a session tell, over the tree that recovery found.
fn told_of(rt: &impl Abort, alloc: Global, entries: &[Entry], tree: &str) -> Told {
    let mut told = Told {
        ok: 0,
        others: 0,
        lost: 0,
        kept: 0,
    };
    for entry in entries {
        match entry.what {
            EntryKind::Begin => {}
            EntryKind::End(Reply::Ok) => {
                told.ok = told.ok.wrapping_add(1);
                if let Some(k) = synced_file(entry.call) {
                    let mut file = String::new(alloc);
                    put_file(rt, &mut file, entry.thread, k);
                    let is_whole = tree.find(file.as_str()).is_some();
                    told.kept = told.kept.wrapping_add(u32::from(is_whole));
                    told.lost = told.lost.wrapping_add(u32::from(!is_whole));
                }
            }
            EntryKind::End(_) => told.others = told.others.wrapping_add(1),
        }
    }
    told
}

// The tree of a report as text.
fn tree_text(rt: &impl Abort, alloc: Global, report: &ThreadsReport) -> String {
    let tree = report.report.volume.tree(alloc).expect(rt, "no memory");
    let mut text = String::new(alloc);
    let put: Result<_, _> = put_tree(alloc, &mut text, tree);
    put.expect(rt, "no memory");
    text
}

// Runs the script in threads: what its entries tell, whether recovery found all closed transactions, and the tree.
fn run<H: Threads + Wait + Sync + Abort, G: Gate + Sync>(
    rt: &H,
    alloc: Global,
    text: &str,
    gate: &G,
) -> (Told, bool, String) {
    let bytes = text.as_bytes();
    assert!(rt; bytes.len() <= MOST_SCRIPT_BYTES);
    let script = read_session(alloc, bytes).expect(rt, "no script");
    let report = run_threads(rt, alloc, &script, gate).expect(rt, "no memory");
    drop(script);
    let tree = tree_text(rt, alloc, &report);
    let host = &report.report.host;
    let told = told_of(rt, alloc, host.history(), &tree);
    let found_all = host.cuts().len() as u64 == u64::from(report.report.found);
    drop(report);
    (told, found_all, tree)
}

#[test]
fn four_threads_keep_all_that_they_sync(rt: HostRuntime) {
    let alloc = rt.alloc();
    let script = script_of(&rt, alloc, "", 50);
    let (told, found_all, tree) = run(&rt, alloc, &script, &Open);
    let is_whole = tree == tree_of_fifty(&rt, alloc);
    assert_eq!(rt;
        (
            told.ok,
            told.others,
            told.lost,
            told.kept,
            found_all,
            is_whole
        ),
        (608, 0, 0, 200, true, true)
    );
}

// The power goes, or a transfer fails, while the threads are at their calls: each call is answered, some not with ok.
fn ends_early<H: Threads + Wait + Sync + Abort>(rt: &H, alloc: Global, header: &str) {
    let script = script_of(rt, alloc, header, 50);
    let (told, ..) = run(rt, alloc, &script, &Open);
    let answered = told.ok.wrapping_add(told.others);
    assert_eq!(rt; (answered, told.lost), (608, 0));
    assert!(rt; told.others > 0 && told.kept > 0);
}

#[test]
fn what_was_synced_stands_after_a_cut(rt: HostRuntime) {
    ends_early(&rt, rt.alloc(), "cut 300\n");
}

#[test]
fn what_was_synced_stands_after_a_failure(rt: HostRuntime) {
    ends_early(&rt, rt.alloc(), "fail 100\n");
}

#[test]
fn workers_run_at_once(rt: HostRuntime) {
    let alloc = rt.alloc();
    let gate = Meeting::new();
    let script = script_of(&rt, alloc, "", 1);
    let (told, ..) = run(&rt, alloc, &script, &gate);
    assert!(rt; gate.have_met());
    assert_eq!(rt; (told.ok, told.others, told.lost, told.kept), (20, 0, 0, 4));
}

// One thread syncs a file. Another writes over a block of its own again and again, and bars each write from the next, for which
// it waits for nobody: so the queues, which hold one item, are full when the power goes.
fn crowded_script(rt: &impl Abort, alloc: Global, cut: u32) -> String {
    let mut text = format!(in alloc;
        "volume inodes 32 zones 64 journal 128\nqueue 1\ndepth 1\ncut {cut}\nthread 1\ncreate /a\nwrite /a 0 1000 61\nfsync /a\nthread 2\ncreate /b\n"
    ).expect(rt, "no memory");
    for _ in 0..20 {
        let put: Result<_, _> = text.push_str("write /b 0 1000 62\nfdatabarrier /b\n");
        put.expect(rt, "no memory");
    }
    let put: Result<_, _> = text.push_str("events\n");
    put.expect(rt, "no memory");
    text
}

// Nothing leaves the submission queue behind the cut, and the flush that the sync call wants finds no room there. Both threads
// hear of the cut all the same.
#[test]
fn power_cuts_are_heard_of_behind_a_full_queue(rt: HostRuntime) {
    let alloc = rt.alloc();
    for cut in 1..31 {
        let script = crowded_script(&rt, alloc, cut);
        let (told, ..) = run(&rt, alloc, &script, &Late::new());
        assert_eq!(rt; told.ok.wrapping_add(told.others), 44, "cut {cut}");
    }
}
