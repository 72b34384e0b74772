//! Tests of the table of conflicts.
use crate::same::expect;
use flush_actor::conflicts::{
    Commits, Conflicts, blocks_have_one_holder, first_commit_blocks_count, wanted_blocks_are_held,
};

// The least block that is held and wanted, and its holder.
fn has_least(table: &Conflicts, block: u32, tx: u32) -> bool {
    match table.least() {
        Some((least, holder)) => least == block && holder == tx,
        None => false,
    }
}

// Transaction 2 holds block 5, and 3 holds 6. Both are wanted. Request 9 is the first commit block of transaction 2.
#[test]
fn releases_what_is_committed(rt: HostRuntime) {
    blocks_have_one_holder();
    wanted_blocks_are_held();
    first_commit_blocks_count();
    let mut table = Conflicts::make(rt.alloc(), 10).expect(&rt, "no table");
    let mut commits = Commits::make(rt.alloc(), 3).expect(&rt, "no commits");
    table.hold(2, 5);
    table.hold(3, 6);
    table.want(5);
    table.want(6);
    commits.note(2, 9);
    commits.note(2, 12);
    expect(&rt, "commits", 0, !commits.is_before(2, 9));
    expect(&rt, "commits", 1, commits.is_before(2, 10));
    table.release_before(&commits, 9);
    expect(&rt, "least", 0, has_least(&table, 5, 2));
    table.release_before(&commits, 10);
    expect(&rt, "least", 1, has_least(&table, 6, 3));
    drop(table);
    drop(commits);
}
