//! Bodies that wait to be sent home, in rising order of block.
ghost use Rattle.std.specs.Prelude.{◌≡◌, ◌+◌, ◌<◌, ◌≤◌, not, length};
ghost use Rattle.std.specs.List.{filter};
ghost use Rattle.std.specs.VecDeque.{deque_capacity};
ghost use Rattle.blk_base.specs.Members.{IsAscending};
ghost use Rattle.log_model.specs.Marks.{Logged};
ghost use Rattle.number_sets.specs.Keyed.{drop_by};
ghost use Rattle.number_sets.specs.Sets.{has};
ghost use Rattle.number_sets.specs.laws.Keyed.{IsKeyPlace};
ghost use Rattle.journal_ring.specs.LogRing.{put_home, put_homes};

use crate::LoggedBody;
use std::collections::VecDeque;

// The place of a block's body, or else the place where it would stand.
fn place_of(homes: &VecDeque<LoggedBody>, block: u32) -> Result<usize, usize>
    requires { IsAscending (λ (l : Logged). l.block) homes.now.items }
    ensures { IsKeyPlace (λ (l : Logged). l.block) homes.now.items block result }
{
    homes.binary_search_by_key(&block, |home| home.block())
}

// A body waits in the place of an older one of its block, or else where it stands in order.
fn put_home(homes: &mut VecDeque<LoggedBody>, home: LoggedBody)
    requires rising { IsAscending (λ (l : Logged). l.block) homes.old.items }
    requires room { length homes.old.items < deque_capacity homes.old }
    ensures homes { homes.new.items ≡ put_home homes.old.items home }
    ensures capacity { deque_capacity homes.old ≤ deque_capacity homes.new }
{
    match place_of(homes, home.block()) {
        Ok(at) => homes[at] = home,
        Err(at) => {
            let _ = homes.insert(at, home);
        }
    }
}

// The bodies of a transaction wait.
pub fn put_homes(homes: &mut VecDeque<LoggedBody>, bodies: Vec<LoggedBody>)
    requires rising { IsAscending (λ (l : Logged). l.block) homes.old.items }
    requires room { length homes.old.items + length bodies.items ≤ deque_capacity homes.old }
    ensures homes { homes.new.items ≡ put_homes homes.old.items bodies.items }
    ensures capacity { deque_capacity homes.old ≤ deque_capacity homes.new }
{
    for body in bodies {
        put_home(homes, body);
    }
}

// A block's body waits no longer.
fn drop_home(homes: &mut VecDeque<LoggedBody>, block: u32)
    requires rising { IsAscending (λ (l : Logged). l.block) homes.old.items }
    ensures homes { homes.new.items ≡ drop_by (λ (l : Logged). l.block) homes.old.items block }
    ensures capacity { deque_capacity homes.new ≡ deque_capacity homes.old }
{
    if let Ok(at) = place_of(homes, block) {
        let _ = homes.remove(at);
    }
}

// The bodies of revoked blocks wait no longer.
pub fn drop_homes(homes: &mut VecDeque<LoggedBody>, revoked: &[u32])
    requires rising { IsAscending (λ (l : Logged). l.block) homes.old.items }
    ensures homes { homes.new.items ≡ filter (λ (l : Logged). not (has revoked.now l.block)) homes.old.items }
    ensures capacity { deque_capacity homes.new ≡ deque_capacity homes.old }
{
    for block in revoked {
        drop_home(homes, *block);
    }
}
