//! The log of the device: its pages, in order, without those that were folded.
ghost use Rattle.std.specs.Prelude.{◌≡◌, ℕ, ◌+◌, ◌^◌, ◌<◌, ◌≤◌, ◌++◌, drop, List, length, map, Option, Some, None, slice_get, slice_set};
ghost use Rattle.std.specs.List.{All};
ghost use Rattle.std.specs.Option.{option_map};
ghost use Rattle.std.specs.VecDeque.{deque_len, deque_capacity};
ghost use Rattle.order_model.specs.declared.part.Part.{Part};
ghost use Rattle.order_model.specs.Received.{all_parts, part_at};
ghost use Rattle.flog_device.specs.Log.{prefix, places, pages, programmed_at, is_covered, laid, laid_origins};
ghost use Rattle.flog_device.specs.Device.{all_programmed, writes};
ghost use Rattle.flog_device.specs.laws.LogFacts.{top};
ghost use Rattle.flog_device.specs.code.Helpers.{IsPageOf, can_fold, area_folded, origins_folded};

use blk_base::{Block, Image};
use order_model::{Commands, Part};
use std::collections::VecDeque;

/// A block, and the part that goes there, by its place among all parts taken.
#[derive(Clone, Copy, PartialEq, Eq, Debug)]
pub struct Place {
    pub block: u32,
    pub part: u64,
}

/// A page of the log, and whether it is programmed.
#[derive(Clone, Copy, PartialEq, Eq, Debug)]
pub struct Page {
    pub place: Place,
    pub programmed: bool,
}

/// A write to the medium.
#[derive(Clone, Copy, PartialEq, Eq, Debug)]
pub enum Write {
    /// A page is programmed, by its place among those that are not folded.
    Program(usize),
    /// The oldest page that is not folded goes into the data area.
    Fold,
}

/// Whether the oldest page is programmed, so that it may be folded.
pub(crate) fn can_fold(log: &VecDeque<Page>) -> bool
    ensures { result ≡ can_fold log.now.items }
{
    match log.front() {
        Some(page) => page.programmed,
        None => false,
    }
}

/// The write at place `pick` of those that may be next. All pages before place `from` are programmed.
pub(crate) fn pick_write(log: &VecDeque<Page>, from: usize, pick: usize) -> Option<Write>
    requires { from ≡ length (prefix log.now.items) }
    ensures { result ≡ slice_get (writes log.now.items) pick }
{
    let mut left = pick;
    for at in from..log.len() {
        if !log[at].programmed {
            if left == 0 {
                return Some(Write::Program(at));
            }
            left -= 1;
        }
    }
    if left == 0 && can_fold(log) {
        Some(Write::Fold)
    } else {
        None
    }
}

/// Programs the page at this place.
pub(crate) fn program(log: &mut VecDeque<Page>, at: usize)
    requires { at < length log.old.items }
    ensures items { log.new.items ≡ programmed_at at log.old.items }
    ensures capacity { deque_capacity log.new ≡ deque_capacity log.old }
{
    log[at].programmed = true;
}

/// Appends the pages of parts, of which the first stands at this place among all parts taken.
pub(crate) fn append_pages(log: &mut VecDeque<Page>, first: u64, parts: &[Part])
    requires room { length log.old.items + length parts.now ≤ deque_capacity log.old }
    requires places { first + length parts.now < 2 ^ 64 }
    ensures items { log.new.items ≡ log.old.items ++ pages first parts.now }
    ensures capacity { deque_capacity log.new ≡ deque_capacity log.old }
{
    let mut place = first;
    for part in parts {
        log.push_back_reserved(Page {
            place: Place {
                block: part.block,
                part: place,
            },
            programmed: false,
        });
        place += 1;
    }
}

/// The bytes of the part at this place among all parts taken.
pub(crate) fn body_of(took: &Commands, place: u64) -> Block
    requires there { place < length (all_parts took.now.items) }
    requires few { place < 2 ^ 31 }
    ensures { option_map (λ (p : Part). p.body) (part_at took.now.items place) ≡ Some result }
{
    let Some(part) = took.part(place as usize) else {
        unreachable!();
    };
    part.body
}

/// Lays the pages of the prefix over an area, in order.
pub(crate) fn lay_over(
    log: &VecDeque<Page>,
    took: &Commands,
    area: &mut Image,
    origins: &mut Vec<Option<u64>>,
)
    requires pages { All (IsPageOf (length (all_parts took.now.items)) (length area.old)) log.now.items }
    requires few { length (all_parts took.now.items) < 2 ^ 31 }
    requires origins { length origins.old.items ≡ length area.old }
    ensures area { area.new ≡ laid took.now.items (places (prefix log.now.items)) area.old }
    ensures origins { origins.new.items ≡ laid_origins (places (prefix log.now.items)) origins.old.items }
{
    for at in 0..log.len() {
        let page = log[at];
        if !page.programmed {
            return;
        }
        let place = page.place;
        area.put(place.block, body_of(took, place.part));
        origins[place.block as usize] = Some(place.part);
    }
}
