//! Distinct numbers, the least first. A queue moves what stands on the shorter side of a place, so that a number
//! above all others is put in, and the least one taken, without moving any.
ghost use Rattle.std.specs.Prelude.{◌≡◌, ◌+◌, ◌≤◌, ◌<◌, ◌||◌, ◌&&◌, ◌==◌, not, ℕ};
ghost use Rattle.std.specs.VecDeque.{deque_len, deque_capacity};
ghost use Rattle.xdb_lists.specs.Numbers.{is_among, NumbersRise, EndsRising};

use std::collections::VecDeque;

/// The place of the number; or else the place where it belongs.
fn find(nums: &VecDeque<u64>, num: u64) -> Result<usize, usize>
    requires { NumbersRise nums.now.items }
    ensures { EndsRising (λ n. n) nums.now.items num result }
{
    nums.binary_search_by(|other| other.cmp(&num))
}

pub fn has(nums: &VecDeque<u64>, num: u64) -> bool
    requires { NumbersRise nums.now.items }
    ensures { result ≡ is_among num nums.now.items }
{
    find(nums, num).is_ok()
}

/// Puts the number in, where it isn't there. Takes no memory.
pub fn put(nums: &mut VecDeque<u64>, num: u64)
    requires rising { NumbersRise nums.old.items }
    requires room { deque_len nums.old < deque_capacity nums.old }
    ensures among { (n : ℕ) → is_among n nums.new.items ≡ (n == num || is_among n nums.old.items) }
    ensures rising { NumbersRise nums.new.items }
    ensures capacity { deque_capacity nums.old ≤ deque_capacity nums.new }
    ensures len { deque_len nums.new ≤ deque_len nums.old + 1 }
{
    if let Err(at) = find(nums, num) {
        let Ok(()) = nums.insert(at, num) else {
            unreachable!()
        };
    }
}

/// Takes the number out, where it is there.
pub fn take_out(nums: &mut VecDeque<u64>, num: u64)
    requires { NumbersRise nums.old.items }
    ensures among { (n : ℕ) → is_among n nums.new.items ≡ (not (n == num) && is_among n nums.old.items) }
    ensures rising { NumbersRise nums.new.items }
    ensures capacity { deque_capacity nums.new ≡ deque_capacity nums.old }
    ensures len { deque_len nums.new ≤ deque_len nums.old }
{
    if let Ok(at) = find(nums, num) {
        let Some(_) = nums.remove(at) else {
            unreachable!()
        };
    }
}
