// The one pass that makes the next view the committed one.
ghost use Rattle.std.specs.Prelude.{◌≡◌, ◌==◌, ℕ, ◌+◌, ◌<◌, ◌≤◌, ◌^◌, ◌↔◌, if◌then◌else◌, length, map, take, slice_index_or, count_by, All, Contains};
ghost use Rattle.std.specs.List.{list_any};
ghost use Rattle.vb_space.specs.Free.{has_committed, has_next, settled, free_from};
ghost use Rattle.vb_space.specs.Spaces.{IsCommitted};

use crate::users::Users;

/// Makes the next view the committed one, and lists the free places, upwards, at the front of `free`:
/// the result says how many there are.
pub fn settle(first: u32, users: &mut [Users], free: &mut [u32]) -> usize
    requires room { length free.old ≡ length users.old }
    requires places { first + length users.old < 2 ^ 32 }
    ensures settled { users.new ≡ map settled users.old }
    ensures listed { take result free.new ≡ free_from first users.new }
    ensures within { result ≤ length free.new }
{
    let mut count = 0;
    for i in 0..users.len() {
        let settled = users[i].settled();
        users[i] = settled;
        if settled.is_neither() {
            free[count] = first + i as u32;
            count += 1;
        }
    }
    count
}

/// Gives the committed view these places of an empty space, and lists the free ones as `settle` does.
pub fn settle_used(first: u32, users: &mut [Users], free: &mut [u32], used: &[u32]) -> usize
    requires room { length free.old ≡ length users.old }
    requires places { first + length users.old < 2 ^ 32 }
    requires fresh { (k : ℕ) → slice_index_or users.old k Users.Neither ≡ Users.Neither }
    requires within { All (λ place. first ≤ place) used.now }
    requires below { All (λ place. place < first + length users.old) used.now }
    ensures committed { (place : ℕ) →
        IsCommitted (record { first = first; users = users.new }) place ↔ Contains used.now place }
    ensures next { count_by has_next users.new ≡ 0 }
    ensures counted { count_by has_committed users.new ≤ length used.now }
    ensures listed { take result free.new ≡ free_from first users.new }
    ensures within { result ≤ length free.new }
{
    mark_next(first, users, used);
    settle(first, users, free)
}

/// Lets the next view use these places of an empty space.
fn mark_next(first: u32, users: &mut [Users], used: &[u32])
    requires fresh { (k : ℕ) → slice_index_or users.old k Users.Neither ≡ Users.Neither }
    requires within { All (λ place. first ≤ place) used.now }
    requires below { All (λ place. place < first + length users.old) used.now }
    ensures marked { (k : ℕ) → k < length users.new → slice_index_or users.new k Users.Neither
        ≡ (if list_any (λ place. place == first + k) used.now then Users.Next else Users.Neither) }
    ensures counted { count_by has_next users.new ≤ length used.now }
{
    for place in used {
        users[(*place - first) as usize] = Users::Next;
    }
}
