//! Raw pointers to the items of a `Vec`: `place_of` says where an item lies, and `item_at` lends the
//! item that lies there. The `Vec` stays the one owner of the memory, and drops it.
//!
//! Two bodies of one line each hold all that is `unsafe`, and each of them is proved by hand,
//! statement by statement, in `proofs/block`:
//!
//! - `place_from` steps from the first item to another one. The index is below the length, so the
//!   step stays inside the memory that the `Vec` has, and the distance in bytes can't wrap.
//! - `item_at` turns an address into a reference. The caller proves that it is the address of one of
//!   the items, so a value of the type lies there. The whole `Vec` is borrowed for as long as the
//!   item is lent, so nothing else reaches the item meanwhile, and what is written to it is in the
//!   `Vec` afterwards.
//!
//! An address is worth something only while the `Vec` keeps its memory. Nothing here says that it
//! does: whoever stores an address proves that the `Vec` didn't grow since (its `vec_ptr` is the same).
ghost use Rattle.std.specs.Prelude.{◌≡◌, ◌<◌};
ghost use Rattle.std.specs.Borrow.{sem};
ghost use Rattle.std.specs.Vec.{vec_len, vec_ptr, vec_follows_item};
ghost use Rattle.std.specs.List.{slice_index_or};
ghost use Rattle.kept.specs.code.Places.{place, index_of, LiesIn};

use std::alloc::Allocator;

/// Where the item of this index lies. The items stay as they are.
pub fn place_of<T, A: Allocator>(items: &mut Vec<T, A>, index: usize) -> *mut T
    requires { index < vec_len items.old }
    ensures at { result ≡ place T.row (vec_ptr items.old) index }
    ensures same { items.new ≡ items.old }
{
    let start = items.as_mut_ptr();
    place_from(items, start, index)
}

/// The same, from the address of the first item.
fn place_from<T, A: Allocator>(items: &mut Vec<T, A>, start: *mut T, index: usize) -> *mut T
    requires { (index < vec_len items.old) × (start ≡ vec_ptr items.old) }
    ensures { (result ≡ place T.row (vec_ptr items.old) index) × (items.new ≡ items.old) }
{
    unsafe { start.add(index) }
}

/// The item that lies there. Its index is told by the address.
pub fn item_at<T, A: Allocator>(items: &mut Vec<T, A>, at: *mut T) -> &mut T
    requires { LiesIn T.row (vec_ptr items.old) (vec_len items.old) at }
    ensures* writes_back { sem 𝓛 (vec_follows_item T.row A.row A.Allocator items.entry (index_of T.row (vec_ptr items.old) at) result) }
    ensures value { result.now ≡ slice_index_or items.old.items (index_of T.row (vec_ptr items.old) at) result.now }
{
    unsafe { &mut *at }
}
