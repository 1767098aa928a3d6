// The slots: a row each, and beside them, in a slice of its own, a tag, which is 0 where the slot
// is empty and else tells most keys from that of the row. The tags of many slots share a line of
// the cache, so a search seldom looks at a row that it does not want.
ghost use Rattle.std.specs.Prelude.{◌≡◌, ◌<◌, length, None, replicate, slice_set};
ghost use Rattle.hashed_store.specs.Lent.{slots_of, Tagged};
ghost use Rattle.hashed_store.specs.Looks.{Looked};
ghost use Rattle.hashed_store.specs.Mixing.{tag_of};
ghost use Rattle.hashed_store.specs.Slots.{slot_at};

use crate::home::Home;
use crate::mixing::tag;
use std::marker::Model;
use store::record::Record;

#[derive(Drop)]
pub(crate) struct Slots<'a, R: Record, H: Home> {
    tags: &'a mut [u8],
    rows: &'a mut [R],
    home: H,
}

impl<'a, R: Record, H: Home> Model for Slots<'a, R, H> {
    ghost use Rattle.std.specs.Prelude.{List, Option};
    ghost use Rattle.hashed_store.specs.Lent.{slots_of, Tagged};

    ghost Value = { List (Option R) };

    ghost view = { λ s. slots_of s.tags.now s.rows.now };

    ghost invariant = { λ s. Tagged R.Record.key s.tags.now s.rows.now };
}

// What a slot is to a search for a key.
#[derive(Clone, Copy)]
pub(crate) enum Look {
    Empty,
    // It holds a row of that key.
    Wanted,
    // It holds one of another key.
    Other,
}

impl<'a, R: Record, H: Home> Slots<'a, R, H> {
    // As many slots as rows are lent, and tags, all empty.
    #[tactic(auto, using(crate::proofs::Lent::blank_slots, crate::proofs::Lent::tagged_blank))]
    pub(crate) fn new(tags: &'a mut [u8], rows: &'a mut [R]) -> Slots<'a, R, H>
        requires { length tags.old ≡ length rows.old }
        ensures { result ≡ replicate (length rows.old) None }
    {
        tags.fill(0);
        let home = H::new(rows.len());
        Slots { tags, rows, home }
    }

    #[tactic(auto, using(crate::proofs::Lent::length_slots))]
    pub(crate) fn len(&self) -> usize
        ensures { result ≡ length self.now }
    {
        self.rows.len()
    }

    // The slot where the search for a key starts.
    #[inline(always)]
    pub(crate) fn home(&self, key: u64) -> usize
        requires { 0 < length self.now }
        ensures is { result ≡ H.Home.home (length self.now) key }
        ensures inside { result < length self.now }
    {
        home_of(&self.home, key, self.len())
    }

    pub(crate) fn get(&self, place: usize) -> Option<R>
        requires { place < length self.now }
        ensures { result ≡ slot_at self.now place }
    {
        read(self.tags, self.rows, place)
    }

    // What the slot is to a search for a key with that tag.
    pub(crate) fn look(&self, place: usize, key: u64, tag: u8) -> Look
        requires { (place < length self.now) × (tag ≡ tag_of key) }
        ensures { Looked R.Record.key key (slot_at self.now place) result }
    {
        look_at(self.tags, self.rows, place, key, tag)
    }

    #[inline(always)]
    pub(crate) fn set(&mut self, place: usize, slot: Option<R>)
        requires { place < length self.old }
        ensures { self.new ≡ slice_set self.old place slot }
    {
        write(self.tags, self.rows, place, slot);
    }

    // Takes what a slot holds out of it.
    pub(crate) fn take(&mut self, place: usize) -> Option<R>
        requires { place < length self.old }
        ensures is { result ≡ slot_at self.old place }
        ensures leaves { self.new ≡ slice_set self.old place None }
    {
        let held = self.get(place);
        self.set(place, None);
        held
    }

    // The rows stay as they are.
    #[tactic(auto, using(crate::proofs::Lent::blank_tags, crate::proofs::Lent::tagged_cleared))]
    pub(crate) fn clear(&mut self)
        ensures { self.new ≡ replicate (length self.old) None }
    {
        self.tags.fill(0);
    }
}

#[inline(always)]
fn home_of<H: Home>(home: &H, key: u64, slots: usize) -> usize
    requires { 0 < slots }
    ensures is { result ≡ H.Home.home slots key }
    ensures inside { result < slots }
{
    home.home(key, slots)
}

#[tactic(auto, using(crate::proofs::Lent::below_tags, crate::proofs::Lent::below_rows, crate::proofs::Lent::used_slot, crate::proofs::Lent::empty_slot))]
fn read<R: Copy>(tags: &[u8], rows: &[R], place: usize) -> Option<R>
    requires { place < length (slots_of tags.now rows.now) }
    ensures { result ≡ slot_at (slots_of tags.now rows.now) place }
{
    if tags[place] == 0 {
        None
    } else {
        Some(rows[place])
    }
}

#[tactic(auto, using(crate::proofs::Lent::below_tags, crate::proofs::Lent::below_rows))]
fn look_at<R: Record>(tags: &[u8], rows: &[R], place: usize, key: u64, tag: u8) -> Look
    requires { (place < length (slots_of tags.now rows.now)) × (tag ≡ tag_of key)
        × Tagged R.Record.key tags.now rows.now }
    ensures { Looked R.Record.key key (slot_at (slots_of tags.now rows.now) place) result }
{
    let held = tags[place];
    if held == 0 {
        return Look::Empty;
    }
    if held != tag {
        return Look::Other;
    }
    if rows[place].key() == key {
        Look::Wanted
    } else {
        Look::Other
    }
}

#[tactic(auto, using(crate::proofs::Lent::below_tags, crate::proofs::Lent::below_rows, crate::proofs::Lent::filled_slots, crate::proofs::Lent::emptied_slots, crate::proofs::Lent::tagged_filled, crate::proofs::Lent::tagged_emptied))]
#[inline(always)]
fn write<R: Record>(tags: &mut [u8], rows: &mut [R], place: usize, slot: Option<R>)
    requires { (place < length (slots_of tags.old rows.old))
        × Tagged R.Record.key tags.old rows.old }
    ensures sets { slots_of tags.new rows.new ≡ slice_set (slots_of tags.old rows.old) place slot }
    ensures tagged { Tagged R.Record.key tags.new rows.new }
{
    match slot {
        Some(row) => {
            tags[place] = tag(row.key());
            rows[place] = row;
        }
        // The row stays as it is.
        None => tags[place] = 0,
    }
}
