//! The gatherer of lists of keys. Each list holds its distinct keys in order of first occurrence.
ghost use Rattle.std.specs.Prelude.{◌≡◌, ◌≤◌, ◌++◌, List, [], bytes_eq, drop, length, string_bytes, take, IfOk, IfSome, OnErr, OnOk};
ghost use Rattle.std.specs.List.{IsDistinct};
ghost use Rattle.std.specs.Option.{option_map_or};
ghost use Rattle.lake_model.specs.Keys.{key};
ghost use Rattle.lake_model.specs.Tables.{add_key, distinct, has_key, overlap};
ghost use Rattle.lake_model.specs.Texts.{Text};
ghost use Rattle.column_set.specs.Indexes.{IsIndexOf};
ghost use Rattle.column_set.specs.Slots.{IsSlottedSet};

use crate::index::KeyIndex;
use crate::slots::{Seat, free_slots, hash_key, seat_of, steps_to, widened};
use crate::sorted::{leave_out_repeats, sorted_distinct};
use crate::texts::Texts;
use no_memory::NoMemory;
use std::alloc::Global;
use std::marker::Model;
use value_key::{Keys, key_into};

/// The most keys that a column or a query may have.
pub const MOST_KEYS: usize = 4_194_304;

/// The most slots behind the first that are visited for each new key of a list on average. Keys that were not chosen to
/// collide take one or two.
const MOST_STEPS: u64 = 4;

/// The slots behind the first that may be visited for the new keys of a list besides, so that a few unlucky keys at the
/// beginning of a list do no harm.
const FIRST_STEPS: u64 = 1_024;

/// Lists of keys in one region, one after another: the finished lists, and the current one, whose keys are found by
/// their slots. Its model is the keys of the finished lists, and the distinct keys of the current one in order of first
/// occurrence.
///
/// If many keys share a hash, there are no slots. From then on keys are appended without a look-up, and repeats are
/// removed when the list is closed. `steps` tells: it is the number of slots that were visited for the new keys of the
/// current list, not counting the first one for each.
#[derive(Drop)]
pub struct KeyGatherer {
    keys: Texts,
    from: u32,
    slots: Option<Vec<u32>>,
    steps: u64,
    room: u32,
}

impl Model for KeyGatherer {
    ghost use Rattle.std.specs.Prelude.{◌≤◌, drop, length, IfSome};
    ghost use Rattle.column_set.specs.Gathered.{Gathered, gathered_from};
    ghost use Rattle.column_set.specs.Slots.{IsSlottedSet};

    ghost Value = { Gathered };

    ghost view = { λ g. gathered_from g.from g.keys };

    ghost invariant = { λ g. (g.from ≤ length g.keys) × IfSome g.slots (λ slots. IsSlottedSet slots.items (drop g.from g.keys)) };
}

impl KeyGatherer {
    /// Returns a gatherer without keys. It has slots for `list` keys in each list, and room for `all` keys of about
    /// eight bytes each in all lists together.
    pub fn with_room(alloc: Global, list: u32, all: u32) -> Result<KeyGatherer, NoMemory>
        ensures { IfOk result (λ lists. (lists.finished ≡ []) × (lists.current ≡ [])) }
    {
        let keys = Texts::with_room(alloc, all as usize, 8 * all as usize)?;
        let slots = free_slots(alloc, list)?;
        Ok(KeyGatherer {
            keys,
            from: 0,
            slots: Some(slots),
            steps: 0,
            room: list,
        })
    }

    /// Adds the key of a value, of kind `keys`, to the current list, if the value has a key that is not in the list.
    /// The key is written into the buffer, whose contents are replaced. A new key that is longer than all keys so far,
    /// and than the room made so far, is not copied from there: the buffer's memory is taken over.
    pub fn add(
        &mut self,
        alloc: Global,
        keys: Keys,
        value: &str,
        buffer: &mut String,
    ) -> Result<(), NoMemory>
        ensures finished { OnOk result (self.new.finished ≡ self.old.finished) }
        ensures added { OnOk result (self.new.current ≡ option_map_or (add_key self.old.current) (key keys value.now) self.old.current) }
    {
        if !key_into(alloc, keys, value, buffer)? {
            return Ok(());
        }
        self.insert(alloc, buffer)
    }

    // Adds the key in the buffer to the current list if it is not there.
    fn insert(&mut self, alloc: Global, key: &mut String) -> Result<(), NoMemory>
        ensures finished { OnOk result (self.new.finished ≡ self.old.finished) }
        ensures added { OnOk result (self.new.current ≡ add_key self.old.current (string_bytes key.old)) }
    {
        let Some(slots) = self.slots.take() else {
            return self.keys.push_buffer(key);
        };
        self.slots = entered(
            alloc,
            slots,
            &mut self.steps,
            &mut self.keys,
            self.from,
            key,
        )?;
        Ok(())
    }

    /// Finishes the current list, begins another, and returns the number of keys in the finished one.
    pub fn close(&mut self, alloc: Global) -> Result<u32, NoMemory>
        ensures finished { OnOk result (self.new.finished ≡ self.old.finished ++ self.old.current) }
        ensures none { OnOk result (self.new.current ≡ []) }
        ensures size { IfOk result (λ size. size ≡ length self.old.current) }
    {
        let slots = self.slots.take();
        settle(alloc, &mut self.keys, self.from, slots)?;
        let end = self.keys.len();
        let size = end - self.from;
        self.from = end;
        self.steps = 0;
        // Clearing the slots of a long list would make a short list after it cost the same.
        self.slots = Some(free_slots(alloc, self.room)?);
        Ok(size)
    }

    /// Returns the number of keys in the finished lists.
    pub fn finished(&self) -> u32
        ensures { result ≡ length self.now.finished }
    {
        self.from
    }

    /// Returns the keys of the finished lists, with no spare capacity.
    pub fn into_texts(self) -> Texts
        requires { self.current ≡ [] }
        ensures { result ≡ self.finished }
    {
        let KeyGatherer { mut keys, .. } = self;
        keys.shrink_to_fit();
        keys
    }

    /// Returns the keys of the current list, with the room made for them, and an index that finds them. No list may be
    /// finished.
    pub fn into_indexed(self, alloc: Global) -> Result<(Texts, KeyIndex), NoMemory>
        requires { self.finished ≡ [] }
        ensures keys { IfOk result (λ indexed. indexed.0 ≡ self.current) }
        ensures index { IfOk result (λ indexed. IsIndexOf indexed.1 indexed.0) }
    {
        let KeyGatherer {
            mut keys,
            slots,
            ..
        } = self;
        if let Some(slots) = slots {
            return Ok((keys, KeyIndex::Slots(slots)));
        }
        let order = sorted_distinct(alloc, &mut keys)?;
        Ok((keys, KeyIndex::Sorted(order)))
    }
}

// Appends the key in the buffer if it is not among the keys from index `from` on, and adds the number of slots visited
// behind the first to `steps`. Returns the slots of these keys, or `None` if too many of them share a hash.
fn entered(
    alloc: Global,
    mut slots: Vec<u32>,
    steps: &mut u64,
    keys: &mut Texts,
    from: u32,
    key: &mut String,
) -> Result<Option<Vec<u32>>, NoMemory>
    requires from { from ≤ length keys.old }
    requires slotted { IsSlottedSet slots.items (drop from keys.old) }
    ensures keys { OnOk result (keys.new ≡ take from keys.old ++ add_key (drop from keys.old) (string_bytes key.old)) }
    ensures slotted { IfOk result (λ made. IfSome made (λ slots. IsSlottedSet slots.items (drop from keys.new))) }
    ensures within { from ≤ length keys.new }
{
    let text = key.as_str();
    let hash = hash_key(text);
    match seat_of(&slots, keys, from, text, hash) {
        Seat::Taken => Ok(Some(slots)),
        Seat::Free(at) => {
            *steps = steps.saturating_add(steps_to(slots.len(), hash, at));
            keys.push_buffer(key)?;
            let count = keys.len() - from;
            slots[at] = count;
            if is_crowded(*steps, count) {
                return Ok(None);
            }
            widened(alloc, slots, keys, from)
        }
        Seat::Crowded => {
            keys.push_buffer(key)?;
            Ok(None)
        }
    }
}

// Returns whether more slots were visited for this many new keys than for keys that were not chosen to collide.
fn is_crowded(steps: u64, keys: u32) -> bool {
    steps > FIRST_STEPS + MOST_STEPS * keys as u64
}

// Removes the repeats among the keys from index `from` on. If these keys have slots, there are none.
fn settle(
    alloc: Global,
    keys: &mut Texts,
    from: u32,
    slots: Option<Vec<u32>>,
) -> Result<(), NoMemory>
    requires from { from ≤ length keys.old }
    requires slotted { IfSome slots (λ slots. IsSlottedSet slots.items (drop from keys.old)) }
    ensures distinct { OnOk result (keys.new ≡ take from keys.old ++ distinct (drop from keys.old)) }
    ensures refused { OnErr result (keys.new ≡ keys.old) }
{
    if slots.is_some() {
        return Ok(());
    }
    leave_out_repeats(alloc, keys, from)
}

/// `distinct` leaves each text exactly once: the result has no repeats and loses no text.
pub fn distinct_law()
    ensures different { (texts : List Text) → IsDistinct bytes_eq (distinct texts) }
    ensures same { (texts : List Text) (text : Text) → has_key (distinct texts) text ≡ has_key texts text }
{}

/// Of two lists of distinct texts, as many texts of the first are in the second as of the second in the first. So the
/// overlap of a query and a column may be counted over either.
pub fn overlap_law()
    ensures { (xs ys : List Text) → IsDistinct bytes_eq xs → IsDistinct bytes_eq ys → overlap xs ys ≡ overlap ys xs }
{}
