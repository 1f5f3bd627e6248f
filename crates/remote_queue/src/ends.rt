// The two ends of a ring.
ghost use Rattle.std.specs.Prelude.{◌≡◌, ◌+◌, ◌-◌, ◌<◌, ◌≤◌, ◌↔◌, [], ◌∷◌, ◌++◌, All, IfOk, IsOk, IsTrue, OnErr, OnOk, drop, length, max, take, vec_capacity, vec_len};
ghost use mathlib.Core.List.{IsPrefix};
ghost use Rattle.rtrb.specs.Ring.{ProducerLooked, SameConsumer, SameProducer, known_free, known_items, received, sent};
ghost use Rattle.remote_queue.specs.Drawn.{drawn_keys, without_last};
ghost use Rattle.remote_queue.specs.Rings.{AreNewEnds, IsInRange, IsSentOrBack};
ghost use Rattle.span.specs.declared.limits.TheConstants.{MOST_RING_KEYS};
ghost use Rattle.remote_queue.specs.declared.ends.TheConstants.{BLOCK, MOST_KNOWN_KEYS};

use rtrb::{Consumer, Producer, Protocol, PushError, RingBuffer};
use span::names::{Key, MOST_RING_KEYS, SpanId};
use std::alloc::{AllocError, Global};
use std::marker::Model;

/// The rule of every ring: the numbers of each key lie within their limits.
#[derive(Clone, Copy)]
pub struct KeysInRange;

impl Protocol<Key> for KeysInRange {
    ghost allows = { λ before key. IsInRange key };
}

/// How many keys are handed over or drawn at once, if the ring holds as many.
const BLOCK: usize = 64;

/// How many keys a taker's end may know: those of a full ring, and the block that it drew from it
/// before.
pub const MOST_KNOWN_KEYS: usize = MOST_RING_KEYS + BLOCK;

/// A worker's end of its ring to one shard. Keys are handed over in blocks, so that not each of
/// them crosses to the other processor by itself.
pub struct Outbox {
    producer: Producer<Key, Global, KeysInRange>,
    // The keys sent last, which wait until a block is full, or until they are handed over. Each has
    // its place in the ring.
    waiting: Vec<Key>,
    // For how many keys more there are places, before it looks again.
    places: usize,
    ghost below_a_block: { vec_len waiting < vec_capacity waiting },
    ghost have_places: { vec_len waiting + places ≤ known_free producer },
}

impl Model for Outbox {
    ghost use Rattle.remote_queue.specs.Ends.{sending};
    ghost use Rattle.remote_queue.specs.Rings.{Sending};

    ghost Value = { Sending };

    ghost view = { λ outbox. sending outbox.producer outbox.waiting.items };
}

impl Drop for Outbox {
    // The keys that wait are on the ring then.
    fn drop(self) {
        let Outbox {
            mut producer,
            mut waiting,
            places: _,
        } = self;
        hand_over_by(&mut producer, &mut waiting);
    }
}

/// A shard's end of its ring from one worker. Keys are drawn from the ring in blocks, so that not
/// each of them hands its place back to the other processor by itself.
#[derive(Drop)]
pub struct Inbox {
    consumer: Consumer<Key, Global, KeysInRange>,
    // The keys that were drawn last: those from `next` up to `end` are not taken yet. It is empty
    // until the first are drawn.
    block: Vec<Key>,
    next: usize,
    end: usize,
    ghost capacity_in_range: { consumer.capacity ≤ MOST_RING_KEYS },
    ghost block_in_range: { (1 ≤ vec_capacity block) × (vec_capacity block ≤ BLOCK) },
    ghost in_block: { (next ≤ end) × (end ≤ vec_len block) },
    ghost received_last: { received consumer ≡ without_last (end - next) (received consumer)
        ++ drawn_keys next end block.items },
    ghost keys_in_range: { All IsInRange (drawn_keys next end block.items) },
}

impl Model for Inbox {
    ghost use Rattle.remote_queue.specs.Ends.{taking};
    ghost use Rattle.remote_queue.specs.Rings.{Taking};

    ghost Value = { Taking };

    ghost view = { λ inbox. taking inbox.consumer inbox.block.items inbox.next inbox.end };
}

// A new ring with room for that many keys.
pub(crate) fn ring(alloc: Global, capacity: usize) -> Result<(Outbox, Inbox), AllocError>
    requires { (1 ≤ capacity) × (capacity ≤ MOST_RING_KEYS) }
    ensures { IfOk result (λ ends. AreNewEnds capacity ends.0 ends.1) }
{
    let waiting = Vec::with_capacity(alloc, capacity.min(BLOCK))?;
    let block = Vec::with_capacity(alloc, capacity.min(BLOCK))?;
    let (producer, consumer) = RingBuffer::with_protocol::<Global, KeysInRange>(alloc, capacity)?;
    let inbox = Inbox {
        consumer,
        block,
        next: 0,
        end: 0,
    };
    let outbox = Outbox {
        producer,
        waiting,
        places: 0,
    };
    Ok((outbox, inbox))
}

// What stands in a place of a block before a key does.
fn any_key() -> Key {
    let span = SpanId {
        shard: 0,
        serial: 0,
    };
    Key {
        span,
        slot: 0,
        generation: 1,
    }
}

// Hands the waiting keys over with one store. The ring has a place for each of them. It stands
// apart, since most keys wait.
#[inline(never)]
fn hand_over_by(producer: &mut Producer<Key, Global, KeysInRange>, waiting: &mut Vec<Key>)
    requires { vec_len waiting.old ≤ known_free producer.old }
    ensures ring { SameProducer producer.old producer.new }
    ensures sent { sent producer.new ≡ sent producer.old ++ waiting.old.items }
    ensures free { known_free producer.old ≤ known_free producer.new + vec_len waiting.old }
    ensures none { waiting.new.items ≡ [] }
    ensures len { vec_len waiting.new ≡ 0 }
    ensures room { vec_capacity waiting.new ≡ vec_capacity waiting.old }
{
    match producer.push_entire_slice(waiting.as_slice()) {
        Ok(()) => waiting.clear(),
        Err(_) => unreachable!(),
    }
}

// Looks how many places of the ring are free beside those of the keys that wait, and hands these
// over if there is none.
#[inline]
fn look_for_places(
    producer: &mut Producer<Key, Global, KeysInRange>,
    waiting: &mut Vec<Key>,
) -> usize
    requires { vec_len waiting.old ≤ known_free producer.old }
    ensures ring { SameProducer producer.old producer.new }
    ensures sent { sent producer.new ++ waiting.new.items
        ≡ sent producer.old ++ waiting.old.items }
    ensures places { vec_len waiting.new + result ≤ known_free producer.new }
    ensures free { known_free producer.old + vec_len waiting.new
        ≤ known_free producer.new + vec_len waiting.old }
    ensures stay { 0 < result → waiting.new ≡ waiting.old }
    ensures none { result ≡ 0 → (vec_len waiting.new ≡ 0)
        × (known_free producer.old ≡ vec_len waiting.old) }
    ensures room { vec_capacity waiting.new ≡ vec_capacity waiting.old }
{
    let places = producer.slots() - waiting.len();
    if places == 0 {
        hand_over_by(producer, waiting);
    }
    places
}

// Has the key wait with others in a place that is known to be free, until they fill a block.
#[inline(always)]
fn push_by(
    producer: &mut Producer<Key, Global, KeysInRange>,
    waiting: &mut Vec<Key>,
    places: &mut usize,
    key: Key,
)
    requires some { 0 < places.old }
    requires places { vec_len waiting.old + places.old ≤ known_free producer.old }
    requires room { vec_len waiting.old < vec_capacity waiting.old }
    ensures places { vec_len waiting.new + places.new ≤ known_free producer.new }
    ensures room { vec_len waiting.new < vec_capacity waiting.new }
    ensures ring { SameProducer producer.old producer.new }
    ensures sent { sent producer.new ++ waiting.new.items
        ≡ (sent producer.old ++ waiting.old.items) ++ key ∷ [] }
    ensures place { known_free producer.old + vec_len waiting.new
        ≤ known_free producer.new + vec_len waiting.old + 1 }
{
    *places -= 1;
    waiting.push_reserved(key);
    if waiting.len() == waiting.capacity() {
        hand_over_by(producer, waiting);
    }
}

// Sends the key, if no place is known to be free: it looks for one first. It stands apart, since
// mostly one is known.
#[inline(never)]
fn send_after_look(
    producer: &mut Producer<Key, Global, KeysInRange>,
    waiting: &mut Vec<Key>,
    places: &mut usize,
    key: Key,
) -> Result<(), Key>
    requires places { vec_len waiting.old ≤ known_free producer.old }
    requires room { vec_len waiting.old < vec_capacity waiting.old }
    ensures places { vec_len waiting.new + places.new ≤ known_free producer.new }
    ensures room { vec_len waiting.new < vec_capacity waiting.new }
    ensures ring { SameProducer producer.old producer.new }
    ensures sent { IsSentOrBack key (sent producer.old ++ waiting.old.items) result
        (sent producer.new ++ waiting.new.items) }
    ensures none { OnErr result (vec_len waiting.new ≡ 0) }
    ensures succeeds { vec_len waiting.old < known_free producer.old → IsOk result }
    ensures place { OnOk result (known_free producer.old + vec_len waiting.new
        ≤ known_free producer.new + vec_len waiting.old + 1) }
{
    *places = look_for_places(producer, waiting);
    if *places == 0 {
        return Err(key);
    }
    push_by(producer, waiting, places, key);
    Ok(())
}

// Sends the key: it waits with others until they fill a block. If it is refused, none waits any
// more. Inlined, as what calls it, the key stays in registers: what is handed back would go through
// memory.
#[inline(always)]
fn send_by(
    producer: &mut Producer<Key, Global, KeysInRange>,
    waiting: &mut Vec<Key>,
    places: &mut usize,
    key: Key,
) -> Result<(), Key>
    requires places { vec_len waiting.old + places.old ≤ known_free producer.old }
    requires room { vec_len waiting.old < vec_capacity waiting.old }
    ensures places { vec_len waiting.new + places.new ≤ known_free producer.new }
    ensures room { vec_len waiting.new < vec_capacity waiting.new }
    ensures ring { SameProducer producer.old producer.new }
    ensures sent { IsSentOrBack key (sent producer.old ++ waiting.old.items) result
        (sent producer.new ++ waiting.new.items) }
    ensures none { OnErr result (vec_len waiting.new ≡ 0) }
    ensures succeeds { vec_len waiting.old < known_free producer.old → IsOk result }
    ensures place { OnOk result (known_free producer.old + vec_len waiting.new
        ≤ known_free producer.new + vec_len waiting.old + 1) }
{
    if *places == 0 {
        return send_after_look(producer, waiting, places, key);
    }
    push_by(producer, waiting, places, key);
    Ok(())
}

impl Outbox {
    /// Sends the key, in a block with others: the taker's end sees it once the block is full, or is
    /// handed over by [`Outbox::hand_over`] or [`count_left`], or a key is refused. It waits for
    /// nobody and takes no memory, and succeeds if a place of the ring is known to be free.
    ///
    /// # Errors
    ///
    /// The key, handed back, if the ring took none: each of its places was seen to hold a key,
    /// those sent in this block among them. All keys that were sent are then handed over.
    #[inline(always)]
    pub fn send(&mut self, key: Key) -> Result<(), Key>
        ensures ring { self.new.ring ≡ self.old.ring }
        ensures sent { IsSentOrBack key self.old.sent result self.new.sent }
        ensures succeeds { 0 < self.old.free → IsOk result }
        ensures place { OnOk result (self.old.free ≤ self.new.free + 1) }
        ensures full { OnErr result (self.old.free ≡ 0) }
        ensures refused { OnErr result (self.new.waiting ≡ 0) }
    {
        send_by(&mut self.producer, &mut self.waiting, &mut self.places, key)
    }

    /// Hands over the keys that wait for their block to be full, so that the taker's end can see
    /// all that were sent. It waits for nobody and takes no memory.
    pub fn hand_over(&mut self)
        ensures ring { self.new.ring ≡ self.old.ring }
        ensures sent { self.new.sent ≡ self.old.sent }
        ensures free { self.old.free ≤ self.new.free }
        ensures none { self.new.waiting ≡ 0 }
    {
        hand_over_by(&mut self.producer, &mut self.waiting);
    }
}

// Fills the block up, so that each of its places may be drawn into.
fn fill_up(block: &mut Vec<Key>)
    ensures len { vec_len block.new ≡ vec_capacity block.old }
    ensures capacity { vec_capacity block.new ≡ vec_capacity block.old }
{
    for _ in block.len()..block.capacity() {
        block.push_reserved(any_key());
    }
}

// Draws keys from the ring into the first places of the block, at most that many, and gives how
// many there were.
fn draw_into(
    consumer: &mut Consumer<Key, Global, KeysInRange>,
    block: &mut [Key],
    most: usize,
) -> usize
    ensures few { (result ≤ most) × (result ≤ length block.new) }
    ensures ring { SameConsumer consumer.old consumer.new }
    ensures received { received consumer.new ≡ received consumer.old ++ take result block.new }
    ensures known { IsPrefix (known_items consumer.old) (take result block.new
        ++ known_items consumer.new) }
    ensures some { 0 < most → 0 < length block.old → 0 < length (known_items consumer.old)
        → 0 < result }
    ensures in_range { All IsInRange (take result block.new) }
{
    let (front, _) = block.split_at_mut(most.min(block.len()));
    consumer.pop_partial_slice(front)
}

impl Inbox {
    /// Draws a block of the oldest keys that are seen from the ring, at most that many, if none
    /// is drawn: their places are free for further keys, and they are the next to be taken. It
    /// waits for nobody and takes no memory, and draws one at least if one is known.
    pub fn draw(&mut self, most: usize)
        ensures ring { self.new.ring ≡ self.old.ring }
        ensures taken { self.new.taken ≡ self.old.taken }
        ensures known { IsPrefix self.old.known self.new.known }
        ensures some { 0 < most → 0 < length self.old.known → 0 < self.new.drawn }
        ensures few { self.new.drawn ≤ max self.old.drawn most }
    {
        if self.next == self.end {
            fill_up(&mut self.block);
            self.next = 0;
            self.end = draw_into(&mut self.consumer, self.block.as_mut_slice(), most);
        }
    }

    /// The keys that were drawn from the ring and are not taken yet, the oldest first.
    pub fn drawn(&self) -> &[Key]
        ensures keys { result.now ≡ take self.now.drawn self.now.known }
        ensures len { length result.now ≡ self.now.drawn }
        ensures in_range { All IsInRange result.now }
    {
        &self.block[self.next..self.end]
    }

    /// Takes that many of the drawn keys.
    pub fn take_drawn(&mut self, count: usize)
        requires { count ≤ self.old.drawn }
        ensures ring { self.new.ring ≡ self.old.ring }
        ensures taken { self.new.taken ≡ self.old.taken ++ take count self.old.known }
        ensures known { self.new.known ≡ drop count self.old.known }
        ensures drawn { self.new.drawn + count ≡ self.old.drawn }
    {
        self.next += count;
    }

    /// How many keys it has drawn from its ring, or sees there, all of which it then knows: that
    /// many takes answer. It waits for nobody and takes no memory.
    pub fn look(&mut self) -> usize
        ensures ring { self.new.ring ≡ self.old.ring }
        ensures taken { self.new.taken ≡ self.old.taken }
        ensures known { IsPrefix self.old.known self.new.known }
        ensures count { result ≡ length self.new.known }
        ensures few { result ≤ MOST_KNOWN_KEYS }
    {
        self.end - self.next + self.consumer.slots()
    }

    /// How many keys it has drawn, or knows to be on the ring: that many takes answer.
    pub fn known(&self) -> usize
        ensures count { result ≡ length self.now.known }
        ensures few { result ≤ MOST_KNOWN_KEYS }
    {
        self.end - self.next + self.consumer.cached_slots()
    }

    /// Takes the oldest of the known keys, which are not none. It waits for nobody and takes no
    /// memory.
    pub fn take_known(&mut self) -> Key
        requires { 0 < length self.old.known }
        ensures ring { self.new.ring ≡ self.old.ring }
        ensures taken { self.new.taken ≡ self.old.taken ++ result ∷ [] }
        ensures known { self.old.known ≡ result ∷ self.new.known }
        ensures in_range { IsInRange result }
    {
        let Some(key) = self.drawn().first() else {
            return self.consumer.pop_known();
        };
        let key = *key;
        self.take_drawn(1);
        key
    }
}

/// How many keys were sent by the one end of a ring and not yet taken by the other, at most
/// [`MOST_KNOWN_KEYS`]. That many takes then answer these keys, in the order in which they were
/// sent, and the keys taken are then the keys sent. Those that waited for their block to be full
/// are handed over. It waits for nobody and takes no memory.
pub fn count_left(outbox: &mut Outbox, inbox: &mut Inbox) -> usize
    requires { outbox.old.ring ≡ inbox.old.ring }
    ensures left { result ≡ length inbox.new.known }
    ensures settled { inbox.new.taken ++ inbox.new.known ≡ outbox.new.sent }
    ensures outbox { (outbox.new.ring ≡ outbox.old.ring) × (outbox.new.sent ≡ outbox.old.sent)
        × (outbox.old.free ≤ outbox.new.free) }
    ensures none { outbox.new.waiting ≡ 0 }
    ensures places { outbox.new.ring.capacity ≤ outbox.new.free + result }
    ensures inbox { (inbox.new.ring ≡ inbox.old.ring) × (inbox.new.taken ≡ inbox.old.taken) }
    ensures few { result ≤ MOST_KNOWN_KEYS }
{
    outbox.hand_over();
    outbox.places = outbox.producer.slots_beside(&mut inbox.consumer);
    inbox.end - inbox.next + inbox.consumer.slots_beside(&mut outbox.producer)
}
