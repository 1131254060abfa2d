//! The messages that the entries of a replay sent.
ghost use Rattle.std.specs.Prelude.{◌≡◌, ◌-◌, IfOk, length};
ghost use Rattle.frame_codec.specs.Limits.{IsFramable};
ghost use Rattle.replay_runner.specs.Letters.{letter_with, receiver_in, delivery_of};

use frame_codec::Packet;
use history_text::Entry;
use seata_types::{Boxed, Message, NoMemory, Place};
use std::alloc::Global;

/// A message on its way between two nodes, as its frame.
#[derive(Drop)]
pub struct Letter {
    pub from: Place,
    pub to: Place,
    pub packet: Packet,
}

/// A message that reaches its receiver.
#[derive(Drop)]
pub struct Delivery {
    pub from: Place,
    pub to: Place,
    pub message: Boxed<Message>,
}

/// The message that each entry sent, and whether an entry delivered it. All before `waiting` are delivered, or there was none.
#[derive(Drop)]
pub struct Messages {
    pub letters: Vec<Option<Letter>>,
    pub taken: Vec<bool>,
    pub waiting: usize,
}

/// The letter of the message that the newest entry of a trace sent, as its frame.
pub fn letter_of(from: Place, trace: &[Entry], packet: Option<Packet>) -> Option<Letter>
    ensures { result ≡ letter_with from (receiver_in trace.now) packet }
{
    let Some(packet) = packet else {
        return None;
    };
    match receiver(trace) {
        Some(to) => Some(Letter { from, to, packet }),
        None => None,
    }
}

/// Opens a letter, which may be opened again.
fn open(alloc: Global, letter: &Letter) -> Result<Delivery, NoMemory>
    ensures opened { IfOk result (λ delivery. delivery ≡ delivery_of letter.now) }
    ensures framable { IsFramable letter.now.packet.message }
{
    let (message, _) = letter.packet.open(alloc)?;
    let message = Boxed::new(alloc, message)?;
    Ok(Delivery {
        from: letter.from,
        to: letter.to,
        message,
    })
}

impl Messages {
    ghost use Rattle.std.specs.Prelude.{◌≡◌, ◌<◌, ◌≤◌, ◌+◌, ◌-◌, ◌++◌, ◌∷◌, [], ℕ, true, false, length, slice_set as set, Some, None, IfOk, OnOk, IfSome, option_map};
    ghost use Rattle.seata_types.specs.declared.limits.TheConstants.{STEPS};
    ghost use Rattle.replay_runner.specs.Letters.{AreMessages, IsFramableDelivery, delivery_of, letter_at, waits};

    /// No message was sent.
    pub fn new(alloc: Global) -> Messages
        ensures { AreMessages result [] }
    {
        Messages {
            letters: Vec::new(alloc),
            taken: Vec::new(alloc),
            waiting: 0,
        }
    }

    /// The message that the entry with this stamp sent, if it is there and sent one.
    pub fn delivery(&self, alloc: Global, stamp: u32) -> Result<Option<Delivery>, NoMemory>
        ensures found { IfOk result
            (λ found. found ≡ option_map delivery_of (letter_at stamp self.now.letters.items)) }
        ensures framable { IfOk result (λ found. IfSome found IsFramableDelivery) }
    {
        if stamp == 0 {
            return Ok(None);
        }
        match self.letters.get(stamp as usize - 1) {
            Some(Some(letter)) => Ok(Some(open(alloc, letter)?)),
            _ => Ok(None),
        }
    }

    /// Adds what the next entry sent.
    pub fn add(&mut self, letter: Option<Letter>) -> Result<(), NoMemory>
        ensures letters { OnOk result
            (self.new.letters.items ≡ self.old.letters.items ++ letter ∷ []) }
        ensures taken { OnOk result (self.new.taken.items ≡ self.old.taken.items ++ false ∷ []) }
        ensures waiting { self.new.waiting ≡ self.old.waiting }
    {
        self.taken.push(false)?;
        self.letters.push(letter)?;
        Ok(())
    }

    /// The message of the entry with this stamp is delivered.
    pub fn take(&mut self, stamp: u32)
        requires counted { 1 ≤ stamp }
        requires there { stamp ≤ length self.old.taken.items }
        ensures taken { self.new.taken.items ≡ set self.old.taken.items (stamp - 1) true }
        ensures letters { self.new.letters ≡ self.old.letters }
        ensures waiting { self.new.waiting ≡ self.old.waiting }
    {
        self.taken[stamp as usize - 1] = true;
    }

    /// Whether the k-th entry, counted from 0, sent a message that no entry delivered.
    fn is_waiting(&self, k: usize) -> bool
        requires marked { k < length self.now.taken.items }
        requires there { k < length self.now.letters.items }
        ensures { result ≡ waits self.now.letters.items self.now.taken.items k }
    {
        !self.taken[k] && self.letters[k].is_some()
    }

    /// The stamp of the oldest entry that sent a message that no entry delivered.
    pub fn oldest(&mut self) -> Option<u32>
        requires marked { length self.old.taken.items ≡ length self.old.letters.items }
        requires within { self.old.waiting ≤ length self.old.letters.items }
        requires short { length self.old.letters.items ≤ STEPS }
        ensures none { (k : ℕ) → self.old.waiting ≤ k → k < self.new.waiting →
            waits self.old.letters.items self.old.taken.items k ≡ false }
        ensures found { IfSome result (λ stamp. (stamp ≡ self.new.waiting + 1)
            × (self.new.waiting < length self.old.letters.items)
            × (waits self.old.letters.items self.old.taken.items self.new.waiting ≡ true)) }
        ensures all { result ≡ None → self.new.waiting ≡ length self.old.letters.items }
        ensures later { self.old.waiting ≤ self.new.waiting }
        ensures letters { self.new.letters ≡ self.old.letters }
        ensures taken { self.new.taken ≡ self.old.taken }
    {
        for k in self.waiting..self.letters.len() {
            if self.is_waiting(k) {
                self.waiting = k;
                return Some(k as u32 + 1);
            }
        }
        self.waiting = self.letters.len();
        None
    }
}

/// Where the newest entry of a trace sent its message.
fn receiver(trace: &[Entry]) -> Option<Place>
    ensures { result ≡ receiver_in trace.now }
{
    match trace.last() {
        Some(
            Entry {
                sent: Some(sent),
                ..
            },
        ) => Some(sent.to),
        _ => None,
    }
}
