// The console's queues of bytes.
use arrayvec::ArrayVec;
use std::marker::Model;

// How many bytes can wait in a queue.
pub const QUEUE_SIZE: usize = 256;

// Bytes that wait. It holds them itself and asks no heap, so that a processor can always be made.
#[derive(Drop)]
pub struct Queue {
    bytes: ArrayVec<u8, QUEUE_SIZE>,
}

// A contract sees the bytes, the oldest first.
impl Model for Queue {
    ghost use Rattle.std.specs.Prelude.{ℕ, ◌≤◌, List, length};

    ghost Value = { List ℕ };

    ghost view = { λ queue. queue.bytes.items };

    ghost invariant = { λ queue. length queue.bytes.items ≤ 256 };
}

// More bytes than can wait.
#[derive(Clone, Copy, Debug, PartialEq, Eq)]
pub struct Full;

impl Queue {
    ghost use Rattle.std.specs.Prelude.{◌≡◌, ◌≤◌, min, [], ◌++◌, length, take, drop, nat_le, is_ok};
    ghost use Rattle.processor.specs.Queues.{appended, with_all, has_room, oldest, queue_size};

    // A queue in which nothing waits.
    pub fn new() -> Queue
        ensures { result ≡ [] }
    {
        Queue {
            bytes: ArrayVec::new(),
        }
    }

    // Does it hold as much as it can?
    pub fn is_full(&self) -> bool
        ensures full { result ≡ nat_le queue_size (length self.now) }
        ensures fits { length self.now ≤ queue_size }
    {
        self.bytes.is_full()
    }

    // The byte that has waited longest.
    pub fn oldest(&self) -> Option<u8>
        ensures is { result ≡ oldest self.now }
        ensures fits { length self.now ≤ queue_size }
    {
        self.bytes.as_slice().first().copied()
    }

    // Takes the oldest byte away, if one waits.
    pub fn take_oldest(&mut self)
        ensures after { self.new ≡ drop 1 self.old }
        ensures fits { length self.old ≤ queue_size }
    {
        let _ = self.bytes.pop_at(0);
    }

    // Appends a byte; a full queue stays as it is.
    pub fn push(&mut self, byte: u8)
        ensures after { self.new ≡ appended self.old byte }
        ensures fits { length self.old ≤ queue_size }
    {
        let _ = self.bytes.try_push(byte);
    }

    // Appends all the bytes, or none if they do not fit.
    pub fn extend(&mut self, bytes: &[u8]) -> Result<(), Full>
        ensures fit { is_ok result ≡ has_room self.old bytes.now }
        ensures after { self.new ≡ with_all self.old bytes.now }
        ensures fits { length self.old ≤ queue_size }
    {
        self.bytes.try_extend_from_slice(bytes).map_err(|_| Full)
    }

    // Moves as many bytes as fit to the front of a buffer, the oldest first, and answers how many; the buffer's rest stays.
    pub fn drain(&mut self, buffer: &mut [u8]) -> usize
        ensures count { result ≡ min (length buffer.old) (length self.old) }
        ensures moved { buffer.new ≡ take (length buffer.old) self.old ++ drop result buffer.old }
        ensures left { self.new ≡ drop (length buffer.old) self.old }
        ensures fits { length self.old ≤ queue_size }
    {
        let count = buffer.len().min(self.bytes.len());
        buffer[..count].copy_from_slice(&self.bytes.as_slice()[..count]);
        drop(self.bytes.drain(..count));
        count
    }
}
