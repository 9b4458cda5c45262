//! Bytes in pieces, cut into blocks.

ghost use Rattle.std.specs.Prelude.{◌≡◌, ℕ, ◌+◌, ◌%◌, ◌<◌, ◌≤◌, List, [], ◌++◌, ◌^◌, length, take};
ghost use Rattle.ossl_blocks.specs.Cut.{IsSize, IsCut, whole_len};
ghost use Rattle.ossl_blocks.specs.Held.{held_of, IsFed};

use crate::state::Buffer;
use crate::taker::BlockTaker;

impl<const SIZE: usize, const KEPT: usize> Buffer<SIZE, KEPT> {
    /// No bytes.
    pub fn new() -> Self
        requires { IsSize SIZE KEPT }
        ensures { held_of result ≡ [] }
    {
        Buffer {
            held: [0; SIZE],
            count: 0,
        }
    }

    /// How many bytes are held.
    pub fn len(&self) -> usize
        ensures value { result ≡ length (held_of self.now) }
        ensures within { result < SIZE + KEPT }
    {
        self.count
    }

    /// The held bytes.
    pub fn bytes(&self) -> &[u8]
        ensures { result.now ≡ held_of self.now }
    {
        &self.held[..self.count]
    }

    /// A block that begins with the held bytes, whatever follows them.
    pub fn block(&self) -> &[u8; SIZE]
        ensures value { take (length (held_of self.now)) result.now ≡ held_of self.now }
        ensures len { length result.now ≡ SIZE }
    {
        &self.held
    }

    /// How many bytes of the held ones and of so many more a feed hands on.
    pub fn whole_len(&self, more: usize) -> usize
        requires { more < 2 ^ 63 }
        ensures { result ≡ whole_len SIZE KEPT (length (held_of self.now) + more) }
    {
        (self.count + more).saturating_sub(KEPT) / SIZE * SIZE
    }

    // Holds the bytes, where there is room for them.
    fn hold(&mut self, bytes: &[u8])
        requires room { length (held_of self.old) + length bytes.now < SIZE + KEPT }
        ensures { held_of self.new ≡ held_of self.old ++ bytes.now }
    {
        let held = &mut self.held[..];
        held[self.count..self.count + bytes.len()].copy_from_slice(bytes);
        self.count += bytes.len();
    }

    // Hands whole blocks on where none is begun, and holds the rest.
    fn feed_apart<T: BlockTaker<SIZE>>(&mut self, bytes: &[u8], taker: &mut T, out: &mut T::Out)
        requires none { self.old.count ≡ 0 }
        requires enough { KEPT ≤ length bytes.now }
        requires room { T.has_room out.old (whole_len SIZE KEPT (length bytes.now)) }
        ensures { (done : List ℕ) × IsCut SIZE KEPT bytes.now done (held_of self.new)
            × T.taken taker.old out.old done taker.new out.new }
    {
        let whole = (bytes.len() - KEPT) / SIZE * SIZE;
        taker.take(&[], &bytes[..whole], out);
        self.hold(&bytes[whole..]);
    }

    // Completes the block that is begun, hands it and further whole blocks on, and holds the rest.
    fn feed_begun<T: BlockTaker<SIZE>>(&mut self, bytes: &[u8], taker: &mut T, out: &mut T::Out)
        requires enough { SIZE + KEPT ≤ self.old.count + length bytes.now }
        requires begun { self.old.count ≤ SIZE }
        requires room { T.has_room out.old (whole_len SIZE KEPT (length (held_of self.old) + length bytes.now)) }
        ensures { IsFed self.old bytes.now self.new (λ done. T.taken taker.old out.old done taker.new out.new) }
    {
        let (front, rest) = bytes.split_at(SIZE - self.count);
        let held = &mut self.held[..];
        held[self.count..].copy_from_slice(front);
        let whole = (rest.len() - KEPT) / SIZE * SIZE;
        taker.take(&self.held, &rest[..whole], out);
        self.count = 0;
        self.hold(&rest[whole..]);
    }

    /// Takes the next bytes, and hands on the blocks that are whole by now: the one that is held, completed, and those
    /// of the piece itself, in one call. No call is made where there are none.
    pub fn feed<T: BlockTaker<SIZE>>(&mut self, bytes: &[u8], taker: &mut T, out: &mut T::Out)
        requires room { T.has_room out.old (whole_len SIZE KEPT (length (held_of self.old) + length bytes.now)) }
        ensures { IsFed self.old bytes.now self.new (λ done. T.taken taker.old out.old done taker.new out.new) }
    {
        if bytes.len() < SIZE - self.count + KEPT {
            self.hold(bytes);
        } else if self.count == 0 {
            self.feed_apart(bytes, taker, out);
        } else {
            self.feed_begun(bytes, taker, out);
        }
    }
}
