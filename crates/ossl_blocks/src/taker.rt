//! What is done with blocks.

ghost use Rattle.std.specs.Prelude.{◌≡◌, ℕ, ◌+◌, ◌%◌, List, [], ◌++◌, length};

/// What takes whole blocks of `SIZE` bytes.
pub trait BlockTaker<const SIZE: usize> {
    /// Where what the blocks become goes.
    type Out;

    // Whether there is room for what so many bytes become.
    ghost has_room: { Self.Out → ℕ → Type 0 };

    // How both may stand after some blocks, by how they stood before them.
    ghost taken: { Self → Self.Out → List ℕ → Self → Self.Out → Type 0 };

    /// Takes the blocks of `first`, and then those of `rest`.
    fn take(&mut self, first: &[u8], rest: &[u8], out: &mut Self::Out)
        requires first { length first.now % SIZE ≡ 0 }
        requires rest { length rest.now % SIZE ≡ 0 }
        requires room { has_room out.old (length first.now + length rest.now) }
        ensures { taken self.old out.old (first.now ++ rest.now) self.new out.new };

    // No blocks change nothing.
    ghost nothing: { (taker : Self) (out : Self.Out) → taken taker out [] taker out };
}
