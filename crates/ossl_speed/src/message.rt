ghost use Rattle.std.specs.Prelude.{◌≡◌, ◌≤◌, length};
ghost use Rattle.ossl_speed.specs.Message.{message};

/// The bytes of a message that are taken in at once. Pieces are alike, since 256 divides their length.
pub const PIECE: usize = 16384;

/// A piece of a message.
pub fn piece() -> [u8; PIECE]
    ensures { result ≡ message PIECE }
{
    let mut bytes = [0; PIECE];
    for i in 0..PIECE {
        bytes[i] = (i % 256) as u8;
    }
    bytes
}

/// The message of so many bytes, which begins every longer one.
pub fn front(piece: &[u8], size: usize) -> &[u8]
    requires piece { piece.now ≡ message PIECE }
    requires within { size ≤ PIECE }
    ensures value { result.now ≡ message size }
    ensures size { length result.now ≡ size }
{
    &piece[..size]
}
