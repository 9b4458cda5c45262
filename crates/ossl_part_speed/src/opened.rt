use ossl_aes::Aes;
use ossl_gcm::{Gcm, IvLength};
use std::alloc::{AllocError, Global};

/// AES-256-GCM with a key and a vector of zeros.
fn text(decrypt: bool) -> Result<Gcm<Aes<8, 60>>, IvLength> {
    Gcm::new(Aes::expand(&[0; 32]), &[0; 12], &[], decrypt)
}

/// How many bytes a decryption gives of `count` pieces of `size` bytes, each fed to it as an encryption seals it, or 0
/// where it refuses them. The program holds a piece, what was sealed of it, and what the decryption holds.
pub fn opened(alloc: Global, size: usize, count: u64) -> Result<u64, AllocError> {
    let (Ok(mut encryption), Ok(mut decryption)) = (text(false), text(true)) else {
        return Ok(0);
    };
    let piece = vec![in alloc; 0u8; size]?;
    let (mut sealed, mut given) = (Vec::new(alloc), Vec::new(alloc));
    for _piece in 0..count {
        encryption.feed(&piece, &mut sealed)?;
        decryption.feed(&sealed, &mut given)?;
        sealed.clear();
    }
    if encryption.finish(&mut sealed).is_err() {
        return Err(AllocError);
    }
    decryption.feed(&sealed, &mut given)?;
    match decryption.finish(&mut given) {
        Ok(()) => Ok(given.len() as u64),
        Err(_) => Ok(0),
    }
}
