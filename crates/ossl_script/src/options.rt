//! What the words behind the fixed ones of a command say.

ghost use Rattle.std.specs.Prelude.{◌≡◌, IfOk, OnOk};
ghost use Rattle.ossl_script.specs.Given.{content_by, data_bytes, default_options, options_of, with_argument};

use ossl_base::text::{Bytes, Text};
use ossl_codes::{Direction, KdfMode, Operation};
use ossl_commands::{Argument, Data};
use ossl_op::Params;
use std::alloc::{AllocError, Global};

/// What the options of a command say.
#[derive(Drop)]
pub struct Options {
    /// The number of its library context.
    pub lib: u64,
    /// The inner algorithm that it is to fetch, and for which operation.
    pub algorithm: Option<(Operation, Text)>,
    /// The name of the inner method that it uses.
    pub method: Option<Text>,
    /// The parameters of its operation.
    pub params: Params,
}

impl Options {
    /// What is meant without options: library context 0, no inner algorithm, encryption with padding, both steps of a
    /// derivation, and no other parameter.
    fn none() -> Options
        ensures { result ≡ default_options }
    {
        Options {
            lib: 0,
            algorithm: None,
            method: None,
            params: Params {
                direction: Direction::Encrypt,
                pad: true,
                key: None,
                iv: None,
                salt: None,
                info: None,
                mode: KdfMode::Both,
                len: None,
            },
        }
    }

    /// What these words say, where files have these contents.
    pub fn of(
        alloc: Global,
        arguments: &[Argument],
        contents: &[Bytes],
    ) -> Result<Options, AllocError>
        ensures { IfOk result (λ options. options ≡ options_of (content_by contents.now) arguments.now) }
    {
        let mut options = Options::none();
        for argument in arguments {
            options.add(alloc, argument, contents)?;
        }
        Ok(options)
    }

    /// Adds what one more word says.
    fn add(
        &mut self,
        alloc: Global,
        argument: &Argument,
        contents: &[Bytes],
    ) -> Result<(), AllocError>
        ensures { OnOk result (self.new ≡ with_argument (content_by contents.now) self.old argument.now) }
    {
        match argument {
            Argument::Piece(_) | Argument::Retain => {}
            Argument::Lib(lib) => self.lib = u64::from(*lib),
            Argument::Digest(name) => {
                self.algorithm = Some((Operation::Digest, name.copy(alloc)?))
            }
            Argument::Cipher(name) => {
                self.algorithm = Some((Operation::Cipher, name.copy(alloc)?))
            }
            Argument::Inner(name) => self.method = Some(name.copy(alloc)?),
            Argument::Key(given) => self.params.key = Some(bytes_of(alloc, given, contents)?),
            Argument::Iv(given) => self.params.iv = Some(bytes_of(alloc, given, contents)?),
            Argument::Direction(direction) => self.params.direction = *direction,
            Argument::Pad(pad) => self.params.pad = *pad,
            Argument::Salt(given) => self.params.salt = Some(bytes_of(alloc, given, contents)?),
            Argument::Info(given) => self.params.info = Some(bytes_of(alloc, given, contents)?),
            Argument::Mode(mode) => self.params.mode = *mode,
            Argument::Len(len) => self.params.len = Some(u64::from(*len)),
        }
        Ok(())
    }
}

/// The bytes that data stands for.
fn bytes_of(alloc: Global, given: &Data, contents: &[Bytes]) -> Result<Bytes, AllocError>
    ensures { IfOk result (λ bytes. bytes ≡ data_bytes (content_by contents.now) given.now) }
{
    let mut bytes = Vec::new(alloc);
    given.put(&mut bytes, contents)?;
    Ok(Bytes::of(bytes))
}
