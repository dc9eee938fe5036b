//! A digest, as it is kept and printed.

ghost use Rattle.std.specs.Prelude.{◌≡◌, None, Some, IfSome, length};
ghost use Rattle.hex.specs.Hex.{IsBytes, encode_lower};

use hex::FromHex;
use std::{fmt, str};

/// A SHA-256 digest: 32 bytes.
#[derive(Clone, Copy, Debug, PartialEq, Eq)]
pub struct Digest {
    bytes: [u8; 32],
}

impl Digest {
    /// The digest of 32 bytes.
    pub(crate) fn new(bytes: [u8; 32]) -> Digest
        ensures { result ≡ record { bytes = bytes } }
    {
        Digest { bytes }
    }

    pub(crate) fn as_bytes(&self) -> &[u8]
        ensures { result.now ≡ self.now.bytes }
    {
        self.bytes.as_slice()
    }

    /// Its 64 hexadecimal digits, in lower case.
    pub(crate) fn text(&self) -> [u8; 64]
        ensures { result ≡ encode_lower self.now.bytes }
    {
        let mut text = [b'0'; 64];
        let _written = hex::encode_to_slice(self.bytes.as_slice(), &mut text);
        text
    }

    /// The digest that these are the digits of, in either case.
    pub(crate) fn from_digits(digits: &[u8]) -> Option<Digest>
        ensures { (digest : _) → length digest.bytes ≡ 32 → IsBytes digest.bytes → digits.now ≡ encode_lower digest.bytes → result ≡ Some digest }
    {
        match <[u8; 32] as FromHex>::from_hex(digits) {
            Ok(bytes) => Some(Digest { bytes }),
            Err(_) => None,
        }
    }
}

impl fmt::Display for Digest {
    ghost output = { λ digest. Some (encode_lower digest.bytes) };

    fn fmt<W: fmt::Write>(&self, f: &mut fmt::Formatter<W>) -> fmt::Result {
        match str::from_utf8(&self.text()) {
            Ok(text) => f.write_str(text),
            Err(_) => Ok(()),
        }
    }
}
