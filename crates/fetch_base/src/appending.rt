//! Digits that are put after a text.

ghost use Rattle.std.specs.Prelude.{◌≡◌, ◌++◌, decimal, OnErr, OnOk};
ghost use Rattle.fetch_base.specs.Digits.{hex_of};

use crate::error::NoMemory;
use crate::id::ObjectId;
use itoa::Buffer;

/// Puts a number in decimal digits, without leading zeros, after what is there. After an error the text is as before.
pub fn append_number(out: &mut Vec<u8>, number: usize) -> Result<(), NoMemory>
    ensures ok { OnOk result (out.new.items ≡ out.old.items ++ decimal number) }
    ensures err { OnErr result (out.new.items ≡ out.old.items) }
{
    let mut buffer = Buffer::new();
    out.extend_from_slice(buffer.format(number).as_bytes())?;
    Ok(())
}

/// Puts the 40 or 64 hexadecimal digits of an id, in lower case, after what is there. After an error the text is as
/// before.
pub fn append_hex(out: &mut Vec<u8>, id: &ObjectId) -> Result<(), NoMemory>
    ensures ok { OnOk result (out.new.items ≡ out.old.items ++ hex_of id.now) }
    ensures err { OnErr result (out.new.items ≡ out.old.items) }
{
    match id {
        ObjectId::Sha1(_) => {
            let mut digits = [0; 40];
            hex::encode_to_slice(id.as_bytes(), &mut digits).unwrap();
            out.extend_from_slice(&digits)?;
        }
        ObjectId::Sha256(_) => {
            let mut digits = [0; 64];
            hex::encode_to_slice(id.as_bytes(), &mut digits).unwrap();
            out.extend_from_slice(&digits)?;
        }
    }
    Ok(())
}
