//! A value that may be there.

ghost use Rattle.std.specs.Prelude.{◌≡◌, ⊤, Ok, IfSome};
ghost use Rattle.merkle_forest_parts.specs.Codec.{option_encoding, after_option, OptionLacks};
ghost use Rattle.merkle_forest_parts.specs.Laws.Codec.{option_again};

use super::cursor::Cursor;
use super::error::Error;
use super::traits::{EncodeSize, Read, Write};
use super::undo::or_undo;
use std::alloc::{AllocError, Global};

impl<T: Write> Write for Option<T> {
    ghost encoding = { option_encoding T.encoding };

    ghost is_value = { λ v. IfSome v T.is_value };

    fn write(&self, out: &mut Vec<u8>) -> Result<(), AllocError> {
        match self {
            None => Ok(out.push(0)?),
            Some(value) => {
                let start = out.len();
                out.push(1)?;
                or_undo(value.write(out), out, start)
            }
        }
    }
}

impl<T: EncodeSize> EncodeSize for Option<T> {
    fn encode_size(&self) -> usize {
        match self {
            None => 1,
            Some(value) => value.encode_size() + 1,
        }
    }
}

impl<T: Read> Read for Option<T> {
    type Cfg = T::Cfg;

    ghost after = { λ cfg bytes. after_option (T.after cfg) bytes };

    ghost may_lack = { λ cfg bytes. OptionLacks (T.may_lack cfg) bytes };

    ghost is_within = { λ cfg v. IfSome v (T.is_within cfg) };

    fn read_cfg(alloc: Global, cursor: &mut Cursor<'_>, cfg: &T::Cfg) -> Result<Option<T>, Error> {
        if bool::read_cfg(alloc, cursor, &())? {
            Ok(Some(T::read_cfg(alloc, cursor, cfg)?))
        } else {
            Ok(None)
        }
    }

    ghost read_again = { λ cfg v rest value within.
        option_again T.encoding (T.after cfg) T.is_value (T.is_within cfg) (T.read_again cfg) v rest value within };
}
