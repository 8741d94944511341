ghost use Rattle.std.specs.Prelude.{◌≡◌, IfOk, IsAscii, IsOkUnless};
ghost use Rattle.bas_names.specs.Escape.{escaped};
ghost use Rattle.percent_encoding.specs.Percent.{percent_decode};

use crate::NameError;
use percent_encoding::{AsciiSet, NON_ALPHANUMERIC, ascii_set, percent_encode};
use std::alloc::Global;

/// The ASCII bytes that are escaped.
const ESCAPED: AsciiSet = ascii_set!(
    NON_ALPHANUMERIC
        .remove(b'-')
        .remove(b'.')
        .remove(b'/')
        .remove(b'_')
);

/// The name as a text: letters, digits, `-`, `.`, `/` and `_` stay, and every other byte becomes `%` and two
/// upper-case hexadecimal digits. The only error is `Memory`.
pub fn escape(alloc: Global, name: &[u8]) -> Result<Vec<u8>, NameError>
    ensures exact { IfOk result (λ text. text.items ≡ escaped name.now) }
    ensures reversible { IfOk result (λ text. percent_decode text.items ≡ name.now) }
    ensures ascii { IfOk result (λ text. IsAscii text.items) }
    ensures memory { IsOkUnless result NameError.Memory }
{
    let mut text = String::new(alloc);
    percent_encode(name, ESCAPED).append_to(&mut text)?;
    Ok(text.into_bytes())
}
