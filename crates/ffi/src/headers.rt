//! A block's header by itself.

ghost use Rattle.std.specs.Prelude.{◌≡◌};
ghost use Rattle.ffi.specs.Headers.{IsHeaderTold, header_row};

use crate::answers::{DONE, EXTRA, Name, SHORT};
use crate::shown::HeaderRow;
use block::{Header, header_of};

/// How many bytes a header has.
const HEADER: usize = 80;

/// The header that these bytes are, all of them, with its id.
#[unsafe(no_mangle)]
pub extern "C" fn ffi_header_read(bytes: &[u8], shown: &mut HeaderRow) -> u32
    ensures { IsHeaderTold bytes.now shown.old shown.new result }
{
    if bytes.len() > HEADER {
        return EXTRA;
    }
    match header_of(bytes) {
        Err(_) => SHORT,
        Ok(header) => {
            *shown = row(&header);
            DONE
        }
    }
}

fn row(header: &Header) -> HeaderRow
    ensures { result ≡ header_row header.now }
{
    let id = header.id().0;
    let parent = header.prev.0;
    let root = header.root.0;
    HeaderRow {
        id: Name { bytes: id },
        parent: Name { bytes: parent },
        root: Name { bytes: root },
        version: header.version,
        time: header.time,
        bits: header.bits,
        nonce: header.nonce,
    }
}
