//! The footer of a table.

ghost use Rattle.std.specs.Prelude.{◌≡◌, ◌≢◌, length, IfSome, IfNone};
ghost use Rattle.table_file.specs.Form.{footer_bytes};
ghost use Rattle.table_file.specs.Opening.{IsFooterOf};
ghost use Rattle.table_file.specs.declared.footer.Footer.{Footer};

use byteorder::{BigEndian, ByteOrder};
use peb_base::TableRow;

/// What the last 48 bytes of a table tell.
#[derive(Clone, Copy, Debug, PartialEq, Eq)]
pub struct Footer {
    /// The table's number.
    pub number: u64,
    /// Where the index begins, in bytes from the table's first.
    pub index: u64,
    pub index_len: u32,
    /// Where the filter begins.
    pub filter: u64,
    pub filter_len: u32,
    /// The number of entries.
    pub entries: u64,
}

/// The bytes of a footer.
#[tactic(auto, unfolding(crate::specs::Form::footer_bytes))]
pub fn footer_array(footer: Footer) -> [u8; 48]
    ensures { result ≡ footer_bytes footer }
{
    let n = footer.number.to_be_bytes();
    let i = footer.index.to_be_bytes();
    let l = footer.index_len.to_be_bytes();
    let f = footer.filter.to_be_bytes();
    let m = footer.filter_len.to_be_bytes();
    let e = footer.entries.to_be_bytes();
    [
        n[0], n[1], n[2], n[3], n[4], n[5], n[6], n[7], i[0], i[1], i[2], i[3], i[4], i[5], i[6],
        i[7], l[0], l[1], l[2], l[3], f[0], f[1], f[2], f[3], f[4], f[5], f[6], f[7], m[0], m[1],
        m[2], m[3], e[0], e[1], e[2], e[3], e[4], e[5], e[6], e[7], b'F', b'L', b'S', b'M', b'T',
        b'A', b'B', b'1',
    ]
}

/// The footer that agrees with the row, if the last 48 bytes of a file are one.
pub fn footer_for(row: &TableRow, bytes: &[u8]) -> Option<Footer>
    requires { length bytes.now ≡ 48 }
    ensures agrees { IfSome result (λ footer. IsFooterOf row.now footer) }
    ensures spelled { IfSome result (λ footer. bytes.now ≡ footer_bytes footer) }
    ensures none { IfNone result
        ((footer : Footer) → IsFooterOf row.now footer → bytes.now ≢ footer_bytes footer) }
{
    if row.entries > 1_717_986_918 {
        return None;
    }
    let filter_len = ((row.entries * 10).max(64) + 7) / 8;
    if row.bytes < 48 + filter_len {
        return None;
    }
    let filter = row.bytes - 48 - filter_len;
    let index = BigEndian::read_u64(&bytes[8..]);
    if index > filter || filter - index > 2_147_483_648 {
        return None;
    }
    let footer = Footer {
        number: row.number,
        index,
        index_len: (filter - index) as u32,
        filter,
        filter_len: filter_len as u32,
        entries: row.entries,
    };
    let text = footer_array(footer);
    if text[..] != bytes[..] {
        return None;
    }
    Some(footer)
}
