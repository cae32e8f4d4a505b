//! Replies to commands.

ghost use Rattle.std.specs.Prelude.{◌≡◌, ◌<◌, [], length, IfOk};
ghost use Rattle.script.specs.Reply.{reply_words, reply_text, IsReply};

use crate::reply_buf::ReplyBuf;
use peb_base::{LimitKind, Memory, Number};
use std::alloc::Global;

/// One line of reply.
#[derive(Clone, Copy, Debug)]
pub enum Reply<'a> {
    /// `N written`: a write that may be lost at a crash, N its last number.
    Written(Number),
    /// `N synced`: a write that is on the device.
    Synced(Number),
    /// `N unsynced fault journal`: a write that was made, but not synced.
    UnsyncedFault(Number),
    /// `stopped`: no write, since the store takes none after a fault of the journal.
    Stopped,
    /// `limit KIND n`: no write, since it would pass a limit.
    Limit(LimitKind, u64),
    /// `memory`: nothing done for want of memory.
    Memory,
    /// `N value VALUE`: what a key has at a number.
    Value(Number, &'a [u8]),
    /// `N none`: a key has no value at a number.
    Nothing(Number),
}

fn put_words(reply: &Reply, out: &mut ReplyBuf)
    requires reply { IsReply reply.now }
    requires empty { out.old ≡ [] }
    ensures text { out.new ≡ reply_words reply.now }
    ensures short { length out.new < 102400 }
{
    match reply {
        Reply::Written(n) => out.put_numbered(*n, b" written"),
        Reply::Synced(n) => out.put_numbered(*n, b" synced"),
        Reply::UnsyncedFault(n) => out.put_numbered(*n, b" unsynced fault journal"),
        Reply::Stopped => out.put(b"stopped"),
        Reply::Limit(kind, n) => {
            out.put(b"limit ");
            out.put(kind.name().as_bytes());
            out.put(b" ");
            out.put_decimal(*n);
        }
        Reply::Memory => out.put(b"memory"),
        Reply::Value(n, value) => {
            out.put_numbered(*n, b" value ");
            out.put_token(value);
        }
        Reply::Nothing(n) => out.put_numbered(*n, b" none"),
    }
}

/// Leaves the line of a reply, with its LF, in the buffer, in place of what it held. A value has at
/// most 32,768 bytes.
///
/// It takes no memory, so no reply is lost for want of it.
pub fn reply_into(reply: &Reply, out: &mut ReplyBuf)
    requires { IsReply reply.now }
    ensures { out.new ≡ reply_text reply.now }
{
    out.clear();
    put_words(reply, out);
    out.put(b"\n");
}

/// The line of a reply, with its LF. A value has at most 32,768 bytes.
pub fn write_reply(alloc: Global, reply: &Reply) -> Result<Vec<u8>, Memory>
    requires { IsReply reply.now }
    ensures { IfOk result (λ v. v.items ≡ reply_text reply.now) }
{
    let mut out = ReplyBuf::new(alloc)?;
    reply_into(reply, &mut out);
    Ok(Vec::from_slice(alloc, out.bytes())?)
}
