//! Causes of a job's end.

ghost use Rattle.std.specs.Prelude.{◌≡◌, ◌≤◌, ◌-◌};
ghost use Rattle.guard_commit.specs.Stopping.{cause_of, read_cause};

use flsm_model::ShortCause;
use peb_base::ReadFault;
use table_file::{PutFault, Short};

/// The fault of a write as the cause of a job's end.
pub fn put_cause(fault: PutFault) -> ShortCause
    ensures { result ≡ cause_of fault }
{
    match fault {
        PutFault::Fault => ShortCause::Fault,
        PutFault::Limit(kind, limit) => ShortCause::Limit(kind, limit),
        PutFault::Memory => ShortCause::Memory,
    }
}

/// The fault of a read as the cause of a job's end.
pub fn read_cause(fault: ReadFault) -> ShortCause
    ensures { result ≡ read_cause fault }
{
    match fault {
        ReadFault::Fault => ShortCause::Fault,
        ReadFault::Damaged { table, at } => ShortCause::Damaged { table, at },
    }
}

/// The end of a job by this cause, whose maker had taken so many bytes before it and so many now.
pub fn short_by(cause: ShortCause, before: u64, now: u64) -> Short
    requires { before ≤ now }
    ensures cause { result.cause ≡ cause }
    ensures bytes { result.bytes ≡ now - before }
{
    Short {
        cause,
        bytes: now - before,
    }
}
