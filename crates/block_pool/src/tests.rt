//! Loans in order, and what they hold.

ghost use Rattle.std.specs.Prelude.{◌≡◌, length};

use crate::{Loan, Pool};
use std::test::Fail;

/// Fills a loan. A caller of `bytes_mut` knows what it wrote.
fn fill(loan: &mut Loan, bytes: &[u8])
    requires { length bytes.now ≡ 40960 }
    ensures { loan.new ≡ bytes.now }
{
    loan.bytes_mut().copy_from_slice(bytes);
}

/// Whether a buffer is in. It is in again then.
fn has_one(pool: &mut Pool) -> bool
    ensures { pool.new ≡ pool.old }
{
    match pool.lend() {
        Some(loan) => {
            pool.give_back(loan);
            true
        }
        None => false,
    }
}

#[test]
fn two_buffers_are_lent_unmixed_and_no_third(rt: HostRuntime) -> Result<(), Fail> {
    let alloc = rt.alloc();
    let ones = vec![in alloc; 1; 40_960]?;
    let mut pool = Pool::new(alloc, 2)?;
    let Some(mut first) = pool.lend() else {
        return Err(Fail::from("no first loan"));
    };
    let Some(mut second) = pool.lend() else {
        pool.give_back(first);
        return Err(Fail::from("no second loan"));
    };
    fill(&mut first, &ones);
    second.bytes_mut()[40_959] = 2;
    let held = (first.bytes()[40_959], second.bytes()[40_959]);
    let third = has_one(&mut pool);
    pool.give_back(first);
    let again = has_one(&mut pool);
    pool.give_back(second);
    assert_eq!(rt; held, (1, 2));
    assert!(rt; !third);
    assert!(rt; again);
    Ok(())
}

#[test]
fn buffers_that_are_wanting_are_added(rt: HostRuntime) -> Result<(), Fail> {
    let mut pool = Pool::new(rt.alloc(), 1)?;
    let Some(out) = pool.lend() else {
        return Err(Fail::from("no loan"));
    };
    let reserved = pool.reserve(1);
    let one = has_one(&mut pool);
    pool.give_back(out);
    reserved?;
    assert!(rt; one);
    Ok(())
}
