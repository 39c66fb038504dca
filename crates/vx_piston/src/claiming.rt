//! Which piston has the cells that two want.
ghost use Rattle.std.specs.Prelude.{IfOk, OnOk, [], ◌≡◌};
ghost use Rattle.vx_piston.specs.Claims.{IsTable};

use crate::claim_table::Claims;
use crate::moves::Move;
use std::alloc::{AllocError, Global};

/// The claims of these moves, those that the policy denies left out by the caller.
pub fn claims(alloc: Global, moves: &[Move]) -> Result<Claims, AllocError>
    ensures { IfOk result (λ claims. IsTable moves.now claims) }
{
    let mut claims = Claims::new(alloc);
    add_all(&mut claims, moves)?;
    Ok(claims)
}

// Adds the claims of all these moves to none.
fn add_all(claims: &mut Claims, moves: &[Move]) -> Result<(), AllocError>
    requires { claims.old ≡ [] }
    ensures { OnOk result (IsTable moves.now claims.new) }
{
    for m in moves {
        claims.add(m)?;
    }
    Ok(())
}
