ghost use Rattle.std.specs.Prelude.{◌≡◌, ◌+◌, ◌≤◌, length, IsSome};
ghost use Rattle.audit_model.specs.History.{claim_numbered, without_claim};
ghost use Rattle.dirty_board.specs.Tallying.{having};
ghost use Rattle.audit_core.specs.Rows.{taken_out};

use audit_model::Given;
use dirty_board::Board;

/// Takes the claim of this number out of the list. `O(c)` in the number of claims.
pub fn take_back(claims: &mut Vec<Given>, number: u64)
    ensures rest { claims.new.items ≡ without_claim number claims.old.items }
    ensures shorter { IsSome (claim_numbered number claims.old.items)
        → length claims.new.items + 1 ≤ length claims.old.items }
{
    claims.retain(|claim| claim.number != number);
}

/// Marks the pairs of these claims as out, where they are listed. `O(c log n)` for `c` claims and `n` pairs.
pub fn take_out_all(board: &mut Board, claims: &[Given])
    ensures { board.new ≡ having (taken_out claims.now board.old.rows) board.old }
{
    for claim in claims {
        board.take_out(claim.pair);
    }
}
