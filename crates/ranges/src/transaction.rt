// Whether two PDUs belong to one transaction.
ghost use Rattle.std.specs.Prelude.{◌≡◌};
ghost use Rattle.ranges.specs.Transaction.{same_transaction};

use header::PduHeader;

#[tactic(auto, unfolding(crate::specs::Transaction::same_transaction))]
pub(crate) fn same_transaction(first: PduHeader, second: PduHeader) -> bool
    ensures { result ≡ same_transaction first second }
{
    first.source == second.source && first.sequence == second.sequence
}
