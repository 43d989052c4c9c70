// Answers whose values go into a lent array.
ghost use Rattle.std.specs.Prelude.{◌≡◌, ℕ, List, [], ◌∷◌, ◌++◌, length};
ghost use Rattle.wire.specs.Refusals.{said, payment_values, funding_values};
ghost use Rattle.desk.specs.Layout.{left, showing};

use ledger::answers::Pot;
use wire::answers::{Body, Certified, Order, Refusal};
use wire::kinds::{Funding, Note, Payment};

// An answer as the N values that stand in the array.
pub(crate) trait Listed<const N: usize> {
    ghost values: { Self → List ℕ };

    fn values(self) -> [u64; N]
        ensures { (result ≡ values self) × (length result ≡ N) };
}

// The number of an answer, whose values replace those in the array. A refusal leaves them.
pub(crate) fn show<const N: usize, T: Listed<N>>(
    answer: Result<T, Refusal>,
    values: &mut [u64; N],
) -> u64
    ensures { left result values.new ≡ showing (said T.values answer) values.old }
{
    match answer {
        Ok(shown) => {
            *values = shown.values();
            0
        }
        Err(refusal) => refusal.number(),
    }
}

impl Listed<2> for Pot {
    ghost values = { λ pot. pot.index.0 ∷ pot.amount ∷ [] };

    fn values(self) -> [u64; 2] {
        [self.index.0, self.amount]
    }
}

impl Listed<3> for Funding {
    ghost values = { funding_values };

    fn values(self) -> [u64; 3] {
        [self.index.0, self.account.0, self.amount]
    }
}

impl Listed<6> for Certified {
    ghost values = { λ certified. certified.machines ∷ payment_values certified.payment };

    fn values(self) -> [u64; 6] {
        [
            self.machines,
            self.payment.sender.0,
            self.payment.kind,
            self.payment.recipient,
            self.payment.amount,
            self.payment.sequence.0,
        ]
    }
}

impl Listed<6> for Body {
    ghost values = { λ body. payment_values body.payment ++ (body.note.length ∷ []) };

    fn values(self) -> [u64; 6] {
        with_note(self.payment, self.note)
    }
}

impl Listed<6> for Order {
    ghost values = { λ order. payment_values order.payment ++ (order.note.length ∷ []) };

    fn values(self) -> [u64; 6] {
        with_note(self.payment, self.note)
    }
}

// The note's length stands behind the payment.
fn with_note(payment: Payment, note: Note) -> [u64; 6]
    ensures { result ≡ payment_values payment ++ (note.length ∷ []) }
{
    [
        payment.sender.0,
        payment.kind,
        payment.recipient,
        payment.amount,
        payment.sequence.0,
        note.length as u64,
    ]
}
