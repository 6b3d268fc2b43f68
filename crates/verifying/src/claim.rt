//! What is claimed of an object.

ghost use Rattle.std.specs.Prelude.{◌≡◌};

use certificate::Certificate;
use refutation::Reason;

/// What is claimed of an object. It need not be true.
#[derive(Drop)]
pub enum Claim {
    /// This order is valid.
    Order(Certificate),
    /// No order is valid, for this reason. The sentence is not checked; it is printable ASCII that
    /// cannot be mistaken for a proved line (`is_sentence`). A reason without cuts that is a search
    /// asks for a search of the full object, which may also find a valid order.
    Reason {
        reason: Reason,
        note: Option<Vec<u8>>,
    },
}

impl Claim {
    ghost use Rattle.verifying.specs.Denotes.{claim_object};

    /// The number of the object.
    pub fn object(&self) -> u32
        ensures { result ≡ claim_object self.now }
    {
        match self {
            Claim::Order(certificate) => certificate.object,
            Claim::Reason { reason, .. } => reason.object,
        }
    }
}
