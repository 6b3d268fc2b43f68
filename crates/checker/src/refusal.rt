//! Why certificates are refused.

use seq_objects::AnyReply;

/// What is wrong with an order of an object's operations.
#[derive(Clone, Copy, Debug, PartialEq, Eq)]
pub enum OrderFault {
    /// C3: the entry is the number of no operation of the object, or of one that failed.
    UnknownOperation { op: i64 },
    /// C4: the entry stood earlier in the order.
    Repeated { op: i64 },
    /// C5: the operation returned before the greatest invocation among the earlier entries.
    TooLate { op: i64, by: u32 },
    /// C9: the operation is not possible in its place.
    NotPossible { op: i64 },
    /// C6: in this place the operation gives this reply, and it returned another one.
    WrongReply { op: i64, gives: AnyReply },
    /// C7: the operation returned and is not in the order.
    Omitted { op: u32 },
}

/// Why certificates are refused.
#[derive(Clone, Copy, Debug, PartialEq, Eq)]
pub enum Refusal {
    /// C1: the object has no certificate.
    NoCertificate { object: u32 },
    /// C2: the object has a certificate and is not in the history.
    StrangeObject { object: u32 },
    /// The object's order has this fault.
    BadOrder { object: u32, fault: OrderFault },
    /// C8: an allocation failed.
    NoMemory,
}
