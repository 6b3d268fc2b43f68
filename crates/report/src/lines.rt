//! The lines of a verdict, each as its segments.

ghost use Rattle.std.specs.Prelude.{◌≡◌, ◌++◌, codes, decimal};
ghost use Rattle.std.specs.Fmt.{signed_decimal};
ghost use Rattle.report.specs.Lines as text;
ghost use Rattle.report.specs.Segments.{segments_text};

use crate::segments::Segment;
use crate::verdict::{KindCount, Summary};
use checker::{OrderFault, Refusal};
use reading::Fault;
use seq_objects::{AnyReply, kind_name};

/// The segments of a line. After the one that has the line feed are empty ones.
pub(crate) type Line = [Segment; 9];

const EMPTY: Segment = Segment::Text(b"");

pub(crate) fn no_memory_line() -> Line
    ensures { segments_text result ≡ text.no_memory_line }
{
    let words = Segment::Text(b"out of memory\n");
    [
        words, EMPTY, EMPTY, EMPTY, EMPTY, EMPTY, EMPTY, EMPTY, EMPTY,
    ]
}

pub(crate) fn kind_line(count: &KindCount) -> Line
    ensures { segments_text result ≡ text.kind_line count.now }
{
    [
        Segment::Text(kind_name(count.kind).as_bytes()),
        Segment::Text(b": "),
        Segment::Natural(count.objects),
        Segment::Text(b" objects, "),
        Segment::Natural(count.operations),
        Segment::Text(b" operations\n"),
        EMPTY,
        EMPTY,
        EMPTY,
    ]
}

pub(crate) fn total_line(summary: &Summary) -> Line
    ensures { segments_text result ≡ text.total_line summary.now }
{
    [
        Segment::Text(b"yes: "),
        Segment::Natural(summary.operations),
        Segment::Text(b" operations, "),
        Segment::Natural(summary.objects),
        Segment::Text(b" objects\n"),
        EMPTY,
        EMPTY,
        EMPTY,
        EMPTY,
    ]
}

/// A line of an object's number, an integer and a text.
fn entry_line(code: &'static [u8], object: u32, op: i64, fault: &'static [u8]) -> Line
    ensures { segments_text result ≡ code.now ++
        (decimal object ++ (codes ": " ++ (signed_decimal op ++ fault.now))) }
{
    [
        Segment::Text(code),
        Segment::Natural(object as usize),
        Segment::Text(b": "),
        Segment::Integer(op),
        Segment::Text(fault),
        EMPTY,
        EMPTY,
        EMPTY,
        EMPTY,
    ]
}

fn wrong_reply_line(object: u32, op: i64, gives: &AnyReply) -> Line
    ensures { segments_text result ≡ text.order_line object (OrderFault.WrongReply op gives.now) }
{
    let code = b"no: C6 object ";
    let (number, colon, entry) = (
        Segment::Natural(object as usize),
        Segment::Text(b": "),
        Segment::Integer(op),
    );
    match *gives {
        AnyReply::Value(None) => entry_line(code, object, op, b" gives nil\n"),
        AnyReply::NotSwapped | AnyReply::Flag(false) => {
            entry_line(code, object, op, b" gives false\n")
        }
        AnyReply::Flag(true) => entry_line(code, object, op, b" gives true\n"),
        AnyReply::Value(Some(n)) => [
            Segment::Text(code),
            number,
            colon,
            entry,
            Segment::Text(b" gives "),
            Segment::Integer(n),
            Segment::Text(b"\n"),
            EMPTY,
            EMPTY,
        ],
        AnyReply::Swapped(a, b) => [
            Segment::Text(code),
            number,
            colon,
            entry,
            Segment::Text(b" gives ["),
            Segment::Integer(a),
            Segment::Text(b" "),
            Segment::Integer(b),
            Segment::Text(b"]\n"),
        ],
    }
}

fn too_late_line(object: u32, op: i64, by: u32) -> Line
    ensures { segments_text result ≡ text.order_line object (OrderFault.TooLate op by) }
{
    [
        Segment::Text(b"no: C5 object "),
        Segment::Natural(object as usize),
        Segment::Text(b": "),
        Segment::Integer(op),
        Segment::Text(b" returned before "),
        Segment::Natural(by as usize),
        Segment::Text(b" was invoked\n"),
        EMPTY,
        EMPTY,
    ]
}

/// A line of two numbers, each after a text, and of a text after both.
fn numbers_line(
    before: &'static [u8],
    first: usize,
    between: &'static [u8],
    second: usize,
    after: &'static [u8],
) -> Line
    ensures { segments_text result ≡ before.now
        ++ (decimal first ++ (between.now ++ (decimal second ++ after.now))) }
{
    [
        Segment::Text(before),
        Segment::Natural(first),
        Segment::Text(between),
        Segment::Natural(second),
        Segment::Text(after),
        EMPTY,
        EMPTY,
        EMPTY,
        EMPTY,
    ]
}

fn order_line(object: u32, fault: &OrderFault) -> Line
    ensures { segments_text result ≡ text.order_line object fault.now }
{
    match *fault {
        OrderFault::UnknownOperation { op } => {
            entry_line(b"no: C3 object ", object, op, b" is no operation\n")
        }
        OrderFault::Repeated { op } => {
            entry_line(b"no: C4 object ", object, op, b" stands twice\n")
        }
        OrderFault::TooLate { op, by } => too_late_line(object, op, by),
        OrderFault::NotPossible { op } => {
            entry_line(b"no: C9 object ", object, op, b" is not possible\n")
        }
        OrderFault::WrongReply { op, gives } => wrong_reply_line(object, op, &gives),
        OrderFault::Omitted { op } => numbers_line(
            b"no: C7 object ",
            object as usize,
            b": ",
            op as usize,
            b" is left out\n",
        ),
    }
}

/// A line of a number between two texts.
fn number_line(before: &'static [u8], n: usize, after: &'static [u8]) -> Line
    ensures { segments_text result ≡ before.now ++ (decimal n ++ after.now) }
{
    [
        Segment::Text(before),
        Segment::Natural(n),
        Segment::Text(after),
        EMPTY,
        EMPTY,
        EMPTY,
        EMPTY,
        EMPTY,
        EMPTY,
    ]
}

pub(crate) fn refusal_line(refusal: &Refusal) -> Line
    ensures { segments_text result ≡ text.refusal_line refusal.now }
{
    match *refusal {
        Refusal::NoCertificate { object } => number_line(
            b"no: C1 object ",
            object as usize,
            b" has no certificate\n",
        ),
        Refusal::StrangeObject { object } => number_line(
            b"no: C2 object ",
            object as usize,
            b" is not in the history\n",
        ),
        Refusal::BadOrder { object, fault } => order_line(object, &fault),
        Refusal::NoMemory => no_memory_line(),
    }
}

pub(crate) fn fault_line(fault: &Fault) -> Line
    ensures { segments_text result ≡ text.fault_line fault.now }
{
    match *fault {
        Fault::HistoryText(e) => numbers_line(
            b"malformed history: E",
            usize::from(e.kind.number()),
            b" at byte ",
            e.place,
            b"\n",
        ),
        Fault::HistoryMaps(h) => numbers_line(
            b"malformed history: H",
            usize::from(h.kind.number()),
            b" at map ",
            h.map,
            b"\n",
        ),
        Fault::CertificateText(e) => numbers_line(
            b"malformed certificates: E",
            usize::from(e.kind.number()),
            b" at byte ",
            e.place,
            b"\n",
        ),
        Fault::CertificateForms(k) => numbers_line(
            b"malformed certificates: K",
            usize::from(k.kind.number()),
            b" at form ",
            k.form,
            b"\n",
        ),
    }
}
