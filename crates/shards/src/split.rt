//! A history of any length is read once, and divided into shards.

ghost use Rattle.std.specs.Prelude.{◌≡◌, ◌<◌, ℕ, List, Option, false, IfOk, IfErr, OnOk};
ghost use Rattle.std.specs.Io.KnownBytes.{IsAtEnd};
ghost use Rattle.shards.specs.Dividing.{Files};
ghost use Rattle.shards.specs.Folders.{AddsFiles, AddsShards, WasDivided};
ghost use Rattle.shards.specs.SplitFaults.{IsSplitFailureOf, IsSplitFault};
ghost use Rattle.shards.specs.UnderWay.{AreUnderWay, IsFaultIn};

use crate::divider::Divider;
use crate::division::Division;
use crate::fault::{SplitFault, ends_inside_form, fault_from};
use crate::folder::Folder;
use crate::pieces::Pieces;
use edn::Source;
use std::alloc::Global;

/// How long a piece is that is divided at a time, unless its maps need more.
const PIECE_LENGTH: usize = 262_144;

/// Divides the next piece of what was read, or asks for more if no piece of it can be read.
fn divide_piece(alloc: Global, divider: &mut Divider, pieces: &mut Pieces) -> Result<(), SplitFault>
    ensures divided { OnOk result ((count : ℕ) (text : List ℕ) (written : Files)
        → AreUnderWay count divider.old pieces.old text written
        → AreUnderWay count divider.new pieces.new text written) }
    ensures going { OnOk result (pieces.new.is_ended ≡ pieces.old.is_ended) }
    ensures failed { IfErr result (λ e. IsSplitFailureOf e false false) }
    ensures fault { IfErr result (λ e. (count : ℕ) (text : List ℕ) (written : Files)
        (left : Option (List ℕ)) → AreUnderWay count divider.old pieces.old text written
        → IsFaultIn count text left e) }
{
    let Some(length) = pieces.next_length() else {
        return pieces.ask_for_more();
    };
    match divider.take(alloc, &pieces.text()[..length]) {
        Ok(()) => pieces.pass(alloc, length),
        Err(fault) => {
            if ends_inside_form(fault) {
                pieces.ask_for_more()
            } else {
                Err(fault_from(pieces.start(), fault))
            }
        }
    }
}

/// Divides the last piece, and writes all that waits to the folder.
fn divide_last<D: Folder>(
    alloc: Global,
    divider: &mut Divider,
    pieces: &Pieces,
    folder: &mut D,
) -> Result<Division, SplitFault>
    requires { D.broken folder.old ≡ false }
    ensures divided { IfOk result (λ told. (count : ℕ) (text : List ℕ) (written : Files)
        (files : Option Files) → AreUnderWay count divider.old pieces.now text written
        → AddsFiles files (D.files folder.old) written
        → AddsShards count told text files (D.files folder.new)) }
    ensures usable { OnOk result (D.broken folder.new ≡ false) }
    ensures failed { IfErr result (λ e. IsSplitFailureOf e false (D.broken folder.new)) }
    ensures fault { IfErr result (λ e. (count : ℕ) (text : List ℕ) (written : Files)
        (left : Option (List ℕ)) → AreUnderWay count divider.old pieces.now text written
        → IsAtEnd left → IsFaultIn count text left e) }
{
    match divider.take(alloc, pieces.text()) {
        Ok(()) => {}
        Err(fault) => return Err(fault_from(pieces.start(), fault)),
    }
    let Ok(()) = divider.flush(folder, 0) else {
        return Err(SplitFault::Write);
    };
    Ok(divider.division(alloc)?)
}

/// Divides a history as `split_over` does, by pieces that are mostly a little longer than
/// `piece_length` bytes. The shards do not depend on that; which fault is found may, if there
/// are several. It is public for tests, which take short pieces.
pub fn split_by_pieces<F: Source, D: Folder>(
    alloc: Global,
    history: &mut F,
    folder: &mut D,
    shards: u16,
    piece_length: usize,
) -> Result<Division, SplitFault>
    requires history { F.broken history.old ≡ false }
    requires folder { D.broken folder.old ≡ false }
    requires some { 0 < shards }
    ensures divided { IfOk result (λ told. WasDivided shards told
        (F.remaining history.old) (F.remaining history.new)
        (D.files folder.old) (D.files folder.new)) }
    ensures usable { OnOk result
        ((F.broken history.new ≡ false) × (D.broken folder.new ≡ false)) }
    ensures failed { IfErr result (λ e.
        IsSplitFailureOf e (F.broken history.new) (D.broken folder.new)) }
    ensures malformed { IfErr result (λ e. IsSplitFault shards e
        (F.remaining history.old) (F.remaining history.new)) }
{
    let mut divider = Divider::new(alloc, shards)?;
    let mut pieces = Pieces::new(alloc, piece_length);
    for _ in 0..u64::MAX {
        pieces.read(alloc, history)?;
        if pieces.is_ended() {
            return divide_last(alloc, &mut divider, &pieces, folder);
        }
        divide_piece(alloc, &mut divider, &mut pieces)?;
        let Ok(()) = divider.flush(folder, piece_length / 4) else {
            return Err(SplitFault::Write);
        };
    }
    // Unreachable in practice, after 2^64 pieces. A `loop` would need a measure.
    Err(SplitFault::NoMemory)
}

/// Divides a history of any length among this many shards: object x is in shard
/// (x / 65536 + x % 65536) mod `shards`, and has the name x % 65536 there. The source is read once,
/// to its end. Writes each map of a client to the folder, spelled with its object's name in the
/// shard, and its number in the full history. (Tests, not a clause, show that the bytes are
/// otherwise unchanged, without the separators and comments before them.) Returns the number of
/// maps of each shard, and the objects with more maps than a text may have. After a fault the
/// folder has some of the maps.
///
/// The memory depends on the shards, on the processes and objects that are named, and on the
/// longest piece of the text without a line feed between two maps. A piece of more than 268,435,456
/// bytes is too long.
pub fn split_over<F: Source, D: Folder>(
    alloc: Global,
    history: &mut F,
    folder: &mut D,
    shards: u16,
) -> Result<Division, SplitFault>
    requires history { F.broken history.old ≡ false }
    requires folder { D.broken folder.old ≡ false }
    requires some { 0 < shards }
    ensures divided { IfOk result (λ told. WasDivided shards told
        (F.remaining history.old) (F.remaining history.new)
        (D.files folder.old) (D.files folder.new)) }
    ensures usable { OnOk result
        ((F.broken history.new ≡ false) × (D.broken folder.new ≡ false)) }
    ensures failed { IfErr result (λ e.
        IsSplitFailureOf e (F.broken history.new) (D.broken folder.new)) }
    // The fault of a map is the first of the maps that were read, the last of which is in the piece
    // of the text that has it.
    ensures malformed { IfErr result (λ e. IsSplitFault shards e
        (F.remaining history.old) (F.remaining history.new)) }
{
    split_by_pieces(alloc, history, folder, shards, PIECE_LENGTH)
}
